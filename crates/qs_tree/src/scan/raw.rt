//! From raw bytes to keys and leaves.

ghost use Rattle.std.specs.Prelude.{◌≡◌, false, IfOk, IsOk, IsTrue};
ghost use Rattle.qs_spec.specs.Escape.{has_escape};
ghost use Rattle.qs_spec.specs.Segment.{parsed_segment_of};
ghost use Rattle.qs_spec.specs.Leaf.{value_leaf};
ghost use Rattle.qs_tree.specs.tree.Views.{parsed_segment_of_key};
ghost use Rattle.qs_tree.specs.internal.scan.Pairs.{leaf_of};
ghost use Rattle.qs_tree.specs.internal.scan.Raw.{index_from, index_of};

use crate::escape::unescape_unless;
use crate::scan::pair::Leaf;
use crate::tree::key::Key;
use std::alloc::{AllocError, Global};

/// Returns the key of a segment with these raw bytes. It is an integer key if they are digits whose value fits in 32 bits, and a
/// string key with the decoded bytes otherwise.
///
/// Returns an error only if an allocation failed. Borrows a string without `+` and `%`. Doesn't look for them if it is known that
/// there are none (`has_no_escape`).
#[inline(always)]
#[tactic(auto, using(crate::proofs::lemmas::scan::Indexes::string_key))]
pub(crate) fn parse_key(
    alloc: Global,
    raw: &[u8],
    has_no_escape: bool,
) -> Result<Key<'_>, AllocError>
    requires { IsTrue has_no_escape → has_escape raw.now ≡ false }
    ensures key { IfOk result (λ key. parsed_segment_of_key key ≡ parsed_segment_of raw.now) }
{
    match parse_index(raw) {
        Some(index) => Ok(Key::Int(index)),
        None => Ok(Key::String(unescape_unless(has_no_escape, alloc, raw)?)),
    }
}

/// Returns the leaf of a value with these raw bytes.
///
/// Returns an error only if an allocation failed. Borrows a value without `+` and `%`. Doesn't look for them if it is known that
/// there are none (`has_no_escape`).
pub(crate) fn parse_leaf(
    alloc: Global,
    raw: &[u8],
    has_no_escape: bool,
) -> Result<Leaf<'_>, AllocError>
    requires { IsTrue has_no_escape → has_escape raw.now ≡ false }
    ensures leaf { IfOk result (λ leaf. leaf_of leaf ≡ value_leaf raw.now) }
    ensures no_allocation { has_escape raw.now ≡ false → IsOk result }
{
    if raw.is_empty() {
        return Ok(Leaf::Null);
    }
    Ok(Leaf::Text(unescape_unless(has_no_escape, alloc, raw)?))
}

// Returns the value of one or more digits if it fits in 32 bits, or `None`.
fn parse_index(raw: &[u8]) -> Option<u32>
    ensures { result ≡ index_of raw.now }
{
    if raw.is_empty() {
        return None;
    }
    parse_digits(raw)
}

// Returns the value of digits if it fits in 32 bits, or `None`. Without digits the value is 0.
fn parse_digits(raw: &[u8]) -> Option<u32>
    ensures { result ≡ index_from 0 raw.now }
{
    let mut number = 0u32;
    for byte in raw {
        if !byte.is_ascii_digit() {
            return None;
        }
        number = number.checked_mul(10)?.checked_add(u32::from(byte - b'0'))?;
    }
    Some(number)
}
