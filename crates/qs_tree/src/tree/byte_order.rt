//! Comparison of byte strings, eight bytes at a time.

ghost use Rattle.std.specs.Prelude.{◌≡◌, ◌≤◌, length, take, drop};
ghost use Rattle.std.specs.Ordering.{nat_cmp, ordering_then};
ghost use Rattle.std.specs.Cmp.Lexicographic.{slice_cmp};
ghost use Rattle.std.specs.Slice.Scan.{big_endian};

use std::cmp::Ordering;

/// How many bytes are compared at once.
const WORD: usize = 8;

/// Compares byte strings lexicographically. Doesn't allocate.
pub(crate) fn compare_bytes(left: &[u8], right: &[u8]) -> Ordering
    ensures { result ≡ slice_cmp nat_cmp left.now right.now }
{
    let mut left = left;
    let mut right = right;
    while left.len() >= WORD && right.len() >= WORD {
        let found = compare_words(left, right);
        if found.is_ne() {
            return found;
        }
        left = &left[WORD..];
        right = &right[WORD..];
    }
    left.cmp(&right)
}

// Compares the first eight bytes.
#[inline(always)]
fn compare_words(left: &[u8], right: &[u8]) -> Ordering
    requires left { 8 ≤ length left.now }
    requires right { 8 ≤ length right.now }
    ensures { slice_cmp nat_cmp left.now right.now ≡ ordering_then result (slice_cmp nat_cmp (drop 8 left.now) (drop 8 right.now)) }
{
    word(left).cmp(&word(right))
}

// Returns the first eight bytes as a big-endian integer.
#[inline(always)]
#[tactic(auto, using(crate::proofs::lemmas::tree::ByteOrder::eight_bytes))]
fn word(bytes: &[u8]) -> u64
    requires { 8 ≤ length bytes.now }
    ensures { result ≡ big_endian 0 (take 8 bytes.now) }
{
    u64::from_be_bytes([
        bytes[0], bytes[1], bytes[2], bytes[3], bytes[4], bytes[5], bytes[6], bytes[7],
    ])
}
