//! The bytes that percent-encoding changes.

ghost use Rattle.std.specs.Prelude.{◌≡◌, ◌+◌, ◌≤◌, length, true, false};
ghost use Rattle.qs_tree.specs.internal.escape.Copying.{swapped};
ghost use Rattle.qs_tree.specs.internal.escape.Search.{class_mask, is_escaped};
ghost use Rattle.qs_tree.specs.escape.Classes.{is_encoded};

use super::class::{Class, LANES};
use super::escapes::Byte;
use std::simd::prelude::*;

// What form encoding writes for each byte: `%` if the byte is escaped. The escaped bytes are the application/x-www-form-urlencoded
// percent-encode set of the URL Standard, section 1.3.
static FORM: [u8; 256] = *b"\
    %%%%%%%%%%%%%%%%%%%%%%%%%%%%%%%%\
    %%%%%%%%%%*%%-.%0123456789%%%%%%\
    %ABCDEFGHIJKLMNOPQRSTUVWXYZ%%%%_\
    %abcdefghijklmnopqrstuvwxyz%%%%%\
    %%%%%%%%%%%%%%%%%%%%%%%%%%%%%%%%\
    %%%%%%%%%%%%%%%%%%%%%%%%%%%%%%%%\
    %%%%%%%%%%%%%%%%%%%%%%%%%%%%%%%%\
    %%%%%%%%%%%%%%%%%%%%%%%%%%%%%%%%";

// The same for query encoding: the query percent-encode set of that section without the space, and the delimiters of a querystring.
static QUERY: [u8; 256] = *b"\
    %%%%%%%%%%%%%%%%%%%%%%%%%%%%%%%%\
    +!%%$%%'()*%,-./0123456789:;%%%?\
    @ABCDEFGHIJKLMNOPQRSTUVWXYZ%\\%^_\
    `abcdefghijklmnopqrstuvwxyz{|}~%\
    %%%%%%%%%%%%%%%%%%%%%%%%%%%%%%%%\
    %%%%%%%%%%%%%%%%%%%%%%%%%%%%%%%%\
    %%%%%%%%%%%%%%%%%%%%%%%%%%%%%%%%\
    %%%%%%%%%%%%%%%%%%%%%%%%%%%%%%%%";

/// The bytes that form encoding (`is_form`) or query encoding escapes.
#[derive(Clone, Copy)]
pub(crate) struct Escaped {
    pub(crate) is_form: bool,
}

impl Escaped {
    /// Returns what is written for a byte that isn't escaped.
    #[inline(always)]
    #[tactic(auto, using(crate::proofs::lemmas::escape::Tables::form_plain, crate::proofs::lemmas::escape::Tables::query_plain))]
    pub(crate) fn swapped(self, byte: u8) -> u8
        requires { is_escaped self.is_form byte ≡ false }
        ensures { result ≡ swapped 32 43 byte }
    {
        if self.is_form {
            FORM[byte as usize]
        } else {
            QUERY[byte as usize]
        }
    }
}

impl Class for Escaped {
    ghost contains = { λ s b. is_escaped s.is_form b };

    #[inline(always)]
    fn mask(self, bytes: &[u8], at: usize) -> u64 {
        if self.is_form {
            form_mask(bytes, at)
        } else {
            query_mask(bytes, at)
        }
    }

    #[inline(always)]
    #[tactic(auto, using(crate::proofs::lemmas::escape::Tables::form_table, crate::proofs::lemmas::escape::Tables::query_table))]
    fn has(self, byte: u8) -> bool {
        if self.is_form {
            FORM[byte as usize] == b'%'
        } else {
            QUERY[byte as usize] == b'%'
        }
    }
}

/// The bytes that form encoding (`is_form`) or query encoding changes: the bytes that it escapes, and the space.
#[derive(Clone, Copy)]
pub(super) struct Encoded {
    pub(super) is_form: bool,
}

impl Class for Encoded {
    ghost contains = { λ s b. is_encoded s.is_form b };

    #[inline(always)]
    fn mask(self, bytes: &[u8], at: usize) -> u64 {
        if self.is_form {
            form_mask(bytes, at)
        } else {
            Byte(b' ').mask(bytes, at) + query_mask(bytes, at)
        }
    }

    fn has(self, byte: u8) -> bool {
        let escaped = Escaped {
            is_form: self.is_form,
        };
        byte == b' ' || escaped.has(byte)
    }
}

// Returns the mask of the bytes that form encoding escapes, of the 32 from `at` on.
#[inline(never)]
fn form_mask(bytes: &[u8], at: usize) -> u64
    requires { at + LANES ≤ length bytes.now }
    ensures { result ≡ class_mask (is_escaped true) bytes.now at LANES }
{
    let lanes = u8x32::from_slice(&bytes[at..]);
    let no_letter = ((lanes | u8x32::splat(0x20)) - u8x32::splat(b'a')).simd_ge(u8x32::splat(26));
    let no_digit = (lanes - u8x32::splat(b'0')).simd_ge(u8x32::splat(10));
    let no_dash = lanes.simd_ne(u8x32::splat(b'-')) & lanes.simd_ne(u8x32::splat(b'.'));
    let no_other = lanes.simd_ne(u8x32::splat(b'*')) & lanes.simd_ne(u8x32::splat(b'_'));
    (no_letter & no_digit & no_dash & no_other).to_bitmask()
}

// Returns the mask of the bytes that query encoding escapes, of the 32 from `at` on.
#[inline(never)]
fn query_mask(bytes: &[u8], at: usize) -> u64
    requires { at + LANES ≤ length bytes.now }
    ensures { result ≡ class_mask (is_escaped false) bytes.now at LANES }
{
    let lanes = u8x32::from_slice(&bytes[at..]);
    let ends = lanes.simd_lt(u8x32::splat(b' ')) | lanes.simd_gt(u8x32::splat(b'~'));
    let quote_or_hash = (lanes - u8x32::splat(b'"')).simd_lt(u8x32::splat(2));
    let percent_or_ampersand = (lanes - u8x32::splat(b'%')).simd_lt(u8x32::splat(2));
    let angle_or_equals = (lanes - u8x32::splat(b'<')).simd_lt(u8x32::splat(3));
    let bracket = lanes.simd_eq(u8x32::splat(b'[')) | lanes.simd_eq(u8x32::splat(b']'));
    let plus = lanes.simd_eq(u8x32::splat(b'+'));
    let found = ends | quote_or_hash | percent_or_ampersand | angle_or_equals | bracket | plus;
    found.to_bitmask()
}
