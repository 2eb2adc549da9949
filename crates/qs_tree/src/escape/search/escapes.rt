//! Classes of one or two bytes.

ghost use Rattle.std.specs.Prelude.{◌==◌};
ghost use Rattle.qs_tree.specs.escape.Classes.{is_escape};

use super::class::Class;
use std::simd::prelude::*;

/// `+` and `%`.
#[derive(Clone, Copy)]
pub(super) struct Escape;

impl Class for Escape {
    ghost contains = { λ _ b. is_escape b };

    #[inline(always)]
    fn mask(self, bytes: &[u8], at: usize) -> u64 {
        let lanes = u8x32::from_slice(&bytes[at..]);
        let escapes = lanes.simd_eq(u8x32::splat(b'+')) | lanes.simd_eq(u8x32::splat(b'%'));
        escapes.to_bitmask()
    }

    fn has(self, byte: u8) -> bool {
        byte == b'+' || byte == b'%'
    }
}

/// One byte.
#[derive(Clone, Copy)]
pub(crate) struct Byte(pub(crate) u8);

impl Class for Byte {
    ghost contains = { λ s b. b == s.0 };

    #[inline(always)]
    fn mask(self, bytes: &[u8], at: usize) -> u64 {
        let lanes = u8x32::from_slice(&bytes[at..]);
        lanes.simd_eq(u8x32::splat(self.0)).to_bitmask()
    }

    fn has(self, byte: u8) -> bool {
        byte == self.0
    }
}
