//! Copying bytes with one byte replaced by another.

ghost use Rattle.std.specs.Prelude.{◌≡◌, ◌+◌, ◌<◌, ◌≤◌, ◌++◌, false, length, slice_index, take, map};
ghost use Rattle.qs_tree.specs.internal.escape.Search.{NoneBetween};
ghost use Rattle.qs_tree.specs.internal.escape.Copying.{swapped};

use crate::escape::search::{Class, LANES, run};
use std::simd::prelude::*;

/// Writes bytes to `room` from `at` on.
#[inline(always)]
pub(crate) fn put(bytes: &[u8], room: &mut [u8], at: usize)
    requires { at + length bytes.now ≤ length room.old }
    ensures { take (at + length bytes.now) room.new ≡ take at room.old ++ bytes.now }
{
    room[at..at + bytes.len()].copy_from_slice(bytes);
}

/// Copies bytes before the first of a class to `room` from `at` on, with `from` replaced by `to`, and returns how many: up to 32 if
/// there are 32 bytes, one otherwise. The contents of `room` after them aren't specified.
#[inline(always)]
pub(crate) fn copy_run<C: Class>(
    class: C,
    bytes: &[u8],
    from: u8,
    to: u8,
    room: &mut [u8],
    at: usize,
) -> usize
    requires some { 0 < length bytes.now }
    requires outside { C.contains class (slice_index bytes.now 0) ≡ false }
    requires room { at + length bytes.now ≤ length room.old }
    ensures some { 0 < result }
    ensures within { result ≤ length bytes.now }
    ensures none { NoneBetween (C.contains class) bytes.now 0 result }
    ensures text { take (at + result) room.new ≡ take at room.old ++ map (swapped from to) (take result bytes.now) }
{
    if bytes.len() < LANES {
        room[at] = if bytes[0] == from { to } else { bytes[0] };
        return 1;
    }
    let lanes = u8x32::from_slice(bytes);
    let swapped = lanes.simd_eq(u8x32::splat(from));
    let written = swapped.select(u8x32::splat(to), lanes);
    written.copy_to_slice(&mut room[at..]);
    run(class, bytes, 0)
}
