//! Escapes.

use crate::text::hand_out;
use qs_tree::{decode, encode};
use std::alloc::Global;

/// Decodes the bytes. Returns whether no allocation failed. If so, `len` is the text's length, and the text is at the front
/// of `out`, if it fits there; else nothing is changed.
#[unsafe(no_mangle)]
pub extern "C" fn qs_bench_decode(
    alloc: Global,
    bytes: &[u8],
    out: &mut [u8],
    len: &mut usize,
) -> bool {
    let Ok(text) = decode(alloc, bytes) else {
        return false;
    };
    hand_out(text.as_slice(), out, len);
    true
}

/// Encodes the bytes for form mode (`form`) or query mode. Returns the same as decoding.
#[unsafe(no_mangle)]
pub extern "C" fn qs_bench_encode(
    alloc: Global,
    form: bool,
    bytes: &[u8],
    out: &mut [u8],
    len: &mut usize,
) -> bool {
    let mut text = Vec::new(alloc);
    let Ok(()) = encode(bytes, form, &mut text) else {
        return false;
    };
    hand_out(&text, out, len);
    true
}
