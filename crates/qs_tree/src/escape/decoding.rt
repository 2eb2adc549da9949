//! Percent-decoding.

ghost use Rattle.std.specs.Prelude.{◌≡◌, ◌+◌, ◌<◌, ◌≤◌, ◌++◌, false, length, IfOk, IsOk, IsTrue, SomeIff, take, drop};
ghost use Rattle.std.specs.Char.{digit_value};
ghost use Rattle.std.specs.Cow.{cow_slice_items};
ghost use Rattle.qs_spec.specs.Escape.{decoded, has_escape};
ghost use Rattle.qs_tree.specs.Error.{OnlyOutOfMemory};
ghost use Rattle.qs_tree.specs.escape.Copies.{is_owned};

use crate::error::Result;
use crate::escape::copying::{copy_run, put};
use crate::escape::search::{Byte, find_escape};
use std::alloc::{AllocError, Global};
use std::borrow::CowSlice;

/// Percent-decodes bytes: `+` is a space, and `%` with two hexadecimal digits of either case is one byte, as in the [URL Standard],
/// sections 5.1 and 1.3.
///
/// An invalid escape isn't changed. It is `%` and the next byte if that isn't a digit, or `%` and the next two bytes if only the
/// second isn't a digit. None of these bytes begins another escape: `%%41` is decoded to `%%41`, unlike in the standard, which decodes
/// it to `%A`.
///
/// Borrows bytes without `+` and `%`, and doesn't allocate for them. Copies others into one allocation; the only error is
/// [`OutOfMemory`](crate::Error::OutOfMemory), if that fails. Takes linear time.
///
/// [URL Standard]: https://url.spec.whatwg.org/
///
/// ```
/// decode(alloc, b"a%5Bb%5D=1")?; // `a[b]=1`
/// ```
pub fn decode(alloc: Global, bytes: &[u8]) -> Result<CowSlice<'_, u8>>
    ensures value { IfOk result (λ text. cow_slice_items text ≡ decoded bytes.now) }
    ensures owned { IfOk result (λ text. is_owned text ≡ has_escape bytes.now) }
    ensures no_allocation { has_escape bytes.now ≡ false → IsOk result }
    ensures errors { OnlyOutOfMemory result }
{
    Ok(unescape(alloc, bytes)?)
}

/// Percent-decodes bytes as [`decode`] does.
#[tactic(auto, using(crate::proofs::lemmas::escape::DecodedFronts::decoded_without_escape))]
pub(crate) fn unescape(alloc: Global, bytes: &[u8]) -> Result<CowSlice<'_, u8>, AllocError>
    ensures value { IfOk result (λ text. cow_slice_items text ≡ decoded bytes.now) }
    ensures owned { IfOk result (λ text. is_owned text ≡ has_escape bytes.now) }
    ensures no_allocation { has_escape bytes.now ≡ false → IsOk result }
{
    match find_escape(bytes) {
        Some(front) => Ok(CowSlice::Owned(unescaped(alloc, bytes, front)?)),
        None => Ok(CowSlice::Borrowed(bytes)),
    }
}

/// Percent-decodes bytes as [`decode`] does. Doesn't look for `+` and `%` if it is known that there are none (`has_no_escape`).
#[inline(always)]
#[tactic(auto, using(crate::proofs::lemmas::escape::DecodedFronts::decoded_without_escape))]
pub(crate) fn unescape_unless(
    has_no_escape: bool,
    alloc: Global,
    bytes: &[u8],
) -> Result<CowSlice<'_, u8>, AllocError>
    requires { IsTrue has_no_escape → has_escape bytes.now ≡ false }
    ensures value { IfOk result (λ text. cow_slice_items text ≡ decoded bytes.now) }
    ensures owned { IfOk result (λ text. is_owned text ≡ has_escape bytes.now) }
    ensures no_allocation { has_escape bytes.now ≡ false → IsOk result }
{
    if has_no_escape {
        return Ok(CowSlice::Borrowed(bytes));
    }
    unescape(alloc, bytes)
}

// Percent-decodes bytes into a vector. The first `front` bytes have no `+` and `%`.
#[inline(never)]
fn unescaped(alloc: Global, bytes: &[u8], front: usize) -> Result<Vec<u8>, AllocError>
    requires within { front ≤ length bytes.now }
    requires same { decoded bytes.now ≡ take front bytes.now ++ decoded (drop front bytes.now) }
    ensures { IfOk result (λ text. text.items ≡ decoded bytes.now) }
{
    let mut text = Vec::with_capacity(alloc, bytes.len())?;
    text.resize(bytes.len(), 0)?;
    let len = fill(bytes, front, &mut text);
    text.truncate(len);
    Ok(text)
}

// Writes the decoded bytes to the front of `room`, and returns their number.
#[inline(always)]
fn fill(bytes: &[u8], front: usize, room: &mut [u8]) -> usize
    requires within { front ≤ length bytes.now }
    requires same { decoded bytes.now ≡ take front bytes.now ++ decoded (drop front bytes.now) }
    requires room { length bytes.now ≤ length room.old }
    ensures { take result room.new ≡ decoded bytes.now }
{
    let _ = put_raw(bytes, front, room, 0);
    fill_after(&bytes[front..], room, front)
}

// Writes the decoded bytes to `room` from `begin` on, and returns the index after the last one.
#[inline(always)]
fn fill_after(bytes: &[u8], room: &mut [u8], begin: usize) -> usize
    requires { begin + length bytes.now ≤ length room.old }
    ensures { take result room.new ≡ take begin room.old ++ decoded bytes.now }
{
    let mut rest = bytes;
    let mut at = begin;
    while !rest.is_empty() {
        let (read, written) = put_front(rest, room, at);
        rest = &rest[read..];
        at += written;
    }
    at
}

// Decodes some of the first bytes to `room` from `at` on. Returns how many it read, and how many it wrote.
#[inline(always)]
fn put_front(bytes: &[u8], room: &mut [u8], at: usize) -> (usize, usize)
    requires some { 0 < length bytes.now }
    requires room { at + length bytes.now ≤ length room.old }
    ensures some { 0 < result.0 }
    ensures within { result.0 ≤ length bytes.now }
    ensures room { result.1 ≤ result.0 }
    ensures text { take (at + result.1) room.new ++ decoded (drop result.0 bytes.now)
        ≡ take at room.old ++ decoded bytes.now }
{
    match bytes {
        [b'%', high, low, ..] => match (hex_digit(*high), hex_digit(*low)) {
            (Some(high), Some(low)) => {
                room[at] = high * 16 + low;
                (3, 1)
            }
            (Some(_), None) => put_raw(bytes, 3, room, at),
            (None, _) => put_raw(bytes, 2, room, at),
        },
        [b'%', ..] => put_raw(bytes, bytes.len(), room, at),
        _ => {
            let len = copy_run(Byte(b'%'), bytes, b'+', b' ', room, at);
            (len, len)
        }
    }
}

// Copies the first `len` bytes unchanged. Returns `len` twice.
fn put_raw(bytes: &[u8], len: usize, room: &mut [u8], at: usize) -> (usize, usize)
    requires within { len ≤ length bytes.now }
    requires room { at + len ≤ length room.old }
    ensures len { (result.0 ≡ len) × (result.1 ≡ len) }
    ensures text { take (at + len) room.new ≡ take at room.old ++ take len bytes.now }
{
    put(&bytes[..len], room, at);
    (len, len)
}

// Returns the value of a hexadecimal digit of either case, or `None`.
fn hex_digit(byte: u8) -> Option<u8>
    ensures { SomeIff result (digit_value byte < 16) (digit_value byte) }
{
    match byte {
        b'0'..=b'9' => Some(byte - b'0'),
        b'A'..=b'F' => Some(byte - b'A' + 10),
        b'a'..=b'f' => Some(byte - b'a' + 10),
        _ => None,
    }
}
