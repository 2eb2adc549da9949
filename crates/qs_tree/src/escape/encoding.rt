//! Percent-encoding.

ghost use Rattle.std.specs.Prelude.{◌≡◌, ◌+◌, ◌<◌, ◌≤◌, ◌++◌, length, OnOk, OnErr, min, take, drop};
ghost use Rattle.qs_spec.specs.Escape.{encoded, decoded, escape, encoded_byte};
ghost use Rattle.qs_tree.specs.Error.{OnlyOutOfMemory};

use crate::error::Result;
use crate::escape::copying::{copy_run, put};
use crate::escape::search::{Class, Escaped, LANES, count, find_encoded};
use percent_encoding::percent_encode_byte;

/// Percent-encodes bytes, and appends them to `out`.
///
/// Form encoding (`is_form`) escapes the application/x-www-form-urlencoded percent-encode set of the [URL Standard], section 1.3. Query
/// encoding escapes the query percent-encode set of that section without the space, and `%`, `+`, `[`, `]`, `=` and `&`; it writes a
/// space as `+`. An escape is `%` and two upper case hexadecimal digits, as in RFC 3986, section 2.1. [`decode`](crate::decode)
/// reverses both encodings.
///
/// If there are 32 bytes or more, those before the first one that changes ([`find_encoded`](crate::find_encoded) finds it) are copied
/// at once, in multiples of 32.
///
/// Reserves capacity in `out` first. The only error is [`OutOfMemory`](crate::Error::OutOfMemory), if that fails; `out` isn't changed
/// then. Takes linear time.
///
/// [URL Standard]: https://url.spec.whatwg.org/#application-x-www-form-urlencoded-percent-encode-set
///
/// ```
/// encode(b"100% a+b", false, &mut out)?; // appends `100%25+a%2Bb`
/// encode(b"100% a+b", true, &mut out)?; // appends `100%25%20a%2Bb`
/// ```
#[tactic(auto, using(crate::proofs::lemmas::escape::EncodedFronts::encoded_few, crate::proofs::lemmas::escape::EncodedFronts::comes_back, crate::proofs::lemmas::escape::EncodedFronts::from_first, crate::proofs::lemmas::escape::EncodedFronts::none_encoded))]
pub fn encode(bytes: &[u8], is_form: bool, out: &mut Vec<u8>) -> Result<()>
    ensures ok { OnOk result (out.new.items ≡ out.old.items ++ encoded is_form bytes.now) }
    ensures err { OnErr result (out.new.items ≡ out.old.items) }
    ensures errors { OnlyOutOfMemory result }
    ensures back { decoded (encoded is_form bytes.now) ≡ bytes.now }
{
    if bytes.len() < LANES {
        let mut room = [0; 3 * LANES];
        let len = encode_to(bytes, is_form, &mut room, 0);
        return Ok(out.extend_from_slice(&room[..len])?);
    }
    match find_encoded(bytes, is_form) {
        Some(at) => append_from(bytes, is_form, at - at % LANES, out),
        None => Ok(out.extend_from_slice(bytes)?),
    }
}

// Encodes bytes of which the first `at` aren't changed, and appends them to `out`.
fn append_from(bytes: &[u8], is_form: bool, at: usize, out: &mut Vec<u8>) -> Result<()>
    requires within { at ≤ length bytes.now }
    requires unchanged { encoded is_form bytes.now ≡ take at bytes.now ++ encoded is_form (drop at bytes.now) }
    ensures ok { OnOk result (out.new.items ≡ out.old.items ++ encoded is_form bytes.now) }
    ensures err { OnErr result (out.new.items ≡ out.old.items) }
    ensures errors { OnlyOutOfMemory result }
{
    let (unchanged, rest) = bytes.split_at(at);
    let begin = out.len();
    let len = at.saturating_add(encoded_len(rest, is_form));
    out.resize(begin.saturating_add(len), 0)?;
    put(unchanged, out, begin);
    encode_to(rest, is_form, out, begin + at);
    Ok(())
}

/// Percent-encodes bytes into `room` from `begin` on, as [`encode`] does, and returns the index after the last encoded byte. Each byte
/// is encoded as at most three.
///
/// The contents of `room` after the end aren't specified. Doesn't allocate. Takes linear time.
///
/// ```
/// let end = encode_to(b"a b", false, &mut room, 0); // `room` begins with `a+b`, and `end` is 3
/// ```
pub fn encode_to(bytes: &[u8], is_form: bool, room: &mut [u8], begin: usize) -> usize
    requires { begin + length (encoded is_form bytes.now) ≤ length room.old }
    ensures text { take result room.new ≡ take begin room.old ++ encoded is_form bytes.now }
    ensures end { result ≡ begin + length (encoded is_form bytes.now) }
{
    let mut rest = bytes;
    let mut at = begin;
    while rest.len() >= LANES {
        let (read, written) = put_front(rest, is_form, room, at);
        rest = &rest[read..];
        at += written;
    }
    put_each(rest, is_form, room, at)
}

// Encodes bytes to `room` from `begin` on, one by one, and returns the index after the last encoded byte.
#[inline(always)]
fn put_each(bytes: &[u8], is_form: bool, room: &mut [u8], begin: usize) -> usize
    requires { begin + length (encoded is_form bytes.now) ≤ length room.old }
    ensures text { take result room.new ≡ take begin room.old ++ encoded is_form bytes.now }
    ensures end { result ≡ begin + length (encoded is_form bytes.now) }
{
    let mut rest = bytes;
    let mut at = begin;
    while let [byte, tail @ ..] = rest {
        at += put_byte(*byte, is_form, room, at);
        rest = tail;
    }
    at
}

// Encodes one byte to `room` from `at` on, and returns how many bytes it wrote.
#[inline(always)]
fn put_byte(byte: u8, is_form: bool, room: &mut [u8], at: usize) -> usize
    requires { at + length (encoded_byte is_form byte) ≤ length room.old }
    ensures len { result ≡ length (encoded_byte is_form byte) }
    ensures text { take (at + result) room.new ≡ take at room.old ++ encoded_byte is_form byte }
{
    let escaped = Escaped { is_form };
    if escaped.has(byte) {
        put_escape(byte, room, at);
        return 3;
    }
    room[at] = escaped.swapped(byte);
    1
}

// Writes the escape of a byte to `room` from `at` on, byte by byte: a copy would first test whether the two overlap.
#[inline(always)]
#[tactic(auto, using(crate::proofs::lemmas::escape::EncodedFronts::escape_is))]
fn put_escape(byte: u8, room: &mut [u8], at: usize)
    requires { at + 3 ≤ length room.old }
    ensures { take (at + 3) room.new ≡ take at room.old ++ escape byte }
{
    let text = percent_encode_byte(byte).as_bytes();
    let (percent, high, low) = (text[0], text[1], text[2]);
    room[at] = percent;
    room[at + 1] = high;
    room[at + 2] = low;
}

// Returns the length of the encoded bytes, or `usize::MAX` if it is greater.
#[tactic(auto, using(crate::proofs::lemmas::escape::EncodedFronts::length_encoded))]
fn encoded_len(bytes: &[u8], is_form: bool) -> usize
    ensures { result ≡ min (length (encoded is_form bytes.now)) usize.MAX }
{
    let escapes = count(Escaped { is_form }, bytes);
    bytes.len().saturating_add(escapes.saturating_mul(2))
}

// Encodes some of the first bytes to `room` from `at` on. Returns how many it read, and how many it wrote.
#[inline(always)]
fn put_front(bytes: &[u8], is_form: bool, room: &mut [u8], at: usize) -> (usize, usize)
    requires some { 0 < length bytes.now }
    requires room { at + length (encoded is_form bytes.now) ≤ length room.old }
    ensures some { 0 < result.0 }
    ensures within { result.0 ≤ length bytes.now }
    ensures room { result.1 + length (encoded is_form (drop result.0 bytes.now)) ≡ length (encoded is_form bytes.now) }
    ensures text { take (at + result.1) room.new ++ encoded is_form (drop result.0 bytes.now)
        ≡ take at room.old ++ encoded is_form bytes.now }
{
    let escaped = Escaped { is_form };
    if escaped.has(bytes[0]) {
        put_escape(bytes[0], room, at);
        return (1, 3);
    }
    let len = copy_run(escaped, bytes, b' ', b'+', room, at);
    (len, len)
}
