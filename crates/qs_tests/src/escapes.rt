//! Escaping bytes, and decoding escaped bytes.
ghost use Rattle.std.specs.Prelude.{◌<◌, IfSome};

use crate::claims::{holds, is_equal, made};
use qs_tree::{decode, encode, encode_to};
use std::alloc::{AllocError, Global};
use std::borrow::CowSlice;
use std::process::Abort;

/// Bytes, and what they are escaped to in query mode and in form mode.
const ESCAPED: [(&str, &str, &str); 6] = [
    ("100% a+b", "100%25+a%2Bb", "100%25%20a%2Bb"),
    ("é", "%C3%A9", "%C3%A9"),
    ("hello, world!", "hello,+world!", "hello%2C%20world%21"),
    ("a-b.c_d*Z9", "a-b.c_d*Z9", "a-b.c_d*Z9"),
    ("a[b]=c&d", "a%5Bb%5D%3Dc%26d", "a%5Bb%5D%3Dc%26d"),
    ("~/:\x00\x7F", "~/:%00%7F", "%7E%2F%3A%00%7F"),
];

// Claims that the bytes are escaped to these.
fn is_escaped<R: Abort>(rt: &R, alloc: Global, bytes: &[u8], form: bool, wanted: &[u8]) {
    let mut out = Vec::new(alloc);
    made(rt, encode(bytes, form, &mut out));
    is_equal(rt, out.as_slice(), wanted, bytes);
}

// Claims that the bytes are decoded to these.
fn is_decoded<R: Abort>(rt: &R, alloc: Global, bytes: &[u8], wanted: &[u8]) {
    let found = made(rt, decode(alloc, bytes));
    is_equal(rt, found.as_slice(), wanted, bytes);
}

// Claims that the decoded bytes are borrowed, or that they are owned.
fn is_borrowed<R: Abort>(rt: &R, alloc: Global, bytes: &[u8], wanted: bool) {
    let found = made(rt, decode(alloc, bytes));
    let borrowed = matches!(&found, CowSlice::Borrowed(_));
    is_equal(rt, borrowed, wanted, bytes);
}

#[test]
fn escaped(rt: HostRuntime) {
    for (bytes, query, form) in &ESCAPED {
        is_escaped(&rt, rt.alloc(), bytes.as_bytes(), false, query.as_bytes());
        is_escaped(&rt, rt.alloc(), bytes.as_bytes(), true, form.as_bytes());
    }
}

#[test]
fn escaped_after_what_is_there(rt: HostRuntime) {
    let mut out = made(&rt, Vec::from_slice(rt.alloc(), b"x="));
    made(&rt, encode(b"", false, &mut out));
    made(&rt, encode(b"1 2", false, &mut out));
    is_equal(&rt, out.as_slice(), b"x=1+2", "after an entry");
}

#[test]
fn escaped_into_room(rt: HostRuntime) {
    let mut room = *b"********";
    let end = encode_to(b"1 &", false, &mut room, 1);
    is_equal(&rt, end, 6, "the end");
    is_equal(&rt, room.as_slice(), b"*1+%26**", "the room");
}

// Claims that a text of this many words is escaped, and decoded again.
fn is_escaped_at_length<R: Abort>(rt: &R, alloc: Global, count: usize, form: bool) {
    let words = if form {
        "words%20and%20more%20words%2C%20then%20an%20%26%20"
    } else {
        "words+and+more+words,+then+an+%26+"
    };
    let text = made(rt, "words and more words, then an & ".repeat(alloc, count));
    let wanted = made(rt, words.repeat(alloc, count));
    is_escaped(rt, alloc, text.as_bytes(), form, wanted.as_bytes());
    is_decoded(rt, alloc, wanted.as_bytes(), text.as_bytes());
}

#[test]
fn long_texts_escaped(rt: HostRuntime) {
    for count in 1..31 {
        is_escaped_at_length(&rt, rt.alloc(), count, false);
        is_escaped_at_length(&rt, rt.alloc(), count, true);
    }
}

#[test]
fn long_escapes_are_decoded(rt: HostRuntime) {
    let bytes = made(&rt, "%41b+".repeat(rt.alloc(), 2_000));
    let wanted = made(&rt, "Ab ".repeat(rt.alloc(), 2_000));
    let text = made(&rt, decode(rt.alloc(), bytes.as_bytes()));
    holds(&rt, text.as_slice() == wanted.as_bytes(), "2,000 escapes");
}

/// Bytes that are decoded to themselves.
const PLAIN: [&[u8]; 3] = [b"", b"a[b]=1&c", b"\x00\xFF "];

#[test]
fn plain_bytes_are_borrowed(rt: HostRuntime) {
    for bytes in &PLAIN {
        is_decoded(&rt, rt.alloc(), bytes, bytes);
        is_borrowed(&rt, rt.alloc(), bytes, true);
    }
}

/// Escaped bytes, and what they are decoded to.
const DECODED: [(&str, &str); 16] = [
    ("a%5Bb%5D%5Bc%5D=1", "a[b][c]=1"),
    ("a%5Bb%5D=1", "a[b]=1"),
    ("%%41", "%%41"),
    ("%+", "%+"),
    ("%4%41", "%4%41"),
    ("%4+1", "%4+1"),
    ("%4", "%4"),
    ("%a%", "%a%"),
    ("100%", "100%"),
    ("%g1", "%g1"),
    ("%A+", "%A+"),
    ("a%5bb%5d=1", "a[b]=1"),
    ("%C3%a9", "é"),
    ("%2541", "%41"),
    ("Jane+%2B+John", "Jane + John"),
    ("++", "  "),
];

#[test]
fn read_back(rt: HostRuntime) {
    for (bytes, wanted) in &DECODED {
        is_borrowed(&rt, rt.alloc(), bytes.as_bytes(), false);
        is_decoded(&rt, rt.alloc(), bytes.as_bytes(), wanted.as_bytes());
    }
}

// Returns the value of a hexadecimal digit.
fn hexadecimal_digit(byte: u8) -> Option<u8>
    ensures { IfSome result (λ digit. digit < 16) }
{
    match byte {
        b'0'..=b'9' => Some(byte - b'0'),
        b'A'..=b'F' => Some(byte - b'A' + 10),
        b'a'..=b'f' => Some(byte - b'a' + 10),
        _ => None,
    }
}

/// Returns what `%` and these two bytes are decoded to.
pub fn decoded(alloc: Global, first: u8, second: u8) -> Result<Vec<u8>, AllocError> {
    match (hexadecimal_digit(first), hexadecimal_digit(second)) {
        (Some(high), Some(low)) => Vec::from_slice(alloc, &[high * 16 + low]),
        (Some(_), None) => Vec::from_slice(alloc, &[b'%', first, second]),
        (None, _) if second == b'+' => Vec::from_slice(alloc, &[b'%', first, b' ']),
        (None, _) => Vec::from_slice(alloc, &[b'%', first, second]),
    }
}

#[test]
fn every_two_bytes_after_a_percent_sign(rt: HostRuntime) {
    for first in 0..=u8::MAX {
        for second in 0..=u8::MAX {
            let wanted = made(&rt, decoded(rt.alloc(), first, second));
            is_decoded(&rt, rt.alloc(), &[b'%', first, second], &wanted);
        }
    }
}
