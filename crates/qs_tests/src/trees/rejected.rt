//! What is reported for a pair that can't be parsed, and where.

use super::{
    Config, ENDED, ENDED_IN_KEY, Error, Global, MAP_IN_SEQUENCE, MIXED_SEQUENCE, VALUE_AND_MAP,
    form, query, reject, reject_bytes, typed_position,
};
use crate::claims::is_equal;
use qs_tree::parse;
use std::process::Abort;

const THE_END: [(&str, usize, &str); 5] = [
    ("a[", 3, ENDED),
    ("a[b", 4, ENDED_IN_KEY),
    ("a=1&a[", 7, ENDED),
    ("=1&[", 5, ENDED),
    // the conflict with the value at the root comes before what follows the bracket
    ("=1&a[", 5, VALUE_AND_MAP),
];

#[test]
fn the_end(rt: HostRuntime) {
    reject(&rt, rt.alloc(), Config::new(), &THE_END);
    reject_bytes(&rt, rt.alloc(), query(1), b"a[b][", 6, ENDED);
}

#[test]
fn after_a_segment(rt: HostRuntime) {
    let alloc = rt.alloc();
    let text = "unexpected character `c` while parsing nested key: expected `&`, `=` or `[`";
    reject_bytes(&rt, alloc, Config::new(), b"a[b]c=1", 5, text);
    // a byte is shown as the character of its number
    let text = "unexpected character `\u{e9}` while parsing nested key: expected `&`, `=` or `[`";
    reject_bytes(&rt, alloc, query(5), b"a[b]\xe9", 5, text);
    reject_bytes(&rt, alloc, form(5), b"a[b]\xe9", 5, text);
    let text = "unexpected character `\n` while parsing nested key: expected `&`, `=` or `[`";
    reject_bytes(&rt, alloc, Config::new(), b"a[b]\n", 5, text);
}

const AFTER_A_PUSH: [(&str, usize, &str); 4] = [
    ("a[][b]=1", 4, MAP_IN_SEQUENCE),
    ("a[]x=1", 4, MIXED_SEQUENCE),
    ("a[]]", 4, MIXED_SEQUENCE),
    ("v[][a]=1", 4, MAP_IN_SEQUENCE),
];

#[test]
fn after_a_push(rt: HostRuntime) {
    reject(&rt, rt.alloc(), Config::new(), &AFTER_A_PUSH);
}

const LINE: &[u8] =
    b"id=42&name=Acme&phone=12345&address[city]=Carrot+City&address[street]=Special-Street*+No.+11&address[postcode]=12345&user_ids[0]=1&user_ids[1]=2&user_ids[2]=3&user_ids[3]=4";

// Returns whether a prefix of the line is rejected. Claims that a typed call finds the same, and that the error is at the prefix's end.
fn is_rejected<R: Abort>(rt: &R, alloc: Global, front: &[u8]) -> bool {
    let typed = typed_position(alloc, Config::new(), front);
    match parse(alloc, front, Config::new()) {
        Ok(_) => {
            is_equal(rt, typed, None, front);
            false
        }
        Err(Error::Parse(_, position)) => {
            is_equal(rt, position, front.len().saturating_add(1), front);
            is_equal(rt, typed, Some(position), front);
            true
        }
        Err(other) => panic!(rt; "another error: {other:?}"),
    }
}

// The prefixes of a line that end inside brackets are rejected, each at its end.
#[test]
fn fronts(rt: HostRuntime) {
    let mut rejected = 0u32;
    let mut accepted = 0u32;
    for end in 0..=LINE.len() {
        match is_rejected(&rt, rt.alloc(), &LINE[..end]) {
            true => rejected = rejected.saturating_add(1),
            false => accepted = accepted.saturating_add(1),
        }
    }
    is_equal(&rt, LINE.len(), 172, "bytes");
    is_equal(&rt, rejected, 29, "rejected");
    is_equal(&rt, accepted, 144, "accepted");
}
