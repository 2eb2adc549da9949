//! Typed calls on depth, long keys, escapes, and texts that aren't UTF-8.

use crate::claims::{fails, holds, is_equal, is_text, made};
use crate::escapes::decoded;
use serde_qs::{
    Comma, Config, ConfigExt, Delimited, Deserialize, Error, Result, from_bytes, from_str,
};
use std::alloc::Global;
use std::collections::BTreeMap;
use std::process::Abort;

type Map<T> = BTreeMap<String, T>;

/// Nested maps, as deep as the default configuration allows.
type Deep = Map<Map<Map<Map<Map<Map<Map<String>>>>>>>;

// Returns the querystring of the maps that are read from this input.
fn rewritten<R: Abort>(rt: &R, alloc: Global, input: &str) -> String {
    let read: Deep = made(rt, from_str(alloc, input));
    let config = Config::new().max_depth(usize::MAX);
    made(rt, config.serialize_string(alloc, &read))
}

#[test]
fn two_hundred_brackets(rt: HostRuntime) {
    let alloc = rt.alloc();
    let brackets = made(&rt, "[b]".repeat(alloc, 200));
    let input = made(&rt, format!(in alloc; "a{brackets}=1"));
    let last_key = made(&rt, "%5Bb%5D".repeat(alloc, 195));
    let wanted = made(&rt, format!(in alloc; "a[b][b][b][b][b][{last_key}]=1"));
    is_text(
        &rt,
        &rewritten(&rt, alloc, &input),
        &wanted,
        "two hundred brackets",
    );
}

// Claims that a list with only this index is read.
fn has_one_item<R: Abort>(rt: &R, alloc: Global, index: &str) {
    let input = made(rt, format!(in alloc; "a[{index}]=x"));
    let read: Map<Vec<String>> = made(rt, from_str(alloc, &input));
    let len = read.get("a").map(|items| items.len());
    is_equal(rt, len, Some(1), index);
}

// Claims that a list with only this index isn't read, and that the error has this text.
fn has_no_first_item<R: Abort>(rt: &R, alloc: Global, index: &str, wanted: &str) {
    let input = made(rt, format!(in alloc; "a[{index}]=x"));
    let read: Result<Map<Vec<String>>> = from_str(alloc, &input);
    match fails(rt, read) {
        Error::Custom(said) => is_text(rt, &said, wanted, index),
        other => panic!(rt; "{index}: {other}"),
    }
}

// Claims that the key is read.
fn has_key<R: Abort>(rt: &R, alloc: Global, key: &str) {
    let input = made(rt, format!(in alloc; "{key}=x"));
    let read: Map<String> = made(rt, from_str(alloc, &input));
    holds(rt, read.get(key).is_some(), key);
}

#[test]
fn a_thousand_digits(rt: HostRuntime) {
    let alloc = rt.alloc();
    let zeros = made(&rt, "0".repeat(alloc, 1000));
    has_one_item(&rt, alloc, &zeros);
    let one = made(&rt, format!(in alloc; "{zeros}1"));
    has_no_first_item(&rt, alloc, &one, "missing index, expected: 0 got 1");
    let nines = made(&rt, "9".repeat(alloc, 1000));
    has_key(&rt, alloc, &nines);
}

// Claims that each input is rejected because a text that is read isn't UTF-8.
fn breaks<R: Abort, T: Deserialize + Drop>(rt: &R, alloc: Global, inputs: &[&str]) {
    for input in inputs {
        let read: Result<T> = from_str(alloc, input);
        holds(rt, matches!(read, Err(Error::Utf8(_))), *input);
    }
}

#[test]
fn broken_texts(rt: HostRuntime) {
    let alloc = rt.alloc();
    breaks::<_, Map<String>>(&rt, alloc, &BROKEN);
    breaks::<_, Map<Option<String>>>(&rt, alloc, &["a=%FF", "%FF"]);
    breaks::<_, Map<Vec<String>>>(&rt, alloc, &BROKEN_LISTS);
    breaks::<_, Map<Map<String>>>(&rt, alloc, &["a[b]=%FF", "a[%FF]=1", "%FF[b]=1"]);
    breaks::<_, Map<Delimited<u8, Comma>>>(&rt, alloc, &["a=%FF", "a=1,%FF"]);
    let read: Result<Map<String>> = from_str(alloc, "%5B%FF=1");
    holds(&rt, matches!(read, Err(Error::Custom(_))), "%5B%FF=1");
}

const BROKEN: [&str; 5] = ["a=%FF", "a=%C3", "a=x%E2%82", "%FF=1", "x=1&%C3=2"];

const BROKEN_LISTS: [&str; 4] = ["a[]=%FF", "a[0]=%FF", "a=x&a=%FF", "%FF[]=x"];

// Claims that the decoded bytes of `%` and these two bytes are read as a value, or are rejected because they aren't UTF-8.
fn is_read_after_a_percent_sign<R: Abort>(rt: &R, alloc: Global, first: u8, second: u8) {
    let bytes = made(rt, decoded(alloc, first, second));
    let wanted = String::from_utf8(bytes).ok();
    let read: Result<Map<String>> = from_bytes(alloc, &[b'k', b'=', b'%', first, second]);
    match &read {
        Ok(map) => holds(rt, map.get("k") == wanted.as_ref(), (first, second)),
        Err(error) => {
            let is_broken = wanted.is_none() && matches!(error, Error::Utf8(_));
            holds(rt, is_broken, (first, second));
        }
    }
}

#[test]
fn every_two_bytes_after_a_percent_sign(rt: HostRuntime) {
    for first in 0..=u8::MAX {
        for second in 0..=u8::MAX {
            // a value ends there
            if first != b'&' && second != b'&' {
                is_read_after_a_percent_sign(&rt, rt.alloc(), first, second);
            }
        }
    }
}
