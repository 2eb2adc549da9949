//! Values that are written and read back, in both modes.

use crate::claims::is_written;
use crate::values::{list, one, text, with};
use qs_callers::{Account, Filter, Pair, Price, Query, Sort};
use serde_qs::{Config, ConfigExt, RoundTrip};
use std::alloc::Global;
use std::collections::BTreeMap;
use std::process::Abort;

/// Claims that the value is read back from the text that it is written as, in both modes.
pub(crate) fn comes_back<R: Abort, T: RoundTrip + PartialEq + Drop>(
    rt: &R,
    alloc: Global,
    value: T,
) {
    comes_back_by(rt, alloc, Config::new(), &value);
    comes_back_by(rt, alloc, Config::new().use_form_encoding(true), &value);
}

/// Claims that the pair of these values is read back from the text that it is written as, in both modes.
pub(crate) fn pair_comes_back<
    R: Abort,
    A: RoundTrip + PartialEq + Drop,
    B: RoundTrip + PartialEq + Drop,
>(rt: &R, alloc: Global, a: A, b: B) {
    comes_back(rt, alloc, Pair { a, b });
}

// Claims that the value is read back from the text that this configuration writes.
fn comes_back_by<R: Abort, T: RoundTrip + PartialEq + Drop>(
    rt: &R,
    alloc: Global,
    config: Config,
    value: &T,
) {
    let written = config.serialize_string(alloc, value).expect(rt, "a text");
    let read: T = config
        .deserialize_str(alloc, written.as_str())
        .expect(rt, "a value");
    assert!(rt; read == *value, "{written}");
}

#[test]
fn numbers(rt: HostRuntime) {
    let alloc = rt.alloc();
    pair_comes_back(&rt, alloc, 1u8, 2u8);
    pair_comes_back(&rt, alloc, i8::MIN, u8::MAX);
    pair_comes_back(&rt, alloc, i16::MIN, u16::MAX);
    pair_comes_back(&rt, alloc, i32::MIN, u32::MAX);
    pair_comes_back(&rt, alloc, i64::MIN, u64::MAX);
}

#[test]
fn scalars(rt: HostRuntime) {
    let alloc = rt.alloc();
    pair_comes_back(&rt, alloc, true, '\u{1F980}');
    pair_comes_back(&rt, alloc, false, ());
    pair_comes_back(&rt, alloc, 'x', 0u64);
}

const TEXTS: &[&str] = &[
    "Hello, world! 你好世界",
    "",
    "   ",
    "!@#$%^&*()_+-=[]{}|;':,.<>?/~`",
    "%41 100%25 %5Bx%5D %AD0",
    "%41",
    "100%25",
    "%5Bx%5D",
    "%AD0",
    "a%3Db",
    "%c5",
    "50%",
];

// Claims that the text is read back, as a value and as a key.
fn text_comes_back<R: Abort>(rt: &R, alloc: Global, row: &str) {
    pair_comes_back(rt, alloc, text(rt, alloc, row), true);
    // an empty key in brackets would be a push
    let key = if row.is_empty() { "key" } else { row };
    let pair = Pair {
        a: text(rt, alloc, row),
        b: one(rt, alloc, key, 1u8),
    };
    // in form mode a key's brackets are brackets even if they are escaped
    if row.contains('[') {
        comes_back_by(rt, alloc, Config::new(), &pair);
    } else {
        comes_back(rt, alloc, pair);
    }
}

#[test]
fn strings(rt: HostRuntime) {
    let alloc = rt.alloc();
    for &row in TEXTS {
        text_comes_back(&rt, alloc, row);
    }
}

// Returns two keys that look like escapes.
fn escapes<R: Abort>(rt: &R, alloc: Global) -> BTreeMap<String, u8> {
    with(rt, alloc, one(rt, alloc, "K%47", 1), "%5Bx%5D", 2)
}

#[test]
fn keys_with_escapes(rt: HostRuntime) {
    let alloc = rt.alloc();
    comes_back(&rt, alloc, escapes(&rt, alloc));
    let keys = with(&rt, alloc, escapes(&rt, alloc), "[x]", 3);
    let wanted = "%255Bx%255D=2&K%2547=1&%5Bx%5D=3";
    is_written(&rt, alloc, &keys, wanted);
    comes_back_by(&rt, alloc, Config::new(), &keys);
}

#[test]
fn options(rt: HostRuntime) {
    let alloc = rt.alloc();
    let hello = Some(text(&rt, alloc, "Hello"));
    pair_comes_back(&rt, alloc, None::<u8>, hello);
    pair_comes_back(&rt, alloc, Some(42u64), Some(true));
    pair_comes_back(&rt, alloc, None::<u8>, None::<String>);
}

#[test]
fn options_of_more(rt: HostRuntime) {
    let alloc = rt.alloc();
    let numbers = Some(list(&rt, alloc, [1u8, 2, 3]));
    let empty = Some(text(&rt, alloc, ""));
    pair_comes_back(&rt, alloc, numbers, empty);
    let pair = Some(Pair { a: 10u8, b: 20u8 });
    pair_comes_back(&rt, alloc, pair, ());
}

#[test]
fn lists(rt: HostRuntime) {
    let alloc = rt.alloc();
    let none: Vec<u8> = Vec::new(alloc);
    let one = list(&rt, alloc, [text(&rt, alloc, "only one")]);
    pair_comes_back(&rt, alloc, none, one);
    let many = list(&rt, alloc, [1u8, 2, 3, 4, 5]);
    let pairs = list(&rt, alloc, [Pair { a: 1u8, b: 2u8 }, Pair { a: 3, b: 4 }]);
    pair_comes_back(&rt, alloc, many, pairs);
}

// Returns lists of numbers, one of them empty.
fn nested<R: Abort>(rt: &R, alloc: Global) -> Vec<Vec<u8>> {
    let first = list(rt, alloc, [1, 2]);
    let last = list(rt, alloc, [3, 4, 5]);
    list(rt, alloc, [first, Vec::new(alloc), last])
}

#[test]
fn lists_of_more(rt: HostRuntime) {
    let alloc = rt.alloc();
    let first = Some(text(&rt, alloc, "first"));
    let third = Some(text(&rt, alloc, "third"));
    let some = list(&rt, alloc, [first, None, third]);
    pair_comes_back(&rt, alloc, nested(&rt, alloc), some);
}

#[test]
fn empty_lists(rt: HostRuntime) {
    let alloc = rt.alloc();
    let empty: Vec<Vec<u8>> = list(&rt, alloc, [Vec::new(alloc), Vec::new(alloc)]);
    let some: Option<Vec<u8>> = Some(Vec::new(alloc));
    pair_comes_back(&rt, alloc, empty, some);
    let texts = list(&rt, alloc, [Some(text(&rt, alloc, ""))]);
    let tens = Some(list(&rt, alloc, [10u8, 20, 30]));
    pair_comes_back(&rt, alloc, texts, tens);
}

// Returns a map of two texts.
fn texts<R: Abort>(
    rt: &R,
    alloc: Global,
    first: (&str, &str),
    second: (&str, &str),
) -> BTreeMap<String, String> {
    let map = one(rt, alloc, first.0, text(rt, alloc, first.1));
    with(rt, alloc, map, second.0, text(rt, alloc, second.1))
}

#[test]
fn maps(rt: HostRuntime) {
    let alloc = rt.alloc();
    let none: BTreeMap<String, u8> = BTreeMap::new(alloc);
    let values = texts(&rt, alloc, ("key1", "value1"), ("key2", "value2"));
    pair_comes_back(&rt, alloc, none, values);
}

#[test]
fn maps_of_structs(rt: HostRuntime) {
    let alloc = rt.alloc();
    let pairs = one(&rt, alloc, "first", Pair { a: 10u8, b: 20u8 });
    let pairs = with(&rt, alloc, pairs, "second", Pair { a: 30, b: 40 });
    comes_back(&rt, alloc, pairs);
}

#[test]
fn maps_of_maps(rt: HostRuntime) {
    let alloc = rt.alloc();
    let first = texts(&rt, alloc, ("x", "foo"), ("y", "bar"));
    let nested = one(&rt, alloc, "first", first);
    let second = one(&rt, alloc, "a", text(&rt, alloc, "baz"));
    let nested = with(&rt, alloc, nested, "second", second);
    let nested = with(&rt, alloc, nested, "empty", BTreeMap::new(alloc));
    comes_back(&rt, alloc, nested);
}

#[test]
fn variants(rt: HostRuntime) {
    let alloc = rt.alloc();
    let by = Sort::By(text(&rt, alloc, "hello"));
    pair_comes_back(&rt, alloc, Sort::Relevance, by);
    let between = Sort::Between { from: 0, to: 7 };
    pair_comes_back(&rt, alloc, between, Price(99));
    let by = Sort::By(text(&rt, alloc, "in vec"));
    comes_back(&rt, alloc, list(&rt, alloc, [Sort::Relevance, by]));
}

#[test]
fn structs(rt: HostRuntime) {
    let alloc = rt.alloc();
    let account = Account {
        first_name: text(&rt, alloc, "John"),
        last_name: text(&rt, alloc, "Doe"),
        id: 12345,
    };
    comes_back(&rt, alloc, account);
    let query = Query {
        name: text(&rt, alloc, "Alice"),
        age: 24,
        occupation: text(&rt, alloc, "Student"),
    };
    comes_back(&rt, alloc, query);
    let filter = Filter {
        text: text(&rt, alloc, "a"),
        page: Some(2),
        size: None,
    };
    comes_back(&rt, alloc, filter);
}
