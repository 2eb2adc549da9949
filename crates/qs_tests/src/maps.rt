//! Each function of a tree's keys and maps once, and deep maps.

use crate::claims::{holds, is_equal, is_text, made, present};
use qs_tree::{Config, Key, ParsedMap, ParsedValue, Steps, parse, parse_with};
use std::alloc::Global;
use std::borrow::CowSlice;
use std::process::Abort;

const DROPPED: usize = 100_000;

// What is compared is compared by calls, level by level.
const COMPARED: usize = 2_000;

// Returns a borrowed text.
fn text(bytes: &'static [u8]) -> ParsedValue<'static> {
    ParsedValue::String(CowSlice::Borrowed(bytes))
}

// Returns an owned string key.
fn owned<'a, R: Abort>(rt: &R, alloc: Global, bytes: &[u8]) -> Key<'a> {
    Key::String(CowSlice::Owned(made(rt, Vec::from_slice(alloc, bytes))))
}

// Claims that the key is printed as this text.
fn is_printed<R: Abort>(rt: &R, alloc: Global, key: Key<'_>, wanted: &str) {
    let text = made(rt, format!(in alloc; "{key}"));
    is_text(rt, &text, wanted, "a key");
}

#[test]
fn keys_are_printed(rt: HostRuntime) {
    let alloc = rt.alloc();
    is_printed(&rt, alloc, Key::from(4294967295u32), "4294967295");
    let word = Key::from("\u{e9}t\u{e9}");
    is_printed(&rt, alloc, word, "\"\u{e9}t\u{e9}\"");
    let broken = Key::from(b"a\xe9\xffb\xe2\x82".as_slice());
    is_printed(&rt, alloc, broken, "\"a\u{fffd}\u{fffd}b\u{fffd}\"");
}

// Claims that the first key comes before the second one.
fn precedes<R: Abort>(rt: &R, first: Key<'_>, second: Key<'_>) {
    holds(rt, first < second, (&first, &second));
}

// Claims whether the keys are equal.
fn are_equal<R: Abort>(rt: &R, first: Key<'_>, second: Key<'_>, wanted: bool) {
    is_equal(rt, first == second, wanted, (&first, &second));
}

#[test]
fn keys_are_ordered(rt: HostRuntime) {
    precedes(&rt, Key::from(9u32), Key::from(10u32));
    precedes(&rt, Key::from(10u32), Key::from("1"));
    precedes(&rt, Key::from("10"), Key::from("9"));
    are_equal(&rt, Key::from("a"), owned(&rt, rt.alloc(), b"a"), true);
    are_equal(&rt, Key::from(1u32), Key::from("1"), false);
}

// Claims that a node is a map, and returns it.
fn as_map<'a, R: Abort>(rt: &R, node: ParsedValue<'a>) -> ParsedMap<'a> {
    match node {
        ParsedValue::Map(map) => map,
        other => panic!(rt; "no map: {other:?}"),
    }
}

// Returns the map of this input.
fn map_of<'a, R: Abort>(rt: &R, alloc: Global, input: &'a [u8]) -> ParsedMap<'a> {
    as_map(rt, made(rt, parse(alloc, input, Config::new())))
}

const INPUT: &[u8] = b"a[b]=1&a=2&c[]=3&c[]=4";

#[test]
fn a_map_is_looked_up(rt: HostRuntime) {
    let root = map_of(&rt, rt.alloc(), INPUT);
    is_equal(&rt, root.len(), 2, "keys");
    holds(&rt, !root.is_empty(), "there are keys");
    match root.get(&Key::from("a")) {
        Some(ParsedValue::Map(inner)) => is_inner(&rt, rt.alloc(), inner),
        other => panic!(rt; "no map under a: {other:?}"),
    }
}

// Claims that the map holds what the input has under `a`.
fn is_inner<R: Abort>(rt: &R, alloc: Global, inner: &ParsedMap<'static>) {
    let key = owned(rt, alloc, b"b");
    is_equal(rt, inner.get(&key), Some(&text(b"1")), "under b");
    let (key, value) = present(rt, inner.at(0), "an entry");
    is_equal(rt, key, &Key::from(""), "the first key");
    is_equal(rt, value, &text(b"2"), "the first value");
    holds(rt, inner.at(2).is_none(), "there are two entries");
}

#[test]
fn a_map_is_taken_apart(rt: HostRuntime) {
    let alloc = rt.alloc();
    let mut root = map_of(&rt, alloc, INPUT);
    holds(&rt, root.remove(&Key::from("b")).is_none(), "no b");
    let removed = root.remove(&owned(&rt, alloc, b"c"));
    let items = made(&rt, vec![in alloc; text(b"3"), text(b"4")]);
    let wanted = ParsedValue::Sequence(items);
    is_equal(&rt, removed, Some(wanted), "removed");
    let (key, value) = present(&rt, root.pop_first(), "an entry");
    is_equal(&rt, key, Key::from("a"), "the first key");
    drop(as_map(&rt, value));
    is_spent(&rt, alloc, root);
}

// Claims that the map is empty.
fn is_spent<R: Abort>(rt: &R, alloc: Global, mut map: ParsedMap<'_>) {
    holds(rt, map.is_empty(), "nothing is left");
    is_equal(rt, &map, &ParsedMap::new(alloc), "what is left");
    holds(rt, map.pop_first().is_none(), "no entry is left");
}

#[test]
fn keys_are_looked_up_in_counted_steps(rt: HostRuntime) {
    let mut steps = Steps::new();
    let input = b"b=1&a=2".as_slice();
    let tree = made(
        &rt,
        parse_with(rt.alloc(), &mut steps, input, Config::new()),
    );
    let root = as_map(&rt, tree);
    let value = root.get_with(&Key::from("a"), &mut steps);
    is_equal(&rt, value, Some(&text(b"2")), "under a");
    let value = root.get_with(&Key::from("c"), &mut steps);
    holds(&rt, value.is_none(), "no c");
}

#[test]
fn a_value_alone_is_borrowed(rt: HostRuntime) {
    let tree = made(&rt, parse(rt.alloc(), b"=foo", Config::new()));
    match tree {
        ParsedValue::String(CowSlice::Borrowed(value)) => {
            is_equal(&rt, value, b"foo", "alone");
        }
        other => panic!(rt; "no borrowed value: {other:?}"),
    }
}

// Returns an input of nested maps, with a leaf in the innermost and another leaf in the outermost.
fn nested<R: Abort>(rt: &R, alloc: Global, levels: usize, end: &str) -> String {
    let brackets = made(rt, "[b]".repeat(alloc, levels));
    made(rt, format!(in alloc; "a{brackets}{end}"))
}

#[test]
fn deep_maps_are_dropped(rt: HostRuntime) {
    let input = nested(&rt, rt.alloc(), DROPPED, "=1&c=2");
    let config = Config::new().max_depth(DROPPED);
    let tree = made(&rt, parse(rt.alloc(), input.as_bytes(), config));
    let map = as_map(&rt, tree);
    is_equal(&rt, map.len(), 2, "keys");
    drop(map);
}

// Claims whether two inputs have the same tree, ignoring ownership.
fn have_one_tree<R: Abort>(rt: &R, alloc: Global, input: &str, other: &str, wanted: bool) {
    let config = Config::new().max_depth(COMPARED);
    let tree = made(rt, parse(alloc, input.as_bytes(), config));
    let other = made(rt, parse(alloc, other.as_bytes(), config));
    is_equal(rt, tree == other, wanted, "one tree");
}

#[test]
fn deep_maps_are_compared(rt: HostRuntime) {
    let alloc = rt.alloc();
    let input = nested(&rt, alloc, COMPARED, "=1&c=2");
    let other = nested(&rt, alloc, COMPARED, "&c=2");
    let shorter = nested(&rt, alloc, COMPARED, "=1");
    have_one_tree(&rt, alloc, &input, &input, true);
    have_one_tree(&rt, alloc, &input, &other, false);
    have_one_tree(&rt, alloc, &input, &shorter, false);
}

// Returns nested sequences.
fn nested_items<R: Abort>(
    rt: &R,
    alloc: Global,
    levels: usize,
    bottom: ParsedValue<'static>,
) -> ParsedValue<'static> {
    let mut value = bottom;
    for _ in 0..levels {
        value = ParsedValue::Sequence(made(rt, vec![in alloc; value, text(b"1")]));
    }
    value
}

#[test]
fn deep_sequences_are_compared(rt: HostRuntime) {
    let alloc = rt.alloc();
    let items = nested_items(&rt, alloc, COMPARED, ParsedValue::Null);
    let same = nested_items(&rt, alloc, COMPARED, ParsedValue::Null);
    let other = nested_items(&rt, alloc, COMPARED, ParsedValue::NoValue);
    holds(&rt, items == same, "the same items");
    holds(&rt, items != other, "other items");
}
