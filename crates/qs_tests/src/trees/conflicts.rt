//! Pairs that conflict with earlier ones.

use super::{
    Config, Error, Global, SEQUENCE_AND_MAP, UNIT_AND_MAP, VALUE_AND_MAP, VALUE_AND_SEQUENCE,
    query, reject, reject_bytes, typed_position,
};
use crate::claims::{is_equal, made};
use qs_tree::parse;
use std::process::Abort;

const BELOW_A_LEAF: [(&str, usize, &str); 6] = [
    ("a=2&a[b]=1", 7, VALUE_AND_MAP),
    ("a=1&a[b]=1", 7, VALUE_AND_MAP),
    ("a=&a[b]=1", 6, UNIT_AND_MAP),
    ("a&a[b]=1", 5, UNIT_AND_MAP),
    ("a[]=1&a[b]=2", 9, SEQUENCE_AND_MAP),
    // the conflict comes before the end of the segment
    ("a=1&a[b", 7, VALUE_AND_MAP),
];

#[test]
fn below_a_leaf(rt: HostRuntime) {
    reject(&rt, rt.alloc(), Config::new(), &BELOW_A_LEAF);
}

// Claims that a path of a hundred keys after this pair is rejected at this position with this text.
fn is_barred<R: Abort>(rt: &R, alloc: Global, first: &str, position: usize, text: &str) {
    let brackets = made(rt, "[b]".repeat(alloc, 100));
    let input = made(rt, format!(in alloc; "{first}&a{brackets}=2"));
    reject_bytes(rt, alloc, query(1000), input.as_bytes(), position, text);
}

// A path of a hundred keys conflicts where a short one does.
#[test]
fn below_a_leaf_by_a_long_path(rt: HostRuntime) {
    is_barred(&rt, rt.alloc(), "a=1", 7, VALUE_AND_MAP);
    is_barred(&rt, rt.alloc(), "a[]=1", 9, SEQUENCE_AND_MAP);
    is_barred(&rt, rt.alloc(), "a=", 6, UNIT_AND_MAP);
}

const BELOW_THE_ROOT: [(&str, usize, &str); 8] = [
    // after the end of the value
    ("=1&a=2", 7, VALUE_AND_MAP),
    ("=1&a=2&b", 7, VALUE_AND_MAP),
    ("=&a=2", 6, UNIT_AND_MAP),
    ("[]=1&a=2", 9, SEQUENCE_AND_MAP),
    // after the end of the key
    ("=1&a", 5, VALUE_AND_MAP),
    ("=1&a&b", 5, VALUE_AND_MAP),
    // after the bracket
    ("=1&a[b]=2", 5, VALUE_AND_MAP),
    // after the first byte in the bracket
    ("=1&[b]=2", 5, VALUE_AND_MAP),
];

#[test]
fn below_the_root(rt: HostRuntime) {
    reject(&rt, rt.alloc(), Config::new(), &BELOW_THE_ROOT);
}

const WITHOUT_BRACKETS: [(&str, usize, &str); 2] = [
    ("=1&a[b]=2", 10, VALUE_AND_MAP),
    ("=1&[b][c]=2", 12, VALUE_AND_MAP),
];

const ONE_BRACKET_DEEP: [(&str, usize, &str); 3] = [
    ("=1&a[b]=2", 5, VALUE_AND_MAP),
    ("a[b]=1&a[b][c]=2", 13, VALUE_AND_MAP),
    ("a[b]=1&a[b][c][d]=2", 13, VALUE_AND_MAP),
];

// Brackets after the depth limit are part of the last key.
#[test]
fn at_the_depth_limit(rt: HostRuntime) {
    reject(&rt, rt.alloc(), query(0), &WITHOUT_BRACKETS);
    reject(&rt, rt.alloc(), query(1), &ONE_BRACKET_DEEP);
}

const A_PUSH_AT_A_LEAF: [(&str, usize, &str); 3] = [
    ("a=1&a[]=2", 7, VALUE_AND_SEQUENCE),
    ("abc&abc[]=1", 9, VALUE_AND_SEQUENCE),
    ("=1&[]=2", 5, VALUE_AND_SEQUENCE),
];

#[test]
fn a_push_at_a_leaf(rt: HostRuntime) {
    reject(&rt, rt.alloc(), Config::new(), &A_PUSH_AT_A_LEAF);
}

const A_PUSH_AT_A_MAP: [(&str, usize, &str); 4] = [
    (
        "a[b]=1&a[]=1",
        10,
        "invalid input: the key `a` appears in the input as both a sequence and a map (with keys \"b\")",
    ),
    (
        "vec[[]=1&vec[]=2",
        14,
        "invalid input: the key `vec` appears in the input as both a sequence and a map (with keys \"[\")",
    ),
    (
        "vec[foo][1][[]=1&vec[foo][1][]=2",
        30,
        "invalid input: the key `vec[foo][1]` appears in the input as both a sequence and a map (with keys \"[\")",
    ),
    // the key at the root is empty, and the map's keys are in their order
    (
        "b=1&7=2&a&[]=3",
        12,
        "invalid input: the key `` appears in the input as both a sequence and a map (with keys 7, \"a\", \"b\")",
    ),
];

#[test]
fn a_push_at_a_map(rt: HostRuntime) {
    reject(&rt, rt.alloc(), Config::new(), &A_PUSH_AT_A_MAP);
}

const TWENTY_KEYS: &str =
    "invalid input: the key `m` appears in the input as both a sequence and a map (with keys \
    \"a\", \"b\", \"c\", \"d\", \"e\", \"f\", \"g\", \"h\", \"i\", \"j\", \"k\", \"l\", \"m\", \"n\", \"o\", \"p\", \"q\", \"r\", \"s\", \"t\")";

// Returns a map of twenty keys, from the last to the first, with this text after each.
fn twenty_keys<R: Abort>(rt: &R, alloc: Global, end: &str) -> String {
    let mut input = String::new(alloc);
    for key in ('a'..='t').rev() {
        let pair = made(rt, format!(in alloc; "m[{key}]{end}&"));
        made(rt, input.push_str(&pair));
    }
    input
}

// Claims that a push at a map of twenty keys, with this text after each, is rejected.
fn is_no_sequence<R: Abort>(rt: &R, alloc: Global, end: &str) {
    let mut input = twenty_keys(rt, alloc, end);
    let position = input.len().saturating_add(3);
    made(rt, input.push_str("m[]=1"));
    reject_bytes(
        rt,
        alloc,
        Config::new(),
        input.as_bytes(),
        position,
        TWENTY_KEYS,
    );
}

// Twenty keys that are given from the last to the first are listed in order.
#[test]
fn a_push_at_a_map_of_many_keys(rt: HostRuntime) {
    is_no_sequence(&rt, rt.alloc(), "");
    is_no_sequence(&rt, rt.alloc(), "[x]");
}

const BEFORE_AN_ERROR_AFTER_A_PUSH: [(&str, usize, &str); 2] = [
    ("a=1&a[][b]=2", 7, VALUE_AND_SEQUENCE),
    ("a=1&a[]x=2", 7, VALUE_AND_SEQUENCE),
];

// The conflict comes before what is wrong after the push.
#[test]
fn before_an_error_after_a_push(rt: HostRuntime) {
    reject(
        &rt,
        rt.alloc(),
        Config::new(),
        &BEFORE_AN_ERROR_AFTER_A_PUSH,
    );
}

// The key is shown whole at the depth limit too, and not at all if it isn't UTF-8.
#[test]
fn a_push_at_a_map_with_another_key(rt: HostRuntime) {
    let alloc = rt.alloc();
    let text =
        "invalid input: the key `a[b]` appears in the input as both a sequence and a map (with keys \"[c\")";
    reject_bytes(&rt, alloc, query(1), b"a[b][c=1&a[b][]=2", 15, text);
    let text =
        "invalid input: the key `<invalid key>` appears in the input as both a sequence and a map (with keys \"b\")";
    let input = b"\xff[b]=1&\xff[]=2";
    reject_bytes(&rt, alloc, Config::new(), input, 10, text);
}

/// What a pair does at the key `a`.
#[derive(Clone, Copy, Debug, PartialEq, Eq)]
enum Act {
    Plain,
    Push,
    Below,
}

impl Act {
    // Returns the pair that does this at the key `a`.
    fn text(self) -> &'static str {
        match self {
            Act::Plain => "a=1",
            Act::Push => "a[]=1",
            Act::Below => "a[b]=1",
        }
    }
}

const ACTS: [Act; 3] = [Act::Plain, Act::Push, Act::Below];

// Claims whether the pairs with these acts have a tree, and that a typed call finds the same.
fn have_tree<R: Abort>(rt: &R, alloc: Global, acts: &[Act], wanted: bool) {
    let input = text_of(rt, alloc, acts);
    let typed = typed_position(alloc, Config::new(), input.as_bytes());
    let position = position(rt, alloc, &input);
    is_equal(rt, position.is_none(), wanted, acts);
    is_equal(rt, typed, position, acts);
}

// Returns an input of pairs with these acts.
fn text_of<R: Abort>(rt: &R, alloc: Global, acts: &[Act]) -> String {
    let mut input = String::new(alloc);
    for act in acts {
        made(rt, input.push_str(act.text()));
        made(rt, input.push('&'));
    }
    input
}

// Returns the position of the input's error, if it has no tree.
fn position<R: Abort>(rt: &R, alloc: Global, input: &str) -> Option<usize> {
    match parse(alloc, input.as_bytes(), Config::new()) {
        Ok(_) => None,
        Err(Error::Parse(_, position)) => Some(position),
        Err(other) => panic!(rt; "{input}: {other:?}"),
    }
}

const ACCEPTED: [[Act; 2]; 5] = [
    [Act::Plain, Act::Plain],
    [Act::Push, Act::Plain],
    [Act::Push, Act::Push],
    [Act::Below, Act::Below],
    [Act::Below, Act::Plain],
];

#[test]
fn two_pairs(rt: HostRuntime) {
    for first in ACTS {
        for second in ACTS {
            let acts = [first, second];
            let wanted = ACCEPTED.contains(&acts);
            have_tree(&rt, rt.alloc(), &acts, wanted);
        }
    }
}

// Returns whether a third pair with this act is accepted after two others. A below needs a below as the first pair, and allows no push.
fn is_accepted(first: Act, second: Act, third: Act) -> bool {
    let acts = [first, second, third];
    if first == Act::Below {
        acts.iter().all(|act| *act != Act::Push)
    } else {
        acts.iter().all(|act| *act != Act::Below) && (first != Act::Plain || second != Act::Push)
    }
}

// Returns how many pairs are accepted after two others.
fn accepted_after<R: Abort>(rt: &R, alloc: Global, first: Act, second: Act) -> u32 {
    let mut accepted = 0u32;
    for third in ACTS {
        let wanted = is_accepted(first, second, third);
        have_tree(rt, alloc, &[first, second, third], wanted);
        accepted = accepted.saturating_add(u32::from(wanted));
    }
    accepted
}

// Ten have a tree: six without below that don't begin with plain and push, and four that begin with below and have no push.
#[test]
fn three_pairs(rt: HostRuntime) {
    let mut accepted = 0u32;
    for first in ACTS {
        for second in ACTS {
            let more = accepted_after(&rt, rt.alloc(), first, second);
            accepted = accepted.saturating_add(more);
        }
    }
    is_equal(&rt, accepted, 10, "accepted");
}
