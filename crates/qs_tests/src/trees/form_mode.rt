//! Escaped brackets in form mode. A position counts three bytes for each.

use super::{ENDED, MIXED_SEQUENCE, VALUE_AND_MAP, accept, form, reject};

const ESCAPED_BRACKETS: [(&str, &str); 6] = [
    ("abc%5Bdef%5D=ghi", "{'abc':{'def':'ghi'}}"),
    ("abc[def]=ghi", "{'abc':{'def':'ghi'}}"),
    ("abc[def%5D=ghi", "{'abc':{'def':'ghi'}}"),
    // in lower case they are bytes of the key
    ("abc%5bdef%5d=ghi", "{'abc[def]'*:'ghi'}"),
    ("a%5B%5D=1&a%5B%5D=2", "{'a':['1','2']}"),
    ("a%5D=1", "{'a]'*:'1'}"),
];

#[test]
fn escaped_brackets(rt: HostRuntime) {
    accept(&rt, rt.alloc(), form(5), &ESCAPED_BRACKETS);
}

const REJECTED_AT_AN_ESCAPED_BRACKET: [(&str, usize, &str); 5] = [
    (
        "a[b]%5D",
        7,
        "unexpected character `]` while parsing nested key: expected `&`, `=` or `[`",
    ),
    (
        "a[b]%5d",
        5,
        "unexpected character `%` while parsing nested key: expected `&`, `=` or `[`",
    ),
    ("a[]%5D", 6, MIXED_SEQUENCE),
    ("=1&a%5B", 7, VALUE_AND_MAP),
    ("a%5B", 5, ENDED),
];

#[test]
fn rejected_at_an_escaped_bracket(rt: HostRuntime) {
    reject(&rt, rt.alloc(), form(5), &REJECTED_AT_AN_ESCAPED_BRACKET);
}

const A_PUSH_AT_A_MAP: [(&str, usize, &str); 2] = [
    (
        "a%5Bb%5D=1&a%5B%5D=1",
        18,
        "invalid input: the key `a` appears in the input as both a sequence and a map (with keys \"b\")",
    ),
    (
        "a%5Bb%5D%5Bc%5D=1&a%5Bb%5D%5B%5D=2",
        32,
        "invalid input: the key `a%5Bb%5D` appears in the input as both a sequence and a map (with keys \"c\")",
    ),
];

// The key is shown whole, up to the bracket of the push.
#[test]
fn a_push_at_a_map(rt: HostRuntime) {
    reject(&rt, rt.alloc(), form(5), &A_PUSH_AT_A_MAP);
}
