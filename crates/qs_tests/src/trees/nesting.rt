//! Nested keys, and the depth limit.

use super::{Config, Global, accept, has_tree, query, tree};
use crate::claims::{holds, is_equal, is_text, made};
use std::process::Abort;

const SEVEN_MAPS: &str = "{'a':{'b':{'c':{'d':{'e':{'f':{'[g][h]':'i'}}}}}}}";

// Returns how deep maps are nested.
fn nesting(tree: &str) -> usize {
    let mut open: usize = 0;
    let mut most = 0;
    for byte in tree.as_bytes() {
        match byte {
            b'{' => open = open.saturating_add(1),
            b'}' => open = open.saturating_sub(1),
            _ => {}
        }
        most = most.max(open);
    }
    most
}

const BELOW_THE_LIMIT: [(&str, &str); 3] = [
    ("abc[def]=ghi", "{'abc':{'def':'ghi'}}"),
    ("a[b]=1&a[c]=2", "{'a':{'b':'1','c':'2'}}"),
    (
        "e[B]&v[V1][x]=12&v[V1][y]=300&u=12",
        "{'e':{'B':NoValue},'u':'12','v':{'V1':{'x':'12','y':'300'}}}",
    ),
];

#[test]
fn below_the_limit(rt: HostRuntime) {
    accept(&rt, rt.alloc(), query(10), &BELOW_THE_LIMIT);
    accept(&rt, rt.alloc(), Config::new(), &BELOW_THE_LIMIT);
}

const THE_LAST_KEY: [(&str, &str); 3] = [
    ("a[b][=1", "{'a':{'b':{'[=1':NoValue}}}"),
    ("a[b][&c=1", "{'a':{'b':{'[&c':'1'}}}"),
    ("a[b][&", "{'a':{'b':{'[&':NoValue}}}"),
];

#[test]
fn the_last_key(rt: HostRuntime) {
    accept(&rt, rt.alloc(), query(1), &THE_LAST_KEY);
    let wanted = "{'a[b][c]':'1'}";
    has_tree(&rt, rt.alloc(), query(0), "a[b][c]=1", wanted);
}

const EIGHT_KEYS: &str = "a[b][c][d][e][f][g][h]=i";

// At most two maps more than the limit.
#[test]
fn maps_in_maps(rt: HostRuntime) {
    has_tree(&rt, rt.alloc(), Config::new(), EIGHT_KEYS, SEVEN_MAPS);
    let limit = Config::new().get_max_depth();
    is_equal(&rt, nesting(SEVEN_MAPS), limit + 2, "maps");
}

// Returns an input with `count` keys in brackets.
fn bracketed<R: Abort>(rt: &R, alloc: Global, count: usize) -> String {
    let brackets = made(rt, "[b]".repeat(alloc, count));
    made(rt, format!(in alloc; "a{brackets}=1"))
}

// Claims that `count` keys in brackets make `maps` nested maps with this depth limit, and that no bracket is left.
fn is_nested<R: Abort>(rt: &R, alloc: Global, count: usize, max_depth: usize, maps: usize) {
    let input = bracketed(rt, alloc, count);
    let found = tree(rt, alloc, query(max_depth), input.as_bytes());
    is_equal(rt, nesting(&found), maps, max_depth);
    holds(rt, !found.as_str().contains("["), found);
}

#[test]
fn two_hundred_brackets(rt: HostRuntime) {
    let alloc = rt.alloc();
    let input = bracketed(&rt, alloc, 200);
    let last_key = made(&rt, "[b]".repeat(alloc, 195));
    let wanted = format!(in alloc;
        "{{'a':{{'b':{{'b':{{'b':{{'b':{{'b':{{'{last_key}':'1'}}}}}}}}}}}}}}"
    );
    let found = tree(&rt, alloc, Config::new(), input.as_bytes());
    is_text(&rt, &found, &made(&rt, wanted), "two hundred brackets");
    is_nested(&rt, alloc, 200, 1000, 201);
}

#[test]
fn a_path_of_a_thousand(rt: HostRuntime) {
    is_nested(&rt, rt.alloc(), 1000, 1000, 1001);
    is_nested(&rt, rt.alloc(), 1000, usize::MAX, 1001);
}

#[test]
fn no_limit(rt: HostRuntime) {
    let wanted = "{'a':{'b':{'c':{'d':{'e':{'f':{'g':{'h':'i'}}}}}}}}";
    has_tree(&rt, rt.alloc(), query(usize::MAX), EIGHT_KEYS, wanted);
}
