//! Inputs of 8,192 unordered keys.

use super::{
    Config, ENDED_IN_KEY, Global, SEQUENCE_AND_MAP, VALUE_AND_MAP, form, reject_bytes, tree,
};
use crate::claims::{holds, made};
use std::process::Abort;

const KEYS: usize = 8_192;

// Steps of this length, which is odd, reach each number below 8,192 once.
const STEP: usize = 4_099;

// Returns the pairs `key0000=val0000`, `key4099=val4099` and so on, with these texts around each key, and `&` after each value.
fn shuffled<R: Abort>(rt: &R, alloc: Global, before: &str, after: &str) -> String {
    let mut input = String::new(alloc);
    for place in 0..KEYS {
        let number = place * STEP % KEYS;
        let pair = format!(in alloc; "{before}key{number:04}{after}=val{number:04}&");
        made(rt, input.push_str(&made(rt, pair)));
    }
    input
}

// Returns the map of these pairs as a line, with other entries before and after them.
fn in_order<R: Abort>(rt: &R, alloc: Global, before: &str, end: &str) -> String {
    let mut line = made(rt, format!(in alloc; "{{{before}"));
    for number in 0..KEYS {
        let comma = if number == KEYS - 1 { "" } else { "," };
        let entry = format!(in alloc; "'key{number:04}':'val{number:04}'{comma}");
        made(rt, line.push_str(&made(rt, entry)));
    }
    made(rt, line.push_str(end));
    made(rt, line.push_str("}"));
    line
}

// Claims that the pairs, followed by these, have this tree.
fn accept_followed<R: Abort>(
    rt: &R,
    alloc: Global,
    config: Config,
    mut input: String,
    more: &str,
    wanted: &str,
) {
    made(rt, input.push_str(more));
    let found = tree(rt, alloc, config, input.as_bytes());
    holds(rt, found.as_str() == wanted, more);
}

// Claims that the pairs, followed by these, are rejected at this position of the following ones.
fn reject_after<R: Abort>(rt: &R, alloc: Global, more: &str, position: usize, text: &str) {
    let mut input = shuffled(rt, alloc, "", "");
    let position = input.len().saturating_add(position);
    made(rt, input.push_str(more));
    reject_bytes(rt, alloc, Config::new(), input.as_bytes(), position, text);
}

#[test]
fn keys_at_the_root(rt: HostRuntime) {
    let alloc = rt.alloc();
    let wanted = in_order(&rt, alloc, "", "");
    let input = shuffled(&rt, alloc, "", "");
    accept_followed(&rt, alloc, Config::new(), input, "", &wanted);
}

#[test]
fn keys_of_a_nested_map(rt: HostRuntime) {
    let alloc = rt.alloc();
    let map = in_order(&rt, alloc, "", "");
    let wanted = made(&rt, format!(in alloc; "{{'a':{map}}}"));
    let input = shuffled(&rt, alloc, "a[", "]");
    accept_followed(&rt, alloc, Config::new(), input, "", &wanted);
    let input = shuffled(&rt, alloc, "a%5B", "%5D");
    accept_followed(&rt, alloc, form(5), input, "", &wanted);
}

// The pairs at one key keep their order.
#[test]
fn pairs_that_overlap(rt: HostRuntime) {
    let alloc = rt.alloc();
    let before = "'a':{'':'2','b':'1','d':'3'},'b':['2','1'],'c':['4','3'],";
    let wanted = in_order(&rt, alloc, before, ",'z':'0'");
    let more = "z=0&a[b]=1&b=2&c[]=4&a[d]=3&b=1&a=2&c[]=3";
    let input = shuffled(&rt, alloc, "", "");
    accept_followed(&rt, alloc, Config::new(), input, more, &wanted);
}

// An escaped key is the same key.
#[test]
fn an_escaped_key(rt: HostRuntime) {
    let alloc = rt.alloc();
    let wanted = in_order(&rt, alloc, "'a':['1','2'],", "");
    let input = shuffled(&rt, alloc, "", "");
    accept_followed(&rt, alloc, Config::new(), input, "a=1&%61=2", &wanted);
}

// The first error of the input is reported.
#[test]
fn faults(rt: HostRuntime) {
    let alloc = rt.alloc();
    reject_after(&rt, alloc, "a=1&a[b]=1", 7, VALUE_AND_MAP);
    reject_after(&rt, alloc, "z=1&z[b]=1&a[]=1&a[b]=2", 7, VALUE_AND_MAP);
    reject_after(&rt, alloc, "z[]=1&z[b]=2&a=1&a[b]=1", 9, SEQUENCE_AND_MAP);
    reject_after(&rt, alloc, "a=1&a[b]=1&c[b", 7, VALUE_AND_MAP);
    reject_after(&rt, alloc, "a[b", 4, ENDED_IN_KEY);
    reject_after(&rt, alloc, "%61=1&a[b]=1", 9, VALUE_AND_MAP);
}
