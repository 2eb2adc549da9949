//! The pairs of an input in another order.

use super::{Config, VALUE_AND_MAP, accept, has_tree, reject, reject_bytes};

const ONE_TREE: [(&str, &str); 4] = [
    (
        "a[b]=1&c=2&a[d]=3&a=4",
        "{'a':{'':'4','b':'1','d':'3'},'c':'2'}",
    ),
    (
        "c=2&a[d]=3&a[b]=1&a=4",
        "{'a':{'':'4','b':'1','d':'3'},'c':'2'}",
    ),
    ("a=1&b=2", "{'a':'1','b':'2'}"),
    ("b=2&a=1", "{'a':'1','b':'2'}"),
];

// The pairs at one path keep their order.
#[test]
fn one_tree(rt: HostRuntime) {
    accept(&rt, rt.alloc(), Config::new(), &ONE_TREE);
}

const BOTH_ARE_REJECTED: [(&str, usize, &str); 2] = [
    ("c=1&a=1&a[b]=2", 11, VALUE_AND_MAP),
    ("a=1&c=1&a[b]=2", 11, VALUE_AND_MAP),
];

#[test]
fn both_are_rejected(rt: HostRuntime) {
    reject(&rt, rt.alloc(), Config::new(), &BOTH_ARE_REJECTED);
}

// Pairs whose paths overlap do not change places.
#[test]
fn an_order_that_counts(rt: HostRuntime) {
    let wanted = "{'a':{'':'2','b':'1'}}";
    has_tree(&rt, rt.alloc(), Config::new(), "a[b]=1&a=2", wanted);
    let input = b"a=2&a[b]=1";
    reject_bytes(&rt, rt.alloc(), Config::new(), input, 7, VALUE_AND_MAP);
}
