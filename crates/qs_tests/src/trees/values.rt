//! Leaves, and inputs with few or no pairs.

use super::{Config, accept, form, has_tree, query};

const LEAVES: [(&str, &str); 7] = [
    ("abc=def", "{'abc':'def'}"),
    ("a", "{'a':NoValue}"),
    ("a=", "{'a':Null}"),
    ("a==1", "{'a':'=1'}"),
    ("=foo", "'foo'"),
    ("a=%zz+1", "{'a':'%zz 1'*}"),
    ("a=%FF", "{'a':'\\xff'*}"),
];

#[test]
fn leaves(rt: HostRuntime) {
    accept(&rt, rt.alloc(), Config::new(), &LEAVES);
}

#[test]
fn escaped_brackets_in_a_value(rt: HostRuntime) {
    let (input, wanted) = ("foo=%5BHello%5D", "{'foo':'[Hello]'*}");
    has_tree(&rt, rt.alloc(), query(5), input, wanted);
    has_tree(&rt, rt.alloc(), form(5), input, wanted);
}

const AMPERSANDS: [(&str, &str); 4] = [
    ("", "NoValue"),
    ("&", "Uninit"),
    ("&&&", "Uninit"),
    ("&a=1&&b=2&", "{'a':'1','b':'2'}"),
];

#[test]
fn ampersands(rt: HostRuntime) {
    accept(&rt, rt.alloc(), Config::new(), &AMPERSANDS);
}
