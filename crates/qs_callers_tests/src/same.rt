//! Equal keys, trees and data.

use crate::claims::{holds, is_equal};
use crate::values::tree;
use qs_callers::{is_same_data, is_same_key, is_same_tree, order_of_two_keys};
use qs_data::Data;
use qs_tree::Key;
use std::alloc::Global;
use std::cmp::Ordering;
use std::process::Abort;

#[test]
fn data(rt: HostRuntime) {
    let seven = Data::Unsigned(7);
    holds(&rt, is_same_data(&seven, &Data::Unsigned(7)), "7 and 7");
    holds(&rt, !is_same_data(&seven, &Data::Signed(7)), "7 and +7");
}

// Claims that the trees of two inputs are the same, or that they are not.
fn are_same<R: Abort>(rt: &R, alloc: Global, a: &str, b: &str, wanted: bool) {
    let (a, b) = (tree(rt, alloc, a), tree(rt, alloc, b));
    is_equal(rt, is_same_tree(&a, &b), wanted);
}

#[test]
fn trees(rt: HostRuntime) {
    let alloc = rt.alloc();
    // an escaped value is owned, but equal
    are_same(&rt, alloc, "b=2&a=x", "a=%78&b=2", true);
    are_same(&rt, alloc, "b=2&a=x", "a=x&b=3", false);
}

#[test]
fn keys(rt: HostRuntime) {
    let (number, text) = (Key::from(1u32), Key::from("1"));
    holds(&rt, is_same_key(&text, &Key::from("1")), "texts");
    holds(&rt, !is_same_key(&number, &text), "a number and a text");
    is_equal(&rt, order_of_two_keys(&number, &text), Ordering::Less);
}
