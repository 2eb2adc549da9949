//! Data of 200,000 levels is discarded, and data of 2,000 levels is compared.

use crate::build::Build;
use crate::claims::holds;
use serde_qs::Data;
use std::process::Abort;

/// The depth of the data that is compared. Comparison takes a call for each level.
const COMPARED: usize = 2_000;

/// The depth of the data that is discarded. Discarding is a loop.
const DISCARDED: usize = 200_000;

// Returns data of the level's kind that holds the inner data, with a leaf before or after it.
fn nested_once<R: Abort>(b: &Build<'_, R>, level: usize, inner: Data) -> Data {
    match level % 10 {
        0 => b.some(inner),
        1 => b.list([inner, Data::Unit]),
        2 => b.items([Data::Unit, inner]),
        3 => b.pairs([(inner, Data::Unit), (Data::None, Data::Unit)]),
        4 => b.pairs([(Data::None, inner), (Data::Unit, Data::Unit)]),
        5 => b.record([b.member("a", inner), b.member("b", Data::Unit)]),
        6 => b.wrapped(inner),
        7 => b.holding("a", inner),
        8 => b.holding_items("a", [inner, Data::Unit]),
        _ => b.holding_record("a", [b.member("a", Data::Unit), b.member("b", inner)]),
    }
}

// Returns the data inside `levels` levels, of each kind in turn.
fn deep<R: Abort>(b: &Build<'_, R>, levels: usize, bottom: Data) -> Data {
    let mut datum = bottom;
    for level in 0..levels {
        datum = nested_once(b, level, datum);
    }
    datum
}

// Returns the data inside `levels` options.
fn deep_option<R: Abort>(b: &Build<'_, R>, levels: usize, bottom: Data) -> Data {
    let mut datum = bottom;
    for _ in 0..levels {
        datum = b.some(datum);
    }
    datum
}

// Returns the data as the first item of `levels` nested lists.
fn deep_list<R: Abort>(b: &Build<'_, R>, levels: usize, bottom: Data) -> Data {
    let mut datum = bottom;
    for _ in 0..levels {
        datum = b.list([datum, Data::Unit]);
    }
    datum
}

// Asserts that the first two are equal, and that the third differs.
fn compared<R: Abort>(rt: &R, datum: Data, same: Data, other: Data) {
    holds(rt, datum == same, "the same data");
    holds(rt, datum != other, "other data");
    holds(rt, other != same, "other data");
    datum.discard();
    same.discard();
    other.discard();
}

#[test]
fn deep_data_of_each_kind(rt: HostRuntime) {
    let b = Build::new(&rt, rt.alloc());
    let datum = deep(&b, COMPARED, b.text("a"));
    let same = deep(&b, COMPARED, b.text("a"));
    let other = deep(&b, COMPARED, b.text("b"));
    compared(&rt, datum, same, other);
}

#[test]
fn deep_options(rt: HostRuntime) {
    let b = Build::new(&rt, rt.alloc());
    let datum = deep_option(&b, COMPARED, Data::Unit);
    let same = deep_option(&b, COMPARED, Data::Unit);
    let other = deep_option(&b, COMPARED, Data::None);
    compared(&rt, datum, same, other);
}

#[test]
fn deep_lists(rt: HostRuntime) {
    let b = Build::new(&rt, rt.alloc());
    let datum = deep_list(&b, COMPARED, Data::Bool(true));
    let same = deep_list(&b, COMPARED, Data::Bool(true));
    let other = deep_list(&b, COMPARED, Data::Bool(false));
    compared(&rt, datum, same, other);
}

#[test]
fn deep_data_are_discarded(rt: HostRuntime) {
    let b = Build::new(&rt, rt.alloc());
    deep(&b, DISCARDED, Data::Unit).discard();
    deep_option(&b, DISCARDED, Data::Unit).discard();
    deep_list(&b, DISCARDED, Data::Unit).discard();
}
