//! Data with more keys and names than are compared two by two.

use crate::build::Build;
use crate::claims::{is_equal, made};
use serde_qs::{Config, Data};
use std::process::Abort;

const COUNT: u64 = 50;

// Steps of this length reach each number below `COUNT` once.
const STEP: u64 = 7;

// Returns a map whose keys are the numbers below `COUNT` in no order, and then this one.
fn map<R: Abort>(b: &Build<'_, R>, last: Data) -> Data {
    let mut pairs = Vec::new(b.alloc);
    for place in 0..COUNT {
        let key = Data::Unsigned(place * STEP % COUNT);
        made(b.rt, pairs.push((key, Data::Unit)));
    }
    made(b.rt, pairs.push((last, Data::Unit)));
    Data::Map(pairs)
}

// Returns a struct whose names are `k` and each of these numbers, and then this one.
fn structure<R: Abort>(b: &Build<'_, R>, last: &str) -> Data {
    let mut members = Vec::new(b.alloc);
    for place in 0..COUNT {
        let number = place * STEP % COUNT;
        let name = made(b.rt, format!(in b.alloc; "k{number}"));
        made(b.rt, members.push((name, Data::Unit)));
    }
    made(b.rt, members.push(b.member(last, Data::Unit)));
    Data::Struct(members)
}

// Claims whether the data is plain.
fn is_plain<R: Abort>(b: &Build<'_, R>, data: Data, wanted: bool) {
    let is_plain = data.is_plain(Config::new());
    is_equal(b.rt, is_plain, wanted, data);
}

#[test]
fn keys(rt: HostRuntime) {
    let b = Build::new(&rt, rt.alloc());
    is_plain(&b, map(&b, b.text("a")), true);
    is_plain(&b, map(&b, b.text("50")), true);
    is_plain(&b, map(&b, b.text("0")), false);
    is_plain(&b, map(&b, b.text("49")), false);
    is_plain(&b, map(&b, Data::Signed(-7)), true);
    is_plain(&b, map(&b, Data::Signed(7)), false);
    is_plain(&b, map(&b, Data::Char('9')), false);
    is_plain(&b, map(&b, Data::Bool(true)), true);
}

#[test]
fn names(rt: HostRuntime) {
    let b = Build::new(&rt, rt.alloc());
    is_plain(&b, structure(&b, "k"), true);
    is_plain(&b, structure(&b, "k50"), true);
    is_plain(&b, structure(&b, "k0"), false);
    is_plain(&b, structure(&b, "k49"), false);
}
