//! The part that isn't read, and what a type itself rejects.

use crate::claims::{holds, is_text};
use qs_callers::{Age, FieldError, Method, Pair, Payment, Price, Span, explained, submitted};
use serde_qs::{Config, Deserialize, read_explained};
use std::alloc::Global;
use std::collections::BTreeMap;
use std::process::Abort;

/// Inputs, each with its error, which begins with the path.
type Rows<'a> = &'a [(&'a [u8], &'a str)];

// Claims that no `T` is read from any of these inputs, and that the error is printed as the line beside it.
fn are_named<R: Abort, T: Deserialize + Drop>(rt: &R, alloc: Global, rows: Rows<'_>) {
    for &(input, line) in rows {
        is_named::<R, T>(rt, alloc, input, line);
    }
}

// Claims that no `T` is read from the input, and that the error is printed as this line.
fn is_named<R: Abort, T: Deserialize + Drop>(rt: &R, alloc: Global, input: &[u8], line: &str) {
    match read_explained::<T>(alloc, Config::new(), input) {
        Ok(Err(rejection)) => is_text(
            rt,
            rejection.to_string(alloc).expect(rt, line).as_str(),
            line,
        ),
        _ => panic!(rt; "no rejection: {line}"),
    }
}

const AGES: Rows<'static> = &[
    // the whole
    (b"=150", "invalid type: data, expected an age below 150"),
    (b"=256", "invalid type: string, expected u8"),
    (
        b"&",
        "internal error: attempted to deserialize unitialised value",
    ),
    (
        b"a[b",
        "parsing failed with error: 'unexpected end of input while parsing nested key' at position: 4",
    ),
];

const FIELDS: Rows<'static> = &[
    (
        b"a=150&b[]=2",
        "a: invalid type: data, expected an age below 150",
    ),
    (
        b"a=1&b[]=2&b[]=150",
        "b[1]: invalid type: data, expected an age below 150",
    ),
    (
        b"a=1&b[0]=150&b[1]=150",
        "b[0]: invalid type: data, expected an age below 150",
    ),
    (b"a=1&b=x", "b[0]: invalid type: string, expected u8"),
    (b"b[]=2", "a: missing field `a`"),
    // the first of two fields
    (
        b"a=150&b[]=150",
        "a: invalid type: data, expected an age below 150",
    ),
];

const MAPS: Rows<'static> = &[
    (
        b"a[x]=1&a[y]=150&b=1",
        "a[y]: invalid type: data, expected an age below 150",
    ),
    (
        b"a[x%0Ay]=150&b=1",
        "a[x\\u{a}y]: invalid type: data, expected an age below 150",
    ),
    (
        b"a[x]=1&b=150",
        "b: invalid type: data, expected an age below 150",
    ),
];

const NESTED: Rows<'static> = &[
    (
        b"a[a]=1&a[b]=150&b[amount]=1&b[method]=2",
        "a[b]: invalid type: data, expected an age below 150",
    ),
    (
        b"a[a]=1&a[b]=2&b[amount]=1&b[method]=150",
        "b[method]: invalid type: data, expected an age below 150",
    ),
    // an unknown key belongs to the struct that rejects it
    (
        b"a[a]=1&a[b]=2&b[amount]=1&b[method]=2&b[tip]=3",
        "b: unknown field `tip`",
    ),
];

const OTHERS: Rows<'static> = &[
    (
        b"a[]=1&a[]=x&b[a]=1&b[b]=Cash",
        "a[1]: invalid type: string, expected u32",
    ),
    (
        b"a[]=1&a[]=2&b[a]=x&b[b]=Cash",
        "b[a]: invalid type: string, expected u32",
    ),
    // in an enum the variant
    (
        b"a[]=1&a[]=2&b[a]=1&b[b][Card][number]=7&b[b][Card][year]=x",
        "b[b][Card]: invalid type: string, expected u16",
    ),
];

#[test]
fn paths(rt: HostRuntime) {
    let alloc = rt.alloc();
    are_named::<_, Age>(&rt, alloc, AGES);
    are_named::<_, Pair<Age, Vec<Age>>>(&rt, alloc, FIELDS);
    are_named::<_, Pair<BTreeMap<String, Age>, Option<Age>>>(&rt, alloc, MAPS);
    are_named::<_, Pair<Pair<Age, Age>, Payment<Age>>>(&rt, alloc, NESTED);
    are_named::<_, Pair<Span, Pair<Price, Method>>>(&rt, alloc, OTHERS);
}

#[test]
fn a_value(rt: HostRuntime) {
    let alloc = rt.alloc();
    let read = read_explained::<Pair<Age, Age>>(alloc, Config::new(), b"a=1&b=149");
    match read {
        Ok(Ok(pair)) => holds(&rt, pair.b.years() == 149, "an age"),
        _ => panic!(&rt; "no value"),
    }
}

#[test]
fn lines_for_users(rt: HostRuntime) {
    let alloc = rt.alloc();
    let line = match explained::<Pair<Age, Age>>(alloc, "a=1&b=150") {
        Ok(Err(line)) => line,
        _ => rt.abort(),
    };
    is_text(
        &rt,
        line.as_str(),
        "b: invalid type: data, expected an age below 150",
    );
    let mut reports: Vec<FieldError> = match submitted::<Pair<Age, Pair<Age, Age>>>(
        alloc,
        b"a=1&b[a]=2&b[b]=150",
    ) {
        Ok(Err(reports)) => reports,
        _ => rt.abort(),
    };
    let Some(wrong) = reports.pop() else {
        rt.abort()
    };
    is_text(&rt, wrong.field.as_str(), "b[b]");
    is_text(
        &rt,
        wrong.message.as_str(),
        "invalid type: data, expected an age below 150",
    );
}
