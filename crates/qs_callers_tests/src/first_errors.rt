//! Enums and tuples in structs and lists: which error is reported if there are several.

use crate::claims::{are_rejected, is_not_utf8, is_read};
use qs_callers::{Method, Pair, Place, Sort, Span};
use serde_qs::{Result, from_bytes};

const OF_AN_ENUM: &[(&str, &str)] = &[
    // the kind of the node, then its name
    ("b=x", "missing field `a`"),
    ("a[]=Fast&b=x", "invalid type: sequence, expected an enum"),
    ("a&b=x", "invalid type: unit value, expected an enum"),
    ("a=&b=x", "invalid type: string, expected an enum"),
    ("a=Fast&b=x", "unknown variant `Fast`"),
    ("a[7]=1&b=x", "unknown variant `7`"),
    ("a[Fast][]=1&a[Relevance]=2&b=x", "unknown variant `Fast`"),
    // then what the variant of the smallest key holds
    (
        "a=By&b=x",
        "invalid type: unit variant, expected newtype variant",
    ),
    (
        "a=Between&b=x",
        "invalid type: unit variant, expected struct variant",
    ),
    ("a[Fast]=1&a[Between]=2&b=x", "missing field `from`"),
    ("a[Between][to]=x&b=x", "missing field `from`"),
    ("a[Between][]=1&b=x", "invalid length 1"),
    (
        "a[Between][from]=x&b[0]=1",
        "invalid type: string, expected u32",
    ),
    ("a[By][x]=1&b=x", "invalid type: map, expected a string"),
    // and then the next field
    ("a[Relevance][x]=1&b=1", "invalid length 1"),
];

#[test]
fn of_an_enum(rt: HostRuntime) {
    are_rejected::<_, Pair<Sort, Span>>(&rt, rt.alloc(), OF_AN_ENUM);
}

const OF_A_TUPLE: &[(&str, &str)] = &[
    // the kind of the node
    (
        "a[0]=x&a[k]=1&b=Fast",
        "invalid type: map, expected a tuple of size 2",
    ),
    (
        "a[0]=1&a[1]=2&a[k]=3&b=At",
        "invalid type: map, expected a tuple of size 2",
    ),
    ("b=Fast", "missing field `a`"),
    // then item by item its index and its reading, and whether one is missing
    ("a&b=Fast", "invalid length 0"),
    ("a=7&b=Fast", "invalid length 1"),
    ("a=x&b=Fast", "invalid type: string, expected u32"),
    ("a[0]=x&b=Fast", "invalid type: string, expected u32"),
    ("a[1]=x&b=Fast", "missing index, expected: 0 got 1"),
    ("a[0]=1&a[2]=x&b=Fast", "missing index, expected: 1 got 2"),
    ("a[0]=x&a[2]=1&b=Fast", "invalid type: string, expected u32"),
    // and then the next field
    (
        "a[0]=1&a[1]=2&a[3]=x&b=At",
        "invalid type: unit variant, expected tuple variant",
    ),
    ("a=1&a=2&b[At]=5", "invalid length 1"),
    (
        "a=1&a=2&b[At][x]=5",
        "invalid type: map, expected tuple variant",
    ),
    ("a=1&a=2&b[At][1]=x", "missing index, expected: 0 got 1"),
    ("a=1&a=2&b[At][0]=x", "invalid type: string, expected i32"),
];

#[test]
fn of_a_tuple(rt: HostRuntime) {
    are_rejected::<_, Pair<Span, Place>>(&rt, rt.alloc(), OF_A_TUPLE);
}

const OF_LISTS: &[(&str, &str)] = &[
    ("a[0][0]=1&a[1][0]=x&b[]=Coin", "invalid length 1"),
    (
        "a[0][0]=1&a[0][1]=x&a[1]=2&b[]=Coin",
        "invalid type: string, expected u32",
    ),
    ("a=&b[]=Cash&b[]=Coin&b[]=Card", "unknown variant `Coin`"),
    (
        "a=&b[]=Cash&b[]=Card&b[]=Coin",
        "invalid type: unit variant, expected struct variant",
    ),
    (
        "a=&b[0][Card][number]=1&b[0][Card][month]=2&b[1]=Coin",
        "missing field `year`",
    ),
    (
        "a=&b[0][Card][number]=1&b[0][Card][year]=2&b[0][Card][month]=2&b[1]=Coin",
        "unknown field `month`",
    ),
    ("a=&b[0][Card]=1&b[1]=Coin", "missing field `number`"),
    ("a=&b[1]=Coin", "missing index, expected: 0 got 1"),
];

#[test]
fn of_lists_of_them(rt: HostRuntime) {
    are_rejected::<_, Pair<Vec<Span>, Vec<Method>>>(&rt, rt.alloc(), OF_LISTS);
}

#[test]
fn of_names_that_are_not_utf8(rt: HostRuntime) {
    let alloc = rt.alloc();
    for input in ["a=%FF&b=x", "a[%FF]=1&b=x", "a[By]=%FF&b=x"] {
        let result: Result<Pair<Sort, Span>> = from_bytes(alloc, input.as_bytes());
        is_not_utf8(&rt, result, input);
    }
}

#[test]
fn what_is_not_read(rt: HostRuntime) {
    let alloc = rt.alloc();
    // what a unit variant holds isn't read
    let pair = Pair {
        a: Sort::Relevance,
        b: Span(1, 2),
    };
    is_read(&rt, alloc, "a[Relevance]=%FF&b=1&b=2", pair);
    let pair = Pair {
        a: Sort::Between { from: 1, to: 2 },
        b: Span(3, 4),
    };
    is_read(&rt, alloc, "a[Between]=1&a[Between]=2&b[]=3&b[]=4", pair);
}
