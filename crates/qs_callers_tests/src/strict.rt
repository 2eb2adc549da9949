//! Types that reject unknown keys.

use crate::claims::{are_rejected, is_equal, is_not_utf8, is_rejected, is_written_as_read};
use qs_callers::{Method, Payment};
use serde_qs::{Result, from_str};

#[test]
fn known_keys(rt: HostRuntime) {
    let alloc = rt.alloc();
    let rows = [
        "amount=5&method=Cash",
        "amount=5&method[Card][number]=12&method[Card][year]=2030",
    ];
    for input in rows {
        is_written_as_read::<_, Payment<Method>>(&rt, alloc, input);
    }
}

const UNKNOWN_KEYS: &[(&str, &str)] = &[
    ("amount=5&method=Cash&tip=1", "unknown field `tip`"),
    ("amount=5&tip=1", "missing field `method`"),
    (
        "amount=5&method[Card][number]=12&method[Card][year]=2030&method[Card][month]=1",
        "unknown field `month`",
    ),
    ("amount=5&method[Card]=12", "missing field `number`"),
];

#[test]
fn known_keys_alone(rt: HostRuntime) {
    are_rejected::<_, Payment<Method>>(&rt, rt.alloc(), UNKNOWN_KEYS);
}

const FIRST_ERRORS: &[(&str, &str)] = &[
    // the fields are read first, in their order
    (
        "amount=x&method=Cash&tip=1",
        "invalid type: string, expected u32",
    ),
    ("amount=5&method=Coin&tip=1", "unknown variant `Coin`"),
    ("amount=5&%FF=1", "missing field `method`"),
    // then the smallest key, integers before strings
    ("amount=5&method=Cash&tip=1&fee=2", "unknown field `fee`"),
    ("amount=5&method=Cash&fee=1&7=2", "unknown field `7`"),
    ("amount=5&method=Cash&fee=1&%FF=2", "unknown field `fee`"),
    ("amount=5&method=Cash&=1", "unknown field ``"),
];

#[test]
fn which_error_comes_first(rt: HostRuntime) {
    are_rejected::<_, Payment<Method>>(&rt, rt.alloc(), FIRST_ERRORS);
}

#[test]
fn keys_that_are_hard_to_read(rt: HostRuntime) {
    let alloc = rt.alloc();
    let input = "amount=5&method=Cash&%FF=1";
    let result: Result<Payment<Method>> = from_str(alloc, input);
    is_not_utf8(&rt, result, input);
    let wanted = "unknown field `tip[0]`\n\
        Invalid field contains an encoded bracket -- consider using form encoding mode\n\
        \u{20} https://docs.rs/serde_qs/latest/serde_qs/#query-string-vs-form-encoding";
    let input = "amount=5&method=Cash&tip%5B0%5D=1";
    is_rejected::<_, Payment<Method>>(&rt, alloc, input, wanted);
}

const IN_ANOTHER: &[(&str, &str)] = &[
    ("amount=5&method[]=1", "invalid length 1"),
    ("amount=5&method", "missing field `amount`"),
    (
        "amount=5&method=1",
        "invalid type: string, expected a struct",
    ),
    (
        "amount=5&method[amount]=1&method[method]=2&method[tip]=3",
        "unknown field `tip`",
    ),
];

#[test]
fn one_in_another(rt: HostRuntime) {
    let alloc = rt.alloc();
    // a list is read by the fields' indices; further items are ignored
    let input = "amount=5&method[]=1&method[]=2&method[]=3";
    let payment: Payment<Payment<u8>> = from_str(alloc, input).expect(&rt, "a payment");
    is_equal(&rt, payment.method.amount, 1);
    is_equal(&rt, payment.method.method, 2);
    are_rejected::<_, Payment<Payment<u8>>>(&rt, alloc, IN_ANOTHER);
}

const IN_A_LIST: &str =
    "amount=5&method[0][amount]=1&method[0][method]=2&method[1][amount]=3&method[1][method]=4";

#[test]
fn in_a_list(rt: HostRuntime) {
    let alloc = rt.alloc();
    let payment: Payment<Vec<Payment<u8>>> = is_written_as_read(&rt, alloc, IN_A_LIST);
    is_equal(&rt, payment.method.len(), 2);
    let input =
        "amount=5&method[0][amount]=1&method[0][method]=2&method[1][amount]=3&method[1][method]=4&method[1][tip]=5";
    let wanted = "unknown field `tip`";
    is_rejected::<_, Payment<Vec<Payment<u8>>>>(&rt, alloc, input, wanted);
}
