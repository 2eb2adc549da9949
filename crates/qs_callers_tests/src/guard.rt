//! Inputs within limits and beyond them.

use crate::claims::{holds, is_equal, is_text};
use crate::values::ALICE;
use qs_callers::{Rejected, guarded};
use serde_qs::{LimitError, Limits};
use std::alloc::Global;
use std::process::Abort;

// Claims that the input is rejected with this error, which is printed as this text.
fn is_too_large<R: Abort>(rt: &R, alloc: Global, limits: Limits, error: LimitError, shown: &str) {
    match guarded(alloc, limits, ALICE.as_bytes()) {
        Err(Rejected::TooLarge(found)) => is_equal(rt, found, error),
        _ => panic!(rt; "{error}"),
    }
    let text = error.to_string(alloc).expect(rt, "memory");
    is_text(rt, text.as_str(), shown);
}

// Claims that the limits reject the input with this error, or accept it.
fn is_checked<R: Abort>(rt: &R, limits: Limits, input: &[u8], wanted: Result<(), LimitError>) {
    is_equal(rt, limits.check(input), wanted);
}

#[test]
fn within_both_limits(rt: HostRuntime) {
    let limits = Limits::new().max_length(ALICE.len()).max_pairs(3);
    let query = guarded(rt.alloc(), limits, ALICE.as_bytes()).expect(&rt, "a query");
    is_equal(&rt, query.age, 24);
}

#[test]
fn no_limits(rt: HostRuntime) {
    holds(&rt, Limits::default() == Limits::new(), "no limits");
    is_checked(&rt, Limits::default(), ALICE.as_bytes(), Ok(()));
}

#[test]
fn too_long(rt: HostRuntime) {
    let limits = Limits::new().max_length(ALICE.len() - 1);
    let shown = "querystring too long: 36 bytes";
    is_too_large(&rt, rt.alloc(), limits, LimitError::TooLong(36), shown);
}

#[test]
fn too_many_pairs(rt: HostRuntime) {
    let limits = Limits::new().max_pairs(2);
    let error = LimitError::TooManyPairs(18);
    let shown = "too many pairs: the first beyond the limit begins at byte 18";
    is_too_large(&rt, rt.alloc(), limits, error, shown);
}

#[test]
fn pieces_are_counted(rt: HostRuntime) {
    let none = Limits::new().max_pairs(0);
    is_checked(&rt, none, b"", Ok(()));
    is_checked(&rt, none, b"a", Err(LimitError::TooManyPairs(0)));
    let one = Limits::new().max_pairs(1);
    is_checked(&rt, one, b"a=1", Ok(()));
    is_checked(&rt, one, b"&", Err(LimitError::TooManyPairs(1)));
    is_checked(&rt, one, b"a=1&b=2&c=3", Err(LimitError::TooManyPairs(4)));
}

#[test]
fn unread_within_the_limits(rt: HostRuntime) {
    let rejected = guarded(rt.alloc(), Limits::new(), b"name=Alice");
    holds(&rt, matches!(rejected, Err(Rejected::Unread(_))), "a read");
}
