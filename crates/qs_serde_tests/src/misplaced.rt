//! Events in the wrong place, and a type's own errors: the message says what is wrong.

use qs_serde::{Config, Error, Halt, TextSerializer};
use serde::{Case, Serializer};
use std::alloc::Global;
use std::marker::Brand;
use std::process::Abort;

// Returns a serializer that has written nothing.
fn fresh<R: Abort>(rt: &R, alloc: Global) -> TextSerializer<Brand> {
    TextSerializer::new(alloc, Config::new()).expect(rt, "a serializer")
}

// Claims that the error has this message.
fn says<R: Abort>(rt: &R, halt: Halt, wanted: &str) {
    match halt.into_error(Config::new()) {
        Error::Custom(message) => assert!(rt; message.as_str() == wanted, "{message}"),
        _ => assert!(rt; false, "no message in the place of {wanted}"),
    }
}

// Claims that an event is rejected with this message.
fn is_rejected<R: Abort>(rt: &R, event: Result<(), Halt>, wanted: &str) {
    says(rt, event.expect_err(rt, "an error"), wanted);
}

#[test]
fn events(rt: HostRuntime) {
    let alloc = rt.alloc();
    let mut text = fresh(&rt, alloc);
    is_rejected(&rt, text.end_key(), "a key ended that didn't begin");
    let again = text.bool(true).expect_err(&rt, "an error");
    assert!(rt; matches!(again, Halt::Failed));
    let mut text = fresh(&rt, alloc);
    assert!(rt; text.flatten_next().is_ok());
    let wanted = "only a map or a struct can be flattened";
    is_rejected(&rt, text.bool(true), wanted);
    let mut text = fresh(&rt, alloc);
    let wanted = "a list or a map ended that didn't begin";
    is_rejected(&rt, text.end_map(), wanted);
}

#[test]
fn keys_and_values(rt: HostRuntime) {
    let alloc = rt.alloc();
    let mut text = fresh(&rt, alloc);
    assert!(rt; text.begin_map(None).is_ok());
    let wanted = "a value came in the place of a key";
    is_rejected(&rt, text.bool(true), wanted);
    let mut text = fresh(&rt, alloc);
    assert!(rt; text.begin_map(None).is_ok());
    assert!(rt; text.key_cased("a", Case::AsIs).is_ok());
    let wanted = "a key came in the place of a value";
    is_rejected(&rt, text.key_cased("b", Case::AsIs), wanted);
    let mut text = fresh(&rt, alloc);
    assert!(rt; text.begin_map(None).is_ok());
    assert!(rt; text.key_cased("a", Case::AsIs).is_ok());
    is_rejected(&rt, text.end_map(), "a map ended after a key");
}

#[test]
fn of_a_type(rt: HostRuntime) {
    let text = fresh(&rt, rt.alloc());
    says(&rt, text.custom("no such day"), "no such day");
}
