//! Requests that are read as types with serde's derives.

use crate::{Config, LimitError, Limits, PathError, QsForm, derived};
use http_uri::Uri;
use serde::Deserialize;
use std::alloc::Global;
use std::process::Abort;

/// A number and a list of numbers.
#[derive(Drop, Deserialize)]
struct Params {
    foo: u64,
    bars: Vec<u64>,
}

/// A text that may be absent.
#[derive(Drop, Deserialize)]
struct Note {
    note: Option<String>,
}

const TARGET: &str = "/test?foo=1&bars[]=0&bars[]=1&limit=100&offset=50&remaining=true";

const BODY: &[u8] = b"foo=1&bars%5B%5D=3&limit=100&offset=50&remaining=true";

// Asserts that these are the parameters.
fn holds<R: Abort>(rt: &R, params: &Params, bars: &[u64]) {
    assert!(rt; params.foo == 1, "foo");
    assert!(rt; params.bars.as_slice() == bars, "bars");
}

// Asserts that the result is an error with this text.
fn fails<R: Abort, T: Drop>(rt: &R, alloc: Global, read: Result<T, PathError>, wanted: &str) {
    let error = read.err().expect(rt, wanted);
    let text = error.to_string(alloc).expect(rt, "a text");
    assert!(rt; text.as_str() == wanted, "{text}");
}

// Asserts that the note of a target is this one, or that it has none.
fn is_noted<R: Abort>(rt: &R, alloc: Global, target: &str, wanted: Option<&str>) {
    let target = Uri::from_str(alloc, target).expect(rt, "a request target");
    let note = derived::query::<Note>(alloc, &target, Config::new()).expect(rt, "a note");
    assert!(rt; note.note.as_deref() == wanted, "note");
}

#[test]
fn queries(rt: HostRuntime) {
    let alloc = rt.alloc();
    let target = Uri::from_str(alloc, TARGET).expect(&rt, "a request target");
    let params = derived::query::<Params>(alloc, &target, Config::new()).expect(&rt, "parameters");
    holds(&rt, &params.into_inner(), &[0, 1]);
    let target = Uri::from_str(alloc, "/test?foo=x").expect(&rt, "a request target");
    let unread = derived::query::<Params>(alloc, &target, Config::new());
    fails(
        &rt,
        alloc,
        unread,
        "foo: invalid type: string, expected u64",
    );
}

#[test]
fn targets_with_a_fragment_and_without_a_query(rt: HostRuntime) {
    let alloc = rt.alloc();
    is_noted(&rt, alloc, "/test?note=a#note=b", Some("a"));
    is_noted(&rt, alloc, "/test", None);
}

#[test]
fn bodies(rt: HostRuntime) {
    let alloc = rt.alloc();
    let config = Config::new().use_form_encoding(true);
    let params = derived::form::<Params>(alloc, BODY, config).expect(&rt, "parameters");
    holds(&rt, &params.into_inner(), &[3]);
    let unread = derived::form::<Params>(alloc, BODY, Config::new());
    fails(&rt, alloc, unread, "missing field `bars`");
}

/// Why a service rejects a form.
#[derive(Drop)]
enum Rejected {
    TooLarge(LimitError),
    Unread(PathError),
}

// Returns the parameters in a form that is within the limits.
fn guarded(alloc: Global, limits: Limits, body: &[u8]) -> Result<QsForm<Params>, Rejected> {
    limits.check(body).map_err(Rejected::TooLarge)?;
    let config = Config::new().use_form_encoding(true);
    derived::form(alloc, body, config).map_err(Rejected::Unread)
}

#[test]
fn limits_in_front(rt: HostRuntime) {
    let alloc = rt.alloc();
    let limits = Limits::new().max_length(100).max_pairs(5);
    assert!(rt; guarded(alloc, limits, BODY).is_ok(), "parameters");
    assert!(rt; matches!(guarded(alloc, limits, b"foo=1"), Err(Rejected::Unread(_))));
    let few = limits.max_pairs(4);
    let wanted = LimitError::TooManyPairs(39);
    assert!(rt;
        matches!(guarded(alloc, few, BODY), Err(Rejected::TooLarge(found)) if found == wanted)
    );
}
