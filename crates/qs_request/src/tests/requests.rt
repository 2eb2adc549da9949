//! Targets and bodies, with the values that are read from them.

use super::basket::Basket;
use super::params::Params;
use super::users::{Note, Users};
use crate::{form, query};
use http_uri::Uri;
use serde_qs::{Config, Deserialize, Result};
use std::alloc::Global;
use std::process::Abort;

const ESCAPED: &str = "/test?foo=1&bars%5B%5D=3&limit=100&offset=50&remaining=true";

// Returns the value that is read from the query of a target.
fn asked<T: Deserialize>(alloc: Global, target: &Uri) -> Result<T> {
    Ok(query::<T>(alloc, target, Config::new())?.into_inner())
}

// Returns the value that is read from the query of a target under a configuration.
fn asked_by<R: Abort, T: Deserialize>(
    rt: &R,
    alloc: Global,
    target: &str,
    config: Config,
) -> Result<T> {
    let uri = Uri::from_str(alloc, target).expect(rt, "a request target");
    Ok(query::<T>(alloc, &uri, config)?.into_inner())
}

// Asserts that the result is an error with this text.
fn fails<R: Abort, T: Drop>(rt: &R, alloc: Global, read: Result<T>, wanted: &str) {
    let Err(error) = read else {
        assert!(rt; false, "no error");
        return;
    };
    let text = error.to_string(alloc).expect(rt, "a text");
    assert!(rt; text.as_str() == wanted, "{text}");
}

// Asserts that the parameters are these two, and then 100, 50 and true.
fn holds<R: Abort>(rt: &R, params: &Params, foo: u64, bars: &[u64]) {
    assert!(rt; params.foo == foo, "foo");
    assert!(rt; params.bars.as_slice() == bars, "bars");
    assert!(rt; params.limit == 100, "limit");
    assert!(rt; params.offset == 50, "offset");
    assert!(rt; params.remaining, "remaining");
}

#[test]
fn a_query_with_pushes(rt: HostRuntime) {
    let alloc = rt.alloc();
    let target = "/test?foo=1&bars[]=0&bars[]=1&limit=100&offset=50&remaining=true";
    let params: Params = asked_by(&rt, alloc, target, Config::new()).expect(&rt, "parameters");
    holds(&rt, &params, 1, &[0, 1]);
    let users: Users = asked_by(&rt, alloc, "/users?id[]=1124&id[]=88", Config::new()).expect(
        &rt, "users",
    );
    assert!(rt; users.id.as_slice() == [1124, 88].as_slice(), "id");
}

#[test]
fn escaped_brackets(rt: HostRuntime) {
    let alloc = rt.alloc();
    let unread = asked_by::<_, Params>(&rt, alloc, ESCAPED, Config::new());
    fails(&rt, alloc, unread, "missing field `bars`");
    let config = Config::new().use_form_encoding(true);
    let params: Params = asked_by(&rt, alloc, ESCAPED, config).expect(&rt, "parameters");
    holds(&rt, &params, 1, &[3]);
}

#[test]
fn no_query(rt: HostRuntime) {
    let alloc = rt.alloc();
    let unread = asked_by::<_, Params>(&rt, alloc, "/test", Config::new());
    fails(&rt, alloc, unread, "missing field `foo`");
    let note: Note = asked_by(&rt, alloc, "/test", Config::new()).expect(&rt, "a note");
    assert!(rt; note.note.is_none(), "note");
}

#[test]
fn a_fragment_is_no_part_of_the_query(rt: HostRuntime) {
    let alloc = rt.alloc();
    let target = Uri::from_str(alloc, "/test?note=a#note=b").expect(&rt, "a request target");
    let note: Note = asked(alloc, &target).expect(&rt, "a note");
    let Some(text) = note.note else {
        assert!(rt; false, "no note");
        return;
    };
    assert!(rt; text.as_str() == "a", "{text}");
}

#[test]
fn bodies(rt: HostRuntime) {
    let alloc = rt.alloc();
    let config = Config::new().use_form_encoding(true);
    let escaped = b"foo=1&bars%5B%5D=3&limit=100&offset=50&remaining=true";
    let params = form::<Params>(alloc, escaped, config)
        .expect(&rt, "parameters")
        .into_inner();
    holds(&rt, &params, 1, &[3]);
    let indexed = b"foo=1&bars[0]=3&limit=100&offset=50&remaining=true";
    let params = form::<Params>(alloc, indexed, Config::new())
        .expect(&rt, "parameters")
        .into_inner();
    holds(&rt, &params, 1, &[3]);
}

#[test]
fn a_body_in_both_modes(rt: HostRuntime) {
    let alloc = rt.alloc();
    let body = b"foo=1&bars%5B%5D=3";
    let config = Config::new().use_form_encoding(true);
    let basket = form::<Basket>(alloc, body, config).expect(&rt, "a basket");
    assert!(rt; basket.foo == 1, "foo");
    assert!(rt; basket.bars.as_slice() == [3].as_slice(), "bars");
    let unread = form::<Basket>(alloc, body, Config::new());
    fails(&rt, alloc, unread, "missing field `bars`");
}
