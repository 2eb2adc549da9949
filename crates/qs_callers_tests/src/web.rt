//! Wrapped values, and errors that a caller makes.

use crate::claims::{holds, is_equal, is_text};
use crate::values::text;
use qs_callers::{
    Query, copied_form, copied_query, form_inside, form_text, is_same_form, is_same_query,
    order_of_forms, order_of_queries, partial_order_of_forms, partial_order_of_queries,
    query_inside, query_text, set_form, set_query,
};
use serde_qs::web::{QsForm, QsQuery};
use serde_qs::{Config, ConfigExt, Error, from_str};
use std::alloc::Global;
use std::cmp::Ordering;
use std::process::Abort;
use std::{io, str};

#[test]
fn a_query(rt: HostRuntime) {
    let alloc = rt.alloc();
    let input = "name=Alice&age=24&occupation=Student";
    let mut query: QsQuery<Query> = QsQuery(from_str(alloc, input).expect(&rt, "a query"));
    is_equal(&rt, query.age, 24);
    query.age = 25;
    is_equal(&rt, query.0.age, 25);
    is_equal(&rt, query_inside(&query).age, 25);
    is_text(&rt, query.into_inner().name.as_str(), "Alice");
}

#[test]
fn a_query_of_a_number(rt: HostRuntime) {
    let mut number = QsQuery(7u8);
    set_query(&mut number, 8);
    holds(&rt, is_same_query(&number, &QsQuery(8)), "8 and 8");
    holds(&rt, !is_same_query(&number, &QsQuery(7)), "8 and 7");
    is_equal(&rt, copied_query(&number).expect(&rt, "memory"), 8);
}

#[test]
fn orders_of_queries(rt: HostRuntime) {
    let order = order_of_queries(&QsQuery(7u8), &QsQuery(8));
    is_equal(&rt, order, Ordering::Less);
    let order = partial_order_of_queries(&QsQuery(9u8), &QsQuery(8));
    is_equal(&rt, order, Some(Ordering::Greater));
}

#[test]
fn a_form(rt: HostRuntime) {
    let alloc = rt.alloc();
    let input = "name=John%20Doe&age=24&occupation=Student";
    let config = Config::new().use_form_encoding(true);
    let read: Query = config.deserialize_str(alloc, input).expect(&rt, "a form");
    let mut form = QsForm(read);
    is_text(&rt, form.name.as_str(), "John Doe");
    form.age = 25;
    is_equal(&rt, form.0.age, 25);
    is_equal(&rt, form_inside(&form).age, 25);
    is_text(&rt, form.into_inner().occupation.as_str(), "Student");
}

#[test]
fn a_form_of_a_number(rt: HostRuntime) {
    let mut number = QsForm(7u8);
    set_form(&mut number, 8);
    holds(&rt, is_same_form(&number, &QsForm(8)), "8 and 8");
    holds(&rt, !is_same_form(&number, &QsForm(7)), "8 and 7");
    is_equal(&rt, copied_form(&number).expect(&rt, "memory"), 8);
}

#[test]
fn orders_of_forms(rt: HostRuntime) {
    let order = order_of_forms(&QsForm(7u8), &QsForm(8));
    is_equal(&rt, order, Ordering::Less);
    let order = partial_order_of_forms(&QsForm(9u8), &QsForm(8));
    is_equal(&rt, order, Some(Ordering::Greater));
}

#[test]
fn shown_as_the_value_inside(rt: HostRuntime) {
    let alloc = rt.alloc();
    let query = QsQuery(text(&rt, alloc, "a b"));
    let form = QsForm(text(&rt, alloc, "c"));
    let shown = format!(in alloc; "{query} {query:?} {form} {form:?}").expect(&rt, "memory");
    is_text(&rt, shown.as_str(), "a b \"a b\" c \"c\"");
}

#[test]
fn text_of_the_value_inside(rt: HostRuntime) {
    let alloc = rt.alloc();
    let number = query_text(alloc, &QsQuery(7u8)).expect(&rt, "memory");
    is_text(&rt, number.as_str(), "7");
    let number = form_text(alloc, &QsForm(7u8)).expect(&rt, "memory");
    is_text(&rt, number.as_str(), "7");
}

// Claims that the error is printed as this text.
fn is_shown<R: Abort>(rt: &R, alloc: Global, error: Error, wanted: &str) {
    let shown = format!(in alloc; "{error}").expect(rt, "memory");
    is_text(rt, shown.as_str(), wanted);
}

#[test]
fn errors_of_a_caller(rt: HostRuntime) {
    let alloc = rt.alloc();
    let wanted = "cannot deserialize bool at the top level.Try deserializing into a struct.";
    is_shown(&rt, alloc, Error::top_level(alloc, "bool"), wanted);
    let error = Error::custom(alloc, "too many", &());
    is_shown(&rt, alloc, error, "too many");
    let error = Error::parse_err(alloc, "no digit", 3);
    let wanted = "parsing failed with error: 'no digit' at position: 3";
    is_shown(&rt, alloc, error, wanted);
}

#[test]
fn errors_of_streams_and_numbers(rt: HostRuntime) {
    let error = Error::from(io::Error::from(io::ErrorKind::Other));
    holds(&rt, matches!(error, Error::Io(_)), "a stream's error");
    if let Err(cause) = "x".parse::<u8>() {
        let error = Error::from(cause);
        holds(&rt, matches!(error, Error::ParseInt(_)), "a number's error");
    }
}

#[test]
fn errors_of_texts(rt: HostRuntime) {
    if let Err(cause) = str::from_utf8(b"\xFF") {
        let error = Error::from(cause);
        holds(&rt, matches!(error, Error::Utf8(_)), "a text's error");
    }
    let mut bytes = Vec::new(rt.alloc());
    bytes.push(255).expect(&rt, "memory");
    if let Err(cause) = String::from_utf8(bytes) {
        let error = Error::from(cause);
        holds(&rt, matches!(error, Error::FromUtf8(_)), "a string's error");
    }
}
