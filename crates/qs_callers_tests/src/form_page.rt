//! What a form's page says about the wrong fields.

use crate::claims::{holds, is_text};
use qs_callers::{FieldError, Order, Query, explained, submitted};
use std::alloc::Global;
use std::process::Abort;

// Returns what the page says about a form that isn't read as an order.
fn rejected<R: Abort>(rt: &R, alloc: Global, form: &[u8]) -> Vec<FieldError> {
    match submitted::<Order>(alloc, form) {
        Ok(Err(reports)) => reports,
        _ => rt.abort(),
    }
}

// Claims that the page has so many messages, and that the last names this field of the form.
fn is_reported<R: Abort>(
    rt: &R,
    alloc: Global,
    form: &[u8],
    count: usize,
    field: &str,
    message: &str,
) {
    let mut reports = rejected(rt, alloc, form);
    assert!(rt; reports.len() == count, "{reports:?}");
    let Some(report) = reports.pop() else {
        rt.abort()
    };
    assert!(rt; report.field.as_str() == field, "{report:?}");
    assert!(rt; report.message.as_str() == message, "{report:?}");
}

// Claims that the first field that the page names is this one.
fn is_field<R: Abort>(rt: &R, alloc: Global, form: &[u8], field: &str) {
    match rejected(rt, alloc, form).first() {
        Some(report) => is_text(rt, report.field.as_str(), field),
        None => rt.abort(),
    }
}

const WRONG_FIELDS: &[(&[u8], usize, &str, &str)] = &[
    (
        b"name=Alice&address[street]=High+Street&address[city]=Ely&items[]=7&items[]=x",
        1,
        "items[1]",
        "expected u32, found the text \"x\"",
    ),
    (
        b"name=Alice&address[street]=High+Street&items[]=7",
        1,
        "address[city]",
        "expected a text, found nothing",
    ),
    (
        b"address=Ely&items[]=x",
        3,
        "items[0]",
        "expected u32, found the text \"x\"",
    ),
];

#[test]
fn fields_with_what_is_wrong(rt: HostRuntime) {
    let alloc = rt.alloc();
    let good = b"name=Alice&address[street]=High+Street&address[city]=Ely&items[]=7";
    let read = submitted::<Order>(alloc, good);
    holds(&rt, matches!(read, Ok(Ok(_))), "an order");
    for &(form, count, field, message) in WRONG_FIELDS {
        is_reported(&rt, alloc, form, count, field, message);
    }
}

#[test]
fn keys_and_brackets(rt: HostRuntime) {
    let alloc = rt.alloc();
    is_field(&rt, alloc, b"name=Alice&name[first]=Bob", "name[first]");
    is_field(
        &rt,
        alloc,
        b"name=Alice&items[=1&address[city=Ely",
        "items[",
    );
    let form = b"name=Alice&address%5bcity%5d=Ely&items[]=7";
    let message =
        "expected fields, found nothing; the escaped bracket before position 21 is part of the key: form mode reads `%5B` and `%5D` in upper case";
    is_reported(&rt, alloc, form, 1, "address", message);
}

#[test]
fn one_line_for_the_user(rt: HostRuntime) {
    let alloc = rt.alloc();
    let read = explained::<Query>(alloc, "age=24&name=Alice&occupation=Student");
    holds(&rt, matches!(read, Ok(Ok(_))), "a query");
    match explained::<Query>(alloc, "age=300&name=Alice&occupation=Student") {
        Ok(Err(line)) => is_text(
            &rt,
            line.as_str(),
            "age: expected u8, found the text \"300\"",
        ),
        _ => holds(&rt, false, "no line"),
    }
}
