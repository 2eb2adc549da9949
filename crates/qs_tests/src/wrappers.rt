//! Copies of wrapped values, and what they print.

use crate::claims::{holds, is_text, made};
use serde_qs::web::{QsForm, QsQuery};

#[test]
fn queries(rt: HostRuntime) {
    let query = QsQuery(7u8);
    let copy = made(&rt, query.clone());
    holds(&rt, copy == query, "the copy is the same");
    let shown = made(&rt, format!(in rt.alloc(); "{copy} {copy:?}"));
    is_text(&rt, &shown, "7 7", "a query");
}

#[test]
fn forms(rt: HostRuntime) {
    let form = QsForm(7u8);
    let copy = made(&rt, form.clone());
    holds(&rt, copy == form, "the copy is the same");
    let shown = made(&rt, format!(in rt.alloc(); "{copy} {copy:?}"));
    is_text(&rt, &shown, "7 7", "a form");
}
