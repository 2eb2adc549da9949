//! Golden cases: data of every kind, read back from its entries in a shuffled order. The cases were made by a model that was
//! written from the documents alone, and agree with the Rust original.

use super::cases::CASES;
use crate::build::Build;
use crate::claims::{holds, is_equal, made, present};
use crate::notation;
use crate::rows::Rows;
use serde_qs::{Config, Shape};
use std::alloc::Global;
use std::process::Abort;

/// Claims that each line is a case whose data comes back, and that there are `count` lines.
pub fn come_back<R: Abort>(rt: &R, alloc: Global, cases: &str, count: usize) {
    let b = Build::new(rt, alloc);
    is_equal(rt, cases.lines().count(), count, "the cases of a table");
    for case in cases.lines() {
        comes_back(&b, case);
    }
}

// Claims that the data of the case is plain, fits its shape, and is read from its text.
fn comes_back<R: Abort>(b: &Build<'_, R>, case: &str) {
    let (mode, rest) = column(b, case);
    let (depth, rest) = column(b, rest);
    let (shape, rest) = column(b, rest);
    let (written, rest) = column(b, rest);
    let (text, read) = rest.split_once('\t').unwrap_or((rest, written));
    let t = rows(b, mode == "form", depth);
    let shape = notation::shape(b, shape);
    is_plain(b, &shape, written, mode == "form");
    t.reads(text, &shape, notation::data(b, read));
}

// Returns the first column of a case, and those after it.
fn column<'t, R: Abort>(b: &Build<'_, R>, case: &'t str) -> (&'t str, &'t str) {
    present(b.rt, case.split_once('\t'), case)
}

// Returns rows in this mode, with this depth limit.
fn rows<'r, R: Abort>(b: &Build<'r, R>, form: bool, depth: &str) -> Rows<'r, R> {
    let depth = made(b.rt, depth.parse::<usize>());
    let rows = Rows::new(b.rt, b.alloc).deep(depth);
    if form { rows.form() } else { rows }
}

// Claims that the data is plain, and fits the shape.
fn is_plain<R: Abort>(b: &Build<'_, R>, shape: &Shape, words: &str, form: bool) {
    let data = notation::data(b, words);
    let config = Config::new().use_form_encoding(form);
    holds(b.rt, data.is_plain(config), words);
    holds(b.rt, shape.fits(&data), words);
}

#[test]
fn each_case(rt: HostRuntime) {
    come_back(&rt, rt.alloc(), CASES, 300);
}
