//! Written texts, and what was written before an error.

mod errors;
mod keys;
mod lists;
mod scalars;
mod variants;
mod writers;

use crate::build::Build;
use crate::claims::{fails, holds, is_equal, is_text, made};
use crate::tables::last_column;
use crate::{notation, tables};
use serde_qs::{ByWrite, Config, Data, Error, Serializer};
use std::alloc::Global;
use std::process::Abort;

/// Claims that the data is written as this text.
pub fn writes<R: Abort>(b: &Build<'_, R>, config: Config, datum: &Data, wanted: &str) {
    let mut serializer = Serializer::new(Vec::new(b.alloc), config);
    let outcome = serializer.serialize(b.alloc, datum);
    holds(b.rt, outcome.is_ok(), wanted);
    is_equal(
        b.rt,
        written(serializer).as_slice(),
        wanted.as_bytes(),
        wanted,
    );
}

// Returns what a serializer has written.
fn written(serializer: Serializer<ByWrite<Vec<u8>>>) -> Vec<u8> {
    serializer.into_sink().into_writer()
}

// Claims that the data causes this error. This text is written before it, and nothing after it.
fn stops<R: Abort>(b: &Build<'_, R>, config: Config, datum: &Data, wanted: &str, said: &str) {
    let mut serializer = Serializer::new(Vec::new(b.alloc), config);
    let error = fails(b.rt, serializer.serialize(b.alloc, datum));
    let text = made(b.rt, error.to_string(b.alloc));
    is_text(b.rt, &text, said, wanted);
    let error = fails(b.rt, serializer.serialize(b.alloc, datum));
    holds(b.rt, matches!(error, Error::Failed), said);
    is_equal(
        b.rt,
        written(serializer).as_slice(),
        wanted.as_bytes(),
        said,
    );
}

/// Tries each of the `count` cases of a table.
///
/// A heading is data. A case under it has the text that the data is written as and, if writing ends with an error, a bar, `!` and the
/// text of the error. A case may begin with a configuration and a bar.
pub fn writes_each<R: Abort>(rt: &R, alloc: Global, table: &str, count: usize) {
    let b = Build::new(rt, alloc);
    for (data, case) in &tables::cases(&b, table, count) {
        try_case(&b, &notation::data(&b, data), case);
    }
}

// Tries a case of a table.
fn try_case<R: Abort>(b: &Build<'_, R>, data: &Data, case: &str) {
    let (rest, last) = last_column(case);
    match last.strip_prefix("! ") {
        Some(error) => {
            let (words, text) = last_column(rest);
            stops(b, configuration(b, words), data, text, error);
        }
        None => writes(b, configuration(b, rest), data, last),
    }
}

// Returns the configuration in the last column.
fn configuration<R: Abort>(b: &Build<'_, R>, columns: &str) -> Config {
    let (_, words) = last_column(columns);
    tables::configuration(b, words)
}
