//! A row: an input, a shape, and what is read or reported.

use crate::build::Build;
use crate::claims::{holds, is_equal, is_text, made};
use crate::tables::last_column;
use crate::{notation, tables};
use serde_qs::{Config, Data, Deserializer, Error, Result, Shape};
use std::alloc::Global;
use std::process::Abort;

/// What is printed after the error of a key with a bracket.
const HINT: &str =
    "\nInvalid field contains an encoded bracket -- consider using form encoding mode\n  https://docs.rs/serde_qs/latest/serde_qs/#query-string-vs-form-encoding";

/// How a table says that the error is `Utf8`.
const NOT_UTF8: &str = "not UTF-8";

/// Tries each of the `count` cases of a table.
///
/// A heading is a shape. A case under it has an input, a bar, and the data that the shape reads from the input, or `!` and the text of
/// the error: `not UTF-8` for `Utf8`, and `+ hint` at the end for the hint about form encoding. A case may begin with a configuration
/// and a bar.
pub fn reads_each<R: Abort>(rt: &R, alloc: Global, table: &str, count: usize) {
    let rows = Rows::new(rt, alloc);
    let cases = tables::cases(&rows.build, table, count);
    for (shape, case) in &cases {
        rows.try_case(&notation::shape(&rows.build, shape), case);
    }
}

/// Tries rows under a configuration.
#[derive(Drop)]
pub struct Rows<'r, R: Abort> {
    pub build: Build<'r, R>,
    config: Config,
}

impl<'r, R: Abort> Rows<'r, R> {
    /// Returns rows under the default configuration.
    pub fn new(rt: &'r R, alloc: Global) -> Self {
        Rows {
            build: Build { rt, alloc },
            config: Config::new(),
        }
    }

    // Returns the same under another configuration.
    fn with(&self, config: Config) -> Self {
        let rt = self.build.rt;
        let alloc = self.build.alloc;
        Rows {
            build: Build { rt, alloc },
            config,
        }
    }

    /// Returns the same under another depth limit.
    pub fn deep(&self, max_depth: usize) -> Self {
        let config = self.config.max_depth(max_depth);
        self.with(config)
    }

    /// Returns the same in form mode.
    pub fn form(&self) -> Self {
        let config = self.config.use_form_encoding(true);
        self.with(config)
    }

    // Tries a case of a table.
    fn try_case(&self, shape: &Shape, case: &str) {
        let (rest, outcome) = last_column(case);
        let (rest, input) = last_column(rest);
        let (_, words) = last_column(rest);
        let rows = self.with(tables::configuration(&self.build, words));
        match outcome.strip_prefix("! ") {
            Some(error) => rows.rejects(input, shape, error),
            None => rows.reads(input, shape, notation::data(&self.build, outcome)),
        }
    }

    // Claims that the shape reads nothing from the input, and that the error is the one in the table.
    fn rejects(&self, input: &str, shape: &Shape, error: &str) {
        match error.strip_suffix(" + hint") {
            Some(NOT_UTF8) => self.breaks_and_hints(input, shape),
            Some(text) => self.hints(input, shape, text),
            None if error == NOT_UTF8 => self.breaks(input, shape),
            None => self.says(input, shape, error),
        }
    }

    // Returns what the shape reads from the input.
    fn read(&self, input: &str, shape: &Shape) -> Result<Data> {
        let alloc = self.build.alloc;
        if !shape.is_distinct() {
            self.build.rt.panic(input);
        }
        Deserializer::with_config(alloc, self.config, input.as_bytes())?.read(alloc, shape)
    }

    /// Claims that the shape reads this data from the input, and that it can be copied.
    pub fn reads(&self, input: &str, shape: &Shape, wanted: Data) {
        match self.read(input, shape) {
            Ok(data) => are_copied(&self.build, input, data, wanted),
            Err(error) => panic!(self.build.rt; "{input}: {error}"),
        }
    }

    // Claims that the shape reads nothing from the input, and returns the error.
    fn fails(&self, input: &str, shape: &Shape) -> Error {
        match self.read(input, shape) {
            Ok(data) => panic!(self.build.rt; "{input}: {data:?}"),
            Err(error) => error,
        }
    }

    /// Claims that the shape reads nothing from the input, and that the error has this text.
    pub fn says(&self, input: &str, shape: &Shape, wanted: &str) {
        let rt = self.build.rt;
        let error = self.fails(input, shape);
        let said = made(rt, error.to_string(self.build.alloc));
        is_text(rt, &said, wanted, input);
    }

    // Claims that the shape reads nothing from the input, and that the error has this text, followed by the hint.
    fn hints(&self, input: &str, shape: &Shape, wanted: &str) {
        let wanted = made(
            self.build.rt,
            format!(in self.build.alloc; "{wanted}{HINT}"),
        );
        self.says(input, shape, &wanted);
    }

    // Claims that the input is rejected because a text or a key that is read isn't UTF-8.
    fn breaks(&self, input: &str, shape: &Shape) {
        match self.fails(input, shape) {
            Error::Utf8(_) => {}
            error => panic!(self.build.rt; "{input}: {error}"),
        }
    }

    // Claims that the input is rejected because a key with a bracket isn't UTF-8, and that the hint is given.
    fn breaks_and_hints(&self, input: &str, shape: &Shape) {
        match self.fails(input, shape) {
            Error::Custom(said) => holds(self.build.rt, said.ends_with(HINT), (input, said)),
            error => panic!(self.build.rt; "{input}: {error}"),
        }
    }
}

// Claims that the wanted data was read, and that a copy of it is equal too.
fn are_copied<R: Abort>(b: &Build<'_, R>, input: &str, data: Data, wanted: Data) {
    is_equal(b.rt, &data, &wanted, input);
    let copy = made(b.rt, data.try_clone(b.alloc));
    is_equal(b.rt, &copy, &wanted, input);
}
