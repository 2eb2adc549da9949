//! Trees of small inputs, and why other inputs have none.

mod conflicts;
mod counts;
mod form_mode;
mod keys;
mod large;
mod nesting;
mod orders;
mod pushes;
mod rejected;
mod values;

use crate::claims::{is_equal, is_text, made};
use crate::tree_line::{Texts, line};
use qs_tree::{Config, Error, parse};
use serde_qs::ConfigExt;
use std::alloc::Global;
use std::collections::BTreeMap;
use std::process::Abort;

// the texts of errors that several tests name
const VALUE_AND_MAP: &str = "invalid input: the same key is used for both a value and a nested map";

const UNIT_AND_MAP: &str =
    "invalid input: the same key is used for both a unit value and a nested map";

const SEQUENCE_AND_MAP: &str =
    "invalid input: the same key is used for both a sequence and a nested map";

const VALUE_AND_SEQUENCE: &str =
    "invalid input: the same key is used for both a value and a sequence";

const ENDED: &str = "query string ended before expected";

const ENDED_IN_KEY: &str = "unexpected end of input while parsing nested key";

const MAP_IN_SEQUENCE: &str = "unsupported: unable to parse nested maps of unindexed sequences ";

const MIXED_SEQUENCE: &str =
    "unsupported: cannot mix unindexed sequences `abc[]=...` with indexed sequences `abc[0]=...`";

// Returns query mode with this depth limit.
fn query(max_depth: usize) -> Config {
    Config::new().max_depth(max_depth)
}

// Returns form mode with this depth limit.
fn form(max_depth: usize) -> Config {
    query(max_depth).use_form_encoding(true)
}

// Returns the tree of an input as a line.
fn tree<R: Abort>(rt: &R, alloc: Global, config: Config, input: &[u8]) -> String {
    let tree = made(rt, parse(alloc, input, config));
    made(rt, line(alloc, &tree, Texts::Quoted))
}

// Returns the position of a typed call's error, if the input has no tree.
fn typed_position(alloc: Global, config: Config, input: &[u8]) -> Option<usize> {
    let read: Result<BTreeMap<String, String>, Error> = config.deserialize_bytes(alloc, input);
    match read {
        Err(Error::Parse(_, position)) => Some(position),
        _ => None,
    }
}

// Claims that each input has its tree.
fn accept<R: Abort>(rt: &R, alloc: Global, config: Config, rows: &[(&str, &str)]) {
    for (input, wanted) in rows {
        has_tree(rt, alloc, config, input, wanted);
    }
}

// Claims that the input has this tree, and that a typed call finds one.
fn has_tree<R: Abort>(rt: &R, alloc: Global, config: Config, input: &str, wanted: &str) {
    let found = tree(rt, alloc, config, input.as_bytes());
    is_text(rt, &found, wanted, input);
    let position = typed_position(alloc, config, input.as_bytes());
    is_equal(rt, position, None, input);
}

// Claims that each input is rejected at its position with its text.
fn reject<R: Abort>(rt: &R, alloc: Global, config: Config, rows: &[(&str, usize, &str)]) {
    for (input, position, text) in rows {
        reject_bytes(rt, alloc, config, input.as_bytes(), *position, text);
    }
}

// Claims that the input is rejected at this position with this text.
fn reject_bytes<R: Abort>(
    rt: &R,
    alloc: Global,
    config: Config,
    input: &[u8],
    position: usize,
    text: &str,
) {
    match parse(alloc, input, config) {
        Err(Error::Parse(said, at)) => is_equal(rt, (said.as_str(), at), (text, position), input),
        other => panic!(rt; "{input:?}: {other:?}"),
    }
    let typed = typed_position(alloc, config, input);
    is_equal(rt, typed, Some(position), input);
}
