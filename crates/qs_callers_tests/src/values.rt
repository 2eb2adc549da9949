//! Owned values, and values that many tests read.

use qs_callers::Query;
use qs_tree::{Config, ParsedValue, parse};
use serde_qs::from_str;
use std::alloc::Global;
use std::collections::BTreeMap;
use std::process::Abort;

/// The text of a query.
pub const ALICE: &str = "name=Alice&age=24&occupation=Student";

/// Returns the query of this text.
pub fn alice<R: Abort>(rt: &R, alloc: Global) -> Query {
    from_str(alloc, ALICE).expect(rt, "a query")
}

/// Returns the tree of an input.
pub fn tree<'qs, R: Abort>(rt: &R, alloc: Global, input: &'qs str) -> ParsedValue<'qs> {
    parse(alloc, input.as_bytes(), Config::new()).expect(rt, "a tree")
}

/// Returns the text as an owned string.
pub fn text<R: Abort>(rt: &R, alloc: Global, text: &str) -> String {
    String::from_str(alloc, text).expect(rt, "memory")
}

/// Returns a list of these items.
pub fn list<R: Abort, T: Drop, const N: usize>(rt: &R, alloc: Global, items: [T; N]) -> Vec<T> {
    Vec::from_array(alloc, items).expect(rt, "memory")
}

/// Returns the map with one more entry.
pub fn with<R: Abort, T: Drop>(
    rt: &R,
    alloc: Global,
    mut map: BTreeMap<String, T>,
    key: &str,
    value: T,
) -> BTreeMap<String, T> {
    let old: std::result::Result<Option<T>, _> = map.insert(text(rt, alloc, key), value);
    assert!(rt; old.is_ok());
    map
}

/// Returns a map with one entry.
pub fn one<R: Abort, T: Drop>(rt: &R, alloc: Global, key: &str, value: T) -> BTreeMap<String, T> {
    with(rt, alloc, BTreeMap::new(alloc), key, value)
}
