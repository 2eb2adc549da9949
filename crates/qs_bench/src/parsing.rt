//! Parsing.

use qs_tree::{Config, ParsedValue, parse};
use std::alloc::Global;

/// How many keys a tree has.
#[repr(C)]
#[derive(Drop)]
pub struct Keys {
    /// At its root.
    pub root: usize,
    /// Below its first key.
    pub first: usize,
}

/// Parses the input, counts keys, and drops the tree. Returns whether the input has a tree; if not, nothing is changed.
#[unsafe(no_mangle)]
pub extern "C" fn qs_bench_parse(alloc: Global, input: &[u8], keys: &mut Keys) -> bool {
    let Ok(tree) = parse(alloc, input, Config::new()) else {
        return false;
    };
    *keys = count(&tree);
    true
}

// Counts the keys at the root, and the keys below the first of them.
fn count(tree: &ParsedValue<'_>) -> Keys {
    match tree {
        ParsedValue::Map(map) => Keys {
            root: map.len(),
            first: match map.at(0) {
                Some((_, value)) => len(value),
                None => 0,
            },
        },
        _ => Keys { root: 0, first: 0 },
    }
}

// Returns how many keys a tree has at its root.
fn len(tree: &ParsedValue<'_>) -> usize {
    match tree {
        ParsedValue::Map(map) => map.len(),
        _ => 0,
    }
}
