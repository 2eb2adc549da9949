//! Random plain data in the formats without indices, read back if its lists can be.

use super::random::{Random, fitting, rows, written};
use crate::build::Build;
use crate::claims::{holds, made};
use serde_qs::{ArrayFormat, Config};
use std::alloc::Global;
use std::process::Abort;

// Returns what precedes the first `=`.
fn key_of(entry: &str) -> &str {
    match entry.split_once('=') {
        Some((key, _)) => key,
        None => entry,
    }
}

// Returns whether an entry of the text has this key.
fn has_entry_of(text: &str, key: &str) -> bool {
    for entry in text.split('&') {
        if key_of(entry) == key {
            return true;
        }
    }
    false
}

// Returns the text with its entries in another order, except that entries with the same key keep theirs: each entry is put after the
// entries so far, or before them if none has its key.
fn shuffled<R: Abort>(b: &Build<'_, R>, random: &mut Random, text: &str) -> String {
    let mut shuffled = String::new(b.alloc);
    for (place, entry) in text.split('&').enumerate() {
        let both = if place == 0 {
            format!(in b.alloc; "{entry}")
        } else if random.below(2) == 0 && !has_entry_of(shuffled.as_str(), key_of(entry)) {
            format!(in b.alloc; "{entry}&{shuffled}")
        } else {
            format!(in b.alloc; "{shuffled}&{entry}")
        };
        shuffled = made(b.rt, both);
    }
    shuffled
}

// Claims for each of 40 seeds that data of this depth comes back, if its lists can. Returns how many of them can.
fn come_back<R: Abort>(
    rt: &R,
    alloc: Global,
    format: ArrayFormat,
    form: bool,
    depth: u32,
) -> usize {
    let config = Config::new()
        .max_depth(10)
        .use_form_encoding(form)
        .array_format(format);
    let t = rows(rt, alloc, form);
    let b = &t.build;
    let mut count: usize = 0;
    for seed in 0..40 {
        let mut random = Random::new(seed);
        let (shape, data) = fitting(b, &mut random, config, form, depth);
        if data.is_listed(config) {
            let text = shuffled(b, &mut random, &written(b, config, &data));
            t.reads(&text, &shape, data);
            count = count.saturating_add(1);
        }
    }
    count
}

// Claims that at each depth, the data of more than four seeds comes back in this format, in query mode and in form mode.
fn enough_come_back<R: Abort>(rt: &R, alloc: Global, format: ArrayFormat) {
    for depth in 1..5 {
        let query = come_back(rt, alloc, format, false, depth);
        let form = come_back(rt, alloc, format, true, depth);
        holds(rt, query > 4 && form > 4, (depth, query, form));
    }
}

#[test]
fn with_empty_brackets(rt: HostRuntime) {
    enough_come_back(&rt, rt.alloc(), ArrayFormat::EmptyIndexed);
}

#[test]
fn without_brackets(rt: HostRuntime) {
    enough_come_back(&rt, rt.alloc(), ArrayFormat::Unindexed);
}
