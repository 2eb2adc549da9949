//! Tables of cases: a line that isn't indented is a heading, and the indented lines under it are its cases, with columns separated by
//! bars. Lines that begin with `#` are comments.

use crate::build::Build;
use crate::claims::{is_equal, made, present};
use serde_qs::{ArrayFormat, Config, DuplicateKeyBehavior};
use std::process::Abort;

/// Returns each case of a table with its heading. Claims that there are `count` cases.
pub fn cases<'t, R: Abort>(
    b: &Build<'_, R>,
    table: &'t str,
    count: usize,
) -> Vec<(&'t str, &'t str)> {
    let mut headings = Vec::new(b.alloc);
    let mut cases = Vec::new(b.alloc);
    for line in table.lines() {
        let case = line.trim();
        if case.is_empty() || case.starts_with('#') {
            continue;
        }
        if line.starts_with(' ') {
            let heading = present(b.rt, headings.last().copied(), case);
            made(b.rt, cases.push((heading, case)));
        } else {
            made(b.rt, headings.push(case));
        }
    }
    is_equal(b.rt, cases.len(), count, "the cases of a table");
    cases
}

/// Returns what precedes the last bar of a case, and what follows it. Without a bar, nothing precedes it and the whole case follows.
pub fn last_column(case: &str) -> (&str, &str) {
    match case.rsplit_once('|') {
        Some((rest, column)) => (rest, column.trim()),
        None => ("", case.trim()),
    }
}

/// Returns the configuration of these words, separated by commas: `form, depth 2, reject duplicates`. `empty` and `unindexed` are
/// formats, and `query` is the default configuration.
pub fn configuration<R: Abort>(b: &Build<'_, R>, words: &str) -> Config {
    let mut config = Config::new();
    for word in words.split(", ") {
        config = configured(b, config, word);
    }
    config
}

// Returns the configuration with what this word sets.
fn configured<R: Abort>(b: &Build<'_, R>, config: Config, word: &str) -> Config {
    match word {
        "" | "query" => config,
        "form" => config.use_form_encoding(true),
        "reject duplicates" => config.duplicate_key_behavior(DuplicateKeyBehavior::Error),
        "empty" => config.array_format(ArrayFormat::EmptyIndexed),
        "unindexed" => config.array_format(ArrayFormat::Unindexed),
        _ => config.max_depth(depth_of(b, word)),
    }
}

// Returns the depth limit that the word sets.
fn depth_of<R: Abort>(b: &Build<'_, R>, word: &str) -> usize {
    let depth = present(b.rt, word.strip_prefix("depth "), word);
    made(b.rt, depth.parse::<usize>())
}
