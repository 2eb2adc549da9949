//! The cases of a table.

use qs_serde::{Config, DuplicateKeyBehavior};

/// A querystring, which type reads it, and how.
#[derive(Clone, Copy)]
pub struct Case<'a> {
    pub config: Config,
    pub name: &'a str,
    pub input: &'a str,
}

impl<'a> Case<'a> {
    /// Returns the case in a line.
    pub fn parse(line: &'a str) -> Option<Case<'a>> {
        let (mode, rest) = line.split_once('\t')?;
        let (max_depth, rest) = rest.split_once('\t')?;
        let (duplicates, rest) = rest.split_once('\t')?;
        let (name, query) = rest.split_once('\t')?;
        let input = query.strip_prefix('?')?;
        let duplicates = match duplicates {
            "last" => DuplicateKeyBehavior::TakeLast,
            _ => DuplicateKeyBehavior::Error,
        };
        let config = Config::new()
            .use_form_encoding(mode == "form")
            .max_depth(max_depth.parse().ok()?)
            .duplicate_key_behavior(duplicates);
        Some(Case {
            config,
            name,
            input,
        })
    }
}
