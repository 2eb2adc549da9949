//! Querystrings as trees: configuration, errors, escapes, scanner, tree.
//!
//! | module | subject |
//! |---|---|
//! | `config`, `error` | how a querystring is parsed and written, and what goes wrong |
//! | `escape` | decoding, encoding, searches |
//! | `scan` | from bytes to pairs |
//! | `build` | from pairs to a tree |
//! | `tree` | the tree, its keys and its maps |
//! | `parsing` | all of them: from bytes to a tree |
#![tactic(auto)]

mod build;
mod config;
mod error;
mod escape;
mod parsing;
mod scan;
mod tree;

pub use crate::config::{ArrayFormat, Config, DuplicateKeyBehavior};
pub use crate::error::{Error, Result};
pub use crate::escape::{decode, encode, encode_to, find_ampersand, find_encoded, find_escape};
pub use crate::parsing::{parse, parse_with};
pub use crate::scan::cursor::Steps;
pub use crate::tree::key::Key;
pub use crate::tree::map::ParsedMap;
pub use crate::tree::value::ParsedValue;
pub use crate::tree::{equality_of_keys, equality_of_values, order_of_keys};
