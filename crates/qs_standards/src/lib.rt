//! Laws that relate querystrings to two public standards: the form parser of the URL Standard, and the query of RFC 3986. No code runs
//! here.
#![tactic(auto)]

mod examples;
mod forms;
mod texts;
mod trees;
mod uris;

pub use examples::{
    covering_escapes, not_held, percent_decoding, queries_of_uris, read_alike, read_differently,
};
pub use forms::{broken_escapes, kit_parser, names_and_values, pairs_without_depth};
pub use texts::{written_entries_are_forms, written_texts_are_forms};
pub use trees::trees_without_depth;
pub use uris::written_queries_of_uris;
