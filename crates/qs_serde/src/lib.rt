//! Types with serde's derives, read from querystrings and written as them.
//!
//! ```
//! use serde::{Deserialize, Serialize};
//!
//! #[derive(Debug, Drop, PartialEq, Serialize, Deserialize)]
//! struct Query {
//!     name: String,
//!     age: u8,
//! }
//!
//! let query: Query = qs_serde::from_str(alloc, "age=24&name=Alice")?;
//! let text = qs_serde::to_string(alloc, &query)?; // name=Alice&age=24
//! ```
#![tactic(auto)]

mod calls;
pub mod helpers;
mod reading;
mod writing;

pub use calls::{
    explain_bytes, explain_str, from_bytes, from_bytes_with, from_str, from_str_with, to_string,
    to_string_with, to_writer, to_writer_with,
};
pub use qs_tree::{ArrayFormat, Config, DuplicateKeyBehavior, Error, Result};
pub use reading::{Mark, PathError, TreeFormat, values_of_steps};
pub use writing::{
    Halt, Settings, TextSerializer, events_of_data, texts_without_floats, worked_texts,
};
