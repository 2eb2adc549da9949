//! The calls.

mod read;
mod write;

pub use read::{explain_bytes, explain_str, from_bytes, from_bytes_with, from_str, from_str_with};
pub use write::{to_string, to_string_with, to_writer, to_writer_with};
