//! Calls for a benchmark in another language: parsing, escapes, reading and writing, with and without types.
#![tactic(auto)]

pub mod derived;
pub mod escaping;
mod loads;
pub mod parsing;
pub mod reading;
mod samples;
mod text;
pub mod typed;
pub mod types;
pub mod writing;
