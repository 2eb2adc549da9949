//! Tests of `qs_tree`, `qs_data`, `serde_qs` and `qs_explain`, and helpers for tests of other crates: a writer that stops, trees as lines.
#![tactic(auto)]

#[cfg(test)]
mod build;
#[cfg(test)]
mod claims;
#[cfg(test)]
mod configurations;
#[cfg(test)]
mod deep;
#[cfg(test)]
mod errors;
#[cfg(test)]
mod escapes;
#[cfg(test)]
mod explanations;
#[cfg(test)]
mod helpers;
#[cfg(test)]
mod maps;
mod narrow;
#[cfg(test)]
mod notation;
#[cfg(test)]
mod read_back;
#[cfg(test)]
mod reading;
#[cfg(test)]
mod rows;
#[cfg(test)]
mod searches;
#[cfg(test)]
mod tables;
mod tree_line;
#[cfg(test)]
mod trees;
#[cfg(test)]
mod typed;
#[cfg(test)]
mod wrappers;
#[cfg(test)]
mod writing;

pub use narrow::{Narrow, Stop};
pub use tree_line::{Texts, line};
