//! Querystrings for programs in other languages: a static library of calls over bytes.
//!
//! `include/serde_qs.h` declares the calls, and docs/LIBRARY.md describes them. Each call writes its result into the caller's buffer,
//! and keeps no memory.
#![tactic(auto)]

mod answer;
mod errors;
pub mod escaping;
pub mod explaining;
mod failure;
pub mod fields;
pub mod getting;
mod limits;
mod notation;
mod path;
pub mod reading;
mod settings;
mod showing;
mod taking;
mod trees;
pub mod version;
pub mod writing;

pub use answer::Answer;
pub use settings::Settings;
