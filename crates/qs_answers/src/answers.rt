//! What the program prints.

mod calls;
mod trees;
mod typed;
mod written;

pub use trees::trees;
pub use typed::{Question, answer_about};
