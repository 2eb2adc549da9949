//! Why an input isn't read: which part of it, and what was expected there.
//!
//! An [`Error`](qs_data::Error) of reading says what is wrong, but not where. Call [`explain`] after such an error; a call that succeeds
//! pays nothing for it:
//!
//! ```
//! let shape = Person::shape(alloc)?; // a struct with a name, and an age of 8 bits
//! if let Some(explanation) = explain(alloc, Config::new(), &shape, b"name=Alice&age=300")? {
//!     println!(rt; "{explanation}")?; // age: expected u8, found the text "300"
//! }
//! ```
#![tactic(auto)]

mod explaining;
mod explanation;
mod fields;
mod hint;
mod pair_range;
mod state;

pub use explaining::explain;
pub use explanation::Explanation;
pub use fields::explain_fields;
pub use hint::{Hint, find_hint};
pub use pair_range::{PairRange, find_pair};
pub use qs_data::{Actual, Config, Expected, Mismatch, Problem, Segment, Shape};
