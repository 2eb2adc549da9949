//! The types that typed calls read and write.

mod nested;
mod person;
mod record;

pub use nested::{Fifth, Fourth, Nested, Second, Third};
pub use person::{Ids, Person};
pub use record::{Address, Record};
