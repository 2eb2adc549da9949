//! Typed calls.

mod config_ext;
mod explained;
mod reading;
mod writing;

pub use config_ext::ConfigExt;
pub use explained::read_explained;
pub use reading::{from_bytes, from_str};
pub use writing::{to_string, to_writer};
