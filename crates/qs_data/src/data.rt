//! Data: what is read by a shape, and what is written.

mod copy;
mod data;
mod data_laws;
mod discard;
mod listed;
mod plain;
mod sameness;

pub use data::Data;
pub use data_laws::equality_of_data;
pub(crate) use plain::add_text;
