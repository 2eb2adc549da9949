//! The tree of a querystring: its keys, values and maps, and their laws.

pub(crate) mod byte_order;
pub(crate) mod dropping;
pub(crate) mod entries;
pub(crate) mod key;
pub(crate) mod map;
pub(crate) mod sameness;
mod tree_laws;
pub(crate) mod value;

pub use tree_laws::{equality_of_keys, equality_of_values, order_of_keys};
