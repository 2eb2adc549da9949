//! Which part of a tree isn't read, and why.

mod actual;
mod expected;
mod failure;
mod here;
mod line;
mod mismatch;
mod segment;
mod unexpected;

pub use actual::Actual;
pub use expected::Expected;
pub use failure::{Failure, Unread};
pub(crate) use here::{
    at_enum, at_fields, at_keys, at_list, at_map, at_missing, at_shape, at_struct, at_tuple,
    at_unnamed,
};
pub use line::OneLine;
pub use mismatch::{Mismatch, Problem};
pub use segment::Segment;
