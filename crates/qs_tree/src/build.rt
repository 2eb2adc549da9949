//! From pairs to a tree: the tree under construction, adding a pair to it, and finishing it.

mod add;
mod add_to_value;
pub(crate) mod builder;
pub(crate) mod conflict;
pub(crate) mod descent;
mod distinct;
mod dropping;
mod finishing;
mod unsorted;
