//! The traits for types of std, and for lists in one text.

mod delimited;
mod lists;
mod maps;
mod options;
mod scalars;
mod signed;
mod unsigned;

pub use delimited::{Comma, Delimited, Delimiter, Pipe, Space, WholeNumber};
