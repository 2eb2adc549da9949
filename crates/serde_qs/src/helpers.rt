//! Lists in one text: `values=1,2,3`.
//!
//! Each module has `serialize`, from a list to the data of one text, and `deserialize`, from such data to the list. A type
//! calls them in its own `to_data` and `from_data`.
//!
//! | module | delimiter | written in a query |
//! |---|---|---|
//! | [`comma_separated`] | `,` | `values=1,2,3` |
//! | [`pipe_delimited`] | `\|` | `values=1\|2\|3` |
//! | [`space_delimited`] | a space | `values=1+2+3` |
//! | [`generic_delimiter`] | any character, an argument | |
//!
//! A list of one empty string is written like the empty list, and an item that contains the delimiter is read back as two.

pub mod comma_separated;
pub mod generic_delimiter;
mod item;
mod laws;
pub mod pipe_delimited;
mod signed;
pub mod space_delimited;
mod unsigned;

pub use item::Item;
pub use laws::{signed_list_comes_back, unsigned_list_comes_back};
