//! Lists in one text, for `#[serde(with = ..)]`.
//!
//! ```
//! #[derive(Drop, Serialize, Deserialize)]
//! struct Query {
//!     #[serde(with = "qs_serde::helpers::comma_separated")]
//!     values: Vec<u8>,
//! }
//!
//! let query: Query = qs_serde::from_str(alloc, "values=1,2,3")?; // 1, 2 and 3
//! ```
//!
//! | module | delimiter | written in a query |
//! |---|---|---|
//! | [`comma_separated`] | `,` | `values=1,2,3` |
//! | [`pipe_delimited`] | `\|` | `values=1\|2\|3` |
//! | [`space_delimited`] | a space | `values=1+2+3` |
//! | [`generic_delimiter`] | any character, an argument | |
//!
//! The items may be of any type that is printed as one text and read from it. A list of one empty string is written like the empty list,
//! and an item that contains the delimiter is read back as two.

pub mod comma_separated;
pub mod generic_delimiter;
pub mod pipe_delimited;
pub mod space_delimited;
