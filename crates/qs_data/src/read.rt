//! Parsing a querystring, and reading its tree by a shape.

mod any;
mod by_shape;
mod deserializer;
mod error;
mod fields;
mod items;
mod key;
mod key_test;
mod keys;
mod lists;
mod maps;
mod message;
mod nested;
mod node;
mod reader;
mod scalar;
mod unknown;
mod variants;

pub use by_shape::Reader;
pub use deserializer::Deserializer;
pub use error::ReadError;
pub use items::NodeItems;
pub(crate) use key::read_key;
pub use key_test::BrokenKey;
pub(crate) use key_test::is_text;
pub use keys::{Found, NodeEntries};
pub use node::{find_value, read_value, read_with_path};
pub use unknown::{FieldNames, UnknownKeys};
