//! Escapes: percent-decoding and percent-encoding, and the searches for the bytes that they change.

mod copying;
mod decoding;
mod encoding;
mod search;

pub use decoding::decode;
pub(crate) use decoding::unescape_unless;
pub use encoding::{encode, encode_to};
pub(crate) use search::{CLASSES, CLOSE, ESCAPE, OPEN, SEPARATOR, find_value_end};
pub use search::{find_ampersand, find_encoded, find_escape};
