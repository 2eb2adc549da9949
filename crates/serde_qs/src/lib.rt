//! Querystrings with nested values, read and written.
//!
//! A flat querystring such as `name=Alice&age=24` is a list of names and values. Here a key may be nested by brackets, as in
//! `user[name]=Alice&user[langs][0]=en`, so that a querystring can hold structs, lists, maps and enums inside one another.
//!
//! A type of your own is read by [`from_str`] and written by [`to_string`]:
//!
//! ```
//! use serde_qs::{from_str, to_string};
//!
//! let query: Query = from_str(alloc, "age=24&name=Alice")?;
//! let text = to_string(alloc, &query)?; // name=Alice&age=24
//! ```
//!
//! A struct or an enum gets this by [`Compound`], from the names and types of its parts; docs/TYPES.md shows how. [`ConfigExt`] has the
//! same calls under a [`Config`].
//!
//! # Without a type
//!
//! A [`Shape`] says what is read, and [`Data`] is what is read and written. Both follow serde's data model.
//!
//! ```
//! use serde_qs::{Config, Deserializer, Error, Serializer, Shape};
//!
//! // a struct of a text `name` and a small number `age`
//! let shape = Shape::Struct(fields);
//! if !shape.is_distinct() {
//!     return Err(Error::custom(alloc, "two fields have one name", &shape));
//! }
//! let deserializer = Deserializer::with_config(alloc, Config::new(), b"age=24&name=Alice")?;
//! let person = deserializer.read(alloc, &shape)?;
//!
//! // name=Alice&age=24
//! let mut serializer = Serializer::new(&mut out, Config::new());
//! serializer.serialize(alloc, &person)?;
//! ```
//!
//! # Two encodings
//!
//! By default a space is `+`, and bytes that the query of a URL may hold as they are aren't escaped: `name=John+Doe&langs[0]=en`. Form
//! encoding, [`Config::use_form_encoding`], escapes all but letters, digits and `*-._`, the brackets of keys too:
//! `name=John%20Doe&langs%5B0%5D=en`. When reading, it treats escaped brackets as brackets.
//!
//! # Repeated keys
//!
//! If a scalar has several values, the last one is taken, or they are rejected: [`DuplicateKeyBehavior`].
//!
//! # Lists
//!
//! The index of a list's element is written as a number, as empty brackets, or not at all: [`ArrayFormat`].
//!
//! # Memory
//!
//! A call that allocates is passed the allocator, and returns [`Error::OutOfMemory`] if an allocation failed.
#![tactic(auto)]

mod calls;
mod compound;
pub mod helpers;
mod laws;
mod limits;
mod parts;
mod path;
mod traits;
mod types;
pub mod web;

pub use calls::{ConfigExt, from_bytes, from_str, read_explained, to_string, to_writer};
pub use compound::{
    Compound, Defaulted, Destination, Enum, FieldReferences, FieldType, Fields, HoldsFields,
    ItemReferences, Last, ListedReferences, Newtype, OneOf, Optional, OrDefault, Out, Parts,
    Payload, References, SkipNone, Source, StrictStruct, Struct, Tuple, TupleItems, Variants,
    newtype_struct, newtype_variant, struct_of, struct_variant, tuple_struct, tuple_variant,
    unit_variant,
};
pub use laws::value_comes_back;
pub use limits::{LimitError, Limits};
pub use path::{Path, Rejection, Step};
pub use qs_data::{
    ByWrite, Data, Deserializer, Deserializer as QsDeserializer, Field, KeyShape, Reader, Scalar,
    Serializer, Serializer as QsSerializer, Shape, Sink, Stop, Variant, VariantKind, WriteResult,
    Writer,
};
pub use qs_tree::{ArrayFormat, Config, DuplicateKeyBehavior, Error, ParsedValue, Result};
pub use traits::{Deserialize, RoundTrip, Serialize, unexpected};
pub use types::{Comma, Delimited, Delimiter, Pipe, Space, WholeNumber};
