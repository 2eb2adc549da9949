//! Reading data by a shape, and writing data.
#![tactic(auto)]

mod data;
mod failure;
mod read;
mod shape;
mod write;

pub use data::{Data, equality_of_data};
pub use failure::{Actual, Expected, Failure, Mismatch, OneLine, Problem, Segment, Unread};
pub use qs_tree::{ArrayFormat, Config, DuplicateKeyBehavior, Error, Result};
pub use read::{
    BrokenKey, Deserializer, FieldNames, Found, NodeEntries, NodeItems, ReadError, Reader,
    UnknownKeys, find_value, read_value, read_with_path,
};
pub use shape::{Field, KeyShape, Shape, Variant, VariantKind, Width};
pub use write::{ByWrite, Scalar, Serializer, Sink, Stop, WriteResult, Writer};
