//! The messages of reading.

ghost use Rattle.qs_data.specs.read.internal.ReadError.{ReadIsCustom};
ghost use Rattle.qs_data.specs.read.internal.Hint.{IsKeyError};

use crate::read::error::ReadError;
use crate::shape::Width;
use qs_tree::{Error, ParsedValue};
use std::alloc::Global;
use std::fmt;

/// Why a tree doesn't fit a shape.
#[derive(Clone, Copy)]
pub(crate) enum Message<'a> {
    /// The tree holds nothing at all.
    Uninitialized,
    /// A key that isn't the next index.
    MissingIndex {
        due: usize,
        index: u32,
    },
    /// More items than there are indices.
    TooManyElements,
    /// Several values, but one is expected.
    SeveralValues,
    /// Another kind of value, or a string that can't be parsed as one.
    InvalidType {
        found: Unexpected,
        expected: Expected,
    },
    /// No key with this field's name.
    MissingField(&'a str),
    /// Two keys with this field's name.
    DuplicateField(&'a str),
    /// A key with this text, which no field has.
    UnknownField(&'a str),
    /// No variant of this name.
    UnknownVariant(&'a str),
    /// Too few items: only this many.
    InvalidLength(usize),
}

/// What was found instead.
#[derive(Clone, Copy)]
pub(crate) enum Unexpected {
    /// A key without a value.
    Unit,
    /// A text, which may be empty.
    Text,
    /// A list.
    Sequence,
    /// Keys and values.
    Map,
    /// The name of a variant.
    UnitVariant,
}

/// What a shape expects.
#[derive(Clone, Copy)]
pub(crate) enum Expected {
    Unit,
    Bool,
    Unsigned(Width),
    Signed(Width),
    Char,
    Text,
    Bytes,
    Sequence,
    Tuple(usize),
    Map,
    Struct,
    Enum,
    NewtypeVariant,
    TupleVariant,
    StructVariant,
}

impl Message<'_> {
    /// Returns the error with this message, or that an allocation failed.
    pub(crate) fn error(self, alloc: Global) -> ReadError
        ensures { ReadIsCustom result }
    {
        ReadError::saying(alloc, self)
    }

    /// Returns the error of a node that isn't of the expected kind.
    pub(crate) fn mismatch(alloc: Global, value: &ParsedValue<'_>, expected: Expected) -> ReadError
        ensures { ReadIsCustom result }
    {
        let found = match value {
            ParsedValue::Uninitialized => return Message::Uninitialized.error(alloc),
            ParsedValue::NoValue => Unexpected::Unit,
            ParsedValue::Null | ParsedValue::String(_) => Unexpected::Text,
            ParsedValue::Sequence(_) => Unexpected::Sequence,
            ParsedValue::Map(_) => Unexpected::Map,
        };
        Message::InvalidType { found, expected }.error(alloc)
    }

    /// Returns the error of a string that can't be parsed as what is expected.
    pub(crate) fn unreadable(alloc: Global, expected: Expected) -> ReadError
        ensures { ReadIsCustom result }
    {
        let found = Unexpected::Text;
        Message::InvalidType { found, expected }.error(alloc)
    }
}

/// Returns the error of a key that can't be read, with a hint after it if the key holds a bracket.
pub(crate) fn key_error(alloc: Global, key: &[u8], error: ReadError) -> ReadError
    ensures { IsKeyError key.now error result }
{
    if !key.contains(&b'[') {
        return error;
    }
    match Error::from(error) {
        Error::OutOfMemory => ReadError::OutOfMemory,
        error => ReadError::saying(alloc, Hinted { error }),
    }
}

/// An error, and a hint after it.
#[derive(Drop)]
struct Hinted {
    error: Error,
}

impl fmt::Display for Hinted {
    ghost use Rattle.qs_data.specs.read.internal.Hint.{hinted_text};

    ghost output = { λ h. hinted_text h.error };

    fn fmt<W: fmt::Write>(&self, f: &mut fmt::Formatter<W>) -> fmt::Result {
        let error = &self.error;
        write!(
            f,
            "{error}\n\
            Invalid field contains an encoded bracket -- consider using form encoding mode\n\
            \u{20} https://docs.rs/serde_qs/latest/serde_qs/#query-string-vs-form-encoding"
        )
    }
}

impl fmt::Display for Message<'_> {
    fn fmt<W: fmt::Write>(&self, f: &mut fmt::Formatter<W>) -> fmt::Result {
        match self {
            Message::Uninitialized => f.write_str(
                "internal error: attempted to deserialize unitialised value",
            ),
            Message::MissingIndex { due, index } => write!(
                f,
                "missing index, expected: {due} got {index}"
            ),
            Message::TooManyElements => f.write_str(
                "cannot deserialize more than u32::MAX elements",
            ),
            Message::SeveralValues => f.write_str(
                "multiple values provided for non-sequence field",
            ),
            Message::InvalidType { found, expected } => write!(
                f,
                "invalid type: {found}, expected {expected}"
            ),
            Message::MissingField(name) => write!(f, "missing field `{name}`"),
            Message::DuplicateField(name) => write!(f, "duplicate field `{name}`"),
            Message::UnknownField(name) => write!(f, "unknown field `{name}`"),
            Message::UnknownVariant(name) => write!(f, "unknown variant `{name}`"),
            Message::InvalidLength(length) => write!(f, "invalid length {length}"),
        }
    }
}

impl fmt::Display for Unexpected {
    fn fmt<W: fmt::Write>(&self, f: &mut fmt::Formatter<W>) -> fmt::Result {
        f.write_str(match self {
            Unexpected::Unit => "unit value",
            Unexpected::Text => "string",
            Unexpected::Sequence => "sequence",
            Unexpected::Map => "map",
            Unexpected::UnitVariant => "unit variant",
        })
    }
}

impl fmt::Display for Expected {
    fn fmt<W: fmt::Write>(&self, f: &mut fmt::Formatter<W>) -> fmt::Result {
        let name = match self {
            Expected::Tuple(size) => return write!(f, "a tuple of size {size}"),
            Expected::Unsigned(width) => return write!(f, "u{width}"),
            Expected::Signed(width) => return write!(f, "i{width}"),
            Expected::Unit => "unit",
            Expected::Bool => "a boolean",
            Expected::Char => "a character",
            Expected::Text => "a string",
            Expected::Bytes => "a byte array",
            Expected::Sequence => "a sequence",
            Expected::Map => "a map",
            Expected::Struct => "a struct",
            Expected::Enum => "an enum",
            Expected::NewtypeVariant => "newtype variant",
            Expected::TupleVariant => "tuple variant",
            Expected::StructVariant => "struct variant",
        };
        f.write_str(name)
    }
}
