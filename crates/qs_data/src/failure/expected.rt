//! What is expected of a part.

ghost use Rattle.std.specs.Prelude.{◌≡◌, IfOk, map, string_bytes};
ghost use Rattle.qs_data.specs.shape.Views.{shape_of, variants_in};
ghost use Rattle.qs_data.specs.failure.Expected.{Expects, variant_names};

use crate::failure::line::write_bytes;
use crate::shape::{Shape, Variant};
use std::alloc::{AllocError, Global};
use std::fmt;

/// What is expected of a part: the kind of its shape, and for an enum the names of its variants.
///
/// ```
/// let text = Expected::Unsigned(8).to_string(alloc)?; // u8
/// ```
#[derive(Debug, PartialEq, Eq, Drop)]
pub enum Expected {
    /// No value.
    Unit,
    /// `true` or `false`.
    Bool,
    /// An unsigned integer of this many bits.
    Unsigned(u32),
    /// A signed integer of this many bits.
    Signed(u32),
    /// One character.
    Char,
    /// UTF-8 text.
    Text,
    /// A string of bytes.
    Bytes,
    /// A list.
    List,
    /// A list of fixed length.
    Tuple,
    /// Keys and values.
    Map,
    /// The fields of a struct.
    Struct,
    /// A variant of an enum, with one of these names.
    OneOf(Vec<String>),
    /// Any value.
    Anything,
}

impl Expected {
    /// Returns what a shape expects. An option and a newtype expect what their part expects. Allocates for the names of variants.
    pub(crate) fn of(alloc: Global, shape: &Shape) -> Result<Expected, AllocError>
        ensures { IfOk result (λ expected. Expects (shape_of shape.now) expected) }
    {
        Ok(match shape {
            Shape::Unit => Expected::Unit,
            Shape::Bool => Expected::Bool,
            Shape::U8 => Expected::Unsigned(8),
            Shape::U16 => Expected::Unsigned(16),
            Shape::U32 => Expected::Unsigned(32),
            Shape::U64 => Expected::Unsigned(64),
            Shape::I8 => Expected::Signed(8),
            Shape::I16 => Expected::Signed(16),
            Shape::I32 => Expected::Signed(32),
            Shape::I64 => Expected::Signed(64),
            Shape::Char => Expected::Char,
            Shape::Text => Expected::Text,
            Shape::Bytes => Expected::Bytes,
            Shape::Option(part) | Shape::Newtype(part) => return Expected::of(alloc, part),
            Shape::Seq(_) => Expected::List,
            Shape::Tuple(_) => Expected::Tuple,
            Shape::Map(_, _) => Expected::Map,
            Shape::Struct(_) | Shape::StrictStruct(_) => Expected::Struct,
            Shape::Enum(variants) => Expected::OneOf(names_of(alloc, variants)?),
            Shape::Any | Shape::Ignored => Expected::Anything,
        })
    }
}

/// Returns the names of variants.
pub(crate) fn names_of(alloc: Global, variants: &[Variant]) -> Result<Vec<String>, AllocError>
    ensures { IfOk result (λ names. map string_bytes names.items ≡ variant_names (variants_in variants.now)) }
{
    let mut names = Vec::new(alloc);
    for variant in variants {
        names.push(variant.name.clone()?)?;
    }
    Ok(names)
}

impl fmt::Display for Expected {
    fn fmt<W: fmt::Write>(&self, f: &mut fmt::Formatter<W>) -> fmt::Result {
        let name = match self {
            Expected::Unsigned(bits) => return write!(f, "u{bits}"),
            Expected::Signed(bits) => return write!(f, "i{bits}"),
            Expected::OneOf(names) => {
                let names = OneOfNames(names);
                return write!(f, "{names}");
            }
            Expected::Unit => "no value",
            Expected::Bool => "a boolean",
            Expected::Char => "a character",
            Expected::Text => "a text",
            Expected::Bytes => "bytes",
            Expected::List => "a list",
            Expected::Tuple => "a list of fixed length",
            Expected::Map => "keys and values",
            Expected::Struct => "fields",
            Expected::Anything => "a value",
        };
        f.write_str(name)
    }
}

/// Names of variants, printed as ``one of "Card", "Cash"``.
#[derive(Drop)]
pub(crate) struct OneOfNames<'a>(pub(crate) &'a [String]);

impl fmt::Display for OneOfNames<'_> {
    fn fmt<W: fmt::Write>(&self, f: &mut fmt::Formatter<W>) -> fmt::Result {
        if self.0.is_empty() {
            return f.write_str("a variant");
        }
        f.write_str("one of ")?;
        for (i, name) in self.0.iter().enumerate() {
            f.write_str(if i == 0 { "\"" } else { ", \"" })?;
            write_bytes(name.as_bytes(), f)?;
            f.write_str("\"")?;
        }
        Ok(())
    }
}
