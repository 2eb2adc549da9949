//! Shapes of a single word.

ghost use Rattle.std.specs.Prelude.{◌≡◌, option_map};
ghost use Rattle.qs_spec.specs.Shape as s;
ghost use Rattle.qs_data.specs.shape.Views.{shape_of, key_shape_of};
ghost use Rattle.qs_c.specs.Notation.{integer, scalar, scalar_key};

use qs_data::{KeyShape, Shape};

/// Returns the scalar shape that the word names, or `None`.
pub(crate) fn scalar(word: &[u8]) -> Option<Shape>
    ensures { option_map shape_of result ≡ scalar word.now }
{
    if word == b"unit".as_slice() {
        Some(Shape::Unit)
    } else if word == b"bool".as_slice() {
        Some(Shape::Bool)
    } else if word == b"char".as_slice() {
        Some(Shape::Char)
    } else if word == b"text".as_slice() {
        Some(Shape::Text)
    } else if word == b"bytes".as_slice() {
        Some(Shape::Bytes)
    } else if word == b"any".as_slice() {
        Some(Shape::Any)
    } else if word == b"ignored".as_slice() {
        Some(Shape::Ignored)
    } else {
        integer(word)
    }
}

// Returns the integer shape that the word names, or `None`.
fn integer(word: &[u8]) -> Option<Shape>
    ensures { option_map shape_of result ≡ integer s.Shape.unsigned s.Shape.signed word.now }
{
    if word == b"u8".as_slice() {
        Some(Shape::U8)
    } else if word == b"u16".as_slice() {
        Some(Shape::U16)
    } else if word == b"u32".as_slice() {
        Some(Shape::U32)
    } else if word == b"u64".as_slice() {
        Some(Shape::U64)
    } else if word == b"i8".as_slice() {
        Some(Shape::I8)
    } else if word == b"i16".as_slice() {
        Some(Shape::I16)
    } else if word == b"i32".as_slice() {
        Some(Shape::I32)
    } else if word == b"i64".as_slice() {
        Some(Shape::I64)
    } else {
        None
    }
}

/// Returns the shape of a map's key that the word names, or `None`.
pub(crate) fn scalar_key(word: &[u8]) -> Option<KeyShape>
    ensures { option_map key_shape_of result ≡ scalar_key word.now }
{
    if word == b"bool".as_slice() {
        Some(KeyShape::Bool)
    } else if word == b"char".as_slice() {
        Some(KeyShape::Char)
    } else if word == b"text".as_slice() {
        Some(KeyShape::Text)
    } else {
        integer_key(word)
    }
}

// Returns the shape of an integer key that the word names, or `None`.
fn integer_key(word: &[u8]) -> Option<KeyShape>
    ensures { option_map key_shape_of result ≡ integer s.KeyShape.unsigned s.KeyShape.signed word.now }
{
    if word == b"u8".as_slice() {
        Some(KeyShape::U8)
    } else if word == b"u16".as_slice() {
        Some(KeyShape::U16)
    } else if word == b"u32".as_slice() {
        Some(KeyShape::U32)
    } else if word == b"u64".as_slice() {
        Some(KeyShape::U64)
    } else if word == b"i8".as_slice() {
        Some(KeyShape::I8)
    } else if word == b"i16".as_slice() {
        Some(KeyShape::I16)
    } else if word == b"i32".as_slice() {
        Some(KeyShape::I32)
    } else if word == b"i64".as_slice() {
        Some(KeyShape::I64)
    } else {
        None
    }
}
