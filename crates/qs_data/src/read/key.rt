//! Reading the key of a map.

ghost use Rattle.std.specs.Prelude.{map, string_bytes};
ghost use Rattle.std.specs.Str.{is_utf8};
ghost use Rattle.qs_spec.specs.Segment.{segment_text};
ghost use Rattle.qs_spec.specs.Scalar.{key_data, name_data};
ghost use Rattle.qs_tree.specs.tree.Views.{segment_of_key};
ghost use Rattle.qs_data.specs.data.Views.{data_of};
ghost use Rattle.qs_data.specs.shape.Views.{key_shape_of};
ghost use Rattle.qs_data.specs.read.internal.GivenText.{utf8_text};
ghost use Rattle.qs_data.specs.read.internal.ReadError.{ReadGives};

use crate::data::Data;
use crate::read::error::Result;
use crate::read::message::{Message, key_error};
use crate::read::scalar::{as_text, bool_data, char_data, signed_data, text_data, unsigned_data};
use crate::shape::{KeyShape, Width};
use itoa::Buffer;
use qs_tree::Key;
use std::alloc::Global;

/// Reads a key from its text; the text of a number is its digits. If the key holds a bracket, the error has a
/// hint.
#[inline(always)]
pub(crate) fn read_key(alloc: Global, shape: &KeyShape, key: &Key<'_>) -> Result<Data>
    ensures { ReadGives data_of (is_utf8 (segment_text (segment_of_key key.now))) result
        (key_data (key_shape_of shape.now) (segment_text (segment_of_key key.now))) }
{
    match key {
        Key::Int(number) => {
            let mut buffer = Buffer::new();
            key_data(alloc, shape, buffer.format(*number).as_bytes())
        }
        Key::String(text) => {
            let bytes = text.as_slice();
            match key_data(alloc, shape, bytes) {
                Ok(data) => Ok(data),
                Err(error) => Err(key_error(alloc, bytes, error)),
            }
        }
    }
}

/// Returns the text of a key; the text of a number is its digits. If the key holds a bracket, the error has a
/// hint.
#[tactic(auto, using(crate::proofs::lemmas::read::FirstEntry::utf8_is, crate::proofs::lemmas::read::Numbers::decimal_text))]
pub(crate) fn key_string(alloc: Global, key: &Key<'_>) -> Result<String>
    ensures { ReadGives string_bytes (is_utf8 (segment_text (segment_of_key key.now))) result (utf8_text (segment_text (segment_of_key key.now))) }
{
    match key {
        Key::Int(number) => {
            let mut buffer = Buffer::new();
            Ok(String::from_str(alloc, buffer.format(*number))?)
        }
        Key::String(text) => {
            let bytes = text.as_slice();
            match as_text(alloc, bytes) {
                Ok(text) => Ok(String::from_str(alloc, text)?),
                Err(error) => Err(key_error(alloc, bytes, error)),
            }
        }
    }
}

/// Reads the text of a key.
#[inline(always)]
pub(crate) fn key_data(alloc: Global, shape: &KeyShape, bytes: &[u8]) -> Result<Data>
    ensures { ReadGives data_of (is_utf8 bytes.now) result (key_data (key_shape_of shape.now) bytes.now) }
{
    match shape {
        KeyShape::Bool => bool_data(alloc, bytes),
        KeyShape::U8 => unsigned_data(alloc, Width::Bits8, bytes),
        KeyShape::U16 => unsigned_data(alloc, Width::Bits16, bytes),
        KeyShape::U32 => unsigned_data(alloc, Width::Bits32, bytes),
        KeyShape::U64 => unsigned_data(alloc, Width::Bits64, bytes),
        KeyShape::I8 => signed_data(alloc, Width::Bits8, bytes),
        KeyShape::I16 => signed_data(alloc, Width::Bits16, bytes),
        KeyShape::I32 => signed_data(alloc, Width::Bits32, bytes),
        KeyShape::I64 => signed_data(alloc, Width::Bits64, bytes),
        KeyShape::Char => char_data(alloc, bytes),
        KeyShape::Text => text_data(alloc, bytes),
        KeyShape::Variants(names) => name_data(alloc, names, bytes),
    }
}

// Reads one of some names.
fn name_data(alloc: Global, names: &Vec<String>, bytes: &[u8]) -> Result<Data>
    ensures { ReadGives data_of (is_utf8 bytes.now) result (name_data (map string_bytes names.now.items) bytes.now) }
{
    for name in names {
        if bytes == name.as_bytes() {
            return Ok(Data::UnitVariant(name.clone()?));
        }
    }
    Err(Message::UnknownVariant(as_text(alloc, bytes)?).error(alloc))
}
