//! Scalars and keys that fit a shape.

ghost use Rattle.std.specs.Prelude.{◌≡◌, map, string_bytes};
ghost use Rattle.std.specs.List.{list_all};
ghost use Rattle.std.specs.Str.{is_utf8};
ghost use Rattle.qs_spec.specs.Shape as s;
ghost use Rattle.qs_spec.specs.Fits.{fits, fits_key, is_scalar, is_byte};
ghost use Rattle.qs_data.specs.data.Views.{data_of};
ghost use Rattle.qs_data.specs.shape.Views.{key_shape_of};
ghost use Rattle.qs_data.specs.shape.Widths.{bits_of};

use crate::data::Data;
use crate::shape::distinct::is_name;
use crate::shape::{KeyShape, Width};

/// Returns whether data is the unit.
pub(super) fn is_unit(datum: &Data) -> bool
    ensures { result ≡ fits s.Shape.unit (data_of datum.now) }
{
    matches!(datum, Data::Unit)
}

/// Returns whether data is a boolean.
pub(super) fn is_bool(datum: &Data) -> bool
    ensures shape { result ≡ fits s.Shape.boolean (data_of datum.now) }
    ensures key { result ≡ fits_key s.KeyShape.boolean (data_of datum.now) }
{
    matches!(datum, Data::Bool(_))
}

/// Returns whether data is an unsigned number of this width.
pub(super) fn is_unsigned(width: Width, datum: &Data) -> bool
    ensures shape { result ≡ fits (s.Shape.unsigned (bits_of width)) (data_of datum.now) }
    ensures key { result ≡ fits_key (s.KeyShape.unsigned (bits_of width)) (data_of datum.now) }
{
    match datum {
        Data::Unsigned(n) => *n <= width.unsigned_max(),
        _ => false,
    }
}

/// Returns whether data is a signed number of this width.
pub(super) fn is_signed(width: Width, datum: &Data) -> bool
    ensures shape { result ≡ fits (s.Shape.signed (bits_of width)) (data_of datum.now) }
    ensures key { result ≡ fits_key (s.KeyShape.signed (bits_of width)) (data_of datum.now) }
{
    match datum {
        Data::Signed(n) => width.signed_min() <= *n && *n <= width.signed_max(),
        _ => false,
    }
}

/// Returns whether data is a character.
pub(super) fn is_char(datum: &Data) -> bool
    ensures shape { result ≡ fits s.Shape.character (data_of datum.now) }
    ensures key { result ≡ fits_key s.KeyShape.character (data_of datum.now) }
{
    match datum {
        Data::Char(c) => is_any_char(*c),
        _ => false,
    }
}

// Returns whether each character is a Unicode scalar value.
fn is_any_char(c: char) -> bool
    ensures { result ≡ is_scalar c }
{
    let _code = c;
    true
}

/// Returns whether data is a text.
pub(super) fn is_text(datum: &Data) -> bool
    ensures shape { result ≡ fits s.Shape.text (data_of datum.now) }
    ensures key { result ≡ fits_key s.KeyShape.text (data_of datum.now) }
{
    match datum {
        Data::Text(text) => is_any_text(text),
        _ => false,
    }
}

/// Returns whether each text, also a name, is UTF-8.
#[tactic(auto, using(crate::proofs::lemmas::shape::Fitting::name_is_utf8))]
pub(super) fn is_any_text(text: &String) -> bool
    ensures { result ≡ is_utf8 (string_bytes text.now) }
{
    let _text = text;
    true
}

/// Returns whether data is bytes.
pub(super) fn is_bytes(datum: &Data) -> bool
    ensures { result ≡ fits s.Shape.bytes (data_of datum.now) }
{
    match datum {
        Data::Bytes(bytes) => are_bytes(bytes),
        _ => false,
    }
}

// Returns whether each byte is below 256.
#[tactic(auto, using(crate::proofs::lemmas::shape::Fitting::all_bytes))]
fn are_bytes(bytes: &[u8]) -> bool
    ensures { result ≡ list_all is_byte bytes.now }
{
    let _bytes = bytes;
    true
}

/// Returns whether data fits the shape of a key.
pub(super) fn fits_key(key: &KeyShape, datum: &Data) -> bool
    ensures { result ≡ fits_key (key_shape_of key.now) (data_of datum.now) }
{
    match key {
        KeyShape::Bool => is_bool(datum),
        KeyShape::U8 => is_unsigned(Width::Bits8, datum),
        KeyShape::U16 => is_unsigned(Width::Bits16, datum),
        KeyShape::U32 => is_unsigned(Width::Bits32, datum),
        KeyShape::U64 => is_unsigned(Width::Bits64, datum),
        KeyShape::I8 => is_signed(Width::Bits8, datum),
        KeyShape::I16 => is_signed(Width::Bits16, datum),
        KeyShape::I32 => is_signed(Width::Bits32, datum),
        KeyShape::I64 => is_signed(Width::Bits64, datum),
        KeyShape::Char => is_char(datum),
        KeyShape::Text => is_text(datum),
        KeyShape::Variants(names) => is_named(names, datum),
    }
}

// Returns whether data is a unit variant of one of the names.
fn is_named(names: &Vec<String>, datum: &Data) -> bool
    ensures { result ≡ fits_key (s.KeyShape.variants (map string_bytes names.now.items)) (data_of datum.now) }
{
    match datum {
        Data::UnitVariant(name) => is_name(names, name) && is_any_text(name),
        _ => false,
    }
}
