//! Reading one value: a boolean, a number, a character, a text or bytes.

ghost use Rattle.std.specs.Prelude.{◌≡◌, [], IfErr, Some, None, true, option_map};
ghost use Rattle.std.specs.Str.{is_utf8};
ghost use Rattle.qs_spec.specs.Data as d;
ghost use Rattle.qs_spec.specs.Scalar.{boolean_data, unsigned_data, signed_data, character_data, text_data, unsigned_number, signed_number};
ghost use Rattle.qs_spec.specs.Node.{last_item, item_text};
ghost use Rattle.qs_spec.specs.internal.ReadFunction.{read_scalar, read_unit, read_character};
ghost use Rattle.qs_tree.specs.tree.Views.{tree_of, items_from};
ghost use Rattle.qs_data.specs.data.Views.{data_of};
ghost use Rattle.qs_data.specs.read.TreeText.{is_text};
ghost use Rattle.qs_data.specs.read.internal.ReadError.{ReadGives, ReadIsFrugal, ReadIsUtf8};
ghost use Rattle.qs_data.specs.shape.Widths.{bits_of};
ghost use Rattle.qs_data.specs.read.internal.GivenText.{given_text, utf8_text};
ghost use Rattle.std.specs.Prelude.{map};

use crate::data::Data;
use crate::read::by_shape::Reader;
use crate::read::error::{ReadError, Result};
use crate::read::message::{Expected, Message, Unexpected};
use crate::shape::Width;
use qs_tree::ParsedValue;
use std::alloc::Global;
use std::str;

/// Reads the unit from no value or an empty one.
pub(crate) fn read_unit(alloc: Global, value: &ParsedValue<'_>) -> Result<Data>
    ensures gives { ReadGives data_of (is_text (tree_of value.now)) result (read_unit (tree_of value.now)) }
    ensures frugal { ReadIsFrugal result (read_unit (tree_of value.now)) }
{
    match value {
        ParsedValue::NoValue | ParsedValue::Null => Ok(Data::Unit),
        ParsedValue::String(text) => {
            as_text(alloc, text.as_slice())?;
            Err(Message::mismatch(alloc, value, Expected::Unit))
        }
        _ => Err(Message::mismatch(alloc, value, Expected::Unit)),
    }
}

/// Reads a boolean from the last text; true if there is none.
pub(crate) fn read_bool(reader: Reader, value: &ParsedValue<'_>) -> Result<Data>
    ensures gives { ReadGives data_of (is_text (tree_of value.now)) result
        (read_scalar reader.reject_duplicates (Some (d.boolean true)) boolean_data (tree_of value.now)) }
    ensures frugal { ReadIsFrugal result (read_scalar reader.reject_duplicates (Some (d.boolean true)) boolean_data (tree_of value.now)) }
{
    match given_text(reader, value, Expected::Bool)? {
        Some(bytes) => bool_data(reader.alloc, bytes),
        None => Ok(Data::Bool(true)),
    }
}

/// Reads an unsigned number from the last text.
#[inline(always)]
pub(crate) fn read_unsigned(reader: Reader, width: Width, value: &ParsedValue<'_>) -> Result<Data>
    ensures gives { ReadGives data_of (is_text (tree_of value.now)) result
        (read_scalar reader.reject_duplicates None (unsigned_data (bits_of width)) (tree_of value.now)) }
    ensures frugal { ReadIsFrugal result (read_scalar reader.reject_duplicates None (unsigned_data (bits_of width)) (tree_of value.now)) }
{
    let expected = Expected::Unsigned(width);
    match given_text(reader, value, expected)? {
        Some(bytes) => unsigned_data(reader.alloc, width, bytes),
        None => Err(Message::mismatch(reader.alloc, value, expected)),
    }
}

/// Reads a signed number from the last text.
#[inline(always)]
pub(crate) fn read_signed(reader: Reader, width: Width, value: &ParsedValue<'_>) -> Result<Data>
    ensures gives { ReadGives data_of (is_text (tree_of value.now)) result
        (read_scalar reader.reject_duplicates None (signed_data (bits_of width)) (tree_of value.now)) }
    ensures frugal { ReadIsFrugal result (read_scalar reader.reject_duplicates None (signed_data (bits_of width)) (tree_of value.now)) }
{
    let expected = Expected::Signed(width);
    match given_text(reader, value, expected)? {
        Some(bytes) => signed_data(reader.alloc, width, bytes),
        None => Err(Message::mismatch(reader.alloc, value, expected)),
    }
}

/// Reads a character from a text of one character.
pub(crate) fn read_char(alloc: Global, value: &ParsedValue<'_>) -> Result<Data>
    ensures gives { ReadGives data_of (is_text (tree_of value.now)) result (read_character (tree_of value.now)) }
    ensures frugal { ReadIsFrugal result (read_character (tree_of value.now)) }
{
    match value {
        ParsedValue::String(text) => char_data(alloc, text.as_slice()),
        _ => Err(Message::mismatch(alloc, value, Expected::Char)),
    }
}

/// Reads the last text; the empty text if there is none.
#[inline(always)]
pub(crate) fn read_text(reader: Reader, value: &ParsedValue<'_>) -> Result<Data>
    ensures { ReadGives data_of (is_text (tree_of value.now)) result (read_scalar reader.reject_duplicates (Some (d.text [])) text_data (tree_of value.now)) }
{
    match given_text(reader, value, Expected::Text)? {
        Some(bytes) => text_data(reader.alloc, bytes),
        None => Ok(Data::Text(String::new(reader.alloc))),
    }
}

/// Reads the bytes of the last text; no bytes if there is none.
pub(crate) fn read_bytes(reader: Reader, value: &ParsedValue<'_>) -> Result<Data>
    ensures { ReadGives data_of (is_text (tree_of value.now)) result
        (read_scalar reader.reject_duplicates (Some (d.bytes [])) (λ b. Some (d.bytes b)) (tree_of value.now)) }
{
    match given_text(reader, value, Expected::Bytes)? {
        Some(bytes) => Ok(Data::Bytes(Vec::from_slice(reader.alloc, bytes)?)),
        None => Ok(Data::Bytes(Vec::new(reader.alloc))),
    }
}

// Returns the last text of a node. None if the node has no value or an empty one.
#[inline(always)]
fn given_text<'t>(
    reader: Reader,
    value: &'t ParsedValue<'_>,
    expected: Expected,
) -> Result<Option<&'t [u8]>>
    ensures gives { ReadGives (option_map (λ b. b.now)) true result (given_text reader.reject_duplicates (tree_of value.now)) }
    ensures frugal { ReadIsFrugal result (given_text reader.reject_duplicates (tree_of value.now)) }
{
    match value {
        ParsedValue::NoValue | ParsedValue::Null => Ok(None),
        ParsedValue::String(text) => Ok(Some(text.as_slice())),
        ParsedValue::Sequence(items) => Ok(Some(last_text(reader, items, expected)?)),
        ParsedValue::Map(_) | ParsedValue::Uninitialized => Err(Message::mismatch(
            reader.alloc,
            value,
            expected,
        )),
    }
}

// Returns the text of the last item; several items are rejected under `reject_duplicates`.
#[tactic(auto, using(crate::proofs::lemmas::read::Scalars::last_item_is))]
fn last_text<'t>(
    reader: Reader,
    items: &'t [ParsedValue<'_>],
    expected: Expected,
) -> Result<&'t [u8]>
    ensures gives { ReadGives (λ b. b.now) true result (last_item reader.reject_duplicates (items_from (map tree_of items.now))) }
    ensures frugal { ReadIsFrugal result (last_item reader.reject_duplicates (items_from (map tree_of items.now))) }
{
    let Some(last) = items.last() else {
        let found = Unexpected::Sequence;
        return Err(Message::InvalidType { found, expected }.error(reader.alloc));
    };
    if reader.reject_duplicates && items.len() > 1 {
        return Err(Message::SeveralValues.error(reader.alloc));
    }
    item_text(reader.alloc, last, expected)
}

// Returns the text of an item: the empty text if the item has no value or an empty one.
fn item_text<'t>(alloc: Global, value: &'t ParsedValue<'_>, expected: Expected) -> Result<&'t [u8]>
    ensures gives { ReadGives (λ b. b.now) true result (item_text (tree_of value.now)) }
    ensures frugal { ReadIsFrugal result (item_text (tree_of value.now)) }
{
    match value {
        ParsedValue::NoValue | ParsedValue::Null => Ok(&[]),
        ParsedValue::String(text) => Ok(text.as_slice()),
        _ => Err(Message::mismatch(alloc, value, expected)),
    }
}

/// Returns bytes as text, if they are UTF-8.
#[inline(always)]
#[tactic(auto, using(crate::proofs::lemmas::read::Errors::utf8_tests, crate::proofs::lemmas::read::ReadErrors::passed_utf8))]
pub(crate) fn as_text(alloc: Global, bytes: &[u8]) -> Result<&str>
    ensures gives { ReadGives (λ s. s.now) (is_utf8 bytes.now) result (utf8_text bytes.now) }
    ensures utf8 { IfErr result ReadIsUtf8 }
    ensures frugal { ReadIsFrugal result (utf8_text bytes.now) }
{
    match str::from_utf8(bytes) {
        Ok(text) => Ok(text),
        Err(cause) => Err(ReadError::utf8(alloc, cause)),
    }
}

/// Parses a boolean.
#[tactic(auto, using(crate::proofs::lemmas::read::Scalars::boolean_none, crate::proofs::lemmas::read::ReadErrors::gives_exit, crate::proofs::lemmas::read::ReadErrors::frugal_exit))]
pub(crate) fn bool_data(alloc: Global, bytes: &[u8]) -> Result<Data>
    ensures gives { ReadGives data_of (is_utf8 bytes.now) result (boolean_data bytes.now) }
    ensures frugal { ReadIsFrugal result (boolean_data bytes.now) }
{
    match as_text(alloc, bytes)?.parse::<bool>() {
        Ok(value) => Ok(Data::Bool(value)),
        Err(_) => Err(Message::unreadable(alloc, Expected::Bool)),
    }
}

/// Parses an unsigned number: digits, optionally after a `+`.
#[inline(always)]
#[tactic(auto, using(crate::proofs::lemmas::read::Scalars::unsigned_none, crate::proofs::lemmas::read::ReadErrors::gives_exit, crate::proofs::lemmas::read::ReadErrors::frugal_exit))]
pub(crate) fn unsigned_data(alloc: Global, width: Width, bytes: &[u8]) -> Result<Data>
    ensures gives { ReadGives data_of (is_utf8 bytes.now) result (unsigned_data (bits_of width) bytes.now) }
    ensures frugal { ReadIsFrugal result (unsigned_data (bits_of width) bytes.now) }
{
    match unsigned(width, as_text(alloc, bytes)?) {
        Some(number) => Ok(Data::Unsigned(number)),
        None => Err(Message::unreadable(alloc, Expected::Unsigned(width))),
    }
}

/// Parses a signed number: digits, optionally after a `+` or a `-`.
#[inline(always)]
#[tactic(auto, using(crate::proofs::lemmas::read::Scalars::signed_none, crate::proofs::lemmas::read::ReadErrors::gives_exit, crate::proofs::lemmas::read::ReadErrors::frugal_exit))]
pub(crate) fn signed_data(alloc: Global, width: Width, bytes: &[u8]) -> Result<Data>
    ensures gives { ReadGives data_of (is_utf8 bytes.now) result (signed_data (bits_of width) bytes.now) }
    ensures frugal { ReadIsFrugal result (signed_data (bits_of width) bytes.now) }
{
    match signed(width, as_text(alloc, bytes)?) {
        Some(number) => Ok(Data::Signed(number)),
        None => Err(Message::unreadable(alloc, Expected::Signed(width))),
    }
}

/// Parses a text of one character.
#[tactic(auto, using(crate::proofs::lemmas::read::Scalars::character_is, crate::proofs::lemmas::read::Scalars::character_none, crate::proofs::lemmas::read::ReadErrors::custom, crate::proofs::lemmas::read::ReadErrors::custom_spared))]
pub(crate) fn char_data(alloc: Global, bytes: &[u8]) -> Result<Data>
    ensures gives { ReadGives data_of (is_utf8 bytes.now) result (character_data bytes.now) }
    ensures frugal { ReadIsFrugal result (character_data bytes.now) }
{
    match as_text(alloc, bytes)?.parse::<char>() {
        Ok(character) => Ok(Data::Char(character)),
        Err(_) => Err(Message::unreadable(alloc, Expected::Char)),
    }
}

/// Parses a text, which must be UTF-8.
#[inline(always)]
pub(crate) fn text_data(alloc: Global, bytes: &[u8]) -> Result<Data>
    ensures { ReadGives data_of (is_utf8 bytes.now) result (text_data bytes.now) }
{
    let text = as_text(alloc, bytes)?;
    Ok(Data::Text(String::from_str(alloc, text)?))
}

// Returns the unsigned number that a text holds, if it fits this width.
#[tactic(auto, using(crate::proofs::lemmas::read::Numbers::unsigned_err, crate::proofs::lemmas::read::Numbers::width_fits, crate::proofs::lemmas::read::Numbers::unsigned_ok, crate::proofs::lemmas::read::Numbers::unsigned_past))]
fn unsigned(width: Width, text: &str) -> Option<u64>
    ensures { result ≡ unsigned_number (bits_of width) text.now }
{
    match text.parse::<u64>() {
        Ok(number) => {
            if number <= width.unsigned_max() {
                Some(number)
            } else {
                None
            }
        }
        Err(_) => None,
    }
}

// Returns the signed number that a text holds, if it fits this width.
#[tactic(auto, using(crate::proofs::lemmas::read::Numbers::signed_err, crate::proofs::lemmas::read::Numbers::signed_width_fits))]
fn signed(width: Width, text: &str) -> Option<i64>
    ensures { result ≡ signed_number (bits_of width) text.now }
{
    match text.parse::<i64>() {
        Ok(number) => {
            if width.signed_min() <= number && number <= width.signed_max() {
                Some(number)
            } else {
                None
            }
        }
        Err(_) => None,
    }
}
