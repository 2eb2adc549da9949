//! What data is of each kind.

ghost use Rattle.std.specs.Prelude.{option_map, string_bytes};
ghost use Rattle.qs_spec.specs.Data as d;
ghost use Rattle.qs_data.specs.data.Views.{data_of};
ghost use Rattle.qs_serde.specs.Lookups.{IsMade};

use qs_data::Data;

/// Returns the truth value that this data is, if it is one.
pub(crate) fn as_bool(data: Data) -> Option<bool>
    ensures { IsMade d.boolean (data_of «data») result }
{
    match data {
        Data::Bool(value) => Some(value),
        _ => None,
    }
}

/// Returns the signed number that this data is, if it is one.
pub(crate) fn as_signed(data: Data) -> Option<i64>
    ensures { IsMade d.signed (data_of «data») result }
{
    match data {
        Data::Signed(value) => Some(value),
        _ => None,
    }
}

/// Returns the unsigned number that this data is, if it is one.
pub(crate) fn as_unsigned(data: Data) -> Option<u64>
    ensures { IsMade d.unsigned (data_of «data») result }
{
    match data {
        Data::Unsigned(value) => Some(value),
        _ => None,
    }
}

/// Returns the character that this data is, if it is one.
pub(crate) fn as_char(data: Data) -> Option<char>
    ensures { IsMade d.character (data_of «data») result }
{
    match data {
        Data::Char(value) => Some(value),
        _ => None,
    }
}

/// Returns the text that this data is, if it is one.
pub(crate) fn as_text(data: Data) -> Option<String>
    ensures { IsMade d.text (data_of «data») (option_map (λ text. string_bytes text) result) }
{
    match data {
        Data::Text(text) => Some(text),
        _ => None,
    }
}

/// Returns the bytes that this data is, if it is bytes.
pub(crate) fn as_bytes(data: Data) -> Option<Vec<u8>>
    ensures { IsMade d.bytes (data_of «data») (option_map (λ bytes. bytes.items) result) }
{
    match data {
        Data::Bytes(bytes) => Some(bytes),
        _ => None,
    }
}
