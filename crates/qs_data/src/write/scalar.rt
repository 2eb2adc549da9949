//! Scalars: data that is written as one text.

ghost use Rattle.std.specs.Prelude.{◌≡◌, ◌⊎◌, ◌++◌, length, Bool, OnOk, Some, decimal, option_map};
ghost use Rattle.std.specs.Fmt.{signed_decimal};
ghost use Rattle.std.specs.List.{All};
ghost use Rattle.qs_spec.specs.Escape.{encoded};
ghost use Rattle.qs_spec.specs.Entry.{boolean_text, key_text};
ghost use Rattle.qs_spec.specs.Listed.{is_empty_text};
ghost use Rattle.qs_data.specs.data.Views.{data_of};
ghost use Rattle.qs_data.specs.write.Scalars.{scalar_text};
ghost use Rattle.qs_data.specs.write.State.{IsVisible};

use crate::data::Data;
use crate::write::sink::PIECE;
use crate::write::text::TextBuffer;
use itoa::Buffer;
use std::alloc::AllocError;

/// A value of one text, or a segment of a path.
///
/// ```
/// let len = writer.enter(Scalar::Bytes(b"age"))?;
/// writer.scalar(Scalar::Unsigned(24))?; // age=24
/// ```
#[derive(Clone, Copy)]
pub enum Scalar<'a> {
    /// A string or bytes.
    Bytes(&'a [u8]),
    /// `true` or `false`.
    Bool(bool),
    /// A number, by its digits.
    Unsigned(u64),
    /// A number, by its digits, after `-` if it is negative.
    Signed(i64),
    /// A character, in UTF-8.
    Char(char),
}

/// A buffer for the text of a number or a character.
#[derive(Drop)]
pub(crate) struct Room {
    digits: Buffer,
    character: [u8; 4],
}

impl Room {
    /// Returns an unused buffer.
    pub(crate) fn new() -> Room {
        Room {
            digits: Buffer::new(),
            character: [0; 4],
        }
    }
}

impl<'a> Scalar<'a> {
    /// Returns the scalar that the data is, if it is one.
    #[tactic(auto, using(crate::proofs::lemmas::data::Levels::levels))]
    pub(crate) fn of(datum: &'a Data) -> Option<Scalar<'a>>
        ensures { option_map scalar_text result ≡ key_text (data_of datum.now) }
    {
        match datum {
            Data::Bool(value) => Some(Scalar::Bool(*value)),
            Data::Unsigned(n) => Some(Scalar::Unsigned(*n)),
            Data::Signed(n) => Some(Scalar::Signed(*n)),
            Data::Char(c) => Some(Scalar::Char(*c)),
            Data::Text(text) => Some(Scalar::Bytes(text.as_bytes())),
            Data::Bytes(bytes) => Some(Scalar::Bytes(bytes)),
            Data::UnitVariant(name) => Some(Scalar::Bytes(name.as_bytes())),
            _ => None,
        }
    }

    /// Returns its text. The text of a number or a character is put into the buffer.
    pub(crate) fn text<'t>(self, room: &'t mut Room) -> &'t [u8]
    where
        'a: 't,
        ensures { result.now ≡ scalar_text self.entry }
    {
        match self {
            Scalar::Bytes(bytes) => bytes,
            Scalar::Bool(value) => word(value).as_bytes(),
            Scalar::Unsigned(n) => room.digits.format(n).as_bytes(),
            Scalar::Signed(n) => room.digits.format(n).as_bytes(),
            Scalar::Char(c) => c.encode_utf8(&mut room.character).as_bytes(),
        }
    }

    /// Returns whether its text is empty. Digits, words and characters aren't.
    #[tactic(auto, using(crate::proofs::lemmas::data::Filled::filled))]
    pub(crate) fn is_empty(self) -> bool
        ensures { result ≡ is_empty_text (Some (scalar_text self.entry)) }
    {
        match self {
            Scalar::Bytes(bytes) => bytes.is_empty(),
            _ => false,
        }
    }

    /// Returns its bytes if they are too many to be copied before they are put, and otherwise no bytes.
    #[inline(always)]
    pub(crate) fn long_bytes(self) -> &'a [u8]
        ensures which { (length result.now ≡ 0) ⊎ (result.now ≡ scalar_text self.entry) }
        ensures visible { (is_form : Bool) → All IsVisible (encoded is_form result.now) }
    {
        match self {
            Scalar::Bytes(bytes) => long(bytes),
            _ => &[],
        }
    }

    /// Appends its text, encoded. Digits and words hold nothing to encode.
    #[inline(always)]
    pub(crate) fn append(self, is_form: bool, out: &mut TextBuffer) -> Result<(), AllocError>
        ensures ok { OnOk result (out.new ≡ out.old ++ encoded is_form (scalar_text self.entry)) }
        ensures visible { All IsVisible (encoded is_form (scalar_text self.entry)) }
    {
        match self {
            Scalar::Bytes(bytes) => out.append_encoded(bytes, is_form),
            Scalar::Bool(value) => out.append(word(value).as_bytes()),
            Scalar::Unsigned(n) => append_unsigned(n, out),
            Scalar::Signed(n) => append_signed(n, out),
            Scalar::Char(c) => out.append_encoded(c.encode_utf8(&mut [0; 4]).as_bytes(), is_form),
        }
    }
}

/// Returns the word for a boolean.
pub(crate) fn word(value: bool) -> &'static str
    ensures { result.now ≡ boolean_text value }
{
    if value { "true" } else { "false" }
}

// Returns the bytes if they are too many to be copied before they are put, and otherwise no bytes.
#[tactic(auto, using(crate::proofs::lemmas::write::Visible::encoded_visible))]
fn long(bytes: &[u8]) -> &[u8]
    ensures which { (length result.now ≡ 0) ⊎ (result.now ≡ bytes.now) }
    ensures visible { (is_form : Bool) → All IsVisible (encoded is_form result.now) }
{
    if bytes.len() <= PIECE {
        return &[];
    }
    bytes
}

// Appends the digits of the number.
#[tactic(auto, using(crate::proofs::lemmas::write::Visible::numbers))]
fn append_unsigned(n: u64, out: &mut TextBuffer) -> Result<(), AllocError>
    ensures ok { (is_form : Bool) → OnOk result (out.new ≡ out.old ++ encoded is_form (decimal n)) }
    ensures visible { (is_form : Bool) → All IsVisible (encoded is_form (decimal n)) }
{
    out.append(Buffer::new().format(n).as_bytes())
}

// Appends the digits of the number, after `-` if it is negative.
#[tactic(auto, using(crate::proofs::lemmas::write::Visible::numbers))]
fn append_signed(n: i64, out: &mut TextBuffer) -> Result<(), AllocError>
    ensures ok { (is_form : Bool) → OnOk result (out.new ≡ out.old ++ encoded is_form (signed_decimal n)) }
    ensures visible { (is_form : Bool) → All IsVisible (encoded is_form (signed_decimal n)) }
{
    out.append(Buffer::new().format(n).as_bytes())
}
