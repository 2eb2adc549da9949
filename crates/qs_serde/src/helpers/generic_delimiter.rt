//! Lists in one text, with a delimiter of the caller's choice.

ghost use Rattle.std.specs.Prelude.{◌≡◌, ◌↔◌, ℕ, List, [], IfOk};
ghost use Rattle.serde.specs.Event.{text};
ghost use Rattle.serde.specs.Steps.{Gives};

use crate::reading::TreeFormat;
use qs_data::ReadError;
use qs_tree::{Config, Error, ParsedValue, Result};
use serde::{DeserializeOwned, Deserializer, Format, Serializer};
use std::alloc::Global;
use std::borrow::CowSlice;
use std::fmt;
use std::fmt::{Display, InlineText};

/// Writes a list as one text: what its items print, with the delimiter between them.
///
/// ```
/// mod dotted {
///     pub fn serialize<S: Serializer>(values: &[u8], out: &mut S) -> Result<(), S::Error> {
///         generic_delimiter::serialize(values, '.', out) // values=1.2.3
///     }
/// }
/// ```
///
/// It returns the same errors as the serializer returns for a printed text, and allocates and takes time as the serializer does.
pub fn serialize<T: Display, S: Serializer>(
    items: &[T],
    delimiter: char,
    out: &mut S,
) -> std::result::Result<(), S::Error> {
    out.collect_str(&Joined { items, delimiter })
}

/// Reads a text as a list. The empty text, and no other, is the empty list. In any other text each piece between delimiters is an item, which
/// is read like a value of one text in a querystring.
///
/// ```
/// mod dotted {
///     pub fn deserialize<F: Format>(alloc: Global, from: &mut Deserializer<'_, '_, F>) -> Result<Vec<u8>, F::Error> {
///         generic_delimiter::deserialize(alloc, '.', from) // of the text 1.2.3: 1, 2 and 3
///     }
/// }
/// ```
///
/// If there is no string, the format returns its error. If a piece isn't an item, the error is the format's `custom` error with the
/// message ``invalid item `x` ``, cut short after 128 bytes. It allocates for the text, the list and the items. The time grows with the
/// length of the text.
pub fn deserialize<T: DeserializeOwned, F: Format>(
    alloc: Global,
    delimiter: char,
    from: &mut Deserializer<'_, '_, F>,
) -> std::result::Result<Vec<T>, F::Error>
    ensures { IfOk result (λ items. (t : List ℕ) × Gives F.gives from.old (text t) from.new × ((t ≡ []) ↔ (items.items ≡ []))) }
{
    let text = from.string(alloc)?;
    match listed(alloc, text.as_str(), delimiter) {
        Ok(items) => Ok(items),
        Err(Error::OutOfMemory) => Err(from.no_memory()),
        Err(error) => Err(from.custom(InlineText::<128>::of(error).as_str())),
    }
}

// The items of a list, which print as one text.
#[derive(Drop)]
struct Joined<'a, T> {
    items: &'a [T],
    delimiter: char,
}

impl<'a, T: Display> Display for Joined<'a, T> {
    fn fmt<W: fmt::Write>(&self, f: &mut fmt::Formatter<W>) -> fmt::Result {
        let Joined { items, delimiter } = self;
        let Some((first, rest)) = items.split_first() else {
            return Ok(());
        };
        write!(f, "{first}")?;
        for item in rest {
            write!(f, "{delimiter}{item}")?;
        }
        Ok(())
    }
}

// Returns the items of a text.
fn listed<T: DeserializeOwned>(alloc: Global, text: &str, delimiter: char) -> Result<Vec<T>>
    ensures { IfOk result (λ items. (text.now ≡ []) ↔ (items.items ≡ [])) }
{
    let mut items = Vec::new(alloc);
    if text.is_empty() {
        return Ok(items);
    }
    let mut rest = text;
    while let Some((piece, more)) = rest.split_once(delimiter) {
        items.push(item(alloc, piece)?)?;
        rest = more;
    }
    items.push(item(alloc, rest)?)?;
    Ok(items)
}

// Returns the item that a piece is read as.
fn item<T: DeserializeOwned>(alloc: Global, piece: &str) -> Result<T> {
    let leaf = ParsedValue::String(CowSlice::Borrowed(piece.as_bytes()));
    let mut format = TreeFormat::new(alloc, Config::new(), &leaf);
    let mut from = Deserializer::new(piece.as_bytes(), &mut format);
    match T::deserialize_owned(alloc, &mut from) {
        Ok(item) => Ok(item),
        Err(ReadError::OutOfMemory) => Err(Error::OutOfMemory),
        Err(_) => Err(Error::custom(alloc, format_args!("invalid item `{piece}`"), &())),
    }
}
