//! Lists in one text, with a delimiter that the caller chooses.

ghost use Rattle.std.specs.Prelude.{◌≡◌, ◌++◌, true, IfOk, map, string_bytes};
ghost use Rattle.std.specs.Char.{encode_utf8};
ghost use Rattle.std.specs.List.{list_all};
ghost use Rattle.qs_spec.specs.Data as d;
ghost use Rattle.qs_tree.specs.Error.{OnlyOutOfMemory};
ghost use Rattle.qs_data.specs.data.Views.{data_of};
ghost use Rattle.serde_qs.specs.Items.{each_after, joined, list_in, listed_in};
ghost use Rattle.serde_qs.specs.Typed.{GivesValue};

use super::item::Item;
use crate::traits::unexpected;
use qs_data::{Data, Result};
use std::alloc::Global;

/// Returns the text of a list: the items, with the delimiter between them.
///
/// ```
/// let datum = serialize(alloc, &[1u8, 2, 3], '.')?; // the text 1.2.3
/// ```
///
/// The one error is [`OutOfMemory`](qs_data::Error::OutOfMemory). It allocates for the text, and the time grows with its length.
pub fn serialize<T: Item>(alloc: Global, list: &[T], delimiter: char) -> Result<Data>
    ensures exact { IfOk result (λ x. data_of x ≡ d.text (joined delimiter (map T.printed list.now))) }
    ensures errors { OnlyOutOfMemory result }
    ensures valid { IfOk result (λ _. list_all T.in_range list.now ≡ true) }
{
    Ok(Data::Text(joined_text(alloc, list, delimiter)?))
}

/// Returns the list of a text: empty if the text is empty, and otherwise one item for each piece between delimiters.
///
/// ```
/// let list: Vec<u8> = deserialize(alloc, datum, '.')?; // of the text 1.2.3: 1, 2, 3
/// ```
///
/// # Errors
///
/// - [`Custom`](qs_data::Error::Custom): the data isn't a string (`invalid type: data, expected a string`), or a piece isn't an item
///   (``invalid item `x` ``).
/// - [`OutOfMemory`](qs_data::Error::OutOfMemory): an allocation failed.
///
/// The first is returned exactly in these cases, and there is no other error. It allocates for the list, and the time grows with the length
/// of the text.
pub fn deserialize<T: Item + Drop>(alloc: Global, datum: Data, delimiter: char) -> Result<Vec<T>>
    ensures { GivesValue (λ list. map T.value list.items) result (list_in T.meaning delimiter (data_of datum)) }
{
    match datum {
        Data::Text(text) => listed(alloc, text.as_str(), delimiter),
        _ => Err(unexpected(alloc, "a string")),
    }
}

// Returns the items' texts with the delimiter between them.
fn joined_text<T: Item>(alloc: Global, list: &[T], delimiter: char) -> Result<String>
    ensures exact { IfOk result (λ t. string_bytes t ≡ joined delimiter (map T.printed list.now)) }
    ensures errors { OnlyOutOfMemory result }
    ensures valid { IfOk result (λ _. list_all T.in_range list.now ≡ true) }
{
    let mut out = String::new(alloc);
    match list.split_first() {
        None => Ok(out),
        Some((first, rest)) => {
            first.print(&mut out)?;
            append_each(rest, delimiter, out)
        }
    }
}

// Returns the text with each item's text after it, and before each the delimiter.
fn append_each<T: Item>(list: &[T], delimiter: char, mut out: String) -> Result<String>
    ensures exact { IfOk result (λ t. string_bytes t ≡ string_bytes out ++ each_after (encode_utf8 delimiter) (map T.printed list.now)) }
    ensures errors { OnlyOutOfMemory result }
    ensures valid { IfOk result (λ _. list_all T.in_range list.now ≡ true) }
{
    for item in list {
        out.push(delimiter)?;
        item.print(&mut out)?;
    }
    Ok(out)
}

// Returns the items of a text.
fn listed<T: Item + Drop>(alloc: Global, text: &str, delimiter: char) -> Result<Vec<T>>
    ensures { GivesValue (λ list. map T.value list.items) result (listed_in T.meaning delimiter text.now) }
{
    let mut items = Vec::new(alloc);
    if text.is_empty() {
        return Ok(items);
    }
    let mut rest = text;
    while let Some((piece, more)) = rest.split_once(delimiter) {
        items.push(T::parse(alloc, piece)?)?;
        rest = more;
    }
    items.push(T::parse(alloc, rest)?)?;
    Ok(items)
}
