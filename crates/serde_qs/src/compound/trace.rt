//! The first part of a node that isn't read, found by reading each.

ghost use Rattle.std.specs.Prelude.{IfOk, IsTrue};
ghost use Rattle.qs_spec.specs.Node.{found};
ghost use Rattle.qs_data.specs.read.Found.{IsFound};
ghost use Rattle.qs_data.specs.read.Keys.{NumbersFit, entries_view};
ghost use Rattle.qs_data.specs.declared.read.keys.Found.TheVariants.{Several};

use super::field_types::FieldType;
use super::fields::Fields;
use super::items::TupleItems;
use crate::path::{Path, Step};
use crate::traits::Deserialize;
use qs_data::{Error, Found, NodeEntries, NodeItems, Reader, Result};
use qs_tree::ParsedValue;
use std::alloc::{AllocError, Global};

/// Puts the steps to the first field of a struct that isn't read into the path, if fields are read by their names.
pub(crate) fn trace_struct<F: Fields>(
    reader: Reader,
    names: &[&'static str],
    node: &ParsedValue<'_>,
    path: &mut Path,
) -> Result<(), AllocError> {
    let entries = match node {
        ParsedValue::NoValue | ParsedValue::Null => NodeEntries::Empty,
        ParsedValue::Map(map) => NodeEntries::Map(map),
        ParsedValue::String(_) | ParsedValue::Sequence(_) | ParsedValue::Uninitialized => {
            return Ok(());
        }
    };
    let _are_text = entries.keys_are_text();
    F::trace(reader, names, entries, path)
}

/// Returns whether a field isn't read. If so, it puts the steps to the field into the path.
pub(crate) fn is_unread<F: FieldType>(
    reader: Reader,
    name: &'static str,
    entries: NodeEntries<'_, '_>,
    path: &mut Path,
) -> Result<bool, AllocError>
    requires { NumbersFit (entries_view entries) }
    ensures { IsFound Several (found name.now (entries_view entries.entry)) → IfOk result IsTrue }
{
    let read: Result<F> = match entries.find(name) {
        Found::Missing => F::without_key(reader, name),
        Found::One(node) => F::of_traced(reader, node, path),
        Found::Several => Err(reader.duplicate_field(name)),
    };
    path.enters(read, Step::Field(name))
}

/// Puts the steps to the first item of a list that isn't read into the path.
pub(crate) fn trace_items<T: Deserialize + Drop>(
    reader: Reader,
    node: &ParsedValue<'_>,
    path: &mut Path,
) -> Result<(), AllocError> {
    let items = match reader.items(node) {
        Ok(items) => items,
        Err(error) => return without_memory(error),
    };
    for place in 0..items.len() {
        if is_unread_item::<T>(reader, items, place, path)? {
            break;
        }
    }
    Ok(())
}

/// Puts the steps to the first item of a tuple that isn't read into the path.
pub(crate) fn trace_tuple<I: TupleItems>(
    reader: Reader,
    node: &ParsedValue<'_>,
    path: &mut Path,
) -> Result<(), AllocError> {
    match reader.tuple(I::count(), node) {
        Ok(items) => I::trace(reader, items, 0, path),
        Err(error) => without_memory(error),
    }
}

/// Returns whether the item at an index isn't read. If so, it puts the steps to the item into the path.
pub(crate) fn is_unread_item<T: Deserialize + Drop>(
    reader: Reader,
    items: NodeItems<'_, '_>,
    place: usize,
    path: &mut Path,
) -> Result<bool, AllocError> {
    let read: Result<T> = match items.get(reader, place) {
        Ok(Some(item)) => T::from_traced(reader, item, path),
        Ok(None) => Err(reader.missing_item(place)),
        Err(error) => Err(error),
    };
    path.enters(read, Step::Index(place))
}

/// Puts the steps to the first value of a map that isn't read into the path.
pub(crate) fn trace_values<T: Deserialize + Drop>(
    reader: Reader,
    node: &ParsedValue<'_>,
    path: &mut Path,
) -> Result<(), AllocError> {
    let entries = match reader.entries(node) {
        Ok(entries) => entries,
        Err(error) => return without_memory(error),
    };
    for place in 0..entries.len() {
        let Ok(Some((key, value))) = entries.get(reader, place) else {
            break;
        };
        let read = T::from_traced(reader, value, path);
        if path.enters(read, Step::Key(key))? {
            break;
        }
    }
    Ok(())
}

/// Puts the name of the variant whose value isn't read into the path: the first key of a map.
pub(crate) fn trace_variant(
    alloc: Global,
    node: &ParsedValue<'_>,
    path: &mut Path,
) -> Result<(), AllocError> {
    if let ParsedValue::Map(map) = node {
        if let Some((key, _)) = map.at(0) {
            path.steps.push(Step::of(alloc, key)?)?;
        }
    }
    Ok(())
}

// Returns `AllocError` if this error is `OutOfMemory`, and otherwise `Ok`.
fn without_memory(error: Error) -> Result<(), AllocError> {
    match error {
        Error::OutOfMemory => Err(AllocError),
        _ => Ok(()),
    }
}
