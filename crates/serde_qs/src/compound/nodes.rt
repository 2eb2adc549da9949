//! The fields of a struct, read from a node.

ghost use Rattle.std.specs.Prelude.{◌≡◌, true, map};
ghost use Rattle.qs_spec.specs.Node.{as_map, found};
ghost use Rattle.qs_spec.specs.Shape.{field_names_differ, fields_of};
ghost use Rattle.qs_spec.specs.internal.ReadFunction.{items_after, reads};
ghost use Rattle.qs_tree.specs.tree.Views.{items_from, tree_of};
ghost use Rattle.qs_data.specs.read.Gives.{Gives};
ghost use Rattle.qs_data.specs.read.internal.ReadError.{ReadGives};
ghost use Rattle.qs_data.specs.read.TreeText.{entries_are_text, is_text, items_are_text};
ghost use Rattle.qs_data.specs.read.Keys.{NumbersFit, entries_view, unknown_of};
ghost use Rattle.serde_qs.specs.FieldTypes.{absent, keyless};
ghost use Rattle.serde_qs.specs.Nodes.{missing_data};
ghost use Rattle.serde_qs.specs.internal.NodeParts.{members_read, names_read, value_found, value_placed};
ghost use Rattle.serde_qs.specs.Records.{texts};

use super::field_types::FieldType;
use super::fields::Fields;
use qs_data::{FieldNames, Found, NodeEntries, ReadError, Reader, Result, UnknownKeys};
use qs_tree::ParsedValue;
use std::marker::PhantomData;

/// Returns the fields that a node holds: by their names among keys, and by their indices among items. A key that no field has is
/// ignored or rejected.
#[tactic(auto, unfolding(qs_spec::specs::internal::ReadFunction::struct_members))]
#[inline(always)]
pub(crate) fn fields_of_struct<F: Fields>(
    reader: Reader,
    unknown: UnknownKeys,
    names: &[&'static str],
    node: &ParsedValue<'_>,
) -> Result<F, ReadError>
    requires { field_names_differ (fields_of (F.table.shape (texts names.now))) ≡ true }
    ensures { ReadGives F.table.value (is_text (tree_of node.now)) result
        (members_read (unknown_of unknown) reader.reject_duplicates (F.table.shape (texts names.now)) (F.table.meaning (texts names.now)) (tree_of node.now)) }
{
    let entries = match node {
        ParsedValue::NoValue | ParsedValue::Null => NodeEntries::Empty,
        ParsedValue::Map(map) => NodeEntries::Map(map),
        ParsedValue::Sequence(items) => {
            let fields = F::from_places(reader, names, items, items.len());
            return ReadError::of_result(reader.alloc, fields);
        }
        ParsedValue::String(_) | ParsedValue::Uninitialized => {
            return Err(ReadError::of(reader.alloc, reader.not_a_struct(node)));
        }
    };
    read_entries(reader, unknown, names, entries)
}

/// Returns the fields that a struct variant holds, as for a struct, except that a string counts as a map from the empty key to it.
#[tactic(auto, unfolding(qs_spec::specs::internal::ReadFunction::struct_members))]
pub(crate) fn fields_of_variant<F: Fields>(
    reader: Reader,
    unknown: UnknownKeys,
    names: &[&'static str],
    node: &ParsedValue<'_>,
) -> Result<F, ReadError>
    requires { field_names_differ (fields_of (F.table.shape (texts names.now))) ≡ true }
    ensures { ReadGives F.table.value (is_text (tree_of node.now)) result
        (members_read (unknown_of unknown) reader.reject_duplicates (F.table.shape (texts names.now)) (F.table.meaning (texts names.now)) (as_map (tree_of node.now))) }
{
    match node {
        ParsedValue::String(_) => read_entries(reader, unknown, names, NodeEntries::Leaf(node)),
        _ => fields_of_struct(reader, unknown, names, node),
    }
}

// Returns the fields that are read by their names. All keys must be UTF-8, and names of fields if other keys are rejected.
#[inline(always)]
fn read_entries<F: Fields>(
    reader: Reader,
    unknown: UnknownKeys,
    names: &[&'static str],
    entries: NodeEntries<'_, '_>,
) -> Result<F, ReadError>
    requires { field_names_differ (fields_of (F.table.shape (texts names.now))) ≡ true }
    ensures { ReadGives F.table.value (entries_are_text (entries_view entries.entry)) result
        (names_read (unknown_of unknown) reader.reject_duplicates (F.table.shape (texts names.now)) (F.table.meaning (texts names.now)) (entries_view entries.entry)) }
{
    let are_text = entries.keys_are_text();
    let fields = ReadError::of_result(reader.alloc, F::from_entries(reader, names, entries))?;
    let known = NamesOf::<F> {
        names,
        fields: PhantomData,
    };
    ReadError::of_result(reader.alloc, unknown.reject(reader, &known, entries))?;
    if are_text {
        return Ok(fields);
    }
    match entries.test() {
        Ok(()) => Ok(fields),
        Err(key) => Err(ReadError::of(reader.alloc, key.into_error(reader.alloc))),
    }
}

// The names of some fields, perhaps with further names after them.
#[derive(Drop)]
struct NamesOf<'a, F> {
    names: &'a [&'static str],
    fields: PhantomData<F>,
}

impl<F: Fields> FieldNames for NamesOf<'_, F> {
    ghost fields = { λ known. fields_of (F.table.shape (texts known.names.now)) };

    fn has(&self, name: &[u8]) -> bool {
        F::has(self.names, name)
    }
}

/// Returns a field by its name.
#[inline(always)]
pub(crate) fn by_name<F: FieldType>(
    reader: Reader,
    name: &str,
    entries: NodeEntries<'_, '_>,
) -> Result<F, ReadError>
    requires { NumbersFit (entries_view entries) }
    ensures { ReadGives F.table.value (entries_are_text (entries_view entries.entry)) result
        (value_found F.table.meaning (keyless F.table.meaning (missing_data F.table.shape) F.table.missing) (reads reader.reject_duplicates F.table.shape) (found name.now (entries_view entries.entry))) }
{
    match entries.find(name) {
        Found::Missing => ReadError::of_result(reader.alloc, F::without_key(reader, name)),
        Found::One(node) => ReadError::of_result(reader.alloc, F::of_node(reader, node)),
        Found::Several => Err(ReadError::of(reader.alloc, reader.duplicate_field(name))),
    }
}

/// Returns a field by its index, the first of these items. There are `count` items in all.
#[inline(always)]
pub(crate) fn by_place<F: FieldType>(
    reader: Reader,
    items: &[ParsedValue<'_>],
    count: usize,
) -> Result<F>
    ensures { Gives F.table.value (items_are_text (items_from (map tree_of items.now))) result
        (value_placed F.table.meaning (absent F.table.missing) (reads reader.reject_duplicates F.table.shape) (items_from (map tree_of items.now))) }
{
    match items {
        [item, ..] => F::of_node(reader, item),
        [] => F::without_item(reader, count),
    }
}

/// Returns the items after the first.
pub(crate) fn after<'a, 'qs>(items: &'a [ParsedValue<'qs>]) -> &'a [ParsedValue<'qs>]
    ensures { items_from (map tree_of result.now) ≡ items_after (items_from (map tree_of items.now)) }
{
    match items {
        [_, rest @ ..] => rest,
        [] => items,
    }
}
