//! Reading the fields of a struct.

ghost use Rattle.std.specs.Prelude.{◌≡◌, false, true, IfErr, Some, None, cond, drop, map, option_map, option_and_then};
ghost use Rattle.qs_spec.specs.Data.Data.{none};
ghost use Rattle.qs_spec.specs.Shape as s;
ghost use Rattle.qs_spec.specs.Shape.{is_option as is_option_shape};
ghost use Rattle.qs_spec.specs.Node.{found, keys_are_allowed, sequence_items};
ghost use Rattle.qs_spec.specs.internal.ReadFunction.{struct_members, reads, reads_names, reads_places, read_field, read_place};
ghost use Rattle.qs_tree.specs.tree.Views.{tree_of, items_from};
ghost use Rattle.qs_data.specs.data.Views.{data_of, named};
ghost use Rattle.qs_data.specs.shape.Views.{field_of, fields_in};
ghost use Rattle.qs_data.specs.read.TreeText.{is_text, items_are_text, entries_are_text};
ghost use Rattle.qs_data.specs.read.Gives.{Rejects};
ghost use Rattle.qs_data.specs.failure.Fails.{Fails, GivesOrFails, error_in};
ghost use Rattle.qs_data.specs.failure.Own.{has_fields};
ghost use Rattle.qs_data.specs.failure.Parts.{IsPlaced};
ghost use Rattle.qs_data.specs.failure.internal.Failing.{FailsField, FailsFields, FailsIn, IsMissing, IsPlacedAt};
ghost use Rattle.qs_data.specs.read.Keys.{NumbersFit, entries_view};
ghost use Rattle.qs_data.specs.read.internal.Keys.{unknown_of};

use crate::data::Data;
use crate::failure::{Failure, at_fields, at_missing, at_struct};
use crate::read::by_shape::{Reader, read_inline, read_node};
use crate::read::key_test::test_keys;
use crate::read::keys::{Found, NodeEntries, find};
use crate::read::message::Message;
use crate::read::reader::struct_error;
use crate::read::unknown::UnknownKeys;
use crate::shape::Field;
use qs_tree::ParsedValue;

/// Reads the fields of a node: by their names among keys, and by their indices among items.
#[cycle(read)]
#[tactic(auto, unfolding(qs_spec::specs::internal::ReadFunction::struct_members))]
#[inline(always)]
pub(crate) fn read_struct(
    reader: Reader,
    unknown: UnknownKeys,
    fields: &Vec<Field>,
    value: &ParsedValue<'_>,
) -> Result<Vec<(String, Data)>, Failure>
    ensures gives { GivesOrFails (λ v. map (named data_of) v.items) (is_text (tree_of value.now)) result
        (struct_members (keys_are_allowed (unknown_of unknown) (fields_in fields.now.items)) (reads_names reader.reject_duplicates (fields_in fields.now.items))
        (reads_places reader.reject_duplicates (fields_in fields.now.items)) (tree_of value.now)) }
    ensures fails { IfErr result (Fails reader.reject_duplicates (s.Shape.struct (unknown_of unknown) (fields_in fields.now.items)) (tree_of value.now)) }
{
    match value {
        ParsedValue::NoValue => read_entries(reader, unknown, fields, NodeEntries::Empty),
        ParsedValue::Null => read_entries(reader, unknown, fields, NodeEntries::Empty),
        ParsedValue::Map(map) => read_entries(reader, unknown, fields, NodeEntries::Map(map)),
        ParsedValue::Sequence(items) => read_places(reader, fields, items),
        ParsedValue::String(_) => Err(no_fields(reader, value)),
        ParsedValue::Uninitialized => Err(no_fields(reader, value)),
    }
}

// Returns the failure of a node that has no fields.
fn no_fields(reader: Reader, value: &ParsedValue<'_>) -> Failure
    requires { has_fields (tree_of value.now) ≡ false }
    ensures gives { Rejects {Y = Unit {0}} (is_text (tree_of value.now)) (error_in result) None }
    ensures fails { (u : s.UnknownKeys) (fs : s.Fields) → Fails reader.reject_duplicates (s.Shape.struct u fs) (tree_of value.now) result }
{
    let error = struct_error(reader.alloc, value);
    at_struct(reader.alloc, error, value)
}

/// Reads the fields by their names, and then tests all keys: each must be a field's name, if unknown keys are rejected, and each must
/// be UTF-8.
#[cycle(read)]
#[tactic(auto, using(crate::proofs::lemmas::read::Entries::keys_bad))]
pub(crate) fn read_entries(
    reader: Reader,
    unknown: UnknownKeys,
    fields: &Vec<Field>,
    entries: NodeEntries<'_, '_>,
) -> Result<Vec<(String, Data)>, Failure>
    ensures gives { GivesOrFails (λ v. map (named data_of) v.items) (entries_are_text (entries_view entries.entry)) result
        (option_and_then (λ ms. cond (keys_are_allowed (unknown_of unknown) (fields_in fields.now.items) (entries_view entries.entry)) (Some ms) None)
        (reads_names reader.reject_duplicates (fields_in fields.now.items) (entries_view entries.entry))) }
    ensures fails { IfErr result (FailsFields reader.reject_duplicates (unknown_of unknown) (fields_in fields.now.items) (entries_view entries.entry)) }
{
    let are_text = entries.keys_are_text();
    let members = read_names(reader, unknown, fields, entries)?;
    if let Err(error) = unknown.test(reader.alloc, fields, entries) {
        return Err(at_fields(reader.alloc, error, unknown, fields, entries));
    }
    if are_text {
        return Ok(members);
    }
    match test_keys(entries) {
        Ok(()) => Ok(members),
        Err(key) => {
            let error = key.error(reader.alloc);
            Err(at_fields(reader.alloc, error, unknown, fields, entries))
        }
    }
}

// Reads the fields by their names, in their order.
#[cycle(read)]
#[tactic(auto, unfolding(qs_spec::specs::internal::ReadFunction::reads))]
fn read_names(
    reader: Reader,
    unknown: UnknownKeys,
    fields: &Vec<Field>,
    entries: NodeEntries<'_, '_>,
) -> Result<Vec<(String, Data)>, Failure>
    requires { NumbersFit (entries_view entries) }
    ensures gives { GivesOrFails (λ v. map (named data_of) v.items) (entries_are_text (entries_view entries.entry)) result
        (reads_names reader.reject_duplicates (fields_in fields.now.items) (entries_view entries.entry)) }
    ensures fails { IfErr result (FailsFields reader.reject_duplicates (unknown_of unknown) (fields_in fields.now.items) (entries_view entries.entry)) }
{
    let mut members = Vec::with_capacity(reader.alloc, fields.len())?;
    for field in fields {
        let Some(value) = read_field(reader, field, unknown, fields, entries)? else {
            continue;
        };
        let name = field.name.clone()?;
        members.push((name, value))?;
    }
    Ok(members)
}

// Reads one of the fields by its name, if it isn't left out.
#[cycle(read)]
fn read_field(
    reader: Reader,
    field: &Field,
    unknown: UnknownKeys,
    fields: &Vec<Field>,
    entries: NodeEntries<'_, '_>,
) -> Result<Option<Data>, Failure>
    requires { NumbersFit (entries_view entries) }
    ensures gives { let f = field_of field.now in
        GivesOrFails (option_map data_of) (entries_are_text (entries_view entries.entry)) result
        (read_field f.2 (is_option_shape f.1) (reads reader.reject_duplicates f.1) (found f.0 (entries_view entries.entry))) }
    ensures fails { let f = field_of field.now in
        IfErr result (FailsField reader.reject_duplicates (unknown_of unknown) (fields_in fields.now.items) f.0 f.1 f.2 (entries_view entries.entry)) }
{
    match find(entries, &field.name) {
        Found::Missing => missing_field(reader, field),
        Found::One(value) => match read_inline(reader, &field.shape, value) {
            Ok(data) => Ok(Some(data)),
            Err(failure) => Err(failure.at_name(reader.alloc, &field.name)),
        },
        Found::Several => {
            let error = Message::DuplicateField(&field.name).error(reader.alloc);
            Err(at_fields(reader.alloc, error, unknown, fields, entries))
        }
    }
}

// Reads a field that no key names.
#[inline(always)]
fn missing_field(reader: Reader, field: &Field) -> Result<Option<Data>, Failure>
    ensures gives { let f = field_of field.now in
        GivesOrFails (option_map data_of) true result (cond f.2 (Some None) (cond (is_option_shape f.1) (Some (Some none)) None)) }
    ensures fails { let f = field_of field.now in IfErr result (FailsIn reader.reject_duplicates (IsMissing f.0 f.1 f.2)) }
{
    if field.optional {
        Ok(None)
    } else if field.shape.is_option() {
        Ok(Some(Data::None))
    } else {
        let error = Message::MissingField(&field.name).error(reader.alloc);
        Err(at_missing(reader.alloc, error, &field.shape).at_name(reader.alloc, &field.name))
    }
}

// Reads the fields by their indices.
#[cycle(read)]
#[tactic(auto, unfolding(qs_spec::specs::internal::ReadFunction::reads))]
fn read_places(
    reader: Reader,
    fields: &Vec<Field>,
    items: &[ParsedValue<'_>],
) -> Result<Vec<(String, Data)>, Failure>
    ensures gives { GivesOrFails (λ v. map (named data_of) v.items) (items_are_text (items_from (map tree_of items.now))) result
        (reads_places reader.reject_duplicates (fields_in fields.now.items) (items_from (map tree_of items.now))) }
    ensures fails { IfErr result (FailsIn reader.reject_duplicates (IsPlaced (fields_in fields.now.items) (sequence_items (items_from (map tree_of items.now))))) }
{
    let mut members = Vec::new(reader.alloc);
    for (i, field) in fields.iter().enumerate() {
        let Some(value) = read_place(reader, field, items, i)? else {
            continue;
        };
        let name = field.name.clone()?;
        members.push((name, value))?;
    }
    Ok(members)
}

// Reads a field by its index, if it isn't left out.
#[cycle(read)]
fn read_place(
    reader: Reader,
    field: &Field,
    items: &[ParsedValue<'_>],
    place: usize,
) -> Result<Option<Data>, Failure>
    ensures gives { let f = field_of field.now in
        GivesOrFails (option_map data_of) (items_are_text (items_from (map tree_of items.now))) result
        (read_place f.2 (reads reader.reject_duplicates f.1) (items_from (map tree_of (drop place items.now)))) }
    ensures fails { let f = field_of field.now in
        IfErr result (FailsIn reader.reject_duplicates (IsPlacedAt place f.1 f.2 (sequence_items (items_from (map tree_of items.now))))) }
{
    match items.get(place) {
        Some(item) => match read_node(reader, &field.shape, item) {
            Ok(data) => Ok(Some(data)),
            Err(failure) => Err(failure.at_index(reader.alloc, place)),
        },
        None => {
            if field.optional {
                Ok(None)
            } else {
                let error = Message::InvalidLength(items.len()).error(reader.alloc);
                Err(at_missing(reader.alloc, error, &field.shape).at_index(reader.alloc, place))
            }
        }
    }
}
