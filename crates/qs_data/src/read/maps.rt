//! Reading maps.

ghost use Rattle.std.specs.Prelude.{◌≡◌, IfErr, None, map, true};
ghost use Rattle.qs_spec.specs.Node.{under_empty};
ghost use Rattle.qs_spec.specs.internal.ReadFunction.{read_map, read_pairs, reads};
ghost use Rattle.qs_tree.specs.tree.Views.{tree_of, entries_of_map};
ghost use Rattle.qs_data.specs.shape.Views.{key_shape_of, shape_of};
ghost use Rattle.qs_data.specs.data.Views.{pair_of};
ghost use Rattle.qs_data.specs.read.TreeText.{is_text, entries_are_text};
ghost use Rattle.qs_spec.specs.Shape as s;
ghost use Rattle.qs_spec.specs.Tree.Tree.{mapping};
ghost use Rattle.qs_data.specs.failure.Fails.{Fails, GivesOrFails, error_in};
ghost use Rattle.qs_data.specs.read.Entries.{node_entries};
ghost use Rattle.qs_data.specs.read.Errors.{IsCustomOrOutOfMemory};
ghost use Rattle.qs_data.specs.failure.internal.Failing.{is_text_leaf};

use crate::data::Data;
use crate::failure::{Failure, at_keys, at_map};
use crate::read::by_shape::{Reader, read_node};
use crate::read::key::{key_data, read_key};
use crate::read::message::{Expected, Message};
use crate::shape::{KeyShape, Shape};
use qs_tree::{ParsedMap, ParsedValue};

/// Reads the pairs of a node: the pairs of a map, or a text under the empty key.
#[cycle(read)]
#[tactic(auto, unfolding(qs_spec::specs::internal::ReadFunction::read_map))]
pub(crate) fn read_map(
    reader: Reader,
    key_shape: &KeyShape,
    part: &Shape,
    value: &ParsedValue<'_>,
) -> Result<Vec<(Data, Data)>, Failure>
    ensures gives { GivesOrFails (λ v. map pair_of v.items) (is_text (tree_of value.now)) result
        (read_map (key_shape_of key_shape.now) (reads reader.reject_duplicates (shape_of part.now)) (tree_of value.now)) }
    ensures fails { IfErr result (Fails reader.reject_duplicates (s.Shape.mapping (key_shape_of key_shape.now) (shape_of part.now)) (tree_of value.now)) }
{
    match value {
        ParsedValue::NoValue | ParsedValue::Null => Ok(Vec::new(reader.alloc)),
        ParsedValue::String(_) => read_under_empty(reader, key_shape, part, value),
        ParsedValue::Map(entries) => read_pairs(reader, key_shape, part, entries),
        ParsedValue::Sequence(_) => Err(no_map(reader, value)),
        ParsedValue::Uninitialized => Err(no_map(reader, value)),
    }
}

// Returns the failure of a node that isn't a map.
fn no_map(reader: Reader, value: &ParsedValue<'_>) -> Failure
    requires { node_entries (tree_of value.now) ≡ None }
    ensures custom { IsCustomOrOutOfMemory (error_in result) }
    ensures fails { (key : s.KeyShape) (part : s.Shape) → Fails reader.reject_duplicates (s.Shape.mapping key part) (tree_of value.now) result }
{
    let error = Message::mismatch(reader.alloc, value, Expected::Map);
    at_map(reader.alloc, error, value)
}

/// Reads the pairs of a map, in the order of its keys, each key before its value.
#[cycle(read)]
pub(crate) fn read_pairs(
    reader: Reader,
    key_shape: &KeyShape,
    part: &Shape,
    entries: &ParsedMap<'_>,
) -> Result<Vec<(Data, Data)>, Failure>
    ensures gives { GivesOrFails (λ v. map pair_of v.items) (entries_are_text (entries_of_map entries.now)) result
        (read_pairs (key_shape_of key_shape.now) (reads reader.reject_duplicates (shape_of part.now)) (entries_of_map entries.now)) }
    ensures fails { IfErr result (Fails reader.reject_duplicates (s.Shape.mapping (key_shape_of key_shape.now) (shape_of part.now)) (mapping (entries_of_map entries.now))) }
{
    let mut pairs = Vec::with_capacity(reader.alloc, entries.len())?;
    for i in 0..entries.len() {
        let Some((key, value)) = entries.at(i) else {
            break;
        };
        let key_data = match read_key(reader.alloc, key_shape, key) {
            Ok(data) => data,
            Err(error) => return Err(at_keys(reader.alloc, error, key_shape, entries)),
        };
        let value_data = match read_node(reader, part, value) {
            Ok(data) => data,
            Err(failure) => return Err(failure.at_key(reader.alloc, key)),
        };
        pairs.push((key_data, value_data))?;
    }
    Ok(pairs)
}

// Reads a value under the empty key.
#[cycle(read)]
fn read_under_empty(
    reader: Reader,
    key_shape: &KeyShape,
    part: &Shape,
    value: &ParsedValue<'_>,
) -> Result<Vec<(Data, Data)>, Failure>
    requires { is_text_leaf (tree_of value.now) ≡ true }
    ensures gives { GivesOrFails (λ v. map pair_of v.items) (is_text (tree_of value.now)) result
        (read_pairs (key_shape_of key_shape.now) (reads reader.reject_duplicates (shape_of part.now)) (under_empty (tree_of value.now))) }
    ensures fails { IfErr result (Fails reader.reject_duplicates (s.Shape.mapping (key_shape_of key_shape.now) (shape_of part.now)) (tree_of value.now)) }
{
    let key_data = match key_data(reader.alloc, key_shape, &[]) {
        Ok(data) => data,
        Err(error) => return Err(at_map(reader.alloc, error, value)),
    };
    let value_data = match read_node(reader, part, value) {
        Ok(data) => data,
        Err(failure) => return Err(failure.at_name(reader.alloc, "")),
    };
    let mut pairs = Vec::new(reader.alloc);
    pairs.push((key_data, value_data))?;
    Ok(pairs)
}
