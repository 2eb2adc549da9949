//! Reading lists and tuples.

ghost use Rattle.std.specs.Prelude.{IfErr, map, option_and_then};
ghost use Rattle.qs_spec.specs.Node.{items};
ghost use Rattle.qs_spec.specs.internal.ReadFunction.{read_each, read_list, reads, reads_tuple};
ghost use Rattle.qs_tree.specs.tree.Views.{tree_of};
ghost use Rattle.qs_data.specs.data.Views.{data_of};
ghost use Rattle.qs_data.specs.shape.Views.{shape_of, shapes_in};
ghost use Rattle.qs_data.specs.read.TreeText.{is_text};
ghost use Rattle.qs_data.specs.read.Items.{items_view, are_text};
ghost use Rattle.qs_spec.specs.Shape as s;
ghost use Rattle.qs_data.specs.failure.Fails.{Fails, GivesOrFails};
ghost use Rattle.qs_data.specs.failure.Parts.{IsItem, IsTupleItem};
ghost use Rattle.qs_data.specs.failure.internal.Failing.{FailsIn};

use crate::data::Data;
use crate::failure::{Failure, at_list, at_missing, at_tuple};
use crate::read::by_shape::{Reader, read_node};
use crate::read::items::{NodeItems, items_of};
use crate::read::message::{Expected, Message};
use crate::shape::Shape;
use qs_tree::ParsedValue;

/// Reads a list: the items of a node, all by one shape.
#[cycle(read)]
#[tactic(auto, unfolding(qs_spec::specs::internal::ReadFunction::read_list))]
pub(crate) fn read_list(
    reader: Reader,
    part: &Shape,
    value: &ParsedValue<'_>,
) -> Result<Vec<Data>, Failure>
    ensures gives { GivesOrFails (λ v. map data_of v.items) (is_text (tree_of value.now)) result
        (read_list (reads reader.reject_duplicates (shape_of part.now)) (tree_of value.now)) }
    ensures fails { IfErr result (Fails reader.reject_duplicates (s.Shape.sequence (shape_of part.now)) (tree_of value.now)) }
{
    match items_of(reader.alloc, value, Expected::Sequence) {
        Ok(items) => read_each(reader, part, items),
        Err(error) => Err(at_list(reader.alloc, error, value)),
    }
}

/// Reads each item, by one shape.
#[cycle(read)]
pub(crate) fn read_each(
    reader: Reader,
    part: &Shape,
    items: NodeItems<'_, '_>,
) -> Result<Vec<Data>, Failure>
    ensures gives { GivesOrFails (λ v. map data_of v.items) (are_text (items_view items.entry)) result
        (read_each (reads reader.reject_duplicates (shape_of part.now)) (items_view items.entry)) }
    ensures fails { IfErr result (FailsIn reader.reject_duplicates (IsItem (shape_of part.now) (items_view items.entry))) }
{
    let mut values = Vec::with_capacity(reader.alloc, items.len())?;
    for i in 0..items.len() {
        let item = match items.at(reader.alloc, i) {
            Ok(Some(item)) => item,
            Ok(None) => break,
            Err(error) => return Err(at_missing(reader.alloc, error, part).at_index(
                reader.alloc,
                i,
            )),
        };
        let data = match read_node(reader, part, item) {
            Ok(data) => data,
            Err(failure) => return Err(failure.at_index(reader.alloc, i)),
        };
        values.push(data)?;
    }
    Ok(values)
}

/// Reads a tuple: the first items of a node, each by its own shape.
#[cycle(read)]
#[inline(always)]
pub(crate) fn read_tuple(
    reader: Reader,
    parts: &Vec<Shape>,
    value: &ParsedValue<'_>,
    expected: Expected,
) -> Result<Vec<Data>, Failure>
    ensures gives { GivesOrFails (λ v. map data_of v.items) (is_text (tree_of value.now)) result
        (option_and_then (reads_tuple reader.reject_duplicates (shapes_in parts.now.items)) (items (tree_of value.now))) }
    ensures fails { IfErr result (Fails reader.reject_duplicates (s.Shape.tuple (shapes_in parts.now.items)) (tree_of value.now)) }
{
    match items_of(reader.alloc, value, expected) {
        Ok(items) => read_parts(reader, parts, items),
        Err(error) => Err(at_tuple(reader.alloc, error, value)),
    }
}

// Reads the first items, each by its own shape.
#[cycle(read)]
#[tactic(auto, unfolding(qs_spec::specs::internal::ReadFunction::reads))]
fn read_parts(
    reader: Reader,
    parts: &Vec<Shape>,
    items: NodeItems<'_, '_>,
) -> Result<Vec<Data>, Failure>
    ensures gives { GivesOrFails (λ v. map data_of v.items) (are_text (items_view items.entry)) result
        (reads_tuple reader.reject_duplicates (shapes_in parts.now.items) (items_view items.entry)) }
    ensures fails { IfErr result (FailsIn reader.reject_duplicates (IsTupleItem (shapes_in parts.now.items) (items_view items.entry))) }
{
    let mut values = Vec::with_capacity(reader.alloc, parts.len())?;
    for (i, part) in parts.iter().enumerate() {
        let item = match items.at(reader.alloc, i) {
            Ok(Some(item)) => item,
            Ok(None) => {
                let error = Message::InvalidLength(i).error(reader.alloc);
                return Err(at_missing(reader.alloc, error, part).at_index(reader.alloc, i));
            }
            Err(error) => return Err(at_missing(reader.alloc, error, part).at_index(
                reader.alloc,
                i,
            )),
        };
        let data = match read_node(reader, part, item) {
            Ok(data) => data,
            Err(failure) => return Err(failure.at_index(reader.alloc, i)),
        };
        values.push(data)?;
    }
    Ok(values)
}
