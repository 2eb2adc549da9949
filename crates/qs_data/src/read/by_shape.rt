//! Reading a tree by a shape.

ghost use Rattle.std.specs.Prelude.{◌≡◌, IfErr, IsTrue, false, option_map, true};
ghost use Rattle.qs_spec.specs.Data.Data.{some};
ghost use Rattle.qs_spec.specs.internal.ReadFunction.{reads, read_ignored, read_option};
ghost use Rattle.qs_spec.specs.Node.{IsFull};
ghost use Rattle.qs_spec.specs.Shape as s;
ghost use Rattle.qs_spec.specs.Tree.Tree.{uninitialized};
ghost use Rattle.qs_tree.specs.tree.Views.{tree_of};
ghost use Rattle.qs_data.specs.data.Views.{data_of};
ghost use Rattle.qs_data.specs.shape.Views.{fields_in, key_shape_of, shape_of, shapes_in};
ghost use Rattle.qs_data.specs.read.TreeText.{is_text};
ghost use Rattle.qs_data.specs.read.Parsed.{allocates_nothing};
ghost use Rattle.qs_data.specs.read.Gives.{Gives};
ghost use Rattle.qs_data.specs.read.internal.Frugal.{IsFrugal};
ghost use Rattle.qs_data.specs.read.internal.ReadError.{ReadGives, ReadIsFrugal};
ghost use Rattle.qs_data.specs.failure.Fails.{Fails, GivesOrFails, error_in};
ghost use Rattle.qs_data.specs.read.Errors.{IsCustomOrOutOfMemory};
ghost use Rattle.qs_data.specs.failure.Own.{has_parts};
ghost use Rattle.qs_data.specs.failure.internal.Failing.{FailsFrugally};
ghost use Rattle.qs_data.specs.read.internal.Keys.{unknown_of};

use crate::data::Data;
use crate::failure::{Failure, at_missing, at_shape};
use crate::read::any::read_any;
use crate::read::error::Result;
use crate::read::fields::read_struct;
use crate::read::lists::{read_list, read_tuple};
use crate::read::maps::read_map;
use crate::read::message::{Expected, Message};
use crate::read::scalar::{
    read_bool, read_bytes, read_char, read_signed, read_text, read_unit, read_unsigned,
};
use crate::read::unknown::UnknownKeys;
use crate::read::variants::read_enum;
use crate::shape::{Field, KeyShape, Shape, Width};
use qs_tree::{Error, ParsedValue};
use std::alloc::Global;

/// How a tree is read, node by node. Its methods are for types that read themselves.
///
/// ```
/// let reader = Reader::new(alloc, Config::new());
/// let data = reader.read(&Shape::U8, node)?;
/// ```
#[derive(Clone, Copy)]
pub struct Reader {
    /// The allocator.
    pub alloc: Global,
    /// Whether several values for a scalar are rejected.
    pub reject_duplicates: bool,
}

/// Reads a value by a shape.
pub(crate) fn read(reader: Reader, shape: &Shape, value: &ParsedValue<'_>) -> Result<Data, Error>
    ensures gives { Gives data_of (is_text (tree_of value.now)) result (reads reader.reject_duplicates (shape_of shape.now) (tree_of value.now)) }
    ensures frugal { IsTrue (allocates_nothing (shape_of shape.now)) → IsFrugal result (reads reader.reject_duplicates (shape_of shape.now) (tree_of value.now)) }
{
    Ok(read_node(reader, shape, value)?)
}

/// Reads a value by a shape, on the way through the levels of a tree. A failure names the part that isn't read.
#[cycle(read)]
pub(crate) fn read_node(
    reader: Reader,
    shape: &Shape,
    value: &ParsedValue<'_>,
) -> Result<Data, Failure>
    ensures gives { GivesOrFails data_of (is_text (tree_of value.now)) result (reads reader.reject_duplicates (shape_of shape.now) (tree_of value.now)) }
    ensures frugal { IsTrue (allocates_nothing (shape_of shape.now)) → FailsFrugally result (reads reader.reject_duplicates (shape_of shape.now) (tree_of value.now)) }
    ensures fails { IfErr result (Fails reader.reject_duplicates (shape_of shape.now) (tree_of value.now)) }
{
    read_inline(reader, shape, value)
}

/// Reads a value by a shape like [`read_node`], but inlined, so the data of a field is moved once less.
#[cycle(read)]
#[inline(always)]
#[tactic(auto, using(crate::proofs::lemmas::data::Levels::levels), unfolding(qs_spec::specs::internal::ReadFunction::reads))]
pub(crate) fn read_inline(
    reader: Reader,
    shape: &Shape,
    value: &ParsedValue<'_>,
) -> Result<Data, Failure>
    ensures gives { GivesOrFails data_of (is_text (tree_of value.now)) result (reads reader.reject_duplicates (shape_of shape.now) (tree_of value.now)) }
    ensures frugal { IsTrue (allocates_nothing (shape_of shape.now)) → FailsFrugally result (reads reader.reject_duplicates (shape_of shape.now) (tree_of value.now)) }
    ensures fails { IfErr result (Fails reader.reject_duplicates (shape_of shape.now) (tree_of value.now)) }
{
    match shape {
        Shape::Unit => read_leaf(reader, shape, value),
        Shape::Bool => read_leaf(reader, shape, value),
        Shape::U8 => read_leaf(reader, shape, value),
        Shape::U16 => read_leaf(reader, shape, value),
        Shape::U32 => read_leaf(reader, shape, value),
        Shape::U64 => read_leaf(reader, shape, value),
        Shape::I8 => read_leaf(reader, shape, value),
        Shape::I16 => read_leaf(reader, shape, value),
        Shape::I32 => read_leaf(reader, shape, value),
        Shape::I64 => read_leaf(reader, shape, value),
        Shape::Char => read_leaf(reader, shape, value),
        Shape::Text => read_leaf(reader, shape, value),
        Shape::Bytes => read_leaf(reader, shape, value),
        Shape::Option(part) => read_option(reader, part, value),
        Shape::Seq(part) => seq_data(reader, part, value),
        Shape::Tuple(parts) => tuple_data(reader, parts, value),
        Shape::Map(key_shape, part) => map_data(reader, key_shape, part, value),
        Shape::Struct(fields) => struct_data(reader, UnknownKeys::Ignored, fields, value),
        Shape::StrictStruct(fields) => struct_data(reader, UnknownKeys::Rejected, fields, value),
        Shape::Newtype(part) => newtype_data(reader, part, value),
        Shape::Enum(variants) => read_enum(reader, variants, value),
        Shape::Any => read_leaf(reader, shape, value),
        Shape::Ignored => read_leaf(reader, shape, value),
    }
}

// Reads a value whose parts aren't named in a path.
#[inline(always)]
fn read_leaf(reader: Reader, shape: &Shape, value: &ParsedValue<'_>) -> Result<Data, Failure>
    requires { has_parts (shape_of shape.now) ≡ false }
    ensures gives { GivesOrFails data_of (is_text (tree_of value.now)) result (reads reader.reject_duplicates (shape_of shape.now) (tree_of value.now)) }
    ensures frugal { IsTrue (allocates_nothing (shape_of shape.now)) → FailsFrugally result (reads reader.reject_duplicates (shape_of shape.now) (tree_of value.now)) }
    ensures fails { IfErr result (Fails reader.reject_duplicates (shape_of shape.now) (tree_of value.now)) }
{
    match leaf_data(reader, shape, value) {
        Ok(data) => Ok(data),
        Err(error) => Err(at_shape(reader.alloc, error, shape, value)),
    }
}

// Returns the data of such a value.
#[inline(always)]
#[tactic(auto, using(crate::proofs::lemmas::data::Levels::levels), unfolding(qs_spec::specs::internal::ReadFunction::reads))]
fn leaf_data(reader: Reader, shape: &Shape, value: &ParsedValue<'_>) -> Result<Data>
    requires { has_parts (shape_of shape.now) ≡ false }
    ensures gives { ReadGives data_of (is_text (tree_of value.now)) result (reads reader.reject_duplicates (shape_of shape.now) (tree_of value.now)) }
    ensures frugal { IsTrue (allocates_nothing (shape_of shape.now)) → ReadIsFrugal result (reads reader.reject_duplicates (shape_of shape.now) (tree_of value.now)) }
{
    match shape {
        Shape::Unit => read_unit(reader.alloc, value),
        Shape::Bool => read_bool(reader, value),
        Shape::U8 => read_unsigned(reader, Width::Bits8, value),
        Shape::U16 => read_unsigned(reader, Width::Bits16, value),
        Shape::U32 => read_unsigned(reader, Width::Bits32, value),
        Shape::U64 => read_unsigned(reader, Width::Bits64, value),
        Shape::I8 => read_signed(reader, Width::Bits8, value),
        Shape::I16 => read_signed(reader, Width::Bits16, value),
        Shape::I32 => read_signed(reader, Width::Bits32, value),
        Shape::I64 => read_signed(reader, Width::Bits64, value),
        Shape::Char => read_char(reader.alloc, value),
        Shape::Text => read_text(reader, value),
        Shape::Bytes => read_bytes(reader, value),
        Shape::Any => read_any(reader.alloc, value),
        Shape::Ignored => read_ignored(reader.alloc, value),
        _ => unreachable!(),
    }
}

// Reads a list.
#[cycle(read)]
#[inline(always)]
#[tactic(auto, unfolding(qs_spec::specs::internal::ReadFunction::reads))]
fn seq_data(reader: Reader, part: &Shape, value: &ParsedValue<'_>) -> Result<Data, Failure>
    ensures gives { GivesOrFails data_of (is_text (tree_of value.now)) result (reads reader.reject_duplicates (s.Shape.sequence (shape_of part.now)) (tree_of value.now)) }
    ensures fails { IfErr result (Fails reader.reject_duplicates (s.Shape.sequence (shape_of part.now)) (tree_of value.now)) }
{
    Ok(Data::Seq(read_list(reader, part, value)?))
}

// Reads a tuple.
#[cycle(read)]
#[inline(always)]
#[tactic(auto, unfolding(qs_spec::specs::internal::ReadFunction::reads))]
fn tuple_data(reader: Reader, parts: &Vec<Shape>, value: &ParsedValue<'_>) -> Result<Data, Failure>
    ensures gives { GivesOrFails data_of (is_text (tree_of value.now)) result (reads reader.reject_duplicates (s.Shape.tuple (shapes_in parts.now.items)) (tree_of value.now)) }
    ensures fails { IfErr result (Fails reader.reject_duplicates (s.Shape.tuple (shapes_in parts.now.items)) (tree_of value.now)) }
{
    let expected = Expected::Tuple(parts.len());
    Ok(Data::Tuple(read_tuple(reader, parts, value, expected)?))
}

// Reads a map.
#[cycle(read)]
#[inline(always)]
#[tactic(auto, using(crate::proofs::lemmas::data::Levels::levels), unfolding(qs_spec::specs::internal::ReadFunction::reads))]
fn map_data(
    reader: Reader,
    key_shape: &KeyShape,
    part: &Shape,
    value: &ParsedValue<'_>,
) -> Result<Data, Failure>
    ensures gives { GivesOrFails data_of (is_text (tree_of value.now)) result
        (reads reader.reject_duplicates (s.Shape.mapping (key_shape_of key_shape.now) (shape_of part.now)) (tree_of value.now)) }
    ensures fails { IfErr result (Fails reader.reject_duplicates (s.Shape.mapping (key_shape_of key_shape.now) (shape_of part.now)) (tree_of value.now)) }
{
    Ok(Data::Map(read_map(reader, key_shape, part, value)?))
}

// Reads a struct, whose unknown keys are ignored or rejected.
#[cycle(read)]
#[inline(always)]
#[tactic(auto, using(crate::proofs::lemmas::data::Levels::levels), unfolding(qs_spec::specs::internal::ReadFunction::reads))]
fn struct_data(
    reader: Reader,
    unknown: UnknownKeys,
    fields: &Vec<Field>,
    value: &ParsedValue<'_>,
) -> Result<Data, Failure>
    ensures gives { GivesOrFails data_of (is_text (tree_of value.now)) result
        (reads reader.reject_duplicates (s.Shape.struct (unknown_of unknown) (fields_in fields.now.items)) (tree_of value.now)) }
    ensures fails { IfErr result (Fails reader.reject_duplicates (s.Shape.struct (unknown_of unknown) (fields_in fields.now.items)) (tree_of value.now)) }
{
    Ok(Data::Struct(read_struct(reader, unknown, fields, value)?))
}

// Reads a value in a type of its own.
#[cycle(read)]
#[inline(always)]
#[tactic(auto, unfolding(qs_spec::specs::internal::ReadFunction::reads))]
fn newtype_data(reader: Reader, part: &Shape, value: &ParsedValue<'_>) -> Result<Data, Failure>
    ensures gives { GivesOrFails data_of (is_text (tree_of value.now)) result (reads reader.reject_duplicates (s.Shape.newtype (shape_of part.now)) (tree_of value.now)) }
    ensures fails { IfErr result (Fails reader.reject_duplicates (s.Shape.newtype (shape_of part.now)) (tree_of value.now)) }
{
    let held = read_node(reader, part, value)?;
    Ok(Data::Newtype(Box::new(reader.alloc, held)?))
}

// Reads a value that may be absent: `None` if there is no value. An empty value is `Some` of what the shape reads from no value.
#[cycle(read)]
fn read_option(reader: Reader, part: &Shape, value: &ParsedValue<'_>) -> Result<Data, Failure>
    ensures gives { GivesOrFails data_of (is_text (tree_of value.now)) result (read_option (reads reader.reject_duplicates (shape_of part.now)) (tree_of value.now)) }
    ensures fails { IfErr result (Fails reader.reject_duplicates (s.Shape.option (shape_of part.now)) (tree_of value.now)) }
{
    match value {
        ParsedValue::Uninitialized => Err(nothing(reader, part)),
        ParsedValue::NoValue => Ok(Data::None),
        ParsedValue::Null => {
            let held = read_node(reader, part, &ParsedValue::NoValue)?;
            Ok(Data::Some(Box::new(reader.alloc, held)?))
        }
        ParsedValue::String(_) => read_full(reader, part, value),
        ParsedValue::Sequence(_) => read_full(reader, part, value),
        ParsedValue::Map(_) => read_full(reader, part, value),
    }
}

// Returns the failure of a node that holds nothing at all, for an option.
fn nothing(reader: Reader, part: &Shape) -> Failure
    ensures custom { IsCustomOrOutOfMemory (error_in result) }
    ensures fails { Fails reader.reject_duplicates (s.Shape.option (shape_of part.now)) uninitialized result }
{
    let error = Message::Uninitialized.error(reader.alloc);
    at_missing(reader.alloc, error, part)
}

// Reads a value that is there, for an option.
#[cycle(read)]
#[inline(always)]
fn read_full(reader: Reader, part: &Shape, value: &ParsedValue<'_>) -> Result<Data, Failure>
    requires { IsFull (tree_of value.now) }
    ensures gives { GivesOrFails data_of (is_text (tree_of value.now)) result (option_map some (reads reader.reject_duplicates (shape_of part.now) (tree_of value.now))) }
    ensures fails { IfErr result (Fails reader.reject_duplicates (s.Shape.option (shape_of part.now)) (tree_of value.now)) }
{
    let held = read_node(reader, part, value)?;
    Ok(Data::Some(Box::new(reader.alloc, held)?))
}

// Ignores whatever is there.
fn read_ignored(alloc: Global, value: &ParsedValue<'_>) -> Result<Data>
    ensures { ReadGives data_of true result (read_ignored (tree_of value.now)) }
{
    match value {
        ParsedValue::Uninitialized => Err(Message::Uninitialized.error(alloc)),
        _ => Ok(Data::Unit),
    }
}
