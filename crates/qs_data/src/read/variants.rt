//! Reading an enum.

ghost use Rattle.std.specs.Prelude.{◌≡◌, ◌<◌, false, Some, IfErr, IfOk, length, map, option_map, slice_get, string_bytes};
ghost use Rattle.std.specs.Str.{is_utf8};
ghost use Rattle.qs_spec.specs.Segment.{segment_text};
ghost use Rattle.qs_spec.specs.Shape as s;
ghost use Rattle.qs_spec.specs.Shape.{struct_kind};
ghost use Rattle.qs_spec.specs.Tree.Tree.{mapping};
ghost use Rattle.qs_spec.specs.Node.{keys_are_allowed, as_map};
ghost use Rattle.qs_spec.specs.internal.ReadFunction.{read_enum, reads_names, reads_places, reads_variant, reads_kind, struct_members, unit_variant_data};
ghost use Rattle.qs_tree.specs.tree.Views.{tree_of, entries_of_map, segment_of_key};
ghost use Rattle.qs_data.specs.data.Views.{data_of, named};
ghost use Rattle.qs_data.specs.shape.Views.{fields_in, variant_of, variants_in};
ghost use Rattle.qs_data.specs.read.TreeText.{is_text, entries_are_text};
ghost use Rattle.qs_data.specs.read.internal.ReadError.{ReadGives};
ghost use Rattle.qs_data.specs.failure.Fails.{Fails, GivesOrFails, error_in};
ghost use Rattle.qs_data.specs.failure.internal.Failing.{FailsHeld, IsTextOf, names};
ghost use Rattle.qs_data.specs.read.Errors.{IsCustomOrOutOfMemory};
ghost use Rattle.qs_data.specs.read.internal.Keys.{unknown_of};
ghost use Rattle.qs_data.specs.shape.Variants.{variant_named};

use crate::data::Data;
use crate::failure::{Failure, at_enum, at_unnamed};
use crate::read::by_shape::{Reader, read_node};
use crate::read::error::Result;
use crate::read::fields::{read_entries, read_struct};
use crate::read::keys::NodeEntries;
use crate::read::lists::read_tuple;
use crate::read::message::{Expected, Message, Unexpected};
use crate::read::scalar::as_text;
use crate::read::unknown::UnknownKeys;
use crate::shape::{Field, Variant, VariantKind};
use itoa::Buffer;
use qs_tree::{Key, ParsedMap, ParsedValue};
use std::alloc::Global;

/// Reads one of the variants: the one that the smallest key of a map names, or the unit variant that a text names.
#[cycle(read)]
#[tactic(auto, unfolding(qs_spec::specs::internal::ReadFunction::read_enum))]
pub(crate) fn read_enum(
    reader: Reader,
    variants: &Vec<Variant>,
    value: &ParsedValue<'_>,
) -> Result<Data, Failure>
    ensures gives { let vs = variants_in variants.now.items in
        GivesOrFails data_of (is_text (tree_of value.now)) result (read_enum vs (reads_variant reader.reject_duplicates vs) (tree_of value.now)) }
    ensures fails { IfErr result (Fails reader.reject_duplicates (s.Shape.enumeration (variants_in variants.now.items)) (tree_of value.now)) }
{
    match value {
        ParsedValue::String(text) => read_text(reader, variants, value, text.as_slice()),
        ParsedValue::Map(map) => read_least(reader, variants, value, map),
        ParsedValue::NoValue => Err(no_enum(reader, variants, value)),
        ParsedValue::Null => Err(no_enum(reader, variants, value)),
        ParsedValue::Sequence(_) => Err(no_enum(reader, variants, value)),
        ParsedValue::Uninitialized => Err(no_enum(reader, variants, value)),
    }
}

// Returns the failure of a node that is neither a text nor a map.
fn no_enum(reader: Reader, variants: &Vec<Variant>, value: &ParsedValue<'_>) -> Failure
    requires { names (tree_of value.now) ≡ false }
    ensures custom { IsCustomOrOutOfMemory (error_in result) }
    ensures fails { Fails reader.reject_duplicates (s.Shape.enumeration (variants_in variants.now.items)) (tree_of value.now) result }
{
    let error = Message::mismatch(reader.alloc, value, Expected::Enum);
    at_enum(reader.alloc, error, variants, value)
}

// Reads the unit variant that a text names.
fn read_text(
    reader: Reader,
    variants: &Vec<Variant>,
    value: &ParsedValue<'_>,
    name: &[u8],
) -> Result<Data, Failure>
    requires { IsTextOf name.now (tree_of value.now) }
    ensures gives { GivesOrFails data_of (is_utf8 name.now) result (unit_variant_data (variants_in variants.now.items) name.now) }
    ensures fails { IfErr result (Fails reader.reject_duplicates (s.Shape.enumeration (variants_in variants.now.items)) (tree_of value.now)) }
{
    match read_name(reader.alloc, variants, name) {
        Ok(data) => Ok(data),
        Err(error) => Err(at_enum(reader.alloc, error, variants, value)),
    }
}

// Reads the unit variant with a name.
#[tactic(auto, using(crate::proofs::lemmas::read::Variants::no_unit))]
fn read_name(alloc: Global, variants: &[Variant], name: &[u8]) -> Result<Data>
    ensures { ReadGives data_of (is_utf8 name.now) result (unit_variant_data (variants_in variants.now) name.now) }
{
    let place = place_of(alloc, variants, name)?;
    let variant = &variants[place];
    let expected = match &variant.kind {
        VariantKind::Unit => return Ok(Data::UnitVariant(variant.name.clone()?)),
        VariantKind::Newtype(_) => Expected::NewtypeVariant,
        VariantKind::Tuple(_) => Expected::TupleVariant,
        VariantKind::Struct(_) => Expected::StructVariant,
        VariantKind::StrictStruct(_) => Expected::StructVariant,
    };
    let found = Unexpected::UnitVariant;
    Err(Message::InvalidType { found, expected }.error(alloc))
}

// Reads the variant that the smallest key of a map names, from the value under that key. The other keys are ignored.
#[cycle(read)]
#[tactic(auto, unfolding(qs_spec::specs::internal::ReadFunction::read_enum))]
fn read_least(
    reader: Reader,
    variants: &Vec<Variant>,
    node: &ParsedValue<'_>,
    map: &ParsedMap<'_>,
) -> Result<Data, Failure>
    requires { tree_of node.now ≡ mapping (entries_of_map map.now) }
    ensures gives { let vs = variants_in variants.now.items in let es = entries_of_map map.now in
        GivesOrFails data_of (entries_are_text es) result (read_enum vs (reads_variant reader.reject_duplicates vs) (mapping es)) }
    ensures fails { IfErr result (Fails reader.reject_duplicates (s.Shape.enumeration (variants_in variants.now.items)) (tree_of node.now)) }
{
    let Some((key, value)) = map.at(0) else {
        let found = Unexpected::Map;
        let expected = Expected::Enum;
        let error = Message::InvalidType { found, expected }.error(reader.alloc);
        return Err(at_enum(reader.alloc, error, variants, node));
    };
    let place = match place_of_key(reader.alloc, variants, key) {
        Ok(place) => place,
        Err(error) => return Err(at_unnamed(reader.alloc, error, variants, key)),
    };
    match read_variant(reader, &variants[place], value) {
        Ok(data) => Ok(data),
        Err(failure) => Err(failure.at_key(reader.alloc, key)),
    }
}

// Returns the index of the variant that a key names.
fn place_of_key(alloc: Global, variants: &[Variant], key: &Key<'_>) -> Result<usize>
    ensures place { IfOk result (λ i. i < length variants.now) }
    ensures named { let name = segment_text (segment_of_key key.now) in
        ReadGives (λ i. option_map variant_of (slice_get variants.now i)) (is_utf8 name) result
        (option_map Some (variant_named name (variants_in variants.now))) }
{
    match key {
        Key::Int(number) => {
            let mut buffer = Buffer::new();
            place_of(alloc, variants, buffer.format(*number).as_bytes())
        }
        Key::String(text) => place_of(alloc, variants, text.as_slice()),
    }
}

// Returns the index of the variant with a name.
#[tactic(auto, using(crate::proofs::lemmas::read::Variants::named_here, crate::proofs::lemmas::read::Variants::named_later))]
fn place_of(alloc: Global, variants: &[Variant], name: &[u8]) -> Result<usize>
    ensures place { IfOk result (λ i. i < length variants.now) }
    ensures named { ReadGives (λ i. option_map variant_of (slice_get variants.now i)) (is_utf8 name.now) result
        (option_map Some (variant_named name.now (variants_in variants.now))) }
{
    for (i, variant) in variants.iter().enumerate() {
        if variant.name.as_bytes() == name {
            return Ok(i);
        }
    }
    Err(Message::UnknownVariant(as_text(alloc, name)?).error(alloc))
}

// Reads what a variant holds, from the value under its name.
#[cycle(read)]
#[tactic(auto, using(crate::proofs::lemmas::data::Levels::levels), unfolding(qs_spec::specs::internal::ReadFunction::reads))]
fn read_variant(reader: Reader, variant: &Variant, value: &ParsedValue<'_>) -> Result<Data, Failure>
    ensures gives { let v = variant_of variant.now in
        GivesOrFails data_of (is_text (tree_of value.now)) result (reads_kind reader.reject_duplicates v.1 v.0 (tree_of value.now)) }
    ensures fails { let v = variant_of variant.now in
        IfErr result (FailsHeld reader.reject_duplicates v.1 (tree_of value.now)) }
{
    let name = variant.name.clone()?;
    match &variant.kind {
        VariantKind::Unit => Ok(Data::UnitVariant(name)),
        VariantKind::Newtype(part) => {
            let held = read_node(reader, part, value)?;
            Ok(Data::NewtypeVariant(name, Box::new(reader.alloc, held)?))
        }
        VariantKind::Tuple(parts) => {
            let items = read_tuple(reader, parts, value, Expected::TupleVariant)?;
            Ok(Data::TupleVariant(name, items))
        }
        VariantKind::Struct(fields) => struct_variant_data(
            reader,
            UnknownKeys::Ignored,
            name,
            fields,
            value,
        ),
        VariantKind::StrictStruct(fields) => struct_variant_data(
            reader,
            UnknownKeys::Rejected,
            name,
            fields,
            value,
        ),
    }
}

// Reads the fields of the struct variant with this name.
#[cycle(read)]
#[inline(always)]
#[tactic(auto, using(crate::proofs::lemmas::data::Levels::levels), unfolding(qs_spec::specs::internal::ReadFunction::reads))]
fn struct_variant_data(
    reader: Reader,
    unknown: UnknownKeys,
    name: String,
    fields: &Vec<Field>,
    value: &ParsedValue<'_>,
) -> Result<Data, Failure>
    ensures gives { GivesOrFails data_of (is_text (tree_of value.now)) result
        (reads_kind reader.reject_duplicates (struct_kind (unknown_of unknown) (fields_in fields.now.items)) (string_bytes name) (tree_of value.now)) }
    ensures fails { IfErr result (FailsHeld reader.reject_duplicates (struct_kind (unknown_of unknown) (fields_in fields.now.items)) (tree_of value.now)) }
{
    let members = read_variant_fields(reader, unknown, fields, value)?;
    Ok(Data::StructVariant(name, members))
}

// Reads the fields of a struct variant like the fields of a struct, but a text counts as a map with that text under the
// empty key.
#[cycle(read)]
#[tactic(auto, unfolding(qs_spec::specs::internal::ReadFunction::struct_members))]
fn read_variant_fields(
    reader: Reader,
    unknown: UnknownKeys,
    fields: &Vec<Field>,
    value: &ParsedValue<'_>,
) -> Result<Vec<(String, Data)>, Failure>
    ensures gives { let fs = fields_in fields.now.items in
        GivesOrFails (λ v. map (named data_of) v.items) (is_text (tree_of value.now)) result
        (struct_members (keys_are_allowed (unknown_of unknown) fs) (reads_names reader.reject_duplicates fs) (reads_places reader.reject_duplicates fs) (as_map (tree_of value.now))) }
    ensures fails { IfErr result (Fails reader.reject_duplicates (s.Shape.struct (unknown_of unknown) (fields_in fields.now.items)) (as_map (tree_of value.now))) }
{
    match value {
        ParsedValue::String(_) => read_entries(reader, unknown, fields, NodeEntries::Leaf(value)),
        _ => read_struct(reader, unknown, fields, value),
    }
}
