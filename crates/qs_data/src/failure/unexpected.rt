//! The first key of a map that its shape doesn't allow.

ghost use Rattle.std.specs.Prelude.{◌≡◌, IfOk, option_map};
ghost use Rattle.qs_spec.specs.Segment.{segment_text};
ghost use Rattle.qs_spec.specs.Shape.{are_ignored};
ghost use Rattle.qs_tree.specs.tree.Views.{entries_of_map, segment_of_key};
ghost use Rattle.qs_data.specs.shape.Views.{fields_in, key_shape_of};
ghost use Rattle.qs_data.specs.read.Keys.{entries_view, unknown_of};
ghost use Rattle.qs_data.specs.failure.Mismatch.{segment_of};
ghost use Rattle.qs_data.specs.failure.Unexpected.{first_other, is_allowed, is_key};

use crate::failure::segment::Segment;
use crate::read::{NodeEntries, ReadError, UnknownKeys, is_text, read_key};
use crate::shape::{Field, KeyShape, is_field_name};
use itoa::Buffer;
use qs_tree::{Key, ParsedMap};
use std::alloc::{AllocError, Global};

/// Finds the first key that isn't UTF-8 or, if unknown keys are rejected, names no field.
pub(crate) fn find_unknown_field(
    alloc: Global,
    unknown: UnknownKeys,
    fields: &Vec<Field>,
    entries: NodeEntries<'_, '_>,
) -> Result<Option<Segment>, AllocError>
    ensures { IfOk result (λ found. option_map segment_of found ≡ first_other (is_allowed (unknown_of unknown) (fields_in fields.now.items)) (entries_view entries.entry)) }
{
    match entries {
        NodeEntries::Empty => Ok(None),
        NodeEntries::Map(map) => find_in_map(alloc, unknown, fields, map),
        NodeEntries::Leaf(_) => {
            if is_allowed_name(unknown, fields, &[]) {
                Ok(None)
            } else {
                Ok(Some(Segment::Key(Vec::new(alloc))))
            }
        }
    }
}

// Finds the first key of a map that a struct with these fields doesn't allow.
fn find_in_map(
    alloc: Global,
    unknown: UnknownKeys,
    fields: &Vec<Field>,
    map: &ParsedMap<'_>,
) -> Result<Option<Segment>, AllocError>
    ensures { IfOk result (λ found. option_map segment_of found ≡ first_other (is_allowed (unknown_of unknown) (fields_in fields.now.items)) (entries_of_map map.now)) }
{
    for i in 0..map.len() {
        let Some((key, _)) = map.at(i) else {
            break;
        };
        if !is_allowed_key(unknown, fields, key) {
            return Ok(Some(Segment::of(alloc, key)?));
        }
    }
    Ok(None)
}

/// Finds the first key that the key shape of a map doesn't read.
pub(crate) fn find_unread_key(
    alloc: Global,
    shape: &KeyShape,
    map: &ParsedMap<'_>,
) -> Result<Option<Segment>, AllocError>
    ensures { IfOk result (λ found. option_map segment_of found ≡ first_other (is_key (key_shape_of shape.now)) (entries_of_map map.now)) }
{
    for i in 0..map.len() {
        let Some((key, _)) = map.at(i) else {
            break;
        };
        let is_read = is_key_read(alloc, shape, key)?;
        if !is_read {
            return Ok(Some(Segment::of(alloc, key)?));
        }
    }
    Ok(None)
}

// Returns whether a struct allows a key.
fn is_allowed_key(unknown: UnknownKeys, fields: &Vec<Field>, key: &Key<'_>) -> bool
    ensures { result ≡ is_allowed (unknown_of unknown) (fields_in fields.now.items) (segment_text (segment_of_key key.now)) }
{
    match key {
        Key::Int(number) => {
            let mut buffer = Buffer::new();
            is_allowed_name(unknown, fields, buffer.format(*number).as_bytes())
        }
        Key::String(text) => is_allowed_name(unknown, fields, text.as_slice()),
    }
}

// Returns whether a struct allows the text of a key.
fn is_allowed_name(unknown: UnknownKeys, fields: &Vec<Field>, name: &[u8]) -> bool
    ensures { result ≡ is_allowed (unknown_of unknown) (fields_in fields.now.items) name.now }
{
    is_text(name) && (is_ignored(unknown) || is_field_name(fields, name))
}

// Returns whether unknown keys are ignored.
fn is_ignored(unknown: UnknownKeys) -> bool
    ensures { result ≡ are_ignored (unknown_of unknown) }
{
    match unknown {
        UnknownKeys::Ignored => true,
        UnknownKeys::Rejected => false,
    }
}

// Returns whether a key shape reads a key.
fn is_key_read(alloc: Global, shape: &KeyShape, key: &Key<'_>) -> Result<bool, AllocError>
    ensures { IfOk result (λ read. read ≡ is_key (key_shape_of shape.now) (segment_text (segment_of_key key.now))) }
{
    match read_key(alloc, shape, key) {
        Ok(_) => Ok(true),
        Err(ReadError::OutOfMemory) => Err(AllocError),
        Err(_) => Ok(false),
    }
}
