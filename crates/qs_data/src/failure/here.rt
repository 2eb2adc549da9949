//! The failure of a node itself: its path is empty.

ghost use Rattle.std.specs.Prelude.{◌≡◌, None, option_map};
ghost use Rattle.qs_spec.specs.Shape as s;
ghost use Rattle.qs_spec.specs.Tree.{Entries};
ghost use Rattle.qs_spec.specs.Tree.Tree.{mapping, uninitialized};
ghost use Rattle.qs_tree.specs.tree.Views.{entries_of_map, segment_of_key, tree_of};
ghost use Rattle.qs_data.specs.shape.Views.{fields_in, key_shape_of, shape_of, variants_in};
ghost use Rattle.qs_data.specs.read.Keys.{entries_view, unknown_of};
ghost use Rattle.qs_data.specs.failure.Mismatch.{segment_of};
ghost use Rattle.qs_data.specs.failure.Unexpected.{unexpected_key};
ghost use Rattle.qs_data.specs.failure.internal.Failing.{IsHere, IsWith, SaysKey, SaysOf};

use crate::failure::actual::Actual;
use crate::failure::expected::{Expected, names_of};
use crate::failure::failure::{Failure, Unread};
use crate::failure::mismatch::{Mismatch, Problem};
use crate::failure::segment::Segment;
use crate::failure::unexpected::{find_unknown_field, find_unread_key};
use crate::read::{NodeEntries, ReadError, UnknownKeys};
use crate::shape::{Field, KeyShape, Shape, Variant};
use qs_tree::{Key, ParsedMap, ParsedValue};
use std::alloc::{AllocError, Global};

/// Returns the failure of a node whose keys are allowed by its shape, or that isn't a map.
#[cold]
#[inline(never)]
pub(crate) fn at_shape(
    alloc: Global,
    error: ReadError,
    shape: &Shape,
    node: &ParsedValue<'_>,
) -> Failure
    ensures { unexpected_key (shape_of shape.now) (tree_of node.now) ≡ None → IsHere (shape_of shape.now) (tree_of node.now) error result }
{
    match Expected::of(alloc, shape) {
        Ok(expected) => unfit(alloc, error, expected, node),
        Err(_) => Failure::OutOfMemory,
    }
}

/// Returns the failure of a part that is missing.
#[cold]
#[inline(never)]
pub(crate) fn at_missing(alloc: Global, error: ReadError, shape: &Shape) -> Failure
    ensures { IsHere (shape_of shape.now) uninitialized error result }
{
    at_shape(alloc, error, shape, &ParsedValue::Uninitialized)
}

/// Returns the failure of a node that has no list of items.
#[cold]
#[inline(never)]
pub(crate) fn at_list(alloc: Global, error: ReadError, node: &ParsedValue<'_>) -> Failure
    ensures { (part : s.Shape) → IsHere (s.Shape.sequence part) (tree_of node.now) error result }
{
    unfit(alloc, error, Expected::List, node)
}

/// Returns the failure of a node that has no list of items for a tuple.
#[cold]
#[inline(never)]
pub(crate) fn at_tuple(alloc: Global, error: ReadError, node: &ParsedValue<'_>) -> Failure
    ensures { (parts : s.Shapes) → IsHere (s.Shape.tuple parts) (tree_of node.now) error result }
{
    unfit(alloc, error, Expected::Tuple, node)
}

/// Returns the failure of a node that isn't a map, for a map.
#[cold]
#[inline(never)]
pub(crate) fn at_map(alloc: Global, error: ReadError, node: &ParsedValue<'_>) -> Failure
    ensures { (key : s.KeyShape) (part : s.Shape) → unexpected_key (s.Shape.mapping key part) (tree_of node.now) ≡ None → IsHere (s.Shape.mapping key part) (tree_of node.now) error result }
{
    unfit(alloc, error, Expected::Map, node)
}

/// Returns the failure of a map with a key that its key shape doesn't read.
#[cold]
#[inline(never)]
pub(crate) fn at_keys(
    alloc: Global,
    error: ReadError,
    shape: &KeyShape,
    map: &ParsedMap<'_>,
) -> Failure
    ensures { (part : s.Shape) → IsHere (s.Shape.mapping (key_shape_of shape.now) part) (mapping (entries_of_map map.now)) error result }
{
    match find_unread_key(alloc, shape, map) {
        Ok(key) => unexpected(alloc, error, key, Expected::Map),
        Err(_) => Failure::OutOfMemory,
    }
}

/// Returns the failure of a node that has no fields.
#[cold]
#[inline(never)]
pub(crate) fn at_struct(alloc: Global, error: ReadError, node: &ParsedValue<'_>) -> Failure
    ensures { (u : s.UnknownKeys) (fs : s.Fields) → unexpected_key (s.Shape.struct u fs) (tree_of node.now) ≡ None → IsHere (s.Shape.struct u fs) (tree_of node.now) error result }
{
    unfit(alloc, error, Expected::Struct, node)
}

/// Returns the failure of entries with a key that a struct doesn't allow, or with two keys for one field.
#[cold]
#[inline(never)]
pub(crate) fn at_fields(
    alloc: Global,
    error: ReadError,
    unknown: UnknownKeys,
    fields: &Vec<Field>,
    entries: NodeEntries<'_, '_>,
) -> Failure
    ensures { IsHere (s.Shape.struct (unknown_of unknown) (fields_in fields.now.items)) (mapping (entries_view entries.entry)) error result }
{
    match find_unknown_field(alloc, unknown, fields, entries) {
        Ok(key) => unexpected(alloc, error, key, Expected::Struct),
        Err(_) => Failure::OutOfMemory,
    }
}

/// Returns the failure of a node that names no variant, and whose first key, if it has one, isn't to blame.
#[cold]
#[inline(never)]
pub(crate) fn at_enum(
    alloc: Global,
    error: ReadError,
    variants: &Vec<Variant>,
    node: &ParsedValue<'_>,
) -> Failure
    ensures { let s = s.Shape.enumeration (variants_in variants.now.items) in unexpected_key s (tree_of node.now) ≡ None → IsHere s (tree_of node.now) error result }
{
    match names_of(alloc, variants) {
        Ok(names) => unfit(alloc, error, Expected::OneOf(names), node),
        Err(_) => Failure::OutOfMemory,
    }
}

/// Returns the failure of a map whose first key names no variant.
#[cold]
#[inline(never)]
pub(crate) fn at_unnamed(
    alloc: Global,
    error: ReadError,
    variants: &Vec<Variant>,
    key: &Key<'_>,
) -> Failure
    ensures { SaysKey (segment_of_key key.now) (s.Shape.enumeration (variants_in variants.now.items)) error result }
{
    let Ok(names) = names_of(alloc, variants) else {
        return Failure::OutOfMemory;
    };
    match Segment::of(alloc, key) {
        Ok(segment) => unexpected(alloc, error, Some(segment), Expected::OneOf(names)),
        Err(_) => Failure::OutOfMemory,
    }
}

// Returns the failure of a node: what is expected, and what is found.
fn unfit(alloc: Global, error: ReadError, expected: Expected, node: &ParsedValue<'_>) -> Failure
    ensures { SaysOf None expected (tree_of node.now) error result }
{
    match Actual::at(alloc, node) {
        Ok(actual) => here(alloc, error, Problem::Unfit(expected, actual)),
        Err(_) => Failure::OutOfMemory,
    }
}

// Returns the failure of a map: the unexpected key, if there is one.
fn unexpected(alloc: Global, error: ReadError, key: Option<Segment>, expected: Expected) -> Failure
    ensures { (es : Entries) → SaysOf (option_map segment_of key) expected (mapping es) error result }
{
    let problem = match key {
        Some(key) => Problem::UnexpectedKey(key, expected),
        None => Problem::Unfit(expected, Actual::Map),
    };
    here(alloc, error, problem)
}

// Returns the failure with this problem and an empty path.
fn here(alloc: Global, error: ReadError, problem: Problem) -> Failure
    ensures { IsWith error problem result }
{
    if let ReadError::OutOfMemory = error {
        return Failure::OutOfMemory;
    }
    let path = Vec::new(alloc);
    let mismatch = Mismatch { path, problem };
    match Box::new(alloc, Unread { mismatch, error }) {
        Ok(unread) => Failure::Unread(unread),
        Err(_) => Failure::OutOfMemory,
    }
}
