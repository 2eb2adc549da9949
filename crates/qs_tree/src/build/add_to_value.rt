//! Adding a pair to a finished node, in place.
ghost use Rattle.std.specs.Prelude.{◌≡◌, ◌<◌, ◌≤◌, true, false, length, drop, IfOk, IsOkAnd, Some};
ghost use Rattle.qs_spec.specs.Tree.{mapping, uninitialized};
ghost use Rattle.qs_spec.specs.internal.InPlace as in_place;
ghost use Rattle.qs_spec.specs.internal.InPlace.{add, add_to_leaves, update};
ghost use Rattle.qs_tree.specs.declared.scan.pair.Manner.TheVariants.{Assign};
ghost use Rattle.qs_tree.specs.declared.tree.value.ParsedValue.TheVariants.{Uninitialized};
ghost use Rattle.qs_tree.specs.tree.Views.{parsed_segment_of_key, tree_of, entries_of_map};
ghost use Rattle.qs_tree.specs.internal.scan.Pairs.{leaf_of, is_push, path_of};
ghost use Rattle.qs_tree.specs.internal.build.Builder.{IsNoMap, entries_held};
ghost use Rattle.qs_tree.specs.internal.build.Adding.{Adds, AddGives, second};

use crate::build::builder::{goes_between, key_list, place_among};
use crate::build::conflict::{AddError, ConflictKind};
use crate::scan::pair::{Leaf, Manner, Pair};
use crate::tree::entries::SortedEntries;
use crate::tree::key::Key;
use crate::tree::map::ParsedMap;
use crate::tree::value::ParsedValue;
use std::alloc::{AllocError, Global};
use std::mem;

/// How many of the last keys of a path are followed by references, without opening their maps.
const NEAR: usize = 3;

/// Adds a pair to the node at a level of its path. Recurses at most three times.
///
/// Returns `false`, and changes nothing, if there is a node at the next key and more than three keys are left, or if a key would be
/// inserted before the end of a map with many entries. Returns an error if a node is in conflict with the pair, or if an allocation
/// failed. The node isn't used after that.
#[cycle(add_to_value)]
#[inline(always)]
pub(crate) fn add_to_value<'qs>(
    alloc: Global,
    value: &mut ParsedValue<'qs>,
    pair: &mut Pair<'qs>,
    level: usize,
) -> Result<bool, AddError>
    requires { level ≤ length pair.old.path }
    ensures { let path = path_of (drop level pair.old.path) in let old = tree_of value.old in
        Adds (add path (is_push pair.old.manner) (leaf_of pair.old.leaf) old) old (tree_of value.new) pair.old pair.new result }
{
    if level == pair.path.len() {
        return match add_at_end(alloc, value, pair) {
            Ok(()) => Ok(true),
            Err(error) => Err(error),
        };
    }
    add_below(alloc, value, pair, level)
}

// Adds a pair to a node at a level above the end of its path.
#[cycle(add_to_value)]
#[tactic(auto, using(crate::proofs::lemmas::build::Chains::barred, crate::proofs::lemmas::Views::views))]
fn add_below<'qs>(
    alloc: Global,
    value: &mut ParsedValue<'qs>,
    pair: &mut Pair<'qs>,
    level: usize,
) -> Result<bool, AddError>
    requires { level < length pair.old.path }
    ensures { let path = path_of (drop level pair.old.path) in let old = tree_of value.old in
        Adds (add path (is_push pair.old.manner) (leaf_of pair.old.leaf) old) old (tree_of value.new) pair.old pair.new result }
{
    match value {
        ParsedValue::Map(map) => add_in_map(alloc, map, pair, level),
        ParsedValue::Uninitialized => {
            *value = chain_of(alloc, pair, level)?;
            Ok(true)
        }
        ParsedValue::Sequence(_) => Err(AddError::below(alloc, level, value)),
        ParsedValue::String(_) => Err(AddError::below(alloc, level, value)),
        ParsedValue::Null => Err(AddError::below(alloc, level, value)),
        ParsedValue::NoValue => Err(AddError::below(alloc, level, value)),
    }
}

// Adds a pair to a map at a level of its path.
#[cycle(add_to_value)]
#[inline(always)]
fn add_in_map<'qs>(
    alloc: Global,
    map: &mut ParsedMap<'qs>,
    pair: &mut Pair<'qs>,
    level: usize,
) -> Result<bool, AddError>
    requires { level < length pair.old.path }
    ensures { let path = path_of (drop level pair.old.path) in let old = mapping (entries_of_map map.old) in
        Adds (add path (is_push pair.old.manner) (leaf_of pair.old.leaf) old) old (mapping (entries_of_map map.new)) pair.old pair.new result }
{
    let place = place_among(map.map.as_slice(), pair.key(level));
    match place {
        Ok(at) => {
            if pair.path.len() - level > NEAR {
                return Ok(false);
            }
            add_to_value(alloc, map.map.at_mut(at), pair, level + 1)
        }
        Err(at) => {
            if goes_between(place, map.map.len()) {
                return Ok(false);
            }
            let key = pair.take_key(level);
            let value = chain_of(alloc, pair, level + 1)?;
            map.map.insert_at(at, key, value)?;
            Ok(true)
        }
    }
}

/// Returns a node with only this pair, at a level of the pair's path. Takes the remaining keys and the leaf out of the pair.
#[inline(always)]
pub(crate) fn chain_of<'qs>(
    alloc: Global,
    pair: &mut Pair<'qs>,
    level: usize,
) -> Result<ParsedValue<'qs>, AllocError>
    requires { level ≤ length pair.old.path }
    ensures { let path = path_of (drop level pair.old.path) in
        IfOk result (λ value. add path (is_push pair.old.manner) (leaf_of pair.old.leaf) uninitialized ≡ Some (tree_of value)) }
{
    let mut value = value_of(alloc, pair.leaf.take(), pair.manner)?;
    'keys: while level < pair.path.len() {
        let key = pair.pop_key();
        let map = ParsedMap::of(alloc, key, value)?;
        value = ParsedValue::Map(map);
    }
    Ok(value)
}

// Returns a node with only this leaf.
#[inline(always)]
fn value_of<'qs>(
    alloc: Global,
    leaf: Leaf<'qs>,
    manner: Manner,
) -> Result<ParsedValue<'qs>, AllocError>
    ensures value { IfOk result (λ value. add_to_leaves (is_push manner) (leaf_of leaf.entry) uninitialized ≡ Some (tree_of value)) }
    ensures assigned { manner ≡ Assign → IsOkAnd result (λ value. IsNoMap (tree_of value)) }
{
    match manner {
        Manner::Assign => Ok(leaf.into_value()),
        Manner::Push => Ok(ParsedValue::Sequence(vec![in alloc; leaf.into_value()]?)),
    }
}

/// Adds a pair's leaf at the end of its path.
///
/// Returns an error if the node is in conflict with it, or if an allocation failed. The node isn't used after that.
#[inline(always)]
#[tactic(auto, using(crate::proofs::lemmas::Views::views))]
pub(crate) fn add_at_end<'qs>(
    alloc: Global,
    value: &mut ParsedValue<'qs>,
    pair: &mut Pair<'qs>,
) -> Result<(), AddError>
    ensures added { AddGives (λ _. tree_of value.new) (in_place.add_here (is_push pair.old.manner) (leaf_of pair.old.leaf) (tree_of value.old)) result }
    ensures fresh { pair.old.manner ≡ Assign → value.old ≡ Uninitialized → IsOkAnd result (λ _. IsNoMap (tree_of value.new)) }
{
    let leaf = pair.leaf.take();
    match value {
        ParsedValue::Map(map) => add_at_map(alloc, map, leaf, pair.manner, pair.path.len()),
        _ => add_to_leaves(alloc, value, leaf, pair.manner, pair.path.len()),
    }
}

/// Adds a leaf to a node, or returns the conflict with it.
#[inline(never)]
#[tactic(auto, using(crate::proofs::lemmas::Views::views))]
pub(crate) fn add_to_leaves<'qs>(
    alloc: Global,
    value: &mut ParsedValue<'qs>,
    leaf: Leaf<'qs>,
    manner: Manner,
    level: usize,
) -> Result<(), AddError>
    ensures added { AddGives (λ _. tree_of value.new) (in_place.add_to_leaves (is_push manner) (leaf_of leaf.entry) (tree_of value.old)) result }
    ensures fresh { manner ≡ Assign → value.old ≡ Uninitialized → IsOkAnd result (λ _. IsNoMap (tree_of value.new)) }
{
    match value {
        ParsedValue::Uninitialized => {
            *value = value_of(alloc, leaf, manner)?;
            Ok(())
        }
        ParsedValue::Sequence(items) => Ok(items.push(leaf.into_value())?),
        ParsedValue::Map(map) => Err(conflict(alloc, map, level)),
        _ => match manner {
            Manner::Assign => add_second(alloc, value, leaf),
            Manner::Push => Err(AddError::conflict(alloc, level, ConflictKind::PushOnLeaf)),
        },
    }
}

// Replaces a node by a sequence of the node and a leaf.
#[tactic(auto, using(crate::proofs::lemmas::Views::views))]
fn add_second<'qs>(
    alloc: Global,
    value: &mut ParsedValue<'qs>,
    leaf: Leaf<'qs>,
) -> Result<(), AddError>
    ensures { AddGives (λ _. tree_of value.new) (second (tree_of value.old) (leaf_of leaf.entry)) result }
{
    let first = mem::replace(value, ParsedValue::Uninitialized);
    *value = ParsedValue::Sequence(vec![in alloc; first, leaf.into_value()]?);
    Ok(())
}

// Adds an assigned leaf at the empty string key of a map, or returns the conflict of a push.
#[inline(never)]
fn add_at_map<'qs>(
    alloc: Global,
    map: &mut ParsedMap<'qs>,
    leaf: Leaf<'qs>,
    manner: Manner,
    level: usize,
) -> Result<(), AddError>
    ensures { AddGives (λ _. mapping (entries_of_map map.new)) (in_place.add_here (is_push manner) (leaf_of leaf.entry) (mapping (entries_of_map map.old))) result }
{
    match manner {
        Manner::Assign => add_leaf_at(alloc, &mut map.map, Key::from(""), leaf, level),
        Manner::Push => Err(conflict(alloc, map, level)),
    }
}

/// Adds an assigned leaf to the node at a key, which is at a level of its path.
pub(crate) fn add_leaf_at<'qs>(
    alloc: Global,
    entries: &mut SortedEntries<Key<'qs>, ParsedValue<'qs>>,
    key: Key<'qs>,
    leaf: Leaf<'qs>,
    level: usize,
) -> Result<(), AddError>
    ensures { AddGives (λ _. entries_held entries.new) (update (parsed_segment_of_key key.entry) (add_to_leaves false (leaf_of leaf.entry)) (entries_held entries.old)) result }
{
    match place_among(entries.as_slice(), &key) {
        Ok(at) => add_to_leaves(alloc, entries.at_mut(at), leaf, Manner::Assign, level),
        Err(at) => Ok(entries.insert_at(at, key, leaf.into_value())?),
    }
}

// Returns the conflict of a leaf with a map, or `OutOfMemory` if an allocation failed.
#[inline(never)]
fn conflict(alloc: Global, map: &ParsedMap<'_>, level: usize) -> AddError {
    match key_list(alloc, map.map.as_slice()) {
        Ok(keys) => AddError::conflict(alloc, level, ConflictKind::LeafOnMap(keys)),
        Err(_) => AddError::OutOfMemory,
    }
}
