//! Adding a pair near the end of its path, in place.
ghost use Rattle.std.specs.Prelude.{◌≡◌, ◌+◌, ◌<◌, ◌≤◌, length, drop, false, IfOk, IsTrue, IsOkAnd};
ghost use Rattle.qs_spec.specs.Tree.{empty_segment, mapping};
ghost use Rattle.qs_spec.specs.internal.InPlace as in_place;
ghost use Rattle.qs_spec.specs.internal.InPlace.{add, add_to_leaves, update};
ghost use Rattle.qs_tree.specs.declared.scan.pair.Manner.TheVariants.{Assign};
ghost use Rattle.qs_tree.specs.internal.build.Builder.{built_tree, built_entries, entries_seen, fresh, unsorted_entries, HasNoMap};
ghost use Rattle.qs_tree.specs.internal.scan.Pairs.{IsRootValue, leaf_of, is_push, path_of};
ghost use Rattle.qs_tree.specs.internal.build.Adding.{AddGives, Adds};

use crate::build::add_to_value::{add_at_end, add_to_leaves, add_to_value, chain_of};
use crate::build::builder::{MapBuilder, TreeBuilder, goes_between, insert, place_among};
use crate::build::conflict::{AddError, ConflictKind};
use crate::build::descent::map_of;
use crate::build::unsorted::Unsorted;
use crate::scan::pair::{Leaf, Manner, Pair};
use crate::tree::entries::SortedEntries;
use crate::tree::key::Key;
use std::alloc::Global;
use std::collections::BTreeMap;
use std::mem;

/// Adds a pair to the node at a level of its path, if that is near the end of the path.
///
/// Returns `false`, and changes neither the tree nor the pair, if the node is a map that has to be opened at the next key. Returns an
/// error if a node is in conflict with the pair, or if an allocation failed. The node isn't used after that.
#[inline(always)]
pub(crate) fn add_near<'qs>(
    alloc: Global,
    node: &mut TreeBuilder<'qs>,
    pair: &mut Pair<'qs>,
    level: usize,
) -> Result<bool, AddError>
    requires { level ≤ length pair.old.path }
    ensures added { let path = path_of (drop level pair.old.path) in let old = built_tree node.old in
        Adds (add path (is_push pair.old.manner) (leaf_of pair.old.leaf) old) old (built_tree node.new) pair.old pair.new result }
    ensures more { IfOk result (λ added. added ≡ false → level < length pair.new.path) }
    ensures fresh { IsRootValue pair.old → level ≡ 0 → node.old ≡ fresh → IsOkAnd result (λ added. IsTrue added × HasNoMap node.new) }
{
    if let TreeBuilder::Value(value) = node {
        if level < pair.path.len() && add_to_value(alloc, value, pair, level)? {
            return Ok(true);
        }
    }
    add_further(alloc, node, pair, level)
}

// Adds a pair at the end of its path, or to a node that isn't finished.
#[inline(never)]
fn add_further<'qs>(
    alloc: Global,
    node: &mut TreeBuilder<'qs>,
    pair: &mut Pair<'qs>,
    level: usize,
) -> Result<bool, AddError>
    requires { level ≤ length pair.old.path }
    ensures added { let path = path_of (drop level pair.old.path) in let old = built_tree node.old in
        Adds (add path (is_push pair.old.manner) (leaf_of pair.old.leaf) old) old (built_tree node.new) pair.old pair.new result }
    ensures more { IfOk result (λ added. added ≡ false → level < length pair.new.path) }
    ensures fresh { IsRootValue pair.old → level ≡ 0 → node.old ≡ fresh → IsOkAnd result (λ added. IsTrue added × HasNoMap node.new) }
{
    if level == pair.path.len() {
        add_here(alloc, node, pair)?;
        return Ok(true);
    }
    match node {
        TreeBuilder::Map(map) => add_in_builder(alloc, map, pair, level),
        _ => add_in_no_order(node, pair, level),
    }
}

// Adds an assigned leaf to leaves in no order, or to a finished map of leaves. Returns `false`, and changes neither the tree nor the
// pair, for any other.
fn add_in_no_order<'qs>(
    node: &mut TreeBuilder<'qs>,
    pair: &mut Pair<'qs>,
    level: usize,
) -> Result<bool, AddError>
    requires { level < length pair.old.path }
    ensures { let path = path_of (drop level pair.old.path) in let old = built_tree node.old in
        Adds (add path (is_push pair.old.manner) (leaf_of pair.old.leaf) old) old (built_tree node.new) pair.old pair.new result }
{
    if !pair.is_leaf_below(level) {
        return Ok(false);
    }
    *node = mem::replace(node, TreeBuilder::fresh()).unsorted();
    match node {
        TreeBuilder::Unsorted(leaves) => {
            add_unsorted(leaves, pair, level)?;
            Ok(true)
        }
        _ => Ok(false),
    }
}

// Adds a pair to a map that isn't finished. Returns `false`, and changes neither the tree nor the pair, if the map has to be opened.
fn add_in_builder<'qs>(
    alloc: Global,
    map: &mut MapBuilder<'qs>,
    pair: &mut Pair<'qs>,
    level: usize,
) -> Result<bool, AddError>
    requires { level < length pair.old.path }
    ensures { let path = path_of (drop level pair.old.path) in let old = mapping (built_entries map.old) in
        Adds (add path (is_push pair.old.manner) (leaf_of pair.old.leaf) old) old (mapping (built_entries map.new)) pair.old pair.new result }
{
    match map {
        MapBuilder::Vector(entries) => add_in_vector(alloc, entries, pair, level),
        MapBuilder::Tree(tree) if pair.path.len() - level == 1 => {
            add_last_in_tree(alloc, tree, pair, level)?;
            Ok(true)
        }
        MapBuilder::Tree(tree) => add_in_tree(alloc, tree, pair, level),
    }
}

// Adds a pair to a vector, as `add_in_builder` does.
fn add_in_vector<'qs>(
    alloc: Global,
    entries: &mut SortedEntries<Key<'qs>, TreeBuilder<'qs>>,
    pair: &mut Pair<'qs>,
    level: usize,
) -> Result<bool, AddError>
    requires { level < length pair.old.path }
    ensures { let path = path_of (drop level pair.old.path) in let old = mapping (entries_seen entries.old) in
        Adds (add path (is_push pair.old.manner) (leaf_of pair.old.leaf) old) old (mapping (entries_seen entries.new)) pair.old pair.new result }
{
    let place = place_among(entries.as_slice(), pair.key(level));
    match place {
        Ok(at) => add_to_child(alloc, entries.at_mut(at), pair, level + 1),
        Err(at) => {
            if goes_between(place, entries.len()) {
                return Ok(false);
            }
            let key = pair.take_key(level);
            let value = chain_of(alloc, pair, level + 1)?;
            entries.insert_at(at, key, TreeBuilder::Value(value))?;
            Ok(true)
        }
    }
}

// Adds a pair with one key left to a search tree.
fn add_last_in_tree<'qs>(
    alloc: Global,
    tree: &mut BTreeMap<Key<'qs>, TreeBuilder<'qs>>,
    pair: &mut Pair<'qs>,
    level: usize,
) -> Result<(), AddError>
    requires { length pair.old.path ≡ level + 1 }
    ensures { let path = path_of (drop level pair.old.path) in
        AddGives (λ _. mapping (entries_seen tree.new.entries)) (add path (is_push pair.old.manner) (leaf_of pair.old.leaf) (mapping (entries_seen tree.old.entries))) result }
{
    let key = pair.take_key(level);
    let child = tree.entry(key)?.or_insert(TreeBuilder::fresh());
    add_here(alloc, child, pair)
}

// Adds a pair to a search tree, as `add_in_builder` does.
fn add_in_tree<'qs>(
    alloc: Global,
    tree: &mut BTreeMap<Key<'qs>, TreeBuilder<'qs>>,
    pair: &mut Pair<'qs>,
    level: usize,
) -> Result<bool, AddError>
    requires { level < length pair.old.path }
    ensures { let path = path_of (drop level pair.old.path) in let old = mapping (entries_seen tree.old.entries) in
        Adds (add path (is_push pair.old.manner) (leaf_of pair.old.leaf) old) old (mapping (entries_seen tree.new.entries)) pair.old pair.new result }
{
    match tree.get_mut(pair.key(level)) {
        Some(child) => add_to_child(alloc, child, pair, level + 1),
        None => {
            let key = pair.take_key(level);
            let value = chain_of(alloc, pair, level + 1)?;
            insert(tree, key, TreeBuilder::Value(value))?;
            Ok(true)
        }
    }
}

// Adds a pair to a node of a map that isn't finished. Returns `false`, and changes neither the tree nor the pair, if the map has to be
// opened.
fn add_to_child<'qs>(
    alloc: Global,
    child: &mut TreeBuilder<'qs>,
    pair: &mut Pair<'qs>,
    level: usize,
) -> Result<bool, AddError>
    requires { level ≤ length pair.old.path }
    ensures { let path = path_of (drop level pair.old.path) in let old = built_tree child.old in
        Adds (add path (is_push pair.old.manner) (leaf_of pair.old.leaf) old) old (built_tree child.new) pair.old pair.new result }
{
    if let TreeBuilder::Value(value) = child {
        if add_to_value(alloc, value, pair, level)? {
            return Ok(true);
        }
    }
    if level == pair.path.len() {
        return Ok(false);
    }
    add_in_no_order(child, pair, level)
}

// Adds a pair that is an assigned leaf with one key left.
#[inline(never)]
fn add_unsorted<'qs>(
    leaves: &mut Unsorted<'qs>,
    pair: &mut Pair<'qs>,
    level: usize,
) -> Result<(), AddError>
    requires one { length pair.old.path ≡ level + 1 }
    requires assigned { is_push pair.old.manner ≡ false }
    ensures { let push = is_push pair.old.manner in let path = path_of (drop level pair.old.path) in
        AddGives (λ _. mapping (unsorted_entries leaves.new)) (add path push (leaf_of pair.old.leaf) (mapping (unsorted_entries leaves.old))) result }
{
    let key = pair.take_key(level);
    Ok(leaves.push(key, pair.leaf.take())?)
}

// Adds a pair's leaf at the end of its path.
#[inline(never)]
#[tactic(auto, using(crate::proofs::lemmas::Views::views))]
fn add_here<'qs>(
    alloc: Global,
    node: &mut TreeBuilder<'qs>,
    pair: &mut Pair<'qs>,
) -> Result<(), AddError>
    ensures added { AddGives (λ _. built_tree node.new) (in_place.add_here (is_push pair.old.manner) (leaf_of pair.old.leaf) (built_tree node.old)) result }
    ensures fresh { pair.old.manner ≡ Assign → node.old ≡ fresh → IsOkAnd result (λ _. HasNoMap node.new) }
{
    match node {
        TreeBuilder::Value(value) => add_at_end(alloc, value, pair),
        TreeBuilder::Unsorted(leaves) => match pair.manner {
            Manner::Assign => Ok(leaves.push(Key::from(""), pair.leaf.take())?),
            Manner::Push => Err(conflict(alloc, node, pair.path.len())),
        },
        TreeBuilder::Map(map) => match pair.manner {
            Manner::Assign => add_at_empty(alloc, map, pair.leaf.take(), pair.path.len()),
            Manner::Push => Err(conflict(alloc, node, pair.path.len())),
        },
    }
}

// Adds an assigned leaf at the empty string key of a map.
#[inline(never)]
fn add_at_empty<'qs>(
    alloc: Global,
    map: &mut MapBuilder<'qs>,
    leaf: Leaf<'qs>,
    level: usize,
) -> Result<(), AddError>
    ensures { AddGives (λ _. built_entries map.new) (update empty_segment (add_to_leaves false (leaf_of leaf.entry)) (built_entries map.old)) result }
{
    let key = Key::from("");
    let mut node = map.take(&key);
    add_leaf(alloc, &mut node, leaf, level)?;
    Ok(map.put(alloc, key, node)?)
}

// Adds an assigned leaf to a node, or returns the conflict with a map.
#[tactic(auto, using(crate::proofs::lemmas::Views::views))]
fn add_leaf<'qs>(
    alloc: Global,
    node: &mut TreeBuilder<'qs>,
    leaf: Leaf<'qs>,
    level: usize,
) -> Result<(), AddError>
    ensures { AddGives (λ _. built_tree node.new) (add_to_leaves false (leaf_of leaf.entry) (built_tree node.old)) result }
{
    match node {
        TreeBuilder::Value(value) => add_to_leaves(alloc, value, leaf, Manner::Assign, level),
        TreeBuilder::Map(_) => Err(conflict(alloc, node, level)),
        TreeBuilder::Unsorted(_) => Err(conflict(alloc, node, level)),
    }
}

// Returns the conflict of a leaf with a map, or `OutOfMemory` if an allocation failed. Takes the map's entries.
#[inline(never)]
fn conflict<'qs>(alloc: Global, node: &mut TreeBuilder<'qs>, level: usize) -> AddError {
    let map = match map_of(alloc, mem::replace(node, TreeBuilder::fresh()), level) {
        Ok(map) => map,
        Err(error) => return error,
    };
    match map.key_list(alloc) {
        Ok(keys) => AddError::conflict(alloc, level, ConflictKind::LeafOnMap(keys)),
        Err(_) => AddError::OutOfMemory,
    }
}
