//! A tree under construction.
//!
//! Pairs are added in place to a finished tree. That doesn't suit a map with many entries that gets keys in no order. Only such a map,
//! and the maps on the way to it, have a form of their own.
ghost use Rattle.std.specs.Prelude.{◌≡◌, ◌+◌, ◌<◌, ◌≤◌, length, true, Some, Err, IfOk, IsOk, OnOk, MatchResult};
ghost use Rattle.std.specs.List.Sorted.{IsStrictlySortedBy};
ghost use Rattle.std.specs.Map.{keys_of};
ghost use Rattle.std.specs.BTreeMap.{insert_entry};
ghost use Rattle.qs_spec.specs.Tree.{mapping};
ghost use Rattle.qs_spec.specs.internal.InPlace.{update};
ghost use Rattle.qs_tree.specs.declared.tree.key.Key.{Key};
ghost use Rattle.qs_tree.specs.tree.Views.{parsed_segment_of_key, tree_of, entries_of_map};
ghost use Rattle.qs_tree.specs.tree.Keys.{key_cmp};
ghost use Rattle.qs_tree.specs.tree.Lookup.{binary_digits};
ghost use Rattle.qs_tree.specs.internal.tree.Places.{IsPlaced};
ghost use Rattle.qs_tree.specs.internal.build.Builder.{built_tree, built_entries, entries_seen, fresh, as_builders, HasNoMap, Takes};

use crate::build::dropping::drop_builder;
use crate::build::unsorted::{Unsorted, are_leaves};
use crate::scan::cursor::Steps;
use crate::tree::entries::SortedEntries;
use crate::tree::key::Key;
use crate::tree::map::{ParsedMap, search};
use crate::tree::value::ParsedValue;
use std::alloc::{AllocError, Global};
use std::cmp::Ordering;
use std::collections::BTreeMap;
use std::fmt::Write;
use std::mem;

/// A node of a tree under construction.
#[cycle(builder)]
#[derive(Drop)]
pub(crate) enum TreeBuilder<'qs> {
    /// A finished node.
    Value(ParsedValue<'qs>),
    /// A map that isn't finished.
    Map(MapBuilder<'qs>),
    /// A map of many leaves, some of whose keys were added before the end.
    Unsorted(Unsorted<'qs>),
}

/// A map that isn't finished: a sorted vector, or a search tree after a key was inserted before the end of a vector with many
/// entries. So inserting a key takes logarithmic time in any order of keys.
#[cycle(builder)]
pub(crate) enum MapBuilder<'qs> {
    Vector(SortedEntries<Key<'qs>, TreeBuilder<'qs>>),
    Tree(BTreeMap<Key<'qs>, TreeBuilder<'qs>>),
}

/// A vector with fewer entries takes a key at any index.
const FEW: usize = 16;

impl<'qs> TreeBuilder<'qs> {
    /// Returns a node without a pair.
    pub fn fresh() -> Self
        ensures { result ≡ fresh }
    {
        TreeBuilder::Value(ParsedValue::Uninitialized)
    }

    /// Returns the finished node, or as `Err` the map to be finished. Allocates only for a map of leaves in no order.
    #[tactic(auto, using(crate::proofs::lemmas::Views::views))]
    pub fn into_value(
        self,
        alloc: Global,
    ) -> Result<Result<ParsedValue<'qs>, MapBuilder<'qs>>, AllocError>
        ensures found { IfOk result (λ node. MatchResult node (λ value. tree_of value ≡ built_tree self.entry) (λ map. built_tree self.entry ≡ mapping (built_entries map))) }
        ensures no_map { HasNoMap self.entry → IsOk result }
    {
        match self {
            TreeBuilder::Value(value) => Ok(Ok(value)),
            TreeBuilder::Map(map) => Ok(Err(map)),
            TreeBuilder::Unsorted(leaves) => {
                let map = ParsedMap::from_entries(leaves.into_entries(alloc)?);
                Ok(Ok(ParsedValue::Map(map)))
            }
        }
    }

    /// Returns a finished map of only leaves as one to which leaves are added in any order, and any other node unchanged.
    #[tactic(auto, using(crate::proofs::lemmas::Views::views))]
    pub fn unsorted(self) -> Self
        ensures { built_tree result ≡ built_tree self.entry }
    {
        match self {
            TreeBuilder::Value(ParsedValue::Map(map)) => unsorted_map(map),
            node => node,
        }
    }
}

impl<'qs> MapBuilder<'qs> {
    /// Returns a finished map as an unfinished one. Allocates a vector.
    #[inline(never)]
    pub fn reopen(alloc: Global, map: ParsedMap<'qs>) -> Result<Self, AllocError>
        ensures { IfOk result (λ builder. built_entries builder ≡ entries_of_map map.entry) }
    {
        Ok(MapBuilder::Vector(as_builders(alloc, map.into_entries())?))
    }

    /// Takes the node at a key, and leaves an empty one. Returns an empty node if the key is missing. Doesn't allocate.
    pub fn take(&mut self, key: &Key<'qs>) -> TreeBuilder<'qs>
        ensures { Takes key.now (built_entries self.old) (built_tree result) (built_entries self.new) }
    {
        match self {
            MapBuilder::Vector(entries) => take_at(entries, key),
            MapBuilder::Tree(map) => take_below(map, key),
        }
    }

    /// Puts a node at a key. If the map has an equal key, that key is kept. Returns an error only if an allocation failed.
    pub fn put(
        &mut self,
        alloc: Global,
        key: Key<'qs>,
        node: TreeBuilder<'qs>,
    ) -> Result<(), AllocError>
        ensures { OnOk result (update (parsed_segment_of_key key.entry) (λ _. Some (built_tree node.entry)) (built_entries self.old) ≡ Some (built_entries self.new)) }
    {
        match self {
            MapBuilder::Vector(entries) => {
                let place = place_among(entries.as_slice(), &key);
                if goes_between(place, entries.len()) {
                    let mut map = into_tree(
                        alloc,
                        mem::replace(entries, SortedEntries::new(alloc)),
                    )?;
                    put_below(&mut map, key, node)?;
                    *self = MapBuilder::Tree(map);
                    Ok(())
                } else {
                    put_at(entries, place, key, node)
                }
            }
            MapBuilder::Tree(map) => put_below(map, key, node),
        }
    }

    /// Returns the keys as `Display` writes them, separated by `, `. Allocates the text, and a vector for a search tree.
    pub fn key_list(self, alloc: Global) -> Result<String, AllocError> {
        key_list(alloc, self.into_entries(alloc)?.as_slice())
    }

    /// Returns the map's vector, or as `Err` its search tree. Doesn't allocate.
    pub fn into_form(
        self,
    ) -> Result<SortedEntries<Key<'qs>, TreeBuilder<'qs>>, BTreeMap<Key<'qs>, TreeBuilder<'qs>>>
        ensures { MatchResult result (λ entries. built_entries self.entry ≡ entries_seen entries) (λ tree. built_entries self.entry ≡ entries_seen tree.entries) }
    {
        match self {
            MapBuilder::Vector(entries) => Ok(entries),
            MapBuilder::Tree(map) => Err(map),
        }
    }

    /// Returns the entries in a sorted vector, which is allocated for a search tree.
    pub fn into_entries(
        self,
        alloc: Global,
    ) -> Result<SortedEntries<Key<'qs>, TreeBuilder<'qs>>, AllocError>
        ensures { IfOk result (λ entries. entries_seen entries ≡ built_entries self.entry) }
    {
        match self {
            MapBuilder::Vector(entries) => Ok(entries),
            MapBuilder::Tree(map) => into_vector(alloc, map),
        }
    }
}

/// Doesn't allocate, and takes constant stack.
impl<'qs> Drop for MapBuilder<'qs> {
    fn drop(self) {
        drop_builder(TreeBuilder::Map(self));
    }
}

/// Returns the keys of entries as `Display` writes them, separated by `, `. Allocates the text.
pub(crate) fn key_list<'qs, V>(
    alloc: Global,
    entries: &[(Key<'qs>, V)],
) -> Result<String, AllocError> {
    let mut text = String::new(alloc);
    let mut first = true;
    for entry in entries {
        if !first {
            text.push_str(", ")?;
        }
        write!(text, "{}", entry.0)?;
        first = false;
    }
    Ok(text)
}

// Returns a finished map as a node, unsorted if it has only leaves.
#[tactic(auto, using(crate::proofs::lemmas::Views::views))]
fn unsorted_map<'qs>(map: ParsedMap<'qs>) -> TreeBuilder<'qs>
    ensures { built_tree result ≡ mapping (entries_of_map map.entry) }
{
    if are_leaves(map.map.as_slice()) {
        TreeBuilder::Unsorted(Unsorted::of(map))
    } else {
        TreeBuilder::Value(ParsedValue::Map(map))
    }
}

// Returns entries with finished nodes as entries under construction. Allocates a vector.
fn as_builders<'qs>(
    alloc: Global,
    entries: SortedEntries<Key<'qs>, ParsedValue<'qs>>,
) -> Result<SortedEntries<Key<'qs>, TreeBuilder<'qs>>, AllocError>
    ensures { IfOk result (λ builders. builders ≡ as_builders entries.entry) }
{
    let mut builders = SortedEntries::with_capacity(alloc, entries.len())?;
    for entry in entries.into_items() {
        builders.push(entry.0, TreeBuilder::Value(entry.1))?;
    }
    Ok(builders)
}

// Takes the node at a key of a vector, and leaves an empty one.
fn take_at<'qs>(
    entries: &mut SortedEntries<Key<'qs>, TreeBuilder<'qs>>,
    key: &Key<'qs>,
) -> TreeBuilder<'qs>
    ensures { Takes key.now (entries_seen entries.old) (built_tree result) (entries_seen entries.new) }
{
    match place_among(entries.as_slice(), key) {
        Ok(at) => entries.replace(at, TreeBuilder::fresh()),
        Err(_) => TreeBuilder::fresh(),
    }
}

/// Returns the index of a key among sorted entries, or as `Err` the index at which to insert it. Compares with the last key first,
/// since keys often come in order.
#[inline(always)]
pub(crate) fn place_among<'qs, V>(entries: &[(Key<'qs>, V)], key: &Key<'qs>) -> Result<usize, usize>
    requires { IsStrictlySortedBy key_cmp (keys_of entries.now) }
    ensures { IsPlaced key_cmp key.now entries.now result }
{
    place_with(entries, key, &mut Steps::new())
}

// Does what `place_among` does, and adds the number of comparisons to `steps`: one for a key after all others.
#[inline(always)]
fn place_with<'qs, V>(
    entries: &[(Key<'qs>, V)],
    key: &Key<'qs>,
    steps: &mut Steps,
) -> Result<usize, usize>
    requires { IsStrictlySortedBy key_cmp (keys_of entries.now) }
    ensures placed { IsPlaced key_cmp key.now entries.now result }
    ensures most { steps.new ≤ steps.old + 1 + binary_digits (length entries.now) }
    ensures after_all { result ≡ Err (length entries.now) → steps.new ≤ steps.old + 1 }
    ensures least { 0 < length entries.now → steps.old < steps.new }
{
    let len = entries.len();
    if len == 0 {
        return Err(0);
    }
    match steps.compare(key, &entries[len - 1].0) {
        Ordering::Greater => Err(len),
        Ordering::Equal => Ok(len - 1),
        Ordering::Less => search(entries, key, steps),
    }
}

/// Returns whether a key would be inserted before the end of a vector with many entries.
pub(crate) fn goes_between(place: Result<usize, usize>, len: usize) -> bool {
    match place {
        Ok(_) => false,
        Err(at) => len >= FEW && at < len,
    }
}

// Takes the node at a key of a search tree, and leaves an empty one.
fn take_below<'qs>(
    map: &mut BTreeMap<Key<'qs>, TreeBuilder<'qs>>,
    key: &Key<'qs>,
) -> TreeBuilder<'qs>
    ensures { Takes key.now (entries_seen map.old.entries) (built_tree result) (entries_seen map.new.entries) }
{
    match map.get_mut(key) {
        Some(node) => mem::replace(node, TreeBuilder::fresh()),
        None => TreeBuilder::fresh(),
    }
}

// Puts a node at the index of its key in a vector.
fn put_at<'qs>(
    entries: &mut SortedEntries<Key<'qs>, TreeBuilder<'qs>>,
    place: Result<usize, usize>,
    key: Key<'qs>,
    node: TreeBuilder<'qs>,
) -> Result<(), AllocError>
    requires { IsPlaced key_cmp key entries.old place }
    ensures { OnOk result (update (parsed_segment_of_key key.entry) (λ _. Some (built_tree node.entry)) (entries_seen entries.old) ≡ Some (entries_seen entries.new)) }
{
    Ok(entries.put_at(place, key, node)?)
}

// Puts a node at a key of a search tree.
fn put_below<'qs>(
    map: &mut BTreeMap<Key<'qs>, TreeBuilder<'qs>>,
    key: Key<'qs>,
    node: TreeBuilder<'qs>,
) -> Result<(), AllocError>
    ensures { OnOk result (update (parsed_segment_of_key key.entry) (λ _. Some (built_tree node.entry)) (entries_seen map.old.entries) ≡ Some (entries_seen map.new.entries)) }
{
    Ok(insert(map, key, node)?)
}

/// Inserts an entry into a search tree. Returns an error only if an allocation failed.
pub(crate) fn insert<'qs>(
    map: &mut BTreeMap<Key<'qs>, TreeBuilder<'qs>>,
    key: Key<'qs>,
    node: TreeBuilder<'qs>,
) -> Result<(), AllocError>
    ensures { OnOk result (map.new.entries ≡ insert_entry key_cmp map.old.entries key.entry node.entry) }
{
    map.insert(key, node)?;
    Ok(())
}

// Returns the entries of a vector as a search tree. Returns an error only if an allocation failed.
#[inline(never)]
fn into_tree<'qs>(
    alloc: Global,
    entries: SortedEntries<Key<'qs>, TreeBuilder<'qs>>,
) -> Result<BTreeMap<Key<'qs>, TreeBuilder<'qs>>, AllocError>
    ensures { IfOk result (λ map. map.entries ≡ entries.entry) }
{
    let mut map = BTreeMap::new(alloc);
    for entry in entries.into_items() {
        insert(&mut map, entry.0, entry.1)?;
    }
    Ok(map)
}

// Returns the entries of a search tree as a vector.
#[inline(never)]
fn into_vector<'qs>(
    alloc: Global,
    map: BTreeMap<Key<'qs>, TreeBuilder<'qs>>,
) -> Result<SortedEntries<Key<'qs>, TreeBuilder<'qs>>, AllocError>
    ensures { IfOk result (λ entries. entries ≡ map.entry.entries) }
{
    let mut entries = SortedEntries::with_capacity(alloc, map.len())?;
    for entry in map {
        entries.push(entry.0, entry.1)?;
    }
    Ok(entries)
}
