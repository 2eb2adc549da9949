//! A tree under construction whose path to the last pair is open.
//!
//! The maps on the path are taken out of one another. The next pair compares its keys with theirs, puts back what is below the first key
//! that differs, and goes down from there. So pairs of one struct, list or map go down only once, and the stack is constant.
ghost use Rattle.std.specs.Prelude.{◌≡◌, ◌≤◌, [], length, drop, take, IfOk, IsOk, IsOkAnd, OnOk, MatchResult, Some};
ghost use Rattle.qs_spec.specs.Tree.{mapping, uninitialized};
ghost use Rattle.qs_spec.specs.internal.InPlace as in_place;
ghost use Rattle.qs_spec.specs.internal.InPlace.{update};
ghost use Rattle.qs_tree.specs.tree.Views.{parsed_segment_of_key, tree_of, entries_of_map};
ghost use Rattle.qs_tree.specs.internal.scan.Pairs.{IsRootValue, pair_of};
ghost use Rattle.qs_tree.specs.internal.build.Builder.{built_tree, Takes};
ghost use Rattle.qs_tree.specs.internal.build.Adding.{AddGives, IsRejected, entries_below};
ghost use Rattle.qs_tree.specs.internal.build.Descent.{IsOpen, IsFresh, IsWithoutMaps, AreKeys, open_entries, put_back, put_all_back, whole_tree};

use crate::build::add::add_near;
use crate::build::builder::{MapBuilder, TreeBuilder, goes_between, key_list, place_among};
use crate::build::conflict::AddError;
use crate::scan::pair::Pair;
use crate::scan::path::Path;
use crate::tree::key::Key;
use crate::tree::map::ParsedMap;
use crate::tree::value::ParsedValue;
use std::alloc::{AllocError, Global};
use std::mem;

/// A tree under construction. The keys of the maps that are open lead to a node.
#[derive(Drop)]
pub(crate) struct OpenTree<'qs> {
    /// The maps from the root down.
    frames: Vec<ParentMap<'qs>>,
    node: TreeBuilder<'qs>,
}

impl<'qs> OpenTree<'qs> {
    /// Returns a tree without a pair. Doesn't allocate.
    #[tactic(auto, using(crate::proofs::lemmas::Views::views))]
    pub fn new(alloc: Global) -> Self
        ensures fresh { IsFresh result }
        ensures none { whole_tree result ≡ uninitialized }
    {
        OpenTree {
            frames: Vec::new(alloc),
            node: TreeBuilder::fresh(),
        }
    }

    /// Adds a pair, at the end of its path. The keys and the leaf are taken out of the pair.
    ///
    /// Returns an error if a node is in conflict with the pair, or if an allocation failed. The tree isn't used after that.
    /// Adding an assigned leaf with an empty path to an empty tree doesn't allocate.
    #[inline(always)]
    pub fn add(&mut self, alloc: Global, pair: &mut Pair<'qs>) -> Result<(), AddError>
        ensures added { let p = pair_of pair.old in AddGives (λ _. whole_tree self.new) (in_place.add p.path p.push p.leaf (whole_tree self.old)) result }
        ensures fresh { IsRootValue pair.old → IsFresh self.old → IsOkAnd result (λ _. IsWithoutMaps self.new) }
    {
        if self.frames.is_empty() && add_near(alloc, &mut self.node, pair, 0)? {
            return Ok(());
        }
        self.add_along(alloc, pair)
    }

    // Adds a pair as `add` does, along the open maps.
    #[inline(never)]
    fn add_along(&mut self, alloc: Global, pair: &mut Pair<'qs>) -> Result<(), AddError>
        ensures { let p = pair_of pair.old in AddGives (λ _. whole_tree self.new) (in_place.add p.path p.push p.leaf (whole_tree self.old)) result }
    {
        let mut level = self.shared(&pair.path);
        self.close_to(alloc, level)?;
        loop {
            if add_near(alloc, &mut self.node, pair, level)? {
                return Ok(());
            }
            let key = pair.take_key(level);
            let frame = ParentMap::open(alloc, &mut self.node, key, level)?;
            self.frames.push(frame)?;
            level += 1;
        }
    }

    /// Finishes the tree, and returns it. Returns an error only if an allocation failed.
    #[inline(always)]
    pub fn finish(self, alloc: Global) -> Result<ParsedValue<'qs>, AllocError>
        ensures tree { IfOk result (λ value. tree_of value ≡ whole_tree self.entry) }
        ensures no_map { IsWithoutMaps self.entry → IsOk result }
    {
        let mut tree = self;
        tree.close_to(alloc, 0)?;
        let OpenTree { frames, node } = tree;
        frames.destroy_empty();
        node.finish(alloc)
    }

    // Returns how many keys a path shares with the open maps.
    #[inline(always)]
    fn shared(&self, path: &Path<'qs>) -> usize
        ensures same { AreKeys (take result self.now.frames.items) path.now }
        ensures most { result ≤ length self.now.frames.items }
        ensures within { result ≤ length path.now }
    {
        let mut level = 0;
        while level < self.frames.len() && level < path.len() {
            if self.frames[level].key.compare(path.key(level)).is_ne() {
                return level;
            }
            level += 1;
        }
        level
    }

    // Puts nodes back, the lowest first, until only so many maps are open. Returns an error only if an allocation failed.
    #[inline(always)]
    fn close_to(&mut self, alloc: Global, level: usize) -> Result<(), AllocError>
        requires { level ≤ length self.old.frames.items }
        ensures same { OnOk result (put_all_back self.new.frames.items (built_tree self.new.node) ≡ put_all_back self.old.frames.items (built_tree self.old.node)) }
        ensures frames { OnOk result (self.new.frames.items ≡ take level self.old.frames.items) }
        ensures none { self.old.frames.items ≡ [] → IsOkAnd result (λ _. self.new ≡ self.old) }
    {
        while self.frames.len() > level {
            let Some(frame) = self.frames.pop() else {
                return Ok(());
            };
            frame.close(alloc, &mut self.node)?;
        }
        Ok(())
    }
}

/// A map from which the node at one key is taken out.
#[derive(Drop)]
pub(crate) struct ParentMap<'qs> {
    map: OpenMap<'qs>,
    key: Key<'qs>,
}

impl<'qs> ParentMap<'qs> {
    /// Replaces a map by its node at a key, and returns the rest of the map. An empty node becomes a map first. The node at the key may
    /// be empty.
    ///
    /// Returns an error if the node can't have a child, or if an allocation failed. The node is dropped then.
    pub fn open(
        alloc: Global,
        node: &mut TreeBuilder<'qs>,
        key: Key<'qs>,
        level: usize,
    ) -> Result<ParentMap<'qs>, AddError>
        ensures { let before = built_tree node.old in MatchResult result
            (λ frame. IsOpen (parsed_segment_of_key key.entry) before frame (built_tree node.new))
            (λ error. IsRejected (entries_below before) error) }
    {
        let mut map = map_of(alloc, mem::replace(node, TreeBuilder::fresh()), level)?;
        *node = map.take(&key);
        Ok(ParentMap { map, key })
    }

    /// Replaces the node at the key by the whole map. Returns an error only if an allocation failed.
    pub fn close(self, alloc: Global, node: &mut TreeBuilder<'qs>) -> Result<(), AllocError>
        ensures { OnOk result (put_back self.entry (built_tree node.old) ≡ Some (built_tree node.new)) }
    {
        let ParentMap { mut map, key } = self;
        map.put(alloc, key, mem::replace(node, TreeBuilder::fresh()))?;
        *node = map.into_node();
        Ok(())
    }
}

/// A map, finished or not, that is on the path of the last pair.
#[derive(Drop)]
pub(crate) enum OpenMap<'qs> {
    Finished(ParsedMap<'qs>),
    Unfinished(MapBuilder<'qs>),
}

impl<'qs> OpenMap<'qs> {
    /// Returns the keys as `Display` writes them, separated by `, `. Allocates the text, and a vector for a search tree.
    pub fn key_list(self, alloc: Global) -> Result<String, AllocError> {
        match self {
            OpenMap::Finished(map) => key_list(alloc, map.map.as_slice()),
            OpenMap::Unfinished(map) => map.key_list(alloc),
        }
    }

    // Takes the node at a key, and leaves an empty one. Returns an empty node if the key is missing. Doesn't allocate.
    fn take(&mut self, key: &Key<'qs>) -> TreeBuilder<'qs>
        ensures { Takes key.now (open_entries self.old) (built_tree result) (open_entries self.new) }
    {
        match self {
            OpenMap::Finished(map) => TreeBuilder::Value(take_value(map, key)),
            OpenMap::Unfinished(map) => map.take(key),
        }
    }

    // Puts a node at a key. If the map has an equal key, that key is kept. Returns an error only if an allocation failed.
    fn put(
        &mut self,
        alloc: Global,
        key: Key<'qs>,
        node: TreeBuilder<'qs>,
    ) -> Result<(), AllocError>
        ensures { OnOk result (update (parsed_segment_of_key key.entry) (λ _. Some (built_tree node.entry)) (open_entries self.old) ≡ Some (open_entries self.new)) }
    {
        match self {
            OpenMap::Finished(map) => {
                let finished = mem::replace(map, ParsedMap::new(alloc));
                *self = put_in_map(alloc, finished, key, node)?;
                Ok(())
            }
            OpenMap::Unfinished(map) => map.put(alloc, key, node),
        }
    }

    // Returns the map as a node.
    fn into_node(self) -> TreeBuilder<'qs>
        ensures { built_tree result ≡ mapping (open_entries self.entry) }
    {
        match self {
            OpenMap::Finished(map) => TreeBuilder::Value(ParsedValue::Map(map)),
            OpenMap::Unfinished(map) => TreeBuilder::Map(map),
        }
    }
}

// Takes the node at a key of a finished map, and leaves an empty one.
fn take_value<'qs>(map: &mut ParsedMap<'qs>, key: &Key<'qs>) -> ParsedValue<'qs>
    ensures { Takes key.now (entries_of_map map.old) (tree_of result) (entries_of_map map.new) }
{
    match place_among(map.map.as_slice(), key) {
        Ok(at) => map.map.replace(at, ParsedValue::Uninitialized),
        Err(_) => ParsedValue::Uninitialized,
    }
}

// Puts a node at a key of a finished map, which stays finished if the node is finished, and if the key isn't inserted before the end of
// many others.
fn put_in_map<'qs>(
    alloc: Global,
    map: ParsedMap<'qs>,
    key: Key<'qs>,
    node: TreeBuilder<'qs>,
) -> Result<OpenMap<'qs>, AllocError>
    ensures { IfOk result (λ after. update (parsed_segment_of_key key.entry) (λ _. Some (built_tree node.entry)) (entries_of_map map.entry) ≡ Some (open_entries after)) }
{
    let mut map = map;
    let place = place_among(map.map.as_slice(), &key);
    match node {
        TreeBuilder::Value(value) if !goes_between(place, map.map.len()) => {
            map.map.put_at(place, key, value)?;
            Ok(OpenMap::Finished(map))
        }
        node => {
            let mut builder = MapBuilder::reopen(alloc, map)?;
            builder.put(alloc, key, node)?;
            Ok(OpenMap::Unfinished(builder))
        }
    }
}

/// Returns the node as a map. An empty node becomes an empty map.
///
/// Returns a conflict for every other node, or `OutOfMemory` if an allocation failed. Allocates for a conflict, and for a map of leaves
/// in no order.
pub(crate) fn map_of<'qs>(
    alloc: Global,
    node: TreeBuilder<'qs>,
    level: usize,
) -> Result<OpenMap<'qs>, AddError>
    ensures { AddGives open_entries (entries_below (built_tree node.entry)) result }
{
    match node {
        TreeBuilder::Value(value) => map_of_value(alloc, value, level),
        TreeBuilder::Map(map) => Ok(OpenMap::Unfinished(map)),
        TreeBuilder::Unsorted(leaves) => {
            Ok(OpenMap::Finished(ParsedMap::from_entries(leaves.into_entries(alloc)?)))
        }
    }
}

// Returns a finished node as a map, as `map_of` does.
#[tactic(auto, using(crate::proofs::lemmas::Views::views))]
fn map_of_value<'qs>(
    alloc: Global,
    value: ParsedValue<'qs>,
    level: usize,
) -> Result<OpenMap<'qs>, AddError>
    ensures { AddGives open_entries (entries_below (tree_of value.entry)) result }
{
    match value {
        ParsedValue::Map(map) => Ok(OpenMap::Finished(map)),
        ParsedValue::Uninitialized => Ok(OpenMap::Finished(ParsedMap::new(alloc))),
        value => Err(AddError::below(alloc, level, &value)),
    }
}
