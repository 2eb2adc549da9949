//! Finishing a tree: its maps become sorted vectors.
ghost use Rattle.std.specs.Prelude.{◌≡◌, ◌++◌, ◌≤◌, IfOk, IsOk};
ghost use Rattle.std.specs.List.Sorted.{IsStrictlySortedBy};
ghost use Rattle.std.specs.Map.{keys_of};
ghost use Rattle.qs_spec.specs.Tree.Tree.{mapping};
ghost use Rattle.qs_tree.specs.tree.Keys.{key_cmp};
ghost use Rattle.qs_tree.specs.tree.Views.{tree_of, entries_of_map};
ghost use Rattle.qs_tree.specs.internal.build.Builder.{built_tree, built_entries, HasNoMap};
ghost use Rattle.qs_tree.specs.internal.build.Finishing.{level_pairs, from_map, with_node, maps_among, maps_left, IsOpened};
ghost use Rattle.qs_tree.specs.internal.tree.KeyTrees.{key_trees};

use crate::build::builder::{MapBuilder, TreeBuilder};
use crate::tree::entries::SortedEntries;
use crate::tree::key::Key;
use crate::tree::map::ParsedMap;
use crate::tree::value::ParsedValue;
use std::alloc::{AllocError, Global};
use std::vec::IntoIter;

/// A map being finished.
#[derive(Drop)]
struct Level<'qs> {
    /// The finished entries.
    done: SortedEntries<Key<'qs>, ParsedValue<'qs>>,
    /// The other entries.
    left: IntoIter<(Key<'qs>, TreeBuilder<'qs>)>,
}

/// A map, and the key at which a map is being finished.
#[derive(Drop)]
struct OuterLevel<'qs> {
    level: Level<'qs>,
    key: Key<'qs>,
}

impl<'qs> TreeBuilder<'qs> {
    /// Finishes the node, and returns it.
    ///
    /// Returns an error only if an allocation failed. A finished node needs no allocation. A map without inner maps allocates only
    /// for its own entries. Takes constant stack: unfinished maps are kept in a vector.
    #[inline(always)]
    pub fn finish(self, alloc: Global) -> Result<ParsedValue<'qs>, AllocError>
        ensures tree { IfOk result (λ value. tree_of value ≡ built_tree self.entry) }
        ensures no_map { HasNoMap self.entry → IsOk result }
    {
        match self.into_value(alloc)? {
            Ok(value) => Ok(value),
            Err(map) => Ok(ParsedValue::Map(finish_map(alloc, map)?)),
        }
    }
}

// Finishes a map and all maps in it.
#[inline(never)]
fn finish_map<'qs>(alloc: Global, map: MapBuilder<'qs>) -> Result<ParsedMap<'qs>, AllocError>
    ensures { IfOk result (λ done. entries_of_map done ≡ built_entries map.entry) }
{
    let mut level = open_level(alloc, map)?;
    let mut stack: Vec<OuterLevel<'qs>> = Vec::new(alloc);
    loop {
        let Some((key, map)) = level.next_map(alloc)? else {
            let map = ParsedMap { map: level.done };
            let Some(outer) = stack.pop() else {
                return Ok(map);
            };
            level = outer.resume(map)?;
            continue;
        };
        let inner = open_level(alloc, map)?;
        stack.push(OuterLevel { level, key })?;
        level = inner;
    }
}

// Returns the level of a map, none of whose entries is finished.
fn open_level<'qs>(alloc: Global, map: MapBuilder<'qs>) -> Result<Level<'qs>, AllocError>
    ensures { IfOk result (IsOpened (built_entries map.entry)) }
{
    let entries = map.into_entries(alloc)?;
    let done = SortedEntries::with_capacity(alloc, entries.len())?;
    Ok(Level {
        done,
        left: entries.into_items().into_iter(),
    })
}

impl<'qs> Level<'qs> {
    // Finishes the entries before the next map, and takes that map out with its key.
    #[tactic(auto, using(crate::proofs::lemmas::build::Levels::may_push))]
    fn next_map(&mut self, alloc: Global) -> Result<Option<(Key<'qs>, MapBuilder<'qs>)>, AllocError>
        requires { IsStrictlySortedBy key_cmp (keys_of (level_pairs self.old)) }
        ensures pairs { IfOk result (λ found. key_trees self.new.done ++ from_map found self.new ≡ level_pairs self.old) }
        ensures fewer { IfOk result (λ found. maps_among (from_map found self.new) ≤ maps_left self.old) }
    {
        while let Some((key, node)) = self.left.next() {
            match node.into_value(alloc)? {
                Ok(value) => self.done.push(key, value)?,
                Err(map) => return Ok(Some((key, map))),
            }
        }
        Ok(None)
    }
}

impl<'qs> OuterLevel<'qs> {
    // Puts the finished map at its key.
    fn resume(self, map: ParsedMap<'qs>) -> Result<Level<'qs>, AllocError>
        requires { IsStrictlySortedBy key_cmp (keys_of (with_node self (mapping (entries_of_map map)))) }
        ensures pairs { IfOk result (λ level. level_pairs level ≡ with_node self.entry (mapping (entries_of_map map.entry))) }
        ensures same { IfOk result (λ level. maps_left level ≡ maps_left self.entry.level) }
    {
        let OuterLevel { mut level, key } = self;
        level.done.push(key, ParsedValue::Map(map))?;
        Ok(level)
    }
}
