//! Drops a tree under construction by a loop that doesn't allocate, at any depth.
//!
//! The loop follows first entries. Each vector stores the vector above it in place of its first node, so only the lowest has to be
//! kept. Nodes below a search tree are dropped by recursion. That isn't deep: each search tree has so many keys that an input's length
//! is quadratic in their depth.
ghost use Rattle.std.specs.Prelude.{◌≡◌, ◌+◌, ◌<◌, ◌≤◌, IfSome};
ghost use Rattle.qs_spec.specs.Tree.{mapping};
ghost use Rattle.qs_tree.specs.internal.tree.NodeCount.{node_count, entries_node_count};
ghost use Rattle.qs_tree.specs.internal.build.Builder.{built_tree, entries_seen};

use crate::build::builder::{MapBuilder, TreeBuilder};
use crate::tree::entries::SortedEntries;
use crate::tree::key::Key;
use std::collections::BTreeMap;

/// Drops a node in linear time. Doesn't allocate.
#[cycle(dropping)]
pub(crate) fn drop_builder<'qs>(node: TreeBuilder<'qs>) {
    let mut left = drop_first_leaf(node, TreeBuilder::fresh());
    while let Some(entries) = vector_of(left) {
        left = without_last(entries);
    }
}

// Drops the first leaf of a node, and returns its parent. The topmost vector stores the node above as its first entry.
#[cycle(dropping)]
fn drop_first_leaf<'qs>(node: TreeBuilder<'qs>, above: TreeBuilder<'qs>) -> TreeBuilder<'qs>
    ensures { node_count (built_tree result) < node_count (built_tree node.entry) + node_count (built_tree above.entry) }
{
    let mut node = node;
    let mut above = above;
    while let Some(mut entries) = vector_of(node) {
        if entries.len() == 0 {
            entries.destroy_empty();
            return above;
        }
        node = entries.replace(0, above);
        above = TreeBuilder::Map(MapBuilder::Vector(entries));
    }
    above
}

// Returns the entries of a map that is a vector. Drops any other node, and returns `None`.
#[cycle(dropping)]
fn vector_of<'qs>(node: TreeBuilder<'qs>) -> Option<SortedEntries<Key<'qs>, TreeBuilder<'qs>>>
    ensures { IfSome result (λ entries. built_tree node.entry ≡ mapping (entries_seen entries)) }
{
    let map = match node {
        TreeBuilder::Map(map) => map,
        TreeBuilder::Value(_) | TreeBuilder::Unsorted(_) => return None,
    };
    match map.into_form() {
        Ok(entries) => Some(entries),
        Err(tree) => {
            drop_below(tree);
            None
        }
    }
}

// Drops the first leaf below the last entry of a vector, and returns its parent.
#[cycle(dropping)]
fn without_last<'qs>(entries: SortedEntries<Key<'qs>, TreeBuilder<'qs>>) -> TreeBuilder<'qs>
    ensures { node_count (built_tree result) < 2 + entries_node_count (entries_seen entries.entry) }
{
    let mut entries = entries;
    let Some((_, last)) = entries.pop() else {
        entries.destroy_empty();
        return TreeBuilder::fresh();
    };
    if entries.len() == 0 {
        entries.destroy_empty();
        return last;
    }
    drop_first_leaf(last, TreeBuilder::Map(MapBuilder::Vector(entries)))
}

// Drops the entries of a search tree.
#[cycle(dropping)]
fn drop_below<'qs>(map: BTreeMap<Key<'qs>, TreeBuilder<'qs>>) {
    let mut map = map;
    while let Some((_, node)) = map.pop_first() {
        drop_builder(node);
    }
    map.destroy_empty();
}
