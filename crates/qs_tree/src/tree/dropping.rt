//! Drops a tree by a loop that doesn't allocate, at any depth.
//!
//! The loop drops last children, and below one of them follows first children. Each node stores its parent in place of its first
//! child, so only the lowest node has to be kept.
ghost use Rattle.std.specs.Prelude.{◌+◌, ◌<◌};
ghost use Rattle.qs_spec.specs.Tree.Tree.{sequence, mapping};
ghost use Rattle.qs_tree.specs.internal.tree.NodeCount.{node_count, DropsOne};
ghost use Rattle.qs_tree.specs.tree.Views.{tree_of, items_of, entries_of_map};

use crate::tree::map::ParsedMap;
use crate::tree::value::ParsedValue;
use std::mem;

/// Drops a tree in linear time. Doesn't allocate.
#[tactic(auto, using(crate::proofs::lemmas::Views::views))]
pub(crate) fn drop_tree<'qs>(tree: ParsedValue<'qs>) {
    let mut left = tree;
    loop {
        left = match left {
            ParsedValue::Map(map) => without_last_entry(map),
            ParsedValue::Sequence(items) => without_last_item(items),
            ParsedValue::String(_) => return,
            ParsedValue::Null | ParsedValue::NoValue | ParsedValue::Uninitialized => return,
        };
    }
}

// Drops the first leaf of a tree, and returns its parent. The topmost node stores the node above the tree as its first child.
#[inline(never)]
fn drop_first_leaf<'qs>(tree: ParsedValue<'qs>, above: ParsedValue<'qs>) -> ParsedValue<'qs>
    ensures { DropsOne (node_count (tree_of tree.entry) + node_count (tree_of above.entry)) (node_count (tree_of result)) }
{
    let mut tree = tree;
    let mut above = above;
    loop {
        match tree {
            ParsedValue::Map(map) => {
                let mut entries = map.into_entries();
                if entries.len() == 0 {
                    entries.destroy_empty();
                    return above;
                }
                tree = entries.replace(0, above);
                above = ParsedValue::Map(ParsedMap { map: entries });
            }
            ParsedValue::Sequence(mut items) => {
                if items.is_empty() {
                    items.destroy_empty();
                    return above;
                }
                tree = mem::replace(&mut items[0], above);
                above = ParsedValue::Sequence(items);
            }
            ParsedValue::String(_) => return above,
            ParsedValue::Null | ParsedValue::NoValue | ParsedValue::Uninitialized => return above,
        }
    }
}

// Drops the last leaves of a map, or else the first leaf below its last entry, and returns the parent. The first entry of the map
// is the node above.
fn without_last_entry<'qs>(map: ParsedMap<'qs>) -> ParsedValue<'qs>
    ensures { node_count (tree_of result) < node_count (mapping (entries_of_map map.entry)) }
{
    let mut entries = map.into_entries();
    while let Some((_, last)) = entries.pop() {
        if entries.len() == 0 {
            entries.destroy_empty();
            return last;
        }
        match last {
            ParsedValue::String(_) => {}
            ParsedValue::Null | ParsedValue::NoValue | ParsedValue::Uninitialized => {}
            inner => return drop_first_leaf(inner, ParsedValue::Map(ParsedMap { map: entries })),
        }
    }
    entries.destroy_empty();
    ParsedValue::Uninitialized
}

// Drops the last leaves of a sequence, or else the first leaf below its last item, and returns the parent. The first item of the
// sequence is the node above.
fn without_last_item<'qs>(leaves: Vec<ParsedValue<'qs>>) -> ParsedValue<'qs>
    ensures { node_count (tree_of result) < node_count (sequence (items_of leaves.entry.items)) }
{
    let mut items = leaves;
    while let Some(last) = items.pop() {
        if items.is_empty() {
            items.destroy_empty();
            return last;
        }
        match last {
            ParsedValue::String(_) => {}
            ParsedValue::Null | ParsedValue::NoValue | ParsedValue::Uninitialized => {}
            inner => return drop_first_leaf(inner, ParsedValue::Sequence(items)),
        }
    }
    items.destroy_empty();
    ParsedValue::Uninitialized
}
