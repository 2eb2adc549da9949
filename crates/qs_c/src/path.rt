//! A path, and the node to which it leads.

ghost use Rattle.std.specs.Prelude.{◌≡◌, ◌⊎◌, IfOk, IfErr, IsTrue, option_map};
ghost use Rattle.qs_spec.specs.Tree.{IsTree};
ghost use Rattle.qs_tree.specs.tree.Views.{segment_of_key, tree_of};
ghost use Rattle.qs_c.specs.Messages.{no_path_text};
ghost use Rattle.qs_c.specs.Paths.{child, first_path, index_of, is_key, node_at, IsNoPath};
ghost use Rattle.qs_c.specs.Status.{text_of, IsOutOfMemory};
ghost use Rattle.qs_c.specs.declared.failure.FailureKind.TheVariants as kind;

use crate::failure::{Failure, FailureKind, failure_at};
use qs_tree::{Config, Error, Key, ParsedValue, parse};
use std::alloc::Global;

/// Parses a path, which is a key without a value, and returns its tree.
pub(crate) fn parse_path(
    alloc: Global,
    config: Config,
    path: &[u8],
) -> Result<ParsedValue<'_>, Failure>
    ensures tree { IfOk result (λ tree. IsTree config.is_form config.max_depth path.now (tree_of tree)) }
    ensures key { IfOk result (λ tree. IsTrue (is_key (tree_of tree))) }
    ensures none { IfErr result (λ failure. IsOutOfMemory failure ⊎ ((failure.kind ≡ kind.Path) × (failure.position ≡ 0) × IsNoPath config path.now × (text_of failure ≡ no_path_text))) }
{
    match parse(alloc, path, config) {
        Ok(tree) => {
            if is_key(&tree) {
                Ok(tree)
            } else {
                Err(no_path(alloc))
            }
        }
        Err(Error::OutOfMemory) => Err(Failure::out_of_memory()),
        Err(_) => Err(no_path(alloc)),
    }
}

// Returns the error of a path that isn't a key.
fn no_path(alloc: Global) -> Failure
    ensures { IsOutOfMemory result ⊎ ((result.kind ≡ kind.Path) × (result.position ≡ 0) × (text_of result ≡ no_path_text)) }
{
    failure_at(alloc, FailureKind::Path, "the path is not a key", 0)
}

// Returns whether the tree is a key without a value.
fn is_key(tree: &ParsedValue<'_>) -> bool
    ensures { result ≡ is_key (tree_of tree.now) }
{
    match tree {
        ParsedValue::NoValue => true,
        ParsedValue::Map(map) => match map.at(0) {
            Some((_, below)) => map.len() == 1 && is_key(below),
            None => false,
        },
        _ => false,
    }
}

/// Returns the node to which the path leads from `node`, or `None`. Calls itself for each segment.
pub(crate) fn find<'t, 'qs>(
    path: &ParsedValue<'_>,
    node: &'t ParsedValue<'qs>,
) -> Option<&'t ParsedValue<'qs>>
    ensures { option_map (λ v. tree_of v.now) result ≡ node_at (first_path (tree_of path.now)) (tree_of node.now) }
{
    let ParsedValue::Map(map) = path else {
        return Some(node);
    };
    let Some((key, below)) = map.at(0) else {
        return Some(node);
    };
    find(below, child(node, key)?)
}

// Returns the node at a key: the value in a map, or the item at an index in a list. A string is a list of one.
fn child<'t, 'qs>(node: &'t ParsedValue<'qs>, key: &Key<'_>) -> Option<&'t ParsedValue<'qs>>
    ensures { option_map (λ v. tree_of v.now) result ≡ child (segment_of_key key.now) (tree_of node.now) }
{
    match node {
        ParsedValue::Map(map) => map.get(key),
        ParsedValue::Sequence(items) => items.get(index_of(key)?),
        ParsedValue::String(_) => {
            if index_of(key)? == 0 {
                Some(node)
            } else {
                None
            }
        }
        ParsedValue::NoValue | ParsedValue::Null | ParsedValue::Uninitialized => None,
    }
}

// Returns the index if the key is an integer.
fn index_of(key: &Key<'_>) -> Option<usize>
    ensures { result ≡ index_of (segment_of_key key.now) }
{
    match key {
        Key::Int(index) => Some(*index as usize),
        Key::String(_) => None,
    }
}
