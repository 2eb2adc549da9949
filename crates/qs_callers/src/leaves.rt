//! A walk over a tree, without a shape.

ghost use Rattle.std.specs.Prelude.{◌⊎◌};
ghost use Rattle.qs_spec.specs.Config.{default};
ghost use Rattle.qs_spec.specs.Tree.{HasNoTree};
ghost use Rattle.qs_tree.specs.Error.{IsParse, IsOutOfMemory};

use qs_tree::{Config, ParsedMap, ParsedValue, Result, parse};
use std::alloc::{AllocError, Global};

/// A node that is still to be visited, and the path that leads to it.
#[derive(Drop)]
struct Place<'t, 'qs> {
    path: String,
    node: &'t ParsedValue<'qs>,
}

/// Returns the paths of a querystring's leaves, a line each: `["user"]["ids"][0]` for `user[ids][0]=7`. It returns the same
/// errors as `parse`.
pub fn leaf_paths(alloc: Global, input: &str) -> Result<String>
    ensures no_tree { IsParse result → HasNoTree default.is_form default.max_depth input.now }
    ensures rejected { HasNoTree default.is_form default.max_depth input.now → IsParse result ⊎ IsOutOfMemory result }
{
    let tree = parse(alloc, input.as_bytes(), Config::new())?;
    let mut lines = String::new(alloc);
    let root = Place {
        path: String::new(alloc),
        node: &tree,
    };
    let mut rest = Vec::new(alloc);
    rest.push(root)?;
    for _ in 0..u64::MAX {
        let Some(Place { path, node }) = rest.pop() else {
            break;
        };
        match node {
            ParsedValue::Map(map) => enter_map(alloc, &mut rest, &path, map)?,
            ParsedValue::Sequence(items) => enter_items(alloc, &mut rest, &path, items)?,
            _ => lines.push_str(&format!(in alloc; "{path}\n")?)?,
        }
    }
    Ok(lines)
}

// Keeps the entries of a map, the first one on top.
fn enter_map<'t, 'qs>(
    alloc: Global,
    rest: &mut Vec<Place<'t, 'qs>>,
    path: &str,
    map: &'t ParsedMap<'qs>,
) -> Result<(), AllocError> {
    for at in (0..map.len()).rev() {
        let Some((key, node)) = map.at(at) else {
            continue;
        };
        let path = format!(in alloc; "{path}[{key}]")?;
        rest.push(Place { path, node })?;
    }
    Ok(())
}

// Keeps the items of a sequence, the first one on top.
fn enter_items<'t, 'qs>(
    alloc: Global,
    rest: &mut Vec<Place<'t, 'qs>>,
    path: &str,
    items: &'t Vec<ParsedValue<'qs>>,
) -> Result<(), AllocError> {
    for (at, node) in items.iter().enumerate().rev() {
        let path = format!(in alloc; "{path}[{at}]")?;
        rest.push(Place { path, node })?;
    }
    Ok(())
}
