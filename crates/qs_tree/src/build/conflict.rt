//! Conflicts of a pair with a tree.
ghost use Rattle.std.specs.Prelude.{◌≡◌};
ghost use Rattle.qs_tree.specs.declared.build.conflict.AddError.TheVariants.{OutOfMemory};

use crate::scan::path::Path;
use crate::tree::key::Key;
use crate::tree::value::ParsedValue;
use std::alloc::{AllocError, AllocFailed, Global};

/// Why a pair wasn't added. A conflict is boxed, to keep results small.
#[derive(Drop)]
pub(crate) enum AddError {
    Conflict(Box<Conflict>),
    OutOfMemory,
}

impl AddError {
    /// Returns the conflict of a pair with the node at a level of its path. Allocates the box, and returns `OutOfMemory` if that
    /// failed.
    #[inline(never)]
    pub fn conflict(alloc: Global, level: usize, kind: ConflictKind) -> AddError {
        match Box::new(alloc, Conflict { level, kind }) {
            Ok(conflict) => AddError::Conflict(conflict),
            Err(_) => AddError::OutOfMemory,
        }
    }

    /// Returns the conflict of a pair whose path leads, at a level, through a node that isn't a map. Allocates the box, and returns
    /// `OutOfMemory` if that failed.
    #[inline(never)]
    pub fn below(alloc: Global, level: usize, node: &ParsedValue<'_>) -> AddError {
        AddError::conflict(alloc, level, ConflictKind::below(node))
    }
}

/// A node to which a pair can't be added.
#[derive(Drop)]
pub(crate) struct Conflict {
    /// How many keys of the pair's path lead to the node.
    pub level: usize,
    pub kind: ConflictKind,
}

/// Which pair can't be added to which node.
#[derive(Drop)]
pub(crate) enum ConflictKind {
    /// A push onto a leaf.
    PushOnLeaf,
    /// A push onto a map, or an assigned leaf for a map that has a map at the empty string key. Holds the keys of the map as
    /// `Display` writes them, separated by `, `.
    LeafOnMap(String),
    /// A path through a sequence.
    BelowSequence,
    /// A path through a string.
    BelowText,
    /// A path through a leaf without a string.
    BelowUnit,
}

impl ConflictKind {
    /// Returns the conflict of a path through a node that isn't a map.
    pub fn below(node: &ParsedValue<'_>) -> ConflictKind {
        match node {
            ParsedValue::Sequence(_) => ConflictKind::BelowSequence,
            ParsedValue::String(_) => ConflictKind::BelowText,
            _ => ConflictKind::BelowUnit,
        }
    }
}

impl From<AllocError> for AddError {
    ghost from_gives = { λ _ error. error ≡ OutOfMemory };

    fn from(_: AllocError) -> AddError {
        AddError::OutOfMemory
    }
}

impl<T: Drop> From<AllocFailed<T>> for AddError {
    ghost from_gives = { λ _ error. error ≡ OutOfMemory };

    fn from(_: AllocFailed<T>) -> AddError {
        AddError::OutOfMemory
    }
}

/// Finds the first node on a path that can't have a child at the next key. Returns its level and the conflict, or `None`. Doesn't
/// allocate.
pub(crate) fn conflict_below<'qs>(
    tree: &ParsedValue<'qs>,
    path: &Path<'qs>,
) -> Option<(usize, ConflictKind)> {
    let mut node = Some(tree);
    for level in 0..path.len() {
        let key = path.key(level);
        let Some(here) = node else {
            return None;
        };
        match node_below(here, key) {
            Ok(child) => node = child,
            Err(kind) => return Some((level, kind)),
        }
    }
    None
}

// Returns the child of a node at a key, or `None`, or as `Err` the conflict if the node can't have one.
fn node_below<'t, 'qs>(
    node: &'t ParsedValue<'qs>,
    key: &Key<'qs>,
) -> Result<Option<&'t ParsedValue<'qs>>, ConflictKind> {
    match node {
        ParsedValue::Map(map) => Ok(map.get(key)),
        ParsedValue::Uninitialized => Ok(None),
        _ => Err(ConflictKind::below(node)),
    }
}
