//! A pair of a querystring.
ghost use Rattle.std.specs.Prelude.{◌≡◌, ◌+◌, ◌^◌, ◌<◌, ◌∷◌, ◌++◌, [], length, drop, not, false, IsTrue};
ghost use Rattle.qs_spec.specs.Tree.Tree.{leaf};
ghost use Rattle.qs_tree.specs.tree.Views.{tree_of};
ghost use Rattle.qs_tree.specs.internal.scan.Pairs.{leaf_of, is_push};
ghost use Rattle.qs_tree.specs.internal.build.Unsorted.{leaf_held};

use crate::scan::path::Path;
use crate::tree::key::Key;
use crate::tree::value::ParsedValue;
use std::alloc::Global;
use std::borrow::CowSlice;
use std::mem;

/// The value of a pair.
#[derive(Drop)]
pub(crate) enum Leaf<'qs> {
    /// No `=`.
    NoValue,
    /// `=` with an empty value.
    Null,
    /// `=` with a value that isn't empty.
    Text(CowSlice<'qs, u8>),
}

/// How a pair adds its leaf to the node at its path.
#[derive(Clone, Copy)]
pub(crate) enum Manner {
    /// Adds it to the existing leaves, for any other key.
    Assign,
    /// Pushes it onto a sequence, for a key that ends in `[]`.
    Push,
}

impl Manner {
    /// Returns whether the leaf isn't pushed.
    pub fn is_assign(self) -> bool
        ensures { result ≡ not (is_push self) }
    {
        matches!(self, Manner::Assign)
    }
}

/// A pair: a path of keys, and a leaf.
#[derive(Drop)]
pub(crate) struct Pair<'qs> {
    pub path: Path<'qs>,
    pub manner: Manner,
    pub leaf: Leaf<'qs>,
}

impl<'qs> Pair<'qs> {
    /// Returns a pair with an empty path. Doesn't allocate.
    pub fn new(alloc: Global) -> Self {
        Pair {
            path: Path::new(alloc),
            manner: Manner::Assign,
            leaf: Leaf::NoValue,
        }
    }

    /// Returns the key of the path at a level.
    pub fn key(&self, level: usize) -> &Key<'qs>
        requires { level < length self.now.path }
        ensures key { drop level self.now.path ≡ result.now ∷ drop (level + 1) self.now.path }
        ensures fits { level + 1 < 2 ^ 64 }
    {
        self.path.key(level)
    }

    /// Returns whether only one key of the path is left at a level, and the leaf is assigned.
    pub fn is_leaf_below(&self, level: usize) -> bool
        requires { level < length self.now.path }
        ensures one { IsTrue result → length self.now.path ≡ level + 1 }
        ensures assigned { IsTrue result → is_push self.now.manner ≡ false }
    {
        self.path.len() - level == 1 && self.manner.is_assign()
    }

    /// Removes the last key of the path, and returns it.
    pub fn pop_key(&mut self) -> Key<'qs>
        requires { 0 < length self.old.path }
        ensures { self.old.path ≡ self.new.path ++ result ∷ [] }
    {
        self.path.pop()
    }

    /// Takes a key out of the path, and leaves an integer key.
    pub fn take_key(&mut self, level: usize) -> Key<'qs>
        requires { level < length self.old.path }
        ensures key { drop level self.old.path ≡ result ∷ drop (level + 1) self.new.path }
        ensures len { length self.new.path ≡ length self.old.path }
        ensures fits { level + 1 < 2 ^ 64 }
        ensures manner { self.new.manner ≡ self.old.manner }
        ensures leaf { self.new.leaf ≡ self.old.leaf }
    {
        self.path.take(level)
    }
}

impl<'qs> Leaf<'qs> {
    /// Returns a node as a leaf, or `NoValue` if it isn't one.
    pub fn of(value: ParsedValue<'qs>) -> Leaf<'qs>
        ensures { leaf_of result ≡ leaf_held value.entry }
    {
        match value {
            ParsedValue::Null => Leaf::Null,
            ParsedValue::String(text) => Leaf::Text(text),
            _ => Leaf::NoValue,
        }
    }

    /// Takes the leaf, and leaves `NoValue`.
    pub fn take(&mut self) -> Leaf<'qs>
        ensures { result ≡ self.old }
    {
        mem::replace(self, Leaf::NoValue)
    }

    /// Returns the leaf as a node of a tree.
    pub fn into_value(self) -> ParsedValue<'qs>
        ensures { tree_of result ≡ leaf (leaf_of self.entry) }
    {
        match self {
            Leaf::NoValue => ParsedValue::NoValue,
            Leaf::Null => ParsedValue::Null,
            Leaf::Text(text) => ParsedValue::String(text),
        }
    }
}
