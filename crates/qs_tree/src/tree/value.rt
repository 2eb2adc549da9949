//! The nodes of a tree.
ghost use Rattle.std.specs.Cmp.{on_per};
ghost use Rattle.qs_tree.specs.tree.Equality.{tree_same};
ghost use Rattle.qs_tree.specs.internal.tree.EqualityLaws.{trees_per};
ghost use Rattle.qs_tree.specs.tree.Views.{tree_of};
ghost use Rattle.qs_tree.specs.internal.build.Unsorted.{is_leaf};
ghost use Rattle.std.specs.Prelude.{◌≡◌};

use crate::tree::map::ParsedMap;
use crate::tree::sameness::same_nodes;
use std::borrow::CowSlice;

/// A node of the tree of a querystring. Its strings and keys may be borrowed from the input. `==` ignores ownership.
///
/// ```
/// let ParsedValue::Map(map) = parse(alloc, b"a=1", Config::new())? else {
///     return Ok(0);
/// };
/// Ok(map.len()) // 1
/// ```
#[cycle(tree)]
#[derive(Debug, Drop)]
pub enum ParsedValue<'qs> {
    /// A map, such as `a[b]=1` or `a[0]=1` makes at `a`.
    Map(ParsedMap<'qs>),
    /// The leaves of one path, such as `a=1&a=2` or `a[]=1` makes at `a`.
    Sequence(Vec<ParsedValue<'qs>>),
    /// The decoded bytes after `=`, at least one.
    String(CowSlice<'qs, u8>),
    /// `=` with an empty value, as in `a=`.
    Null,
    /// No `=`, as in `a`.
    NoValue,
    /// No pair.
    Uninitialized,
}

impl<'qs> ParsedValue<'qs> {
    /// Returns whether it is a leaf: a string, `Null` or `NoValue`.
    #[tactic(auto, using(crate::proofs::lemmas::Views::views))]
    pub(crate) fn is_leaf(&self) -> bool
        ensures { result ≡ is_leaf (tree_of self.now) }
    {
        match self {
            ParsedValue::String(_) => true,
            ParsedValue::Null => true,
            ParsedValue::NoValue => true,
            _ => false,
        }
    }
}

/// Ignores ownership. Recurses for each level of the trees, and doesn't allocate.
impl<'qs> PartialEq for ParsedValue<'qs> {
    ghost eq = { λ a b. tree_same (tree_of a) (tree_of b) };

    ghost laws = { on_per tree_of trees_per };

    fn eq(&self, other: &ParsedValue<'qs>) -> bool {
        same_nodes(self, other)
    }
}
