//! Equality of trees.

ghost use Rattle.std.specs.Prelude.{◌≡◌, ◌&&◌};
ghost use Rattle.qs_spec.specs.Segment.{is_same_segment};
ghost use Rattle.qs_tree.specs.tree.Equality.{tree_same, items_same, entries_same};
ghost use Rattle.qs_tree.specs.internal.tree.KeyTrees.{key_trees};
ghost use Rattle.qs_tree.specs.tree.Views.{segment_of_key, tree_of, items_of, entries_from};

use crate::tree::key::Key;
use crate::tree::value::ParsedValue;

/// Returns whether two nodes are equal, ignoring ownership. Recurses for each level, and doesn't allocate.
#[cycle(sameness)]
pub(crate) fn same_nodes<'qs>(left: &ParsedValue<'qs>, right: &ParsedValue<'qs>) -> bool
    ensures { result ≡ tree_same (tree_of left.now) (tree_of right.now) }
{
    match (left, right) {
        (ParsedValue::Map(left), ParsedValue::Map(right)) => {
            same_entries(left.map.as_slice(), right.map.as_slice())
        }
        (ParsedValue::Sequence(left), ParsedValue::Sequence(right)) => same_items(left, right),
        (ParsedValue::String(left), ParsedValue::String(right)) => left == right,
        (ParsedValue::Null, ParsedValue::Null) => true,
        (ParsedValue::NoValue, ParsedValue::NoValue) => true,
        (ParsedValue::Uninitialized, ParsedValue::Uninitialized) => true,
        _ => false,
    }
}

/// Returns whether two maps have equal entries, ignoring ownership.
#[cycle(sameness)]
#[tactic(auto, using(crate::proofs::lemmas::tree::NodeCounts::entry_at_within))]
pub(crate) fn same_entries<'qs>(
    left: &[(Key<'qs>, ParsedValue<'qs>)],
    right: &[(Key<'qs>, ParsedValue<'qs>)],
) -> bool
    ensures { result ≡ entries_same (entries_from (key_trees left.now)) (entries_from (key_trees right.now)) }
{
    if left.len() != right.len() {
        return false;
    }
    for (at, entry) in left.iter().enumerate() {
        let other = &right[at];
        if !same_entry(entry, other) {
            return false;
        }
    }
    true
}

// Returns whether two entries are equal.
#[cycle(sameness)]
fn same_entry<'qs>(
    left: &(Key<'qs>, ParsedValue<'qs>),
    right: &(Key<'qs>, ParsedValue<'qs>),
) -> bool
    ensures { result ≡ (is_same_segment (segment_of_key left.now.0) (segment_of_key right.now.0) && tree_same (tree_of left.now.1) (tree_of right.now.1)) }
{
    left.0 == right.0 && same_nodes(&left.1, &right.1)
}

// Returns whether two sequences have equal items.
#[cycle(sameness)]
#[tactic(auto, using(crate::proofs::lemmas::tree::Lengths::other_items, crate::proofs::lemmas::tree::NodeCounts::item_at_within))]
fn same_items<'qs>(left: &[ParsedValue<'qs>], right: &[ParsedValue<'qs>]) -> bool
    ensures { result ≡ items_same (items_of left.now) (items_of right.now) }
{
    if left.len() != right.len() {
        return false;
    }
    for (at, item) in left.iter().enumerate() {
        let other = &right[at];
        if !same_nodes(item, other) {
            return false;
        }
    }
    true
}
