//! Equal keys, trees and data, by the laws of `==`.

ghost use Rattle.std.specs.Prelude.{◌≡◌, ◌↔◌, IsTrue};
ghost use Rattle.qs_spec.specs.Order.{ignoring_escapes};
ghost use Rattle.qs_spec.specs.Segment.{compare_segments};
ghost use Rattle.qs_tree.specs.tree.Views.{segment_of_key, tree_of};
ghost use Rattle.qs_data.specs.data.Views.{data_of};

use qs_data::{Data, equality_of_data};
use qs_tree::{Key, ParsedValue, equality_of_keys, equality_of_values, order_of_keys};
use std::cmp::Ordering;

/// Returns whether both are the same data.
pub fn is_same_data(a: &Data, b: &Data) -> bool
    ensures { IsTrue result ↔ data_of a.now ≡ data_of b.now }
{
    equality_of_data();
    a == b
}

/// Returns whether two trees are equal, ignoring which texts are borrowed.
pub fn is_same_tree<'qs>(a: &ParsedValue<'qs>, b: &ParsedValue<'qs>) -> bool
    ensures { IsTrue result ↔ ignoring_escapes (tree_of a.now) ≡ ignoring_escapes (tree_of b.now) }
{
    equality_of_values();
    a == b
}

/// Returns whether two keys are the same.
pub fn is_same_key(a: &Key<'_>, b: &Key<'_>) -> bool
    ensures { IsTrue result ↔ segment_of_key a.now ≡ segment_of_key b.now }
{
    equality_of_keys();
    a == b
}

/// Returns which of two keys is before the other.
pub fn order_of_two_keys(a: &Key<'_>, b: &Key<'_>) -> Ordering
    ensures { result ≡ compare_segments (segment_of_key a.now) (segment_of_key b.now) }
{
    order_of_keys();
    a.cmp(b)
}
