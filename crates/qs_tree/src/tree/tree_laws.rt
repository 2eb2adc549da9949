//! Laws of keys and values. Call one to use it in a proof; it does nothing.
ghost use Rattle.std.specs.Prelude.{◌≡◌, IsTrue, ◌↔◌};
ghost use Rattle.std.specs.Cmp.{IsTotalOrder};
ghost use Rattle.std.specs.declared.cmp.Ordering.TheVariants.{Equal};
ghost use Rattle.qs_spec.specs.Segment.{compare_segments};
ghost use Rattle.qs_spec.specs.Order.{ignoring_escapes};
ghost use Rattle.qs_tree.specs.declared.tree.key.Key.{Key};
ghost use Rattle.qs_tree.specs.declared.tree.value.ParsedValue.{ParsedValue};
ghost use Rattle.qs_tree.specs.tree.Keys.{key_cmp, key_eq, value_eq};
ghost use Rattle.qs_tree.specs.tree.Views.{segment_of_key, tree_of};

/// Keys are ordered as their segments are, ignoring ownership. The order is total.
///
/// ```
/// let is_less = a < b;
/// order_of_keys(); // from here on a proof knows what `is_less` says
/// ```
#[tactic(auto, using(crate::proofs::lemmas::tree::Equality::order))]
pub fn order_of_keys()
    ensures segments { (a b : Key) → key_cmp a b ≡ compare_segments (segment_of_key a) (segment_of_key b) }
    ensures total { IsTotalOrder key_cmp }
{}

/// Two keys are equal exactly if their segments are equal, ignoring ownership, and exactly if they compare as `Equal`.
///
/// ```
/// let same = a == b;
/// equality_of_keys(); // from here on a proof knows what `same` says
/// ```
#[tactic(auto, using(crate::proofs::lemmas::tree::Equality::equal_keys, crate::proofs::lemmas::tree::Equality::equal_in_order))]
pub fn equality_of_keys()
    ensures segments { (a b : Key) → IsTrue (key_eq a b) ↔ segment_of_key a ≡ segment_of_key b }
    ensures order { (a b : Key) → IsTrue (key_eq a b) ↔ key_cmp a b ≡ Equal }
{}

/// Two values are equal exactly if their trees are equal, ignoring ownership.
///
/// ```
/// let same = a == b;
/// equality_of_values(); // from here on a proof knows what `same` says
/// ```
#[tactic(auto, using(crate::proofs::lemmas::tree::Equality::equal_values))]
pub fn equality_of_values()
    ensures { (a b : ParsedValue) → IsTrue (value_eq a b) ↔ ignoring_escapes (tree_of a) ≡ ignoring_escapes (tree_of b) }
{}
