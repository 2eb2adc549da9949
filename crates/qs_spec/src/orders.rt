//! Laws of the order of pairs.

ghost use Rattle.std.specs.Prelude.{◌≡◌, ℕ, Bool, List, ◌∷◌, map};
ghost use Rattle.qs_spec.specs.Token.{tokens};
ghost use Rattle.qs_spec.specs.Segment.{Segment};
ghost use Rattle.qs_spec.specs.Grammar.{Pair, ArePairs};
ghost use Rattle.qs_spec.specs.History.{events};
ghost use Rattle.qs_spec.specs.Tree.{node};
ghost use Rattle.qs_spec.specs.Permutation.{IsReordering, KeepsOrder};
ghost use Rattle.qs_spec.specs.Order.{overlap, AreReordered, AreEquivalent, ignoring_escapes, pair_ignoring_escapes};

/// A permutation that keeps overlapping paths in order changes no history, and nothing in the node except which texts are escaped.
pub fn reordered_pairs()
    ensures histories { (ps qs : List Pair) → IsReordering overlap ps qs → (path : List Segment) → events ps path ≡ events qs path }
    ensures nodes { (ps qs : List Pair) → IsReordering overlap ps qs → ignoring_escapes (node ps) ≡ ignoring_escapes (node qs) }
{}

/// A permutation that keeps overlapping paths in order by indices also does so by recursion.
pub fn orders_by_place()
    ensures { (ps qs : List Pair) → KeepsOrder overlap ps qs → IsReordering overlap ps qs }
{}

/// Two inputs have equivalent trees, or both have none, if their pairs, ignoring escapes, are permutations of one another that keep
/// overlapping paths in order.
pub fn reordered_inputs()
    ensures by_places { (is_form : Bool) (depth : ℕ) (a b : List ℕ) (p : Pair) (ps qs : List Pair) → ArePairs depth (tokens is_form a) (p ∷ ps) → ArePairs depth (tokens is_form b) qs
        → AreReordered (p ∷ ps) qs → AreEquivalent is_form depth a b }
    ensures by_cases { (is_form : Bool) (depth : ℕ) (a b : List ℕ) (p : Pair) (ps qs : List Pair) → ArePairs depth (tokens is_form a) (p ∷ ps) → ArePairs depth (tokens is_form b) qs
        → IsReordering overlap (map pair_ignoring_escapes (p ∷ ps)) (map pair_ignoring_escapes qs) → AreEquivalent is_form depth a b }
{}
