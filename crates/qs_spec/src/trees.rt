//! Laws of pairs and trees.

ghost use Rattle.std.specs.Prelude.{◌≡◌, ◌≤◌, ◌↔◌, ℕ, ◌+◌, Bool, List, ◌∷◌, length, Some};
ghost use Rattle.qs_spec.specs.Token.{Token, tokens};
ghost use Rattle.qs_spec.specs.Grammar.{Pair, ArePairs};
ghost use Rattle.qs_spec.specs.Tree.{Tree, IsTree};
ghost use Rattle.qs_spec.specs.Tree.Tree.{uninitialized};
ghost use Rattle.qs_spec.specs.Holds.{IsSound, leaf_count, nesting};
ghost use Rattle.qs_spec.specs.internal.InPlace.{add_all};

/// Tokens are parsed as at most one list of pairs, and an input has at most one tree.
pub fn one_reading()
    ensures pairs { (depth : ℕ) (ts : List Token) (ps qs : List Pair) → ArePairs depth ts ps → ArePairs depth ts qs → ps ≡ qs }
    ensures tree { (is_form : Bool) (depth : ℕ) (bytes : List ℕ) (t u : Tree) → IsTree is_form depth bytes t → IsTree is_form depth bytes u → t ≡ u }
{}

/// Adding the pairs to one tree in place, one after another, gives the input's tree, and is rejected if the input has none.
pub fn in_place()
    ensures { (is_form : Bool) (depth b : ℕ) (bytes : List ℕ) (ps : List Pair) (t : Tree) → ArePairs depth (tokens is_form (b ∷ bytes)) ps
        → ((add_all ps uninitialized ≡ Some t) ↔ IsTree is_form depth (b ∷ bytes) t) }
{}

/// Sequences aren't empty and hold only leaves, maps aren't empty, and the value of the empty key is a leaf or a sequence.
pub fn sound_trees()
    ensures { (is_form : Bool) (depth : ℕ) (bytes : List ℕ) (t : Tree) → IsTree is_form depth bytes t → IsSound t }
{}

/// A tree has as many leaves as its input has pairs. Its maps are nested at most two levels deeper than the depth limit.
pub fn nothing_lost()
    ensures leaves { (is_form : Bool) (depth b : ℕ) (bytes : List ℕ) (ps : List Pair) (t : Tree) → ArePairs depth (tokens is_form (b ∷ bytes)) ps
        → IsTree is_form depth (b ∷ bytes) t → leaf_count t ≡ length ps }
    ensures nesting { (is_form : Bool) (depth : ℕ) (bytes : List ℕ) (t : Tree) → IsTree is_form depth bytes t → nesting t ≤ depth + 2 }
{}
