//! The tree of an input, and the names and values of the URL Standard's parser.

ghost use Rattle.std.specs.Prelude.{ℕ, Bool, List, ◌∷◌, IsTrue, IsFalse};
ghost use Rattle.qs_spec.specs.Tree.{Tree, IsTree, HasNoTree};
ghost use Rattle.qs_standards.specs.FormUrlencoded.{form_parsed};
ghost use Rattle.qs_standards.specs.Covered.{covers_encoded};
ghost use Rattle.qs_standards.specs.Named.{AreDistinct, HoldsNamed, begins_empty};

/// With depth limit 0, if names are distinct and no broken escape covers anything, the tree holds exactly the standard's names and
/// values. There is a tree exactly if the empty name isn't the first of several.
pub fn trees_without_depth()
    ensures tree { (is_form : Bool) (b : ℕ) (input : List ℕ) (t : Tree) → IsFalse (covers_encoded (b ∷ input)) → AreDistinct (form_parsed (b ∷ input))
        → IsTree is_form 0 (b ∷ input) t → HoldsNamed (form_parsed (b ∷ input)) t }
    ensures some { (is_form : Bool) (b : ℕ) (input : List ℕ) → IsFalse (covers_encoded (b ∷ input)) → AreDistinct (form_parsed (b ∷ input))
        → IsFalse (begins_empty (form_parsed (b ∷ input))) → (t : Tree) × IsTree is_form 0 (b ∷ input) t }
    ensures none { (is_form : Bool) (b : ℕ) (input : List ℕ) → IsFalse (covers_encoded (b ∷ input)) → AreDistinct (form_parsed (b ∷ input))
        → IsTrue (begins_empty (form_parsed (b ∷ input))) → HasNoTree is_form 0 (b ∷ input) }
{}
