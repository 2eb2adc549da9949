//! The pairs of an input, and the names and values of the URL Standard's parser.

ghost use Rattle.std.specs.Prelude.{◌≡◌, ◌↔◌, ℕ, Bool, List, map, IsFalse};
ghost use Rattle.form_urlencoded.specs.Form.{parse};
ghost use Rattle.qs_spec.specs.Escape.{decoded};
ghost use Rattle.qs_spec.specs.Token.{tokens};
ghost use Rattle.qs_spec.specs.Grammar.{Pair, ArePairs};
ghost use Rattle.qs_standards.specs.FormUrlencoded.{form_decoded, form_parsed};
ghost use Rattle.qs_standards.specs.Covered.{covers_encoded};
ghost use Rattle.qs_standards.specs.Pieces.{piece_pairs};
ghost use Rattle.qs_standards.specs.Named.{AreNamed};

/// The definition by which the kit's crate `form_urlencoded`, a port of the Rust crate, states its result gives the same names and
/// values.
pub fn kit_parser()
    ensures { (input : List ℕ) → map (λ n. (n.name, n.value)) (form_parsed input) ≡ parse input }
{}

/// Bytes are decoded as in the standard exactly if no broken escape covers `+` or another escape.
pub fn broken_escapes()
    ensures { (raw : List ℕ) → (decoded raw ≡ form_decoded raw) ↔ IsFalse (covers_encoded raw) }
{}

/// With depth limit 0, in both modes, every input is parsed as the pairs of the standard's pieces and no others.
pub fn pairs_without_depth()
    ensures { (is_form : Bool) (input : List ℕ) (pairs : List Pair) → ArePairs 0 (tokens is_form input) pairs ↔ (pairs ≡ piece_pairs input) }
{}

/// With depth limit 0, in both modes, the pairs of an input are the standard's names and values exactly if no broken escape covers `+`
/// or another escape.
pub fn names_and_values()
    ensures { (is_form : Bool) (input : List ℕ) (pairs : List Pair) → ArePairs 0 (tokens is_form input) pairs
        → AreNamed (form_parsed input) pairs ↔ IsFalse (covers_encoded input) }
{}
