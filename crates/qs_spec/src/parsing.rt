//! Laws of parsing as a function.

ghost use Rattle.std.specs.Prelude.{◌≡◌, ◌↔◌, ℕ, List, ◌∷◌, Some, IsFalse};
ghost use Rattle.qs_spec.specs.Token.{Token};
ghost use Rattle.qs_spec.specs.Token.TokenKind.{Amp};
ghost use Rattle.qs_spec.specs.Grammar.{Pair, ArePairs, is_amp};
ghost use Rattle.qs_spec.specs.internal.Parsing.{parsed_pairs, parsed_pair, and_pairs};

/// Parsing from the left finds the pairs that the grammar relates to some tokens, and none if it relates none.
pub fn pairs_are_parsed()
    ensures related { (depth : ℕ) (ts : List Token) (ps : List Pair) → (parsed_pairs depth ts ≡ Some ps) ↔ ArePairs depth ts ps }
    ensures after_ampersand { (depth : ℕ) (t : Token) (ts : List Token) → t.kind ≡ Amp → parsed_pairs depth (t ∷ ts) ≡ parsed_pairs depth ts }
    ensures after_pair { (depth : ℕ) (t : Token) (ts : List Token) → IsFalse (is_amp t.kind)
        → parsed_pairs depth (t ∷ ts) ≡ and_pairs depth (parsed_pair depth (t ∷ ts)) }
{}
