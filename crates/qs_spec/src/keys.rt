//! Laws of writing, reading back and looking up keys.

ghost use Rattle.std.specs.Prelude.{◌≡◌, ℕ, ◌^◌, ◌<◌, ◌≤◌, Bool, ◌&&◌, List, ◌∷◌, ◌++◌, decimal, IsTrue, IsFalse};
ghost use Rattle.std.specs.List.{AllByRecursion};
ghost use Rattle.qs_spec.specs.Escape.{encoded};
ghost use Rattle.qs_spec.specs.Segment.{number, is_index, segment_of, segment_text};
ghost use Rattle.qs_spec.specs.Segment.Segment.{Int, Str};
ghost use Rattle.qs_spec.specs.Leaf.{value_leaf, leaf_text};
ghost use Rattle.qs_spec.specs.Leaf.Leaf.{Text};
ghost use Rattle.qs_spec.specs.Escape.{has_escape};
ghost use Rattle.qs_spec.specs.Tree.{Tree, Entries, IsTree};
ghost use Rattle.qs_spec.specs.Node.{found, value_at_key};
ghost use Rattle.qs_spec.specs.Scalar.{is_numeral, has_leading_zero};
ghost use Rattle.qs_spec.specs.internal.Keys.{written_segment, printed_index, value_at_index, list_of, AreAscending, IsAscending};

/// Digits without a leading zero are the decimal digits of their number, and the decimal digits of a number are parsed as that number.
pub fn digits_and_numbers()
    ensures printed { (digits : List ℕ) → IsTrue (is_numeral digits) → IsFalse (has_leading_zero digits) → number digits < 2 ^ 64 → decimal (number digits) ≡ digits }
    ensures digits { (n : ℕ) → n < 2 ^ 64 → IsTrue (is_numeral (decimal n)) }
    ensures number { (n : ℕ) → n < 2 ^ 64 → number (decimal n) ≡ n }
    ensures no_leading_zero { (n : ℕ) → n < 2 ^ 64 → IsFalse (has_leading_zero (decimal n)) }
{}

/// A written key is parsed as its number if it is an index, and as itself otherwise. So its string is restored, unless it is an index
/// with a leading zero, and the decimal digits of an index are parsed as that index.
pub fn written_keys_are_parsed()
    ensures segment { (is_form : Bool) (s : List ℕ) → AllByRecursion (λ b. b < 256) s → segment_of (encoded is_form s) ≡ written_segment s }
    ensures text { (is_form : Bool) (s : List ℕ) → AllByRecursion (λ b. b < 256) s → IsFalse (is_index s && has_leading_zero s) → segment_text (segment_of (encoded is_form s)) ≡ s }
    ensures place { (is_form : Bool) (i : ℕ) → i ≤ 4294967295 → segment_of (encoded is_form (decimal i)) ≡ Int i }
{}

/// A written value is parsed as its bytes.
pub fn written_values_are_parsed()
    ensures leaf { (is_form : Bool) (b : ℕ) (s : List ℕ) → AllByRecursion (λ b. b < 256) (b ∷ s) → value_leaf (encoded is_form (b ∷ s)) ≡ Text (b ∷ s) (has_escape (encoded is_form (b ∷ s))) }
    ensures bytes { (is_form : Bool) (s : List ℕ) → AllByRecursion (λ b. b < 256) s → leaf_text (value_leaf (encoded is_form s)) ≡ s }
{}

/// The keys of each map of a tree ascend, so they are distinct. Its integer keys have 32 bits.
pub fn ascending_keys()
    ensures { (is_form : Bool) (depth : ℕ) (bytes : List ℕ) (t : Tree) → IsTree is_form depth bytes t → IsAscending t }
{}

/// Two look-ups find all values of a name: of the integer key that is written as the name, if there is one, and of the string key.
pub fn found_by_lookup()
    ensures { (name : List ℕ) (es : Entries) → AreAscending es → found name es ≡ list_of (value_at_index (printed_index name) es) ++ list_of (value_at_key (Str name) es) }
{}
