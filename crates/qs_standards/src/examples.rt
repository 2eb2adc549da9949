//! Worked examples: inputs as the standards and this library read them, and written strings.

ghost use Rattle.std.specs.Prelude.{◌≡◌, true, false, codes, [], ◌∷◌, ◌++◌, None};
ghost use Rattle.qs_spec.specs.Config.{default};
ghost use Rattle.qs_spec.specs.Data.{Data};
ghost use Rattle.qs_spec.specs.Segment.Segment.{Int, Str};
ghost use Rattle.qs_spec.specs.Leaf.Leaf.{NoValue, Null, Text};
ghost use Rattle.qs_spec.specs.Tree.{HasNoTree};
ghost use Rattle.qs_spec.specs.Tree.Tree.{leaf, mapping, uninitialized};
ghost use Rattle.qs_spec.specs.Worked.{struct_with, at_text, text_leaf, text_leaves, only, IsWritten};
ghost use Rattle.qs_spec.specs.Tree.Entries.{entry, no_entries};
ghost use Rattle.qs_standards.specs.PercentDecode.{percent_decoded};
ghost use Rattle.qs_standards.specs.FormUrlencoded.{form_parsed};
ghost use Rattle.qs_standards.specs.Covered.{covers_encoded};
ghost use Rattle.qs_standards.specs.Named.{HoldsNamed};
ghost use Rattle.qs_standards.specs.Uri.{is_query, is_query_with, is_unwise};
ghost use Rattle.qs_standards.specs.Worked.{named, one_leaf, ReadsBoth};

/// Percent-decoding decodes once, and goes on right after a `%` that two digits don't follow. It doesn't change `+`.
pub fn percent_decoding()
    ensures digits_of_either_case { percent_decoded (codes "%2f%2F%c3%A9") ≡ 47 ∷ 47 ∷ 195 ∷ 169 ∷ [] }
    ensures once { percent_decoded (codes "%2541") ≡ codes "%41" }
    ensures percent_after_percent { percent_decoded (codes "%%41") ≡ codes "%A" }
    ensures percent_after_a_digit { percent_decoded (codes "%4%41") ≡ codes "%4A" }
    ensures no_digits { percent_decoded (codes "%zz%G1%1g%4") ≡ codes "%zz%G1%1g%4" }
    ensures plus { percent_decoded (codes "a+b%") ≡ codes "a+b%" }
{}

/// Inputs that both read in the same way: each name is a key, and each value is a leaf.
pub fn read_alike()
    ensures name { ReadsBoth (codes "a") (named (codes "a") [] ∷ []) (only (codes "a") (leaf NoValue)) }
    ensures empty_value { ReadsBoth (codes "a=") (named (codes "a") [] ∷ []) (only (codes "a") (leaf Null)) }
    ensures first_equals { ReadsBoth (codes "a=b=c") (named (codes "a") (codes "b=c") ∷ []) (only (codes "a") (text_leaf (codes "b=c"))) }
    ensures plus { ReadsBoth (codes "a+b=%2B") (named (codes "a b") (codes "+") ∷ []) (one_leaf (Str (codes "a b")) true (Text (codes "+") true)) }
    ensures percent { ReadsBoth (codes "a=%2541") (named (codes "a") (codes "%41") ∷ []) (one_leaf (Str (codes "a")) false (Text (codes "%41") true)) }
    ensures empty_pieces { ReadsBoth (codes "&&a=1&") (named (codes "a") (codes "1") ∷ []) (only (codes "a") (text_leaf (codes "1"))) }
    ensures brackets { ReadsBoth (codes "a[b]=1&a%5B%5D=2") (named (codes "a[b]") (codes "1") ∷ named (codes "a[]") (codes "2") ∷ [])
        (mapping (entry (Str (codes "a[]")) true (text_leaf (codes "2")) (at_text (codes "a[b]") (text_leaf (codes "1")) no_entries))) }
    ensures empty_name { ReadsBoth (codes "=v") (named [] (codes "v") ∷ []) (text_leaf (codes "v")) }
    ensures empty_name_and_value { ReadsBoth (codes "=") (named [] [] ∷ []) (leaf Null) }
    ensures empty_name_later { ReadsBoth (codes "b&=v") (named (codes "b") [] ∷ named [] (codes "v") ∷ []) (mapping (at_text [] (text_leaf (codes "v")) (at_text (codes "b") (leaf NoValue) no_entries))) }
    ensures nothing { ReadsBoth (codes "&") [] uninitialized }
    ensures index { ReadsBoth (codes "01=x") (named (codes "01") (codes "x") ∷ []) (one_leaf (Int 1) false (Text (codes "x") false)) }
    ensures escaped_separators { ReadsBoth (codes "a%26b=%3D") (named (codes "a&b") (codes "=") ∷ []) (one_leaf (Str (codes "a&b")) true (Text (codes "=") true)) }
{}

/// Inputs that they read differently: names that aren't distinct are one key in the tree, a broken escape covers `+` or an escape, or
/// the empty name is the first of several.
pub fn read_differently()
    ensures repeated { ReadsBoth (codes "a=1&a=2") (named (codes "a") (codes "1") ∷ named (codes "a") (codes "2") ∷ []) (only (codes "a") (text_leaves (codes "1" ∷ codes "2" ∷ []))) }
    ensures one_index { ReadsBoth (codes "1=x&01=y") (named (codes "1") (codes "x") ∷ named (codes "01") (codes "y") ∷ [])
        (mapping (entry (Int 1) false (text_leaves (codes "x" ∷ codes "y" ∷ [])) no_entries)) }
    ensures covered_escape { ReadsBoth (codes "%%41") (named (codes "%A") [] ∷ []) (one_leaf (Str (codes "%%41")) true NoValue) }
    ensures covered_plus { ReadsBoth (codes "a=%4+1") (named (codes "a") (codes "%4 1") ∷ []) (one_leaf (Str (codes "a")) false (Text (codes "%4+1") true)) }
    ensures empty_name_first { form_parsed (codes "=v&b") ≡ named [] (codes "v") ∷ named (codes "b") [] ∷ [] }
    ensures no_tree { HasNoTree false 0 (codes "=v&b") }
{}

/// A tree holds a name as its key, and the value as a leaf.
pub fn not_held()
    ensures other_value { HoldsNamed (named (codes "a") (codes "1") ∷ []) (only (codes "a") (text_leaf (codes "2"))) → ⊥ }
    ensures other_name { HoldsNamed (named (codes "a") (codes "1") ∷ []) (only (codes "b") (text_leaf (codes "1"))) → ⊥ }
    ensures other_number { HoldsNamed (named (codes "1") (codes "x") ∷ []) (one_leaf (Int 2) false (Text (codes "x") false)) → ⊥ }
{}

/// Which broken escapes cover something.
pub fn covering_escapes()
    ensures escape { covers_encoded (codes "a=%%41") ≡ true }
    ensures plus { covers_encoded (codes "%+") ≡ true }
    ensures escape_after_a_digit { covers_encoded (codes "%4%41") ≡ true }
    ensures plus_after_a_digit { covers_encoded (codes "%4+") ≡ true }
    ensures none { covers_encoded (codes "100%&%zz=%4&%%4&%4%4&%41+%2B") ≡ false }
    ensures after_two { covers_encoded (codes "%%%41") ≡ false }
{}

/// What is a query of RFC 3986. In query mode the bytes 92, 94, 96, 123, 124 and 125 of a value are written unchanged.
pub fn queries_of_uris()
    ensures kept { is_query (codes "AZaz09-._~!$&'()*+,;=:@/?%2f%C3") ≡ true }
    ensures brackets { is_query (codes "a[b]=1") ≡ false }
    ensures unwise { is_query_with is_unwise (codes "a[b]=1") ≡ true }
    ensures fragment { is_query (codes "a#b") ≡ false }
    ensures space { is_query (codes "a b") ≡ false }
    ensures cut_short { is_query (codes "%4") ≡ false }
    ensures no_digits { is_query (codes "%4g1") ≡ false }
    ensures text { IsWritten default (struct_with (codes "a") (struct_with (codes "b") (Data.text (92 ∷ 94 ∷ 96 ∷ 123 ∷ 124 ∷ 125 ∷ [])))) (codes "a[b]=" ++ 92 ∷ 94 ∷ 96 ∷ 123 ∷ 124 ∷ 125 ∷ []) None }
{}
