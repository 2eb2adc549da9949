//! Worked examples: inputs and their trees.

ghost use Rattle.std.specs.Prelude.{true, false, codes, [], ◌∷◌};
ghost use Rattle.qs_spec.specs.Segment.Segment.{Int, Str};
ghost use Rattle.qs_spec.specs.Leaf.Leaf.{Text, Null, NoValue};
ghost use Rattle.qs_spec.specs.Tree.{IsTree, HasNoTree};
ghost use Rattle.qs_spec.specs.Tree.Tree.{leaf, mapping, uninitialized};
ghost use Rattle.qs_spec.specs.Tree.Entries.{entry, no_entries};
ghost use Rattle.qs_spec.specs.Worked.{text_leaf, text_leaves, at_text, only};

/// Segments nest up to the limit. Deeper brackets make one last key.
pub fn deep_keys()
    ensures last_key { IsTree false 5 (codes "a[b][c][d][e][f][g][h]=i")
        (only (codes "a") (only (codes "b") (only (codes "c") (only (codes "d") (only (codes "e") (only (codes "f") (only (codes "[g][h]") (text_leaf (codes "i"))))))))) }
    ensures equals_in_the_last_key { IsTree false 1 (codes "a[b][=1&c") (mapping (at_text (codes "a") (only (codes "b") (only (codes "[=1") (leaf NoValue))) (at_text (codes "c") (leaf NoValue) no_entries))) }
    ensures equals_after_the_last_key { IsTree false 1 (codes "a[b][c=1") (only (codes "a") (only (codes "b") (only (codes "[c") (text_leaf (codes "1"))))) }
    ensures ampersand_in_brackets { IsTree false 5 (codes "a[b&c]=1") (only (codes "a") (only (codes "b&c") (text_leaf (codes "1")))) }
    ensures bracket_in_brackets { IsTree false 5 (codes "a[[]=1") (only (codes "a") (only (codes "[") (text_leaf (codes "1")))) }
    ensures text_after_brackets { HasNoTree false 5 (codes "a[b]c=1") }
    ensures open_bracket { HasNoTree false 5 (codes "a[b") }
    ensures push_at_the_limit { IsTree false 1 (codes "a[b][]=1") (only (codes "a") (only (codes "b") (text_leaves (codes "1" ∷ [])))) }
    ensures no_depth { IsTree false 0 (codes "a[b]=1") (only (codes "a[b]") (text_leaf (codes "1"))) }
    ensures ampersand_first_in_the_last_key { IsTree false 1 (codes "a[b][&c]=1") (only (codes "a") (only (codes "b") (only (codes "[&c]") (text_leaf (codes "1"))))) }
    ensures closing_bracket_in_a_root_key { IsTree false 5 (codes "a]=1") (only (codes "a]") (text_leaf (codes "1"))) }
    ensures text_after_a_push { HasNoTree false 5 (codes "a[]x=1") }
    ensures bracket_after_a_push { HasNoTree false 5 (codes "a[][b]=1") }
{}

/// In form mode `%5B` and `%5D` are brackets, but only in upper case. Otherwise they are escapes.
pub fn brackets_in_form_mode()
    ensures escaped { IsTree true 5 (codes "abc%5Bdef%5D=ghi") (only (codes "abc") (only (codes "def") (text_leaf (codes "ghi")))) }
    ensures lower_case { IsTree true 5 (codes "abc%5bdef%5d=ghi") (mapping (entry (Str (codes "abc[def]")) true (text_leaf (codes "ghi")) no_entries)) }
    ensures in_query_mode { IsTree false 5 (codes "abc%5Bdef%5D=ghi") (mapping (entry (Str (codes "abc[def]")) true (text_leaf (codes "ghi")) no_entries)) }
    ensures as_they_are { IsTree true 5 (codes "a[b]=1") (only (codes "a") (only (codes "b") (text_leaf (codes "1")))) }
    ensures in_a_value { IsTree true 5 (codes "a=%5B") (only (codes "a") (leaf (Text (codes "[") true))) }
{}

/// A value may follow pairs nested under its key, and is then the value of the empty key. It may not precede them.
pub fn values_beside_maps()
    ensures value_after { IsTree false 5 (codes "a[b]=1&a=2") (only (codes "a") (mapping (at_text [] (text_leaf (codes "2")) (at_text (codes "b") (text_leaf (codes "1")) no_entries)))) }
    ensures value_before { HasNoTree false 5 (codes "a=2&a[b]=1") }
    ensures nothing_before { HasNoTree false 5 (codes "a=&a[b]=1") }
    ensures push_before { HasNoTree false 5 (codes "a[]=1&a[b]=2") }
    ensures value_at_the_root { HasNoTree false 5 (codes "=1&a=2") }
    ensures values_after { IsTree false 5 (codes "a[b]=1&a=2&a=3") (only (codes "a") (mapping (at_text [] (text_leaves (codes "2" ∷ codes "3" ∷ [])) (at_text (codes "b") (text_leaf (codes "1")) no_entries)))) }
    ensures value_after_at_the_root { IsTree false 5 (codes "b=1&=2") (mapping (at_text [] (text_leaf (codes "2")) (at_text (codes "b") (text_leaf (codes "1")) no_entries))) }
    ensures push_after { HasNoTree false 5 (codes "a[b]=1&a[]=2") }
{}

/// Several values of a key are a sequence, and more may be pushed onto it. Nothing can be pushed onto a single value.
pub fn repeated_keys()
    ensures values_and_a_push { IsTree false 5 (codes "a=1&a=2&a[]=3") (only (codes "a") (text_leaves (codes "1" ∷ codes "2" ∷ codes "3" ∷ []))) }
    ensures pushes { IsTree false 5 (codes "a[]=1&b=x&a[]=2") (mapping (at_text (codes "a") (text_leaves (codes "1" ∷ codes "2" ∷ [])) (at_text (codes "b") (text_leaf (codes "x")) no_entries))) }
    ensures push_onto_a_value { HasNoTree false 5 (codes "a=1&a[]=2") }
    ensures value_after_a_push { IsTree false 5 (codes "a[]=1&a=2") (only (codes "a") (text_leaves (codes "1" ∷ codes "2" ∷ []))) }
{}

/// The digits of a 32-bit number are an integer key. Other keys and escaped digits are string keys.
pub fn indices_and_texts()
    ensures escaped_digit { IsTree false 5 (codes "1=a&%31=b") (mapping (entry (Int 1) false (text_leaf (codes "a")) (entry (Str (codes "1")) true (text_leaf (codes "b")) no_entries))) }
    ensures leading_zero { IsTree false 5 (codes "01=x") (mapping (entry (Int 1) false (text_leaf (codes "x")) no_entries)) }
    ensures greatest_index { IsTree false 5 (codes "a[4294967296]=p&a[4294967295]=q")
        (only (codes "a") (mapping (entry (Int 4294967295) false (text_leaf (codes "q")) (at_text (codes "4294967296") (text_leaf (codes "p")) no_entries)))) }
{}

/// Inputs of few bytes.
pub fn nearly_empty_inputs()
    ensures empty { IsTree false 5 [] (leaf NoValue) }
    ensures ampersands { IsTree false 5 (codes "&&&") uninitialized }
    ensures a_key { IsTree false 5 (codes "a") (only (codes "a") (leaf NoValue)) }
    ensures no_value { IsTree false 5 (codes "a=") (only (codes "a") (leaf Null)) }
    ensures no_key { IsTree false 5 (codes "=foo") (text_leaf (codes "foo")) }
{}

/// A key counts as escaped if it is in the first pair with that key. A string counts as escaped by its own bytes.
pub fn escapes_in_keys_and_texts()
    ensures plain_first { IsTree false 5 (codes "a=1&%61=2") (mapping (entry (Str (codes "a")) false (text_leaves (codes "1" ∷ codes "2" ∷ [])) no_entries)) }
    ensures escaped_first { IsTree false 5 (codes "%61=1&a=2") (mapping (entry (Str (codes "a")) true (text_leaves (codes "1" ∷ codes "2" ∷ [])) no_entries)) }
    ensures text { IsTree false 5 (codes "a=%2B+") (only (codes "a") (leaf (Text (codes "+ ") true))) }
    ensures broken_escape { IsTree false 5 (codes "a=%") (only (codes "a") (leaf (Text (codes "%") true))) }
    ensures plus_in_a_key { IsTree false 5 (codes "a+b=1") (mapping (entry (Str (codes "a b")) true (text_leaf (codes "1")) no_entries)) }
    ensures plus_in_a_text { IsTree false 5 (codes "a=x+y") (only (codes "a") (leaf (Text (codes "x y") true))) }
{}
