//! Worked examples of losses: data that is read back as other data, each because one premise is missing.

ghost use Rattle.std.specs.Prelude.{◌≡◌, codes, decimal, [], ◌∷◌, Some, None, true, false, pos};
ghost use Rattle.qs_spec.specs.Config.{default, empty_indexed, unindexed};
ghost use Rattle.qs_spec.specs.Escape.{encoded};
ghost use Rattle.qs_spec.specs.Segment.{segment_of};
ghost use Rattle.qs_spec.specs.Segment.Segment.{Int, Str};
ghost use Rattle.qs_spec.specs.Leaf.Leaf.{NoValue, Null};
ghost use Rattle.qs_spec.specs.Tree.{HasNoTree};
ghost use Rattle.qs_spec.specs.Tree.Tree.{leaf, mapping};
ghost use Rattle.qs_spec.specs.Tree.Entries.{entry, no_entries};
ghost use Rattle.qs_spec.specs.Stable.{is_stable};
ghost use Rattle.qs_spec.specs.Entry.EntryError.{too_deep};
ghost use Rattle.qs_spec.specs.Shape.{Shape, KeyShape, no_fields, one_field, fields_of, no_shapes, one_shape, no_variants, one_variant, unit_kind, tuple_kind, struct_kind};
ghost use Rattle.qs_spec.specs.Shape.UnknownKeys.{ignored};
ghost use Rattle.qs_spec.specs.Data.{Data, values_of, pairs_of, members_of};
ghost use Rattle.qs_spec.specs.Worked.{field, struct_with, map_with, text_leaf, text_leaves, at_text, only, IsRead, IsReadAs, IsWritten, IsUnstable};

/// Data that isn't plain is read as other data, or not at all. An option in an option is read as none; a struct without fields is
/// missing; a zero and further digits are another number, and in form mode a bracket nests; an empty name or key is no key; equal
/// keys are one; bytes are a string; and an element beyond the indices is no item.
pub fn not_plain_is_lost()
    ensures option_in_option { IsReadAs default (field (codes "a") (Shape.option (Shape.option Shape.unit))) (struct_with (codes "a") (Data.some Data.none)) (codes "a") (Some (struct_with (codes "a") Data.none)) }
    ensures option_in_newtype { IsReadAs default (field (codes "a") (Shape.option (Shape.newtype (Shape.option Shape.unit)))) (struct_with (codes "a") (Data.some (Data.newtype Data.none))) (codes "a") (Some (struct_with (codes "a") Data.none)) }
    ensures empty_struct { IsReadAs default (field (codes "a") (Shape.struct ignored (one_field (codes "x") Shape.unit true no_fields))) (struct_with (codes "a") (Data.struct (members_of []))) [] None }
    ensures empty_variant { IsReadAs default (field (codes "e") (Shape.enumeration (one_variant (codes "v") (struct_kind ignored no_fields) no_variants))) (struct_with (codes "e") (Data.struct_variant (codes "v") (members_of []))) [] None }
    ensures empty_tuple_variant { IsReadAs default (field (codes "e") (Shape.enumeration (one_variant (codes "v") (tuple_kind no_shapes) no_variants))) (struct_with (codes "e") (Data.tuple_variant (codes "v") (values_of []))) [] None }
    ensures leading_zero { IsReadAs default (Shape.mapping KeyShape.text Shape.unit) (Data.mapping (pairs_of ((Data.text (codes "01"), Data.unit) ∷ []))) (codes "01=") (Some (Data.mapping (pairs_of ((Data.text (codes "1"), Data.unit) ∷ [])))) }
    ensures leading_zero_of_a_field { IsReadAs default (field (codes "01") Shape.unit) (struct_with (codes "01") Data.unit) (codes "01=") None }
    ensures bracket_in_form { IsReadAs (record default { is_form = true }) (field (codes "a[b]") Shape.unit) (struct_with (codes "a[b]") Data.unit) (codes "a%5Bb%5D=") None }
    ensures empty_key { IsReadAs default (Shape.mapping KeyShape.text Shape.unit) (Data.mapping (pairs_of ((Data.text [], Data.unit) ∷ []))) (codes "=") (Some (Data.mapping (pairs_of []))) }
    ensures empty_field { IsReadAs default (field [] Shape.text) (struct_with [] (Data.text (codes "x"))) (codes "=x") None }
    ensures empty_unit_variant { IsReadAs default (Shape.enumeration (one_variant [] unit_kind no_variants)) (Data.unit_variant []) (codes "=") None }
    ensures equal_keys { IsReadAs default (Shape.mapping KeyShape.text Shape.text) (Data.mapping (pairs_of ((Data.text (codes "1"), Data.text (codes "x")) ∷ (Data.text (codes "1"), Data.text (codes "y")) ∷ []))) (codes "1=x&1=y") (Some (Data.mapping (pairs_of ((Data.text (codes "1"), Data.text (codes "y")) ∷ [])))) }
    ensures key_of_bytes { IsReadAs default (Shape.mapping KeyShape.text Shape.unit) (Data.mapping (pairs_of ((Data.bytes (codes "a"), Data.unit) ∷ []))) (codes "a=") (Some (Data.mapping (pairs_of ((Data.text (codes "a"), Data.unit) ∷ [])))) }
    ensures index_too_great { segment_of (encoded false (decimal 4294967296)) ≡ Str (codes "4294967296") }
{}

/// Data that doesn't fit the shape is read as other data, or not at all: the fields of a struct variant in the shape's order, a number
/// as a signed one, and a number beyond the shape's bits not at all.
pub fn not_fitting_is_lost()
    ensures order_of_fields { IsReadAs default (Shape.enumeration (one_variant (codes "c") (struct_kind ignored (fields_of ((codes "x", Shape.unsigned 8, false) ∷ (codes "y", Shape.unsigned 8, false) ∷ []))) no_variants)) (Data.struct_variant (codes "c") (members_of ((codes "y", Data.unsigned 1) ∷ (codes "x", Data.unsigned 2) ∷ []))) (codes "c[y]=1&c[x]=2") (Some (Data.struct_variant (codes "c") (members_of ((codes "x", Data.unsigned 2) ∷ (codes "y", Data.unsigned 1) ∷ [])))) }
    ensures sign { IsReadAs default (Shape.signed 8) (Data.unsigned 5) (codes "=5") (Some (Data.signed (pos 5))) }
    ensures bits { IsReadAs default (Shape.unsigned 8) (Data.unsigned 256) (codes "=256") None }
    ensures length { IsReadAs default (Shape.tuple (one_shape (Shape.unsigned 8) no_shapes)) (Data.tuple (values_of (Data.unsigned 1 ∷ Data.unsigned 2 ∷ []))) (codes "0=1&1=2") (Some (Data.tuple (values_of (Data.unsigned 1 ∷ [])))) }
    ensures any { IsReadAs default Shape.any (Data.unsigned 1) (codes "=1") (Some (Data.text (codes "1"))) }
{}

/// If no index is written, a list without a path is read as other data, a list of lists loses its grouping or has no tree, and the
/// elements of a list are read in the order of their entries. Without brackets a list of one empty string, or of one element without
/// a string, counts as an empty list.
pub fn lists_without_indices()
    ensures at_the_top { IsReadAs (record default { array_format = unindexed }) (Shape.sequence (Shape.unsigned 8)) (Data.sequence (values_of (Data.unsigned 1 ∷ Data.unsigned 2 ∷ []))) (codes "=1=2") None }
    ensures lists_in_a_list { IsReadAs (record default { array_format = unindexed }) (field (codes "v") (Shape.sequence (Shape.sequence (Shape.unsigned 8)))) (struct_with (codes "v") (Data.sequence (values_of (Data.sequence (values_of (Data.unsigned 1 ∷ Data.unsigned 2 ∷ [])) ∷ [])))) (codes "v=1&v=2") (Some (struct_with (codes "v") (Data.sequence (values_of (Data.sequence (values_of (Data.unsigned 1 ∷ [])) ∷ Data.sequence (values_of (Data.unsigned 2 ∷ [])) ∷ []))))) }
    ensures one_empty_text { IsReadAs (record default { array_format = unindexed }) (field (codes "v") (Shape.sequence Shape.text)) (struct_with (codes "v") (Data.sequence (values_of (Data.text [] ∷ [])))) (codes "v=") (Some (struct_with (codes "v") (Data.sequence (values_of [])))) }
    ensures one_empty_byte_string { IsReadAs (record default { array_format = unindexed }) (field (codes "v") (Shape.sequence Shape.bytes)) (struct_with (codes "v") (Data.sequence (values_of (Data.bytes [] ∷ [])))) (codes "v=") (Some (struct_with (codes "v") (Data.sequence (values_of [])))) }
    ensures one_empty_text_in_a_tuple { IsReadAs (record default { array_format = unindexed }) (field (codes "v") (Shape.tuple (one_shape Shape.text no_shapes))) (struct_with (codes "v") (Data.tuple (values_of (Data.text [] ∷ [])))) (codes "v=") None }
    ensures one_empty_text_in_a_variant { IsReadAs (record default { array_format = unindexed }) (field (codes "e") (Shape.enumeration (one_variant (codes "v") (tuple_kind (one_shape Shape.text no_shapes)) no_variants))) (struct_with (codes "e") (Data.tuple_variant (codes "v") (values_of (Data.text [] ∷ [])))) (codes "e[v]=") None }
    ensures one_unit { IsReadAs (record default { array_format = unindexed }) (field (codes "v") (Shape.sequence Shape.unit)) (struct_with (codes "v") (Data.sequence (values_of (Data.unit ∷ [])))) (codes "v=") (Some (struct_with (codes "v") (Data.sequence (values_of [])))) }
    ensures one_none { IsReadAs (record default { array_format = unindexed }) (field (codes "v") (Shape.sequence (Shape.option Shape.text))) (struct_with (codes "v") (Data.sequence (values_of (Data.none ∷ [])))) (codes "v") (Some (struct_with (codes "v") (Data.sequence (values_of [])))) }
    ensures at_the_top_in_brackets { IsReadAs (record default { array_format = empty_indexed }) (Shape.sequence Shape.text) (Data.sequence (values_of (Data.text [] ∷ []))) (codes "=") (Some (Data.sequence (values_of []))) }
    ensures lists_in_brackets { IsWritten (record default { array_format = empty_indexed }) (struct_with (codes "v") (Data.sequence (values_of (Data.sequence (values_of (Data.unsigned 1 ∷ Data.unsigned 2 ∷ [])) ∷ [])))) (codes "v[][]=1&v[][]=2") None
        × HasNoTree false 5 (codes "v[][]=1&v[][]=2") }
    ensures other_order { IsRead default (field (codes "v") (Shape.sequence (Shape.unsigned 8))) (codes "v[]=2&v[]=1") (Some (struct_with (codes "v") (Data.sequence (values_of (Data.unsigned 2 ∷ Data.unsigned 1 ∷ []))))) }
{}

/// What `any` reads from a tree that isn't stable is written as another tree: a key without `=` gets one; several values of a key get
/// indices; escaped digits become an index; in form mode an escaped bracket nests; and an empty key among others becomes a push. A key
/// beyond the depth limit isn't written, and a key that isn't UTF-8 isn't read.
pub fn unstable_trees_are_lost()
    ensures stable { is_stable true (mapping (entry (Int 7) false (leaf Null) (at_text (codes "a b") (mapping (entry (Int 0) false (text_leaf (codes "x")) (entry (Int 1) false (text_leaf (codes "[")) no_entries))) no_entries))) ≡ true }
    ensures no_value { IsUnstable default (codes "a") (only (codes "a") (leaf NoValue)) (map_with (codes "a") Data.unit) (codes "a=") (Some (only (codes "a") (leaf Null))) }
    ensures several_values { IsUnstable default (codes "a=1&a=2") (only (codes "a") (text_leaves (codes "1" ∷ codes "2" ∷ []))) (map_with (codes "a") (Data.sequence (values_of (Data.text (codes "1") ∷ Data.text (codes "2") ∷ [])))) (codes "a[0]=1&a[1]=2") (Some (only (codes "a") (mapping (entry (Int 0) false (text_leaf (codes "1")) (entry (Int 1) false (text_leaf (codes "2")) no_entries))))) }
    ensures escaped_digit { IsUnstable default (codes "%31=x") (mapping (entry (Str (codes "1")) true (text_leaf (codes "x")) no_entries)) (map_with (codes "1") (Data.text (codes "x"))) (codes "1=x") (Some (mapping (entry (Int 1) false (text_leaf (codes "x")) no_entries))) }
    ensures bracket_in_form { IsUnstable (record default { is_form = true }) (codes "a%5bb%5d=x") (mapping (entry (Str (codes "a[b]")) true (text_leaf (codes "x")) no_entries)) (map_with (codes "a[b]") (Data.text (codes "x"))) (codes "a%5Bb%5D=x") (Some (only (codes "a") (only (codes "b") (text_leaf (codes "x"))))) }
    ensures empty_key { IsUnstable default (codes "a[b]=1&a=2") (only (codes "a") (mapping (at_text [] (text_leaf (codes "2")) (at_text (codes "b") (text_leaf (codes "1")) no_entries)))) (map_with (codes "a") (Data.mapping (pairs_of ((Data.text [], Data.text (codes "2")) ∷ (Data.text (codes "b"), Data.text (codes "1")) ∷ [])))) (codes "a[]=2&a[b]=1") None }
    ensures beyond_the_limit { IsRead (record default { max_depth = 1 }) Shape.any (codes "a[b][c]=1") (Some (map_with (codes "a") (map_with (codes "b") (map_with (codes "[c]") (Data.text (codes "1")))))) }
    ensures too_deep { IsWritten (record default { max_depth = 1 }) (map_with (codes "a") (map_with (codes "b") (map_with (codes "[c]") (Data.text (codes "1"))))) [] (Some too_deep) }
    ensures key_not_utf8 { IsRead default Shape.any (codes "%FF=x") None }
{}
