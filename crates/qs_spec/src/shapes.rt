//! Worked examples: what shapes read from inputs.

ghost use Rattle.std.specs.Prelude.{◌≡◌, true, false, codes, [], ◌∷◌, Some, None, pos, neg_ℤ};
ghost use Rattle.qs_spec.specs.Config.{default, reject};
ghost use Rattle.qs_spec.specs.Segment.Segment.{Int};
ghost use Rattle.qs_spec.specs.Leaf.Leaf.{Null};
ghost use Rattle.qs_spec.specs.Tree.Tree.{leaf};
ghost use Rattle.qs_spec.specs.Tree.Entries.{entry, no_entries};
ghost use Rattle.qs_spec.specs.Node.{placed};
ghost use Rattle.qs_spec.specs.Shape.{Shape, is_distinct, fields_of, no_fields, one_field, no_shapes, one_shape, no_variants, one_variant, unit_kind, newtype_kind, tuple_kind, struct_kind, KeyShape};
ghost use Rattle.qs_spec.specs.Shape.UnknownKeys.{ignored, rejected};
ghost use Rattle.qs_spec.specs.Data.{Data, values_of, pairs_of, members_of};
ghost use Rattle.qs_spec.specs.Worked.{field, struct_with, IsRead};

/// A flag is true if its key has no value or an empty one. A flag that occurs twice is rejected.
pub fn flags()
    ensures key_alone { IsRead default (field (codes "flag") Shape.boolean) (codes "flag") (Some (struct_with (codes "flag") (Data.boolean true))) }
    ensures nothing_after { IsRead default (field (codes "flag") Shape.boolean) (codes "flag=") (Some (struct_with (codes "flag") (Data.boolean true))) }
    ensures text { IsRead default (field (codes "flag") Shape.boolean) (codes "flag=false") (Some (struct_with (codes "flag") (Data.boolean false))) }
    ensures twice { IsRead default (field (codes "flag") Shape.boolean) (codes "flag&flag") None }
    ensures twice_where_rejected { IsRead (record default { duplicates = reject }) (field (codes "flag") Shape.boolean) (codes "flag&flag") None }
{}

/// An option is none if its key is missing or has no `=`, and some of the empty string if nothing follows `=`.
pub fn options()
    ensures key_alone { IsRead default (field (codes "a") (Shape.option Shape.text)) (codes "a") (Some (struct_with (codes "a") Data.none)) }
    ensures nothing_after { IsRead default (field (codes "a") (Shape.option Shape.text)) (codes "a=") (Some (struct_with (codes "a") (Data.some (Data.text [])))) }
    ensures missing { IsRead default (field (codes "a") (Shape.option Shape.text)) [] (Some (struct_with (codes "a") Data.none)) }
    ensures number { IsRead default (field (codes "a") (Shape.option (Shape.unsigned 8))) (codes "a=") None }
    ensures some_of_nothing { IsRead default (field (codes "a") (Shape.option Shape.any)) (codes "a=") (Some (struct_with (codes "a") (Data.some Data.unit))) }
    ensures some_of_a_sequence { IsRead default (field (codes "a") (Shape.option Shape.text)) (codes "a&a=x") (Some (struct_with (codes "a") (Data.some (Data.text (codes "x"))))) }
    ensures nothing_at_all { IsRead default (Shape.option Shape.any) (codes "&") None }
{}

/// A field is found by the string of its key. Two such keys are rejected, other keys are ignored if they are strings, and a missing
/// optional field is left out.
pub fn fields_by_name()
    ensures index { IsRead default (field (codes "1") Shape.text) (codes "1=a") (Some (struct_with (codes "1") (Data.text (codes "a")))) }
    ensures index_and_text { IsRead default (field (codes "1") Shape.text) (codes "1=a&%31=b") None }
    ensures other_key { IsRead default (field (codes "a") Shape.text) (codes "b=%FF&a=x") (Some (struct_with (codes "a") (Data.text (codes "x")))) }
    ensures other_key_is_no_text { IsRead default (field (codes "a") Shape.text) (codes "%FF=b&a=x") None }
    ensures left_out { IsRead default (Shape.struct ignored (one_field (codes "a") Shape.text true no_fields)) (codes "b=x") (Some (Data.struct (members_of []))) }
    ensures missing { IsRead default (field (codes "a") Shape.text) (codes "b=x") None }
    ensures by_place { IsRead default (field (codes "p") (Shape.struct ignored (one_field (codes "x") (Shape.unsigned 8) false (one_field (codes "y") (Shape.unsigned 8) false no_fields)))) (codes "p=1&p=2")
        (Some (struct_with (codes "p") (Data.struct (members_of ((codes "x", Data.unsigned 1) ∷ (codes "y", Data.unsigned 2) ∷ []))))) }
    ensures left_out_beyond_the_end { IsRead default (field (codes "p") (Shape.struct ignored (one_field (codes "x") (Shape.unsigned 8) false (one_field (codes "y") (Shape.unsigned 8) true no_fields)))) (codes "p[]=1")
        (Some (struct_with (codes "p") (Data.struct (members_of ((codes "x", Data.unsigned 1) ∷ []))))) }
    ensures option_beyond_the_end { IsRead default (field (codes "p") (Shape.struct ignored (one_field (codes "x") (Shape.unsigned 8) false (one_field (codes "y") (Shape.option Shape.text) false no_fields)))) (codes "p[]=1") None }
    ensures fields_of_a_text { IsRead default (field (codes "p") (Shape.struct ignored (one_field (codes "x") Shape.text true no_fields))) (codes "p=x") None }
    ensures fields_of_nothing { IsRead default (field (codes "p") (Shape.struct ignored (one_field (codes "x") Shape.text true no_fields))) (codes "p=") (Some (struct_with (codes "p") (Data.struct (members_of [])))) }
{}

/// If unknown keys are rejected, each key of a map has to be a field's name. So does the empty key of a struct variant that is read
/// from a string. No value has no key, and the further items of a sequence are ignored nevertheless.
pub fn unknown_keys()
    ensures known { IsRead default (Shape.struct rejected (one_field (codes "a") Shape.text false no_fields)) (codes "a=x") (Some (struct_with (codes "a") (Data.text (codes "x")))) }
    ensures unknown { IsRead default (Shape.struct rejected (one_field (codes "a") Shape.text false no_fields)) (codes "a=x&b=y") None }
    ensures ignored { IsRead default (Shape.struct ignored (one_field (codes "a") Shape.text false no_fields)) (codes "a=x&b=y") (Some (struct_with (codes "a") (Data.text (codes "x")))) }
    ensures as_many_as_fields { IsRead default (Shape.struct rejected (one_field (codes "a") Shape.text false (one_field (codes "b") Shape.text true no_fields))) (codes "a=x&c=y") None }
    ensures left_out { IsRead default (Shape.struct rejected (one_field (codes "a") Shape.text false (one_field (codes "b") Shape.text true no_fields))) (codes "a=x") (Some (struct_with (codes "a") (Data.text (codes "x")))) }
    ensures index { IsRead default (Shape.struct rejected (one_field (codes "1") Shape.text false no_fields)) (codes "1=a") (Some (struct_with (codes "1") (Data.text (codes "a")))) }
    ensures inside { IsRead default (field (codes "p") (Shape.struct rejected (one_field (codes "x") (Shape.unsigned 8) false no_fields))) (codes "p[x]=1&p[y]=2") None }
    ensures beside { IsRead default (field (codes "p") (Shape.struct rejected (one_field (codes "x") (Shape.unsigned 8) false no_fields))) (codes "p[x]=1&q=2")
        (Some (struct_with (codes "p") (struct_with (codes "x") (Data.unsigned 1)))) }
    ensures further_items { IsRead default (field (codes "a") (Shape.struct rejected (one_field (codes "u") (Shape.unsigned 8) false (one_field (codes "v") (Shape.unsigned 8) false no_fields)))) (codes "a[]=1&a[]=2&a[]=3")
        (Some (struct_with (codes "a") (Data.struct (members_of ((codes "u", Data.unsigned 1) ∷ (codes "v", Data.unsigned 2) ∷ []))))) }
    ensures no_value { IsRead default (field (codes "t") (Shape.struct rejected no_fields)) (codes "t") (Some (struct_with (codes "t") (Data.struct (members_of [])))) }
    ensures variant_of_a_text { IsRead default (field (codes "e") (Shape.enumeration (one_variant (codes "c") (struct_kind rejected (one_field (codes "x") (Shape.unsigned 8) true no_fields)) no_variants))) (codes "e[c]=7") None }
    ensures variant_with_the_empty_name { IsRead default (field (codes "e") (Shape.enumeration (one_variant (codes "c") (struct_kind rejected (one_field [] Shape.text false no_fields)) no_variants))) (codes "e[c]=v")
        (Some (struct_with (codes "e") (Data.struct_variant (codes "c") (members_of (([], Data.text (codes "v")) ∷ []))))) }
{}

/// A scalar is read as the last of several values, or several are rejected.
pub fn last_of_several()
    ensures last { IsRead default (field (codes "f") Shape.text) (codes "f=a&f=b") (Some (struct_with (codes "f") (Data.text (codes "b")))) }
    ensures rejected { IsRead (record default { duplicates = reject }) (field (codes "f") Shape.text) (codes "f=a&f=b") None }
    ensures no_text { IsRead default (field (codes "f") Shape.text) (codes "f=%FF") None }
    ensures bytes { IsRead default (field (codes "f") Shape.bytes) (codes "f=%FF") (Some (struct_with (codes "f") (Data.bytes (255 ∷ [])))) }
    ensures last_is_nothing { IsRead default (field (codes "f") Shape.text) (codes "f=a&f") (Some (struct_with (codes "f") (Data.text []))) }
    ensures nothing { IsRead default (field (codes "f") Shape.bytes) (codes "f=") (Some (struct_with (codes "f") (Data.bytes []))) }
    ensures one_where_rejected { IsRead (record default { duplicates = reject }) (field (codes "f") Shape.text) (codes "f[]=a") (Some (struct_with (codes "f") (Data.text (codes "a")))) }
{}

/// Items have the indices 0, 1, 2 and so on, up to the last one that is read.
pub fn items_by_place()
    ensures gap { IsRead default (field (codes "v") (Shape.sequence (Shape.unsigned 8))) (codes "v[0]=1&v[2]=2") None }
    ensures after_the_first { IsRead default (field (codes "v") (Shape.tuple (one_shape (Shape.unsigned 8) no_shapes))) (codes "v[0]=1&v[2]=2") (Some (struct_with (codes "v") (Data.tuple (values_of (Data.unsigned 1 ∷ []))))) }
    ensures any_order { IsRead default (field (codes "v") (Shape.sequence (Shape.unsigned 8))) (codes "v[1]=2&v[0]=1") (Some (struct_with (codes "v") (Data.sequence (values_of (Data.unsigned 1 ∷ Data.unsigned 2 ∷ []))))) }
    ensures nothing { IsRead default (field (codes "v") (Shape.sequence (Shape.unsigned 8))) (codes "v=") (Some (struct_with (codes "v") (Data.sequence (values_of [])))) }
    ensures a_text { IsRead default (field (codes "v") (Shape.sequence (Shape.unsigned 8))) (codes "v=7") (Some (struct_with (codes "v") (Data.sequence (values_of (Data.unsigned 7 ∷ []))))) }
    ensures beyond_the_end { IsRead default (field (codes "v") (Shape.tuple (one_shape (Shape.unsigned 8) (one_shape (Shape.unsigned 8) no_shapes)))) (codes "v=7") None }
    ensures another_map { IsRead default (field (codes "v") (Shape.sequence (Shape.unsigned 8))) (codes "v[a]=1") None }
    ensures last_place { placed 4294967294 (entry (Int 4294967294) false (leaf Null) no_entries) ≡ Some (leaf Null) ∷ [] }
    ensures beyond_the_last_place { placed 4294967295 (entry (Int 4294967295) false (leaf Null) no_entries) ≡ None ∷ [] }
{}

/// The smallest key of a map names the variant, whatever the order of the input.
pub fn smallest_key_names_the_variant()
    ensures { IsRead default (field (codes "e") (Shape.enumeration (one_variant (codes "A") (newtype_kind Shape.text) (one_variant (codes "B") (newtype_kind (Shape.unsigned 8)) no_variants)))) (codes "e[B]=1&e[A]=x")
        (Some (struct_with (codes "e") (Data.newtype_variant (codes "A") (Data.text (codes "x"))))) }
{}

/// Numbers are in the range of their bits.
pub fn numbers_in_range()
    ensures greatest { IsRead default (field (codes "x") (Shape.unsigned 64)) (codes "x=18446744073709551615") (Some (struct_with (codes "x") (Data.unsigned 18446744073709551615))) }
    ensures too_great { IsRead default (field (codes "x") (Shape.unsigned 64)) (codes "x=18446744073709551616") None }
    ensures plus { IsRead default (field (codes "x") (Shape.unsigned 8)) (codes "x=%2B5") (Some (struct_with (codes "x") (Data.unsigned 5))) }
    ensures minus { IsRead default (field (codes "x") (Shape.unsigned 8)) (codes "x=-0") None }
    ensures least { IsRead default (field (codes "x") (Shape.signed 8)) (codes "x=-128") (Some (struct_with (codes "x") (Data.signed (neg_ℤ (pos 128))))) }
    ensures too_small { IsRead default (field (codes "x") (Shape.signed 8)) (codes "x=-129") None }
    ensures minus_zero { IsRead default (field (codes "x") (Shape.signed 8)) (codes "x=-0") (Some (struct_with (codes "x") (Data.signed (pos 0)))) }
    ensures signed_plus { IsRead default (field (codes "x") (Shape.signed 8)) (codes "x=%2B127") (Some (struct_with (codes "x") (Data.signed (pos 127)))) }
    ensures too_great_for_a_sign { IsRead default (field (codes "x") (Shape.signed 8)) (codes "x=128") None }
    ensures leading_zeros { IsRead default (field (codes "x") (Shape.unsigned 8)) (codes "x=007") (Some (struct_with (codes "x") (Data.unsigned 7))) }
    ensures no_digits { IsRead default (field (codes "x") (Shape.unsigned 8)) (codes "x=%2B") None }
    ensures nothing { IsRead default (field (codes "x") (Shape.unsigned 8)) (codes "x=") None }
{}

/// A map's keys are read by their strings, in the order of the keys. A string is read as one pair with the empty key, and no value as
/// no pairs.
pub fn maps()
    ensures entries { IsRead default (field (codes "m") (Shape.mapping (KeyShape.unsigned 8) Shape.text)) (codes "m[10]=x&m[9]=y")
        (Some (struct_with (codes "m") (Data.mapping (pairs_of ((Data.unsigned 9, Data.text (codes "y")) ∷ (Data.unsigned 10, Data.text (codes "x")) ∷ []))))) }
    ensures a_text { IsRead default (field (codes "m") (Shape.mapping KeyShape.text Shape.text)) (codes "m=x") (Some (struct_with (codes "m") (Data.mapping (pairs_of ((Data.text [], Data.text (codes "x")) ∷ []))))) }
    ensures no_value { IsRead default (field (codes "m") (Shape.mapping KeyShape.text Shape.text)) (codes "m") (Some (struct_with (codes "m") (Data.mapping (pairs_of [])))) }
    ensures several { IsRead default (field (codes "m") (Shape.mapping KeyShape.text Shape.text)) (codes "m=x&m=y") None }
    ensures another_key { IsRead default (field (codes "m") (Shape.mapping (KeyShape.unsigned 8) Shape.text)) (codes "m[x]=y") None }
    ensures listed_key { IsRead default (field (codes "m") (Shape.mapping (KeyShape.variants (codes "a" ∷ codes "b" ∷ [])) Shape.text)) (codes "m[b]=y")
        (Some (struct_with (codes "m") (Data.mapping (pairs_of ((Data.unit_variant (codes "b"), Data.text (codes "y")) ∷ []))))) }
    ensures key_is_no_text { IsRead default (field (codes "m") (Shape.mapping KeyShape.text Shape.text)) (codes "m[%FF]=y") None }
    ensures boolean_key { IsRead default (field (codes "m") (Shape.mapping (KeyShape.boolean) Shape.text)) (codes "m[true]=x") (Some (struct_with (codes "m") (Data.mapping (pairs_of ((Data.boolean true, Data.text (codes "x")) ∷ []))))) }
    ensures signed_key { IsRead default (field (codes "m") (Shape.mapping (KeyShape.signed 8) Shape.text)) (codes "m[-5]=x") (Some (struct_with (codes "m") (Data.mapping (pairs_of ((Data.signed (neg_ℤ (pos 5)), Data.text (codes "x")) ∷ []))))) }
    ensures signed_key_without_a_sign { IsRead default (field (codes "m") (Shape.mapping (KeyShape.signed 8) Shape.text)) (codes "m[5]=x") (Some (struct_with (codes "m") (Data.mapping (pairs_of ((Data.signed (pos 5), Data.text (codes "x")) ∷ []))))) }
    ensures key_beyond_its_bits { IsRead default (field (codes "m") (Shape.mapping (KeyShape.signed 8) Shape.text)) (codes "m[128]=x") None }
    ensures character_key { IsRead default (field (codes "m") (Shape.mapping (KeyShape.character) Shape.text)) (codes "m[%C3%A9]=x") (Some (struct_with (codes "m") (Data.mapping (pairs_of ((Data.character 233, Data.text (codes "x")) ∷ []))))) }
    ensures digit_as_a_character { IsRead default (field (codes "m") (Shape.mapping (KeyShape.character) Shape.text)) (codes "m[7]=x") (Some (struct_with (codes "m") (Data.mapping (pairs_of ((Data.character 55, Data.text (codes "x")) ∷ []))))) }
    ensures two_characters { IsRead default (field (codes "m") (Shape.mapping (KeyShape.character) Shape.text)) (codes "m[ab]=x") None }
    ensures key_that_is_not_listed { IsRead default (field (codes "m") (Shape.mapping (KeyShape.variants (codes "a" ∷ codes "b" ∷ [])) Shape.text)) (codes "m[c]=y") None }
    ensures keys_of_one_text { IsRead default (field (codes "m") (Shape.mapping (KeyShape.text) Shape.text)) (codes "m[1]=x&m[%31]=y") (Some (struct_with (codes "m") (Data.mapping (pairs_of ((Data.text (codes "1"), Data.text (codes "x")) ∷ (Data.text (codes "1"), Data.text (codes "y")) ∷ []))))) }
{}

/// `any` reads a map as a list if all keys are integers, and as a map with string keys otherwise.
pub fn anything()
    ensures index { IsRead default Shape.any (codes "0=a") (Some (Data.sequence (values_of (Data.text (codes "a") ∷ [])))) }
    ensures gap { IsRead default Shape.any (codes "01=x") None }
    ensures no_values { IsRead default Shape.any (codes "a&b=") (Some (Data.mapping (pairs_of ((Data.text (codes "a"), Data.unit) ∷ (Data.text (codes "b"), Data.text []) ∷ [])))) }
    ensures index_and_text { IsRead default Shape.any (codes "a=y&0=x") (Some (Data.mapping (pairs_of ((Data.text (codes "0"), Data.text (codes "x")) ∷ (Data.text (codes "a"), Data.text (codes "y")) ∷ [])))) }
    ensures several { IsRead default Shape.any (codes "=1&=2") (Some (Data.sequence (values_of (Data.text (codes "1") ∷ Data.text (codes "2") ∷ [])))) }
    ensures empty { IsRead default Shape.any [] (Some Data.unit) }
    ensures ampersand { IsRead default Shape.any (codes "&") None }
    ensures no_text { IsRead default Shape.any (codes "=%FF") None }
{}

/// A unit is a key without a value, a character is a string of one character, and an ignored value may be anything.
pub fn small_shapes()
    ensures unit { IsRead default (field (codes "u") Shape.unit) (codes "u=") (Some (struct_with (codes "u") Data.unit)) }
    ensures unit_of_a_text { IsRead default (field (codes "u") Shape.unit) (codes "u=x") None }
    ensures character { IsRead default (field (codes "c") Shape.character) (codes "c=%C3%A9") (Some (struct_with (codes "c") (Data.character 233))) }
    ensures two_characters { IsRead default (field (codes "c") Shape.character) (codes "c=ab") None }
    ensures ignored { IsRead default (field (codes "i") Shape.ignored) (codes "i[x]=%FF") (Some (struct_with (codes "i") Data.unit)) }
    ensures newtype { IsRead default (field (codes "n") (Shape.newtype (Shape.unsigned 8))) (codes "n=7") (Some (struct_with (codes "n") (Data.newtype (Data.unsigned 7)))) }
    ensures unit_alone { IsRead default (field (codes "u") (Shape.unit)) (codes "u") (Some (struct_with (codes "u") (Data.unit))) }
    ensures several_characters { IsRead default (field (codes "c") (Shape.character)) (codes "c=a&c=b") None }
{}

/// A string names a unit variant. A key names any variant, and its value is read by the variant's kind.
pub fn kinds_of_variants()
    ensures unit_by_text { IsRead default (field (codes "e") (Shape.enumeration (one_variant (codes "a") unit_kind no_variants))) (codes "e=a") (Some (struct_with (codes "e") (Data.unit_variant (codes "a")))) }
    ensures newtype_by_text { IsRead default (field (codes "e") (Shape.enumeration (one_variant (codes "b") (newtype_kind Shape.text) no_variants))) (codes "e=b") None }
    ensures unknown { IsRead default (field (codes "e") (Shape.enumeration (one_variant (codes "a") unit_kind no_variants))) (codes "e=z") None }
    ensures unit_by_key { IsRead default (field (codes "e") (Shape.enumeration (one_variant (codes "a") unit_kind no_variants))) (codes "e[a][x]=y") (Some (struct_with (codes "e") (Data.unit_variant (codes "a")))) }
    ensures tuple { IsRead default (field (codes "e") (Shape.enumeration (one_variant (codes "d") (tuple_kind (one_shape (Shape.unsigned 8) no_shapes)) no_variants))) (codes "e[d]=1&e[d]=2")
        (Some (struct_with (codes "e") (Data.tuple_variant (codes "d") (values_of (Data.unsigned 1 ∷ []))))) }
    ensures struct_of_a_text { IsRead default (field (codes "e") (Shape.enumeration (one_variant (codes "c") (struct_kind ignored (one_field (codes "x") (Shape.unsigned 8) true no_fields)) no_variants))) (codes "e[c]=%FF")
        (Some (struct_with (codes "e") (Data.struct_variant (codes "c") (members_of [])))) }
    ensures struct_field_of_a_text { IsRead default (field (codes "e") (Shape.enumeration (one_variant (codes "c") (struct_kind ignored (one_field [] Shape.text false no_fields)) no_variants))) (codes "e[c]=v")
        (Some (struct_with (codes "e") (Data.struct_variant (codes "c") (members_of (([], Data.text (codes "v")) ∷ []))))) }
    ensures struct_of_a_map { IsRead default (field (codes "e") (Shape.enumeration (one_variant (codes "c") (struct_kind ignored (one_field (codes "x") (Shape.unsigned 8) false (one_field (codes "y") (Shape.unsigned 8) false no_fields))) no_variants))) (codes "e[c][y]=2&e[c][x]=1") (Some (struct_with (codes "e") (Data.struct_variant (codes "c") (members_of ((codes "x", Data.unsigned 1) ∷ (codes "y", Data.unsigned 2) ∷ []))))) }
    ensures struct_of_a_sequence { IsRead default (field (codes "e") (Shape.enumeration (one_variant (codes "c") (struct_kind ignored (one_field (codes "x") (Shape.unsigned 8) false (one_field (codes "y") (Shape.unsigned 8) false no_fields))) no_variants))) (codes "e[c]=1&e[c]=2") (Some (struct_with (codes "e") (Data.struct_variant (codes "c") (members_of ((codes "x", Data.unsigned 1) ∷ (codes "y", Data.unsigned 2) ∷ []))))) }
    ensures struct_of_a_short_sequence { IsRead default (field (codes "e") (Shape.enumeration (one_variant (codes "c") (struct_kind ignored (one_field (codes "x") (Shape.unsigned 8) false (one_field (codes "y") (Shape.unsigned 8) true no_fields))) no_variants))) (codes "e[c][]=1") (Some (struct_with (codes "e") (Data.struct_variant (codes "c") (members_of ((codes "x", Data.unsigned 1) ∷ []))))) }
    ensures struct_beyond_the_end { IsRead default (field (codes "e") (Shape.enumeration (one_variant (codes "c") (struct_kind ignored (one_field (codes "x") (Shape.unsigned 8) false (one_field (codes "y") (Shape.unsigned 8) false no_fields))) no_variants))) (codes "e[c][]=1") None }
    ensures struct_of_nothing { IsRead default (field (codes "e") (Shape.enumeration (one_variant (codes "c") (struct_kind ignored (one_field (codes "x") (Shape.unsigned 8) false (one_field (codes "y") (Shape.unsigned 8) false no_fields))) no_variants))) (codes "e[c]=") None }
    ensures tuple_beyond_the_end { IsRead default (field (codes "e") (Shape.enumeration (one_variant (codes "d") (tuple_kind (one_shape (Shape.unsigned 8) (one_shape (Shape.unsigned 8) no_shapes))) no_variants))) (codes "e[d]=1") None }
    ensures nothing { IsRead default (field (codes "e") (Shape.enumeration (one_variant (codes "a") unit_kind no_variants))) (codes "e=") None }
    ensures no_value { IsRead default (field (codes "e") (Shape.enumeration (one_variant (codes "a") unit_kind no_variants))) (codes "e") None }
    ensures several { IsRead default (field (codes "e") (Shape.enumeration (one_variant (codes "a") unit_kind no_variants))) (codes "e=a&e=a") None }
{}

/// Wherever they are in a shape, the field names differ in each struct and struct variant, and the variant names in each enum and key
/// shape.
pub fn distinct_shapes()
    ensures struct_fields { is_distinct (Shape.struct ignored (fields_of ((codes "a", Shape.unit, false) ∷ (codes "a", Shape.text, true) ∷ []))) ≡ false }
    ensures struct_variant { is_distinct (Shape.enumeration (one_variant (codes "v") (struct_kind ignored (fields_of ((codes "a", Shape.unit, false) ∷ (codes "a", Shape.unit, false) ∷ []))) no_variants)) ≡ false }
    ensures variants { is_distinct (Shape.enumeration (one_variant (codes "v") unit_kind (one_variant (codes "v") (newtype_kind Shape.unit) no_variants))) ≡ false }
    ensures names_of_a_key { is_distinct (Shape.mapping (KeyShape.variants (codes "a" ∷ codes "b" ∷ codes "a" ∷ [])) Shape.unit) ≡ false }
    ensures within_others { is_distinct (Shape.option (Shape.sequence (Shape.tuple (one_shape Shape.unit (one_shape (Shape.mapping KeyShape.text (Shape.newtype (Shape.enumeration (one_variant (codes "v") unit_kind (one_variant (codes "v") unit_kind no_variants))))) no_shapes))))) ≡ false }
    ensures one_name_at_two_places { is_distinct (Shape.struct ignored (fields_of ((codes "a", Shape.struct ignored (fields_of ((codes "a", Shape.unit, false) ∷ [])), false) ∷ (codes "b", Shape.enumeration (one_variant (codes "b") unit_kind no_variants), false) ∷ []))) ≡ true }
{}
