//! Laws of reading back what was written.

ghost use Rattle.std.specs.Prelude.{codes, [], ◌∷◌, ◌≡◌, ℕ, List, true, false, None, pos, neg_ℤ};
ghost use Rattle.std.specs.List.Sorted.{IsPermutation};
ghost use Rattle.qs_spec.specs.Config.{Config, default};
ghost use Rattle.qs_spec.specs.Config.ArrayFormat.{indexed, empty_indexed, unindexed};
ghost use Rattle.qs_spec.specs.Data.{Data, Values, members_of, pairs_of, values_of};
ghost use Rattle.qs_spec.specs.Plain.{is_plain, count, are_few};
ghost use Rattle.qs_spec.specs.Shape.{Shape, KeyShape, no_shapes, one_shape, no_variants, one_variant, unit_kind, newtype_kind, tuple_kind, struct_kind, fields_of, variants_of, is_distinct};
ghost use Rattle.qs_spec.specs.Shape.UnknownKeys.{ignored};
ghost use Rattle.qs_spec.specs.Entry.{Entry, entries};
ghost use Rattle.qs_spec.specs.Written.{written};
ghost use Rattle.qs_spec.specs.Listed.{is_listed};
ghost use Rattle.qs_spec.specs.Fits.{fits};
ghost use Rattle.qs_spec.specs.Same.{Same};
ghost use Rattle.qs_spec.specs.Worked.{struct_with, map_with};
ghost use Rattle.qs_spec.specs.Tree.{Tree, IsTree};
ghost use Rattle.qs_spec.specs.Stable.{is_stable};
ghost use Rattle.qs_spec.specs.Relation.{ReadsBy};
ghost use Rattle.qs_spec.specs.Order.{AreEquivalent};
ghost use Rattle.qs_spec.specs.ReadBack.{IsPlainFor, IsReadBack, ArePathsApart, KeepsPaths, KeepsPlaces};

/// If plain data is written without an error, a fitting shape reads the same data back, under the same configuration. In the indexed
/// format it does so from the entries in any order. In every format, if lists have a path and hold scalars, it does so from any order
/// that keeps entries with the same path in order.
pub fn plain_data_are_read_back()
    ensures any_order { (config : Config) (shape : Shape) (d : Data) (es : List Entry) → config.array_format ≡ indexed → is_distinct shape ≡ true → IsPlainFor config shape d
        → IsPermutation (entries config d).entries es → IsReadBack config shape d (written config.is_form false es) }
    ensures lists_in_order { (config : Config) (shape : Shape) (d : Data) (es : List Entry) → is_distinct shape ≡ true → IsPlainFor config shape d → is_listed config.array_format false d ≡ true
        → KeepsPaths (entries config d).entries es → IsReadBack config shape d (written config.is_form false es) }
    ensures lists_by_place { (config : Config) (shape : Shape) (d : Data) (es : List Entry) → is_distinct shape ≡ true → IsPlainFor config shape d → is_listed config.array_format false d ≡ true
        → KeepsPlaces (entries config d).entries es → IsReadBack config shape d (written config.is_form false es) }
{}

/// Writing loses nothing: two pieces of plain data that fit one shape are the same if their entries are, in any order. In the formats
/// without indices, if lists have a path and hold scalars, they are the same if entries with the same path also have the same order.
pub fn writing_loses_nothing()
    ensures any_order { (config : Config) (shape : Shape) (d e : Data) → config.array_format ≡ indexed → is_distinct shape ≡ true → IsPlainFor config shape d → IsPlainFor config shape e
        → IsPermutation (entries config d).entries (entries config e).entries → Same d e }
    ensures lists_in_order { (config : Config) (shape : Shape) (d e : Data) → is_distinct shape ≡ true → IsPlainFor config shape d → IsPlainFor config shape e
        → is_listed config.array_format false d ≡ true → is_listed config.array_format false e ≡ true → KeepsPaths (entries config d).entries (entries config e).entries → Same d e }
{}

/// If the shape `any` reads data from a stable tree, and the data is written without an error in the indexed format, its entries in
/// any order have that tree again, ignoring escapes.
pub fn stable_trees_come_back()
    ensures { (config : Config) (input : List ℕ) (t : Tree) (d : Data) (es : List Entry) → config.array_format ≡ indexed → IsTree config.is_form config.max_depth input t → is_stable config.is_form t ≡ true
        → ReadsBy config Shape.any t d → (entries config d).error ≡ None → IsPermutation (entries config d).entries es → AreEquivalent config.is_form config.max_depth input (written config.is_form false es) }
{}

/// In the indexed format no entry's path, in plain data, begins with another entry's path. This also holds for the entries before an
/// error.
pub fn entries_are_apart()
    ensures { (config : Config) (d : Data) → config.array_format ≡ indexed → is_plain config.is_form d ≡ true → ArePathsApart (entries config d).entries }
{}

/// Data whose names and keys are digits, spaces and separators: plain, fitting, and written without an error.
pub fn hostile_names_are_plain()
    ensures { let shape = Shape.struct ignored (fields_of ((codes "a b", Shape.mapping (KeyShape.unsigned 8) (Shape.option Shape.text), false)
        ∷ (codes "e", Shape.enumeration (variants_of ((codes "v=1", newtype_kind (Shape.sequence Shape.character)) ∷ [])), false)
        ∷ (codes "z", Shape.option Shape.boolean, false) ∷ (codes "7", Shape.unit, true) ∷ [])) in
        let d = Data.struct (members_of ((codes "a b", Data.mapping (pairs_of ((Data.unsigned 10, Data.some (Data.text (codes "x&y"))) ∷ (Data.unsigned 0, Data.some (Data.text [])) ∷ [])))
        ∷ (codes "e", Data.newtype_variant (codes "v=1") (Data.sequence (values_of (Data.character 91 ∷ Data.character 233 ∷ []))))
        ∷ (codes "z", Data.none) ∷ (codes "7", Data.unit) ∷ [])) in
        IsPlainFor default shape d }
{}

/// Data that isn't plain: an option in an option, a struct without fields, a name that is empty or a zero and further digits, a bracket
/// in a name in form mode, two fields with one name, two keys with one string, a key of bytes, a unit variant without a name.
pub fn data_that_are_not_plain()
    ensures option_in_option { is_plain false (Data.some (Data.newtype Data.none)) ≡ false }
    ensures empty_struct { is_plain false (Data.struct (members_of [])) ≡ false }
    ensures empty_name { is_plain false (Data.struct (members_of (([], Data.unit) ∷ []))) ≡ false }
    ensures leading_zero { is_plain false (Data.newtype_variant (codes "01") Data.unit) ≡ false }
    ensures zero { is_plain false (Data.newtype_variant (codes "0") Data.unit) ≡ true }
    ensures bracket_in_form { is_plain true (Data.struct (members_of ((codes "a[", Data.unit) ∷ []))) ≡ false }
    ensures bracket_in_query { is_plain false (Data.struct (members_of ((codes "a[", Data.unit) ∷ []))) ≡ true }
    ensures one_name { is_plain false (Data.struct (members_of ((codes "a", Data.unit) ∷ (codes "a", Data.unit) ∷ []))) ≡ false }
    ensures one_text { is_plain false (Data.mapping (pairs_of ((Data.unsigned 1, Data.unit) ∷ (Data.text (codes "1"), Data.unit) ∷ []))) ≡ false }
    ensures bytes_key { is_plain false (Data.mapping (pairs_of ((Data.bytes (codes "a"), Data.unit) ∷ []))) ≡ false }
    ensures no_variant { is_plain false (Data.unit_variant []) ≡ false }
    ensures one_name_in_a_variant { is_plain false (Data.struct_variant (codes "v") (members_of ((codes "a", Data.unit) ∷ (codes "a", Data.unit) ∷ []))) ≡ false }
    ensures empty_variant { is_plain false (Data.struct_variant (codes "v") (members_of [])) ≡ false }
    ensures empty_tuple_variant { is_plain false (Data.tuple_variant (codes "v") (values_of [])) ≡ false }
    ensures empty_key { is_plain false (Data.mapping (pairs_of ((Data.text [], Data.unit) ∷ []))) ≡ false }
    ensures unit_key { is_plain false (Data.mapping (pairs_of ((Data.unit, Data.unit) ∷ []))) ≡ false }
    ensures zero_key { is_plain false (Data.mapping (pairs_of ((Data.text (codes "07"), Data.unit) ∷ []))) ≡ false }
{}

/// Which data of each kind fits a shape: numbers within its bits, Unicode scalar values, as many elements as a tuple has, fields in
/// the order of the shape.
pub fn data_that_fit()
    ensures greatest { fits (Shape.unsigned 8) (Data.unsigned 255) ≡ true }
    ensures too_great { fits (Shape.unsigned 8) (Data.unsigned 256) ≡ false }
    ensures least { fits (Shape.signed 8) (Data.signed (neg_ℤ (pos 128))) ≡ true }
    ensures too_small { fits (Shape.signed 8) (Data.signed (neg_ℤ (pos 129))) ≡ false }
    ensures surrogate { fits Shape.character (Data.character 55296) ≡ false }
    ensures last_character { fits Shape.character (Data.character 1114111) ≡ true }
    ensures not_utf8 { fits Shape.text (Data.text (255 ∷ [])) ≡ false }
    ensures bytes { fits Shape.bytes (Data.bytes (255 ∷ [])) ≡ true }
    ensures tuple { fits (Shape.tuple (one_shape Shape.unit (one_shape Shape.boolean no_shapes))) (Data.tuple (values_of (Data.unit ∷ Data.boolean true ∷ []))) ≡ true }
    ensures short_tuple { fits (Shape.tuple (one_shape Shape.unit (one_shape Shape.boolean no_shapes))) (Data.tuple (values_of (Data.unit ∷ []))) ≡ false }
    ensures left_out { fits (Shape.struct ignored (fields_of ((codes "a", Shape.unit, true) ∷ (codes "b", Shape.unit, false) ∷ []))) (struct_with (codes "b") Data.unit) ≡ true }
    ensures missing { fits (Shape.struct ignored (fields_of ((codes "a", Shape.unit, true) ∷ (codes "b", Shape.unit, false) ∷ []))) (struct_with (codes "a") Data.unit) ≡ false }
    ensures keys { fits (Shape.mapping (KeyShape.signed 8) Shape.unit) (Data.mapping (pairs_of ((Data.signed (neg_ℤ (pos 5)), Data.unit) ∷ []))) ≡ true }
    ensures key_of_a_character { fits (Shape.mapping KeyShape.character Shape.unit) (Data.mapping (pairs_of ((Data.character 233, Data.unit) ∷ []))) ≡ true }
    ensures variants { fits (Shape.sequence (Shape.enumeration (one_variant (codes "a") unit_kind (one_variant (codes "b") (tuple_kind (one_shape Shape.unit no_shapes)) (one_variant (codes "c") (struct_kind ignored (fields_of ((codes "x", Shape.unit, false) ∷ []))) no_variants))))) (Data.sequence (values_of (Data.unit_variant (codes "a") ∷ Data.tuple_variant (codes "b") (values_of (Data.unit ∷ [])) ∷ Data.struct_variant (codes "c") (members_of ((codes "x", Data.unit) ∷ [])) ∷ []))) ≡ true }
    ensures another_variant { fits (Shape.enumeration (one_variant (codes "a") unit_kind no_variants)) (Data.newtype_variant (codes "a") Data.unit) ≡ false }
{}

/// If no index is written, lists have a path and hold only scalars; without brackets, no list holds just one empty string or byte
/// string. In the indexed format any list is allowed.
pub fn listed_data()
    ensures indexed { is_listed indexed false (Data.sequence (values_of (Data.sequence (values_of (Data.none ∷ [])) ∷ []))) ≡ true }
    ensures at_the_top { is_listed empty_indexed false (Data.tuple (values_of [])) ≡ false }
    ensures in_a_field { is_listed unindexed false (struct_with (codes "a") (Data.some (Data.sequence (values_of (Data.unsigned 1 ∷ Data.unit_variant (codes "v") ∷ []))))) ≡ true }
    ensures in_a_variant { is_listed unindexed false (Data.newtype_variant (codes "v") (Data.newtype (Data.sequence (values_of [])))) ≡ true }
    ensures under_a_key { is_listed empty_indexed false (map_with (codes "k") (Data.tuple (values_of (Data.text [] ∷ [])))) ≡ true }
    ensures of_units { is_listed empty_indexed false (Data.tuple_variant (codes "v") (values_of (Data.unit ∷ []))) ≡ false }
    ensures of_options { is_listed unindexed false (struct_with (codes "a") (Data.sequence (values_of (Data.some (Data.unsigned 1) ∷ [])))) ≡ false }
    ensures one_empty_text { is_listed unindexed false (Data.tuple_variant (codes "v") (values_of (Data.text [] ∷ []))) ≡ false }
    ensures two_empty_texts { is_listed unindexed false (Data.tuple_variant (codes "v") (values_of (Data.text [] ∷ Data.bytes [] ∷ []))) ≡ true }
{}

/// A list has at most 4,294,967,295 elements, as many as there are indices. This is a law, not an example: no list of that length is
/// written out here.
pub fn lists_within_the_indices()
    ensures as_many { (ds : Values) → count ds ≡ 4294967295 → are_few ds ≡ true }
    ensures one_more { (ds : Values) → count ds ≡ 4294967296 → are_few ds ≡ false }
{}
