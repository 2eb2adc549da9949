//! Worked examples: the strings that data is written as.

ghost use Rattle.std.specs.Prelude.{◌≡◌, codes, [], ◌++◌, ◌∷◌, Some, None, true, false, pos, neg_ℤ};
ghost use Rattle.qs_spec.specs.Config.{default, empty_indexed, unindexed};
ghost use Rattle.qs_spec.specs.Data.{Data, values_of, pairs_of, members_of};
ghost use Rattle.qs_spec.specs.Entry.{entries, too_deep, bad_key};
ghost use Rattle.qs_spec.specs.Written.{written, started_after};
ghost use Rattle.qs_spec.specs.Worked.{struct_with, IsWritten};

/// Data nested deeper than the limit is rejected. The entries before it are written.
pub fn depth_limit()
    ensures within { IsWritten (record default { max_depth = 2 })
        (Data.struct (members_of ((codes "a", Data.unsigned 1) ∷ (codes "b", Data.sequence (values_of (Data.unsigned 2 ∷ Data.unsigned 3 ∷ []))) ∷ (codes "c", Data.sequence (values_of (Data.sequence (values_of (Data.unsigned 4 ∷ [])) ∷ []))) ∷ [])))
        (codes "a=1&b[0]=2&b[1]=3&c[0][0]=4") None }
    ensures beyond { IsWritten (record default { max_depth = 1 })
        (Data.struct (members_of ((codes "a", Data.unsigned 1) ∷ (codes "b", Data.sequence (values_of (Data.unsigned 2 ∷ Data.unsigned 3 ∷ []))) ∷ (codes "c", Data.sequence (values_of (Data.sequence (values_of (Data.unsigned 4 ∷ [])) ∷ []))) ∷ [])))
        (codes "a=1&b[0]=2&b[1]=3") (Some too_deep) }
    ensures in_form_mode { IsWritten (record default { is_form = true }) (struct_with (codes "a") (Data.sequence (values_of (Data.text (codes "x y!") ∷ [])))) (codes "a%5B0%5D=x%20y%21") None }
    ensures nothing_after { IsWritten (record default { max_depth = 1 })
        (Data.struct (members_of ((codes "a", Data.unsigned 1) ∷ (codes "c", Data.sequence (values_of (Data.sequence (values_of (Data.unsigned 4 ∷ [])) ∷ []))) ∷ (codes "b", Data.unsigned 2) ∷ [])))
        (codes "a=1") (Some too_deep) }
{}

/// The list of 1 and 2 at the top, in each format.
pub fn array_formats()
    ensures indexed { IsWritten default (Data.sequence (values_of (Data.unsigned 1 ∷ Data.unsigned 2 ∷ []))) (codes "0=1&1=2") None }
    ensures empty_indexed { IsWritten (record default { array_format = empty_indexed }) (Data.sequence (values_of (Data.unsigned 1 ∷ Data.unsigned 2 ∷ []))) (codes "=1&=2") None }
    ensures unindexed { IsWritten (record default { array_format = unindexed }) (Data.sequence (values_of (Data.unsigned 1 ∷ Data.unsigned 2 ∷ []))) (codes "=1=2") None }
    ensures tuple_variant { IsWritten (record default { array_format = empty_indexed }) (struct_with (codes "e") (Data.tuple_variant (codes "d") (values_of (Data.unsigned 1 ∷ Data.unsigned 2 ∷ [])))) (codes "e[d][]=1&e[d][]=2") None }
    ensures lists_in_a_list { IsWritten (record default { array_format = unindexed }) (struct_with (codes "v") (Data.sequence (values_of (Data.tuple (values_of (Data.unsigned 1 ∷ Data.unsigned 2 ∷ [])) ∷ [])))) (codes "v=1&v=2") None }
{}

/// A unit variant is written as its name, and any other variant under its name as a key.
pub fn variants()
    ensures unit { IsWritten default (struct_with (codes "e") (Data.unit_variant (codes "a"))) (codes "e=a") None }
    ensures newtype { IsWritten default (struct_with (codes "e") (Data.newtype_variant (codes "b") (Data.boolean true))) (codes "e[b]=true") None }
    ensures tuple { IsWritten default (struct_with (codes "e") (Data.tuple_variant (codes "d") (values_of (Data.unsigned 128 ∷ Data.unsigned 1 ∷ [])))) (codes "e[d][0]=128&e[d][1]=1") None }
    ensures struct_variant { IsWritten default (struct_with (codes "e") (Data.struct_variant (codes "c") (members_of ((codes "x", Data.unsigned 2) ∷ (codes "y", Data.unsigned 3) ∷ [])))) (codes "e[c][x]=2&e[c][y]=3") None }
{}

/// None is written as a key without `=`, and an empty list as a key with nothing after `=`.
pub fn optional_values()
    ensures none { IsWritten default (struct_with (codes "vec") Data.none) (codes "vec") None }
    ensures some { IsWritten default (struct_with (codes "vec") (Data.some (Data.sequence (values_of (Data.unsigned 1 ∷ Data.unsigned 2 ∷ []))))) (codes "vec[0]=1&vec[1]=2") None }
    ensures empty { IsWritten default (struct_with (codes "vec") (Data.sequence (values_of []))) (codes "vec=") None }
    ensures percent { IsWritten default (struct_with (codes "name") (Data.text (codes "%41"))) (codes "name=%2541") None }
    ensures empty_tuple { IsWritten default (struct_with (codes "vec") (Data.tuple (values_of []))) (codes "vec=") None }
    ensures empty_map { IsWritten default (struct_with (codes "vec") (Data.mapping (pairs_of []))) (codes "vec=") None }
{}

/// A map's key has to be a scalar other than unit. This is tested before the depth.
pub fn keys_of_maps()
    ensures number { IsWritten default (struct_with (codes "m") (Data.mapping (pairs_of ((Data.unsigned 7, Data.text (codes "x")) ∷ [])))) (codes "m[7]=x") None }
    ensures unit { IsWritten default (Data.mapping (pairs_of ((Data.unit, Data.unit) ∷ []))) [] (Some bad_key) }
    ensures unit_at_no_depth { IsWritten (record default { max_depth = 0 }) (Data.mapping (pairs_of ((Data.unit, Data.unit) ∷ []))) [] (Some bad_key) }
    ensures others { IsWritten default
        (Data.mapping (pairs_of ((Data.boolean true, Data.none) ∷ (Data.character 233, Data.none) ∷ (Data.signed (neg_ℤ (pos 1)), Data.none) ∷ (Data.text (codes "x"), Data.none) ∷ (Data.bytes (codes "y"), Data.none) ∷ (Data.unit_variant (codes "z"), Data.none) ∷ [])))
        (codes "true&%C3%A9&-1&x&y&z") None }
    ensures newtype { IsWritten default (Data.mapping (pairs_of ((Data.newtype (Data.unsigned 7), Data.none) ∷ []))) [] (Some bad_key) }
{}

/// Scalars are written as their strings, and a wrapper as the data that it holds.
pub fn scalar_values()
    ensures { IsWritten default
        (Data.struct (members_of ((codes "b", Data.boolean false) ∷ (codes "n", Data.signed (neg_ℤ (pos 5))) ∷ (codes "c", Data.character 233) ∷ (codes "u", Data.unit) ∷ (codes "y", Data.bytes (codes "x y")) ∷ (codes "w", Data.newtype (Data.unsigned 1)) ∷ [])))
        (codes "b=false&n=-5&c=%C3%A9&u=&y=x+y&w=1") None }
{}

/// Structs and variants without fields or items write nothing.
pub fn parts_without_fields()
    ensures struct_alone { IsWritten default (struct_with (codes "s") (Data.struct (members_of []))) [] None }
    ensures variant { IsWritten default (struct_with (codes "e") (Data.struct_variant (codes "c") (members_of []))) [] None }
    ensures variant_too_deep { IsWritten (record default { max_depth = 0 }) (struct_with (codes "e") (Data.struct_variant (codes "c") (members_of []))) [] (Some too_deep) }
    ensures tuple_variant { IsWritten default (struct_with (codes "e") (Data.tuple_variant (codes "d") (values_of []))) [] None }
{}

/// `&` precedes an entry with a key exactly if an entry with a key was written before. An empty key is a key.
pub fn entries_after_others()
    ensures after_a_key { written false true (entries default (struct_with (codes "b") (Data.unsigned 2))).entries ≡ codes "&b=2" }
    ensures without_a_key { written false true (entries default (Data.unsigned 2)).entries ≡ codes "=2" }
    ensures after_no_key { written false false ((entries default (Data.unsigned 1)).entries ++ (entries default (struct_with (codes "a") (Data.unsigned 2))).entries) ≡ codes "=1a=2" }
    ensures empty_keys { IsWritten default (Data.struct (members_of (([], Data.unsigned 1) ∷ (codes "a", struct_with [] (Data.unsigned 2)) ∷ []))) (codes "=1&a[]=2") None }
    ensures started_by_a_key { started_after false (entries default (struct_with [] Data.none)).entries ≡ true }
    ensures started_by_no_key { started_after false (entries default Data.unit).entries ≡ false }
    ensures started_before { started_after true [] ≡ true }
    ensures after_a_key_and_none { written false false ((entries default (struct_with (codes "a") (Data.unsigned 1))).entries ++ ((entries default (Data.unsigned 2)).entries ++ (entries default (struct_with (codes "b") (Data.unsigned 3))).entries)) ≡ codes "a=1=2&b=3" }
{}
