//! Laws of scalars.

ghost use Rattle.std.specs.Prelude.{◌≡◌, ℕ, ◌+◌, ◌-◌, ◌^◌, ◌<◌, Bool, List, Some, decimal, pos, negsuc, IsTrue};
ghost use Rattle.std.specs.Fmt.{signed_decimal};
ghost use Rattle.std.specs.Char.{IsScalar, encode_utf8};
ghost use Rattle.std.specs.List.{list_any};
ghost use Rattle.std.specs.Str.{bytes_eq};
ghost use Rattle.qs_spec.specs.Data.{Data};
ghost use Rattle.qs_spec.specs.Scalar.{boolean_data, unsigned_data, signed_data, character_data, name_data};
ghost use Rattle.qs_spec.specs.Entry.{boolean_text};

/// The string of a scalar, also of a map's key, is read as that scalar if it fits the shape.
pub fn written_scalars_are_parsed()
    ensures boolean { (b : Bool) → boolean_data (boolean_text b) ≡ Some (Data.boolean b) }
    ensures unsigned { (bits n : ℕ) → n < 2 ^ bits → n < 2 ^ 64 → unsigned_data bits (decimal n) ≡ Some (Data.unsigned n) }
    ensures positive { (bits n : ℕ) → n < 2 ^ (bits - 1) → n < 2 ^ 64 → signed_data bits (signed_decimal (pos n)) ≡ Some (Data.signed (pos n)) }
    ensures negative { (bits n : ℕ) → n < 2 ^ (bits - 1) → n + 1 < 2 ^ 64 → signed_data bits (signed_decimal (negsuc n)) ≡ Some (Data.signed (negsuc n)) }
    ensures character { (c : ℕ) → IsScalar c → character_data (encode_utf8 c) ≡ Some (Data.character c) }
    ensures name { (names : List (List ℕ)) (name : List ℕ) → IsTrue (list_any (bytes_eq name) names) → name_data names name ≡ Some (Data.unit_variant name) }
{}
