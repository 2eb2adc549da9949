//! Lists of whole numbers can be read back.

ghost use Rattle.std.specs.Prelude.{◌≡◌, ◌≤◌, ◌<◌, ◌^◌, ◌-◌, ◌≤ℤ◌, ◌<ℤ◌, ℕ, ℤ, pos, neg_ℤ, List, Some, false, map, decimal, ◌≢◌};
ghost use Rattle.std.specs.Char.{IsScalar};
ghost use Rattle.std.specs.Fmt.{signed_decimal};
ghost use Rattle.std.specs.List.{All};
ghost use Rattle.qs_spec.specs.Data as d;
ghost use Rattle.qs_spec.specs.Escape.{is_between};
ghost use Rattle.qs_spec.specs.Scalar.{unsigned_number, signed_number};
ghost use Rattle.serde_qs.specs.Items.{joined, list_in};

/// The text of a list of unsigned numbers is parsed as that list, if the delimiter isn't a digit. It does nothing when it runs.
///
/// ```
/// unsigned_list_comes_back(); // from here on a proof knows what is read from such a text
/// ```
pub fn unsigned_list_comes_back()
    ensures { (bits : ℕ) (delimiter : ℕ) (list : List ℕ) → bits ≤ 64 → IsScalar delimiter → is_between 48 57 delimiter ≡ false → All (λ n. n < 2 ^ bits) list
        → list_in (unsigned_number bits) delimiter (d.text (joined delimiter (map decimal list))) ≡ Some list }
{}

/// The text of a list of signed numbers is parsed as that list, if the delimiter is neither a digit nor `-`. It does nothing when it runs.
///
/// ```
/// signed_list_comes_back(); // from here on a proof knows what is read from such a text
/// ```
pub fn signed_list_comes_back()
    ensures { (bits : ℕ) (delimiter : ℕ) (list : List ℤ) → bits ≤ 64 → IsScalar delimiter → is_between 48 57 delimiter ≡ false → delimiter ≢ 45
        → All (λ z. (neg_ℤ (pos (2 ^ (bits - 1))) ≤ℤ z) × (z <ℤ pos (2 ^ (bits - 1)))) list
        → list_in (signed_number bits) delimiter (d.text (joined delimiter (map signed_decimal list))) ≡ Some list }
{}
