//! Laws of escapes.

ghost use Rattle.std.specs.Prelude.{◌≡◌, ◌<◌, ℕ, Bool, true, false, List, [], ◌∷◌, codes};
ghost use Rattle.std.specs.List.{AllByRecursion};
ghost use Rattle.qs_spec.specs.Escape.{decoded, encoded};

/// Decoding restores encoded bytes, in both modes.
pub fn escapes_round_trip()
    ensures { (is_form : Bool) (s : List ℕ) → AllByRecursion (λ b. b < 256) s → decoded (encoded is_form s) ≡ s }
{}

/// What some encoded strings are decoded to.
pub fn decoded_texts()
    ensures brackets { decoded (codes "a%5Bb%5D%5Bc%5D=1") ≡ codes "a[b][c]=1" }
    ensures plus { decoded (codes "a+b%2Bc") ≡ codes "a b+c" }
    ensures digits_of_either_case { decoded (codes "%2f%2F%c3%A9") ≡ 47 ∷ 47 ∷ 195 ∷ 169 ∷ [] }
{}

/// A broken escape isn't changed, and none of its bytes begins another escape.
pub fn broken_escapes_stay()
    ensures percent_after_percent { decoded (codes "%%41") ≡ codes "%%41" }
    ensures plus_after_percent { decoded (codes "%+") ≡ codes "%+" }
    ensures percent_after_a_digit { decoded (codes "%4%41") ≡ codes "%4%41" }
    ensures plus_after_a_digit { decoded (codes "%4+1") ≡ codes "%4+1" }
    ensures cut_short { decoded (codes "%4") ≡ codes "%4" }
{}

/// How some strings are escaped. The bytes 195 and 169 are the letter é.
pub fn encoded_texts()
    ensures query { encoded false (codes "100% a+b") ≡ codes "100%25+a%2Bb" }
    ensures is_form { encoded true (codes "100% a+b") ≡ codes "100%25%20a%2Bb" }
    ensures query_keeps { encoded false (codes "hello, world!") ≡ codes "hello,+world!" }
    ensures form_escapes { encoded true (codes "hello, world!") ≡ codes "hello%2C%20world%21" }
    ensures letter_in_query { encoded false (195 ∷ 169 ∷ []) ≡ codes "%C3%A9" }
    ensures letter_in_form { encoded true (195 ∷ 169 ∷ []) ≡ codes "%C3%A9" }
{}

/// Which bytes other than letters and digits are kept, and which are escaped.
pub fn kept_bytes()
    ensures query_keeps { encoded false (codes "*-._~:/@!',;?$") ≡ codes "*-._~:/@!',;?$" }
    ensures query_escapes { encoded false (codes "#<>[]=&") ≡ codes "%23%3C%3E%5B%5D%3D%26" }
    ensures query_escapes_others { encoded false (0 ∷ 31 ∷ 34 ∷ 127 ∷ 128 ∷ 255 ∷ []) ≡ codes "%00%1F%22%7F%80%FF" }
    ensures form_keeps { encoded true (codes "*-._09AZaz") ≡ codes "*-._09AZaz" }
    ensures form_escapes { encoded true (codes "/:@[`{~ ") ≡ codes "%2F%3A%40%5B%60%7B%7E%20" }
{}
