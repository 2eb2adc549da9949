//! Written strings, as the query of a URI.

ghost use Rattle.std.specs.Prelude.{◌≡◌, ◌<◌, ◌==◌, ◌&&◌, ◌||◌, not, ℕ, Bool, true, false, List, [], ◌∷◌, IsTrue};
ghost use Rattle.std.specs.List.{AllByRecursion};
ghost use Rattle.qs_spec.specs.Escape.{encoded};
ghost use Rattle.qs_spec.specs.Token.{is_bracket};
ghost use Rattle.qs_spec.specs.Entry.{Entry};
ghost use Rattle.qs_spec.specs.Written.{written};
ghost use Rattle.qs_standards.specs.Uri.{is_query_byte, is_query, is_query_with, is_in_query_set, is_unwise};
ghost use Rattle.qs_standards.specs.Bracketed.{IsOfBytes};

/// The string of entries is a query of RFC 3986 in form mode. In query mode it is one except for the unwise bytes: the brackets of
/// paths, and the six others in keys and values. Apart from `%`, the unwise bytes are exactly those that the URL Standard doesn't
/// encode in a query and that RFC 3986 doesn't allow in one.
pub fn written_queries_of_uris()
    ensures form_mode { (started : Bool) (es : List Entry) → AllByRecursion IsOfBytes es → IsTrue (is_query (written true started es)) }
    ensures query { (started : Bool) (es : List Entry) → AllByRecursion IsOfBytes es → IsTrue (is_query_with is_unwise (written false started es)) }
    ensures unwise { (b : ℕ) → b < 256 → is_unwise b ≡ (not (b == 37) && not (is_in_query_set b) && not (is_query_byte b)) }
    ensures exact { (b : ℕ) → b < 256 → is_query (encoded false (b ∷ [])) ≡ (not (is_unwise b) || is_bracket b) }
{}
