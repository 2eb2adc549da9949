//! Laws of entries.

ghost use Rattle.std.specs.Prelude.{ℕ, Bool, false, List, [], ◌∷◌, map};
ghost use Rattle.std.specs.List.{AllByRecursion};
ghost use Rattle.qs_spec.specs.Token.{tokens};
ghost use Rattle.qs_spec.specs.Grammar.{ArePairs};
ghost use Rattle.qs_spec.specs.Entry.{Entry};
ghost use Rattle.qs_spec.specs.Written.{written};
ghost use Rattle.qs_spec.specs.internal.WrittenEntries.{IsWritable, HasKey, entry_pair};

/// The string of entries with paths, or of a single entry, is parsed as their pairs.
pub fn written_entries_are_parsed()
    ensures entries { (is_form : Bool) (depth : ℕ) (es : List Entry) → AllByRecursion (IsWritable is_form depth) es → AllByRecursion HasKey es
        → ArePairs depth (tokens is_form (written is_form false es)) (map (entry_pair is_form) es) }
    ensures single { (is_form : Bool) (depth : ℕ) (e : Entry) → IsWritable is_form depth e → ArePairs depth (tokens is_form (written is_form false (e ∷ []))) (entry_pair is_form e ∷ []) }
{}
