//! Written strings, as the URL Standard's parser reads them.

ghost use Rattle.std.specs.Prelude.{◌≡◌, ◌≢◌, ℕ, Bool, true, false, List, [], map, codes, None};
ghost use Rattle.std.specs.List.{AllByRecursion};
ghost use Rattle.qs_spec.specs.Config.{Config};
ghost use Rattle.qs_spec.specs.Entry.{Entry, entries};
ghost use Rattle.qs_spec.specs.Written.{written};
ghost use Rattle.qs_standards.specs.FormUrlencoded.{NameValue, form_parsed};
ghost use Rattle.qs_standards.specs.Bracketed.{IsOfBytes, Writes, entry_named, AreNamesOfBytes, text_struct, text_map};

/// In both modes the standard's parser reads the string of entries as their paths with brackets and their values.
pub fn written_entries_are_forms()
    ensures { (is_form : Bool) (es : List Entry) → AllByRecursion IsOfBytes es → AllByRecursion Writes es → form_parsed (written is_form false es) ≡ map entry_named es }
{}

/// In both modes a struct or a map of strings is written as a form of exactly its names and values. The empty map is written as `=`,
/// which is a form of one empty name.
pub fn written_texts_are_forms()
    ensures of_struct { (config : Config) (ns : List NameValue) → AreNamesOfBytes ns → form_parsed (written config.is_form false (entries config (text_struct ns)).entries) ≡ ns }
    ensures of_map { (config : Config) (ns : List NameValue) → ns ≢ [] → AreNamesOfBytes ns → form_parsed (written config.is_form false (entries config (text_map ns)).entries) ≡ ns }
    ensures empty_map { (config : Config) → written config.is_form false (entries config (text_map [])).entries ≡ codes "=" }
    ensures whole_struct { (config : Config) (ns : List NameValue) → (entries config (text_struct ns)).error ≡ None }
    ensures whole_map { (config : Config) (ns : List NameValue) → (entries config (text_map ns)).error ≡ None }
{}
