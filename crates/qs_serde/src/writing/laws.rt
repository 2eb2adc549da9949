//! Laws of writing: the text of data's events, and worked texts.

ghost use Rattle.std.specs.Prelude.{◌≡◌, ℕ, List, codes, false, true, [], ◌∷◌, Some, None};
ghost use Rattle.qs_spec.specs.Config.{default, empty_indexed, unindexed};
ghost use Rattle.serde.specs.Event.{Event, boolean, unsigned, text, nothing, unit_variant, seq_begins, seq_ends, map_begins, map_ends, field_key, variant_key, key_begins, key_ends, flattens};
ghost use Rattle.serde.specs.declared.name.Case.TheVariants.{AsIs, Kebab};
ghost use Rattle.qs_spec.specs.Config.{Config};
ghost use Rattle.qs_spec.specs.Data.{Data};
ghost use Rattle.qs_spec.specs.Entry.{entries};
ghost use Rattle.qs_spec.specs.Written.{written};
ghost use Rattle.qs_serde.specs.Sent.{text_of_sent};
ghost use Rattle.qs_serde.specs.Sends.{AreSaid, sends};
ghost use Rattle.qs_serde.specs.Texts.{IsTextOf, has_float};

/// The texts of some events in each array format, and events without a text, which nest too deep or are out of order. It does nothing at
/// run time.
///
/// ```
/// worked_texts(); // its clauses are the texts
/// ```
pub fn worked_texts()
    ensures structure { text_of_sent default (map_begins None ∷ field_key (codes "name") AsIs ∷ text (codes "Alice Doe") ∷ field_key (codes "age") AsIs ∷ unsigned 24 ∷ map_ends ∷ []) ≡ Some (codes "name=Alice+Doe&age=24") }
    ensures indexed { text_of_sent default (map_begins None ∷ field_key (codes "v") AsIs ∷ seq_begins (Some 2) ∷ unsigned 7 ∷ unsigned 8 ∷ seq_ends ∷ map_ends ∷ []) ≡ Some (codes "v[0]=7&v[1]=8") }
    ensures empty_indexed { text_of_sent (record default { array_format = empty_indexed }) (map_begins None ∷ field_key (codes "v") AsIs ∷ seq_begins (Some 2) ∷ unsigned 7 ∷ unsigned 8 ∷ seq_ends ∷ map_ends ∷ []) ≡ Some (codes "v[]=7&v[]=8") }
    ensures unindexed { text_of_sent (record default { array_format = unindexed }) (map_begins None ∷ field_key (codes "v") AsIs ∷ seq_begins (Some 2) ∷ unsigned 7 ∷ unsigned 8 ∷ seq_ends ∷ map_ends ∷ []) ≡ Some (codes "v=7&v=8") }
    ensures structs_in_a_list { text_of_sent default (map_begins None ∷ field_key (codes "v") AsIs ∷ seq_begins (Some 2) ∷ map_begins None ∷ field_key (codes "a") AsIs ∷ unsigned 1 ∷ map_ends ∷ map_begins None ∷ field_key (codes "a") AsIs ∷ unsigned 2 ∷ map_ends ∷ seq_ends ∷ map_ends ∷ []) ≡ Some (codes "v[0][a]=1&v[1][a]=2") }
    ensures variants { text_of_sent default (map_begins None ∷ field_key (codes "e") AsIs ∷ map_begins (Some 1) ∷ variant_key (codes "b") AsIs ∷ boolean true ∷ map_ends ∷ field_key (codes "f") AsIs ∷ unit_variant (codes "InReview") Kebab ∷ map_ends ∷ []) ≡ Some (codes "e[b]=true&f=in-review") }
    ensures map { text_of_sent default (map_begins None ∷ field_key (codes "m") AsIs ∷ map_begins (Some 1) ∷ key_begins ∷ unsigned 7 ∷ key_ends ∷ text (codes "x") ∷ map_ends ∷ map_ends ∷ []) ≡ Some (codes "m[7]=x") }
    ensures flattened { text_of_sent default (map_begins None ∷ field_key (codes "a") AsIs ∷ unsigned 1 ∷ flattens ∷ map_begins None ∷ field_key (codes "b") AsIs ∷ unsigned 2 ∷ map_ends ∷ field_key (codes "c") AsIs ∷ unsigned 3 ∷ map_ends ∷ []) ≡ Some (codes "a=1&b=2&c=3") }
    ensures absent { text_of_sent default (map_begins None ∷ field_key (codes "a") AsIs ∷ nothing ∷ field_key (codes "v") AsIs ∷ seq_begins (Some 0) ∷ seq_ends ∷ field_key (codes "m") AsIs ∷ map_begins (Some 0) ∷ map_ends ∷ map_ends ∷ []) ≡ Some (codes "a&v=&m=") }
    ensures empty_map { text_of_sent default (map_begins (Some 0) ∷ map_ends ∷ []) ≡ Some [] }
    ensures too_deep { text_of_sent (record default { max_depth = 0 }) (map_begins None ∷ field_key (codes "v") AsIs ∷ seq_begins (Some 1) ∷ unsigned 7 ∷ seq_ends ∷ map_ends ∷ []) ≡ None }
    ensures two_keys { text_of_sent default (map_begins None ∷ field_key (codes "a") AsIs ∷ field_key (codes "b") AsIs ∷ unsigned 1 ∷ map_ends ∷ []) ≡ None }
{}

/// The events that serde sends for data have the text of the data's entries, if no entry is rejected. It does nothing at run time.
///
/// ```
/// events_of_data(); // its clause is the law
/// ```
#[tactic(auto, using(crate::proofs::Sends::have_their_text))]
pub fn events_of_data()
    ensures { (config : Config) (x : Data) → AreSaid false x → (entries config x).error ≡ None → text_of_sent config (sends x []) ≡ Some (written config.is_form false (entries config x).entries) }
{}

/// Events without floats have exactly one text, so the promise of [`to_string`](crate::to_string) is an equation. It does nothing at run
/// time.
///
/// ```
/// texts_without_floats(); // its clause is the law
/// ```
#[tactic(auto, using(crate::proofs::Floats::text_is))]
pub fn texts_without_floats()
    ensures { (config : Config) (es : List Event) (bytes : List ℕ) → has_float es ≡ false → IsTextOf config (Some es) bytes → text_of_sent config es ≡ Some bytes }
{}
