//! What querystrings mean, and the laws that follow from the meaning alone. No code runs here.
#![tactic(auto)]

mod entries;
mod escapes;
mod inputs;
mod keys;
mod losses;
mod orders;
mod parsing;
mod read_back;
mod relation;
mod scalars;
mod shapes;
mod texts;
mod trees;

pub use entries::written_entries_are_parsed;
pub use escapes::{
    broken_escapes_stay, decoded_texts, encoded_texts, escapes_round_trip, kept_bytes,
};
pub use inputs::{
    brackets_in_form_mode, deep_keys, escapes_in_keys_and_texts, indices_and_texts,
    nearly_empty_inputs, repeated_keys, values_beside_maps,
};
pub use keys::{
    ascending_keys, digits_and_numbers, found_by_lookup, written_keys_are_parsed,
    written_values_are_parsed,
};
pub use losses::{
    lists_without_indices, not_fitting_is_lost, not_plain_is_lost, unstable_trees_are_lost,
};
pub use orders::{orders_by_place, reordered_inputs, reordered_pairs};
pub use parsing::pairs_are_parsed;
pub use read_back::{
    data_that_are_not_plain, data_that_fit, entries_are_apart, hostile_names_are_plain,
    listed_data, lists_within_the_indices, plain_data_are_read_back, stable_trees_come_back,
    writing_loses_nothing,
};
pub use relation::{one_data, reads_is_the_relation};
pub use scalars::written_scalars_are_parsed;
pub use shapes::{
    anything, distinct_shapes, fields_by_name, flags, items_by_place, kinds_of_variants,
    last_of_several, maps, numbers_in_range, options, small_shapes, smallest_key_names_the_variant,
    unknown_keys,
};
pub use texts::{
    array_formats, depth_limit, entries_after_others, keys_of_maps, optional_values,
    parts_without_fields, scalar_values, variants,
};
pub use trees::{in_place, nothing_lost, one_reading, sound_trees};
