//! Lists in one text, with commas between the items.

ghost use Rattle.std.specs.Prelude.{◌≡◌, ◌↔◌, ℕ, List, [], IfOk};
ghost use Rattle.serde.specs.Event.{text};
ghost use Rattle.serde.specs.Steps.{Gives};

use super::generic_delimiter;
use serde::{DeserializeOwned, Deserializer, Format, Serializer};
use std::alloc::Global;
use std::fmt::Display;

/// Writes a list as one text, as [`generic_delimiter::serialize`] does with ','.
///
/// ```
/// #[serde(with = "qs_serde::helpers::comma_separated")]
/// values: Vec<u8>, // values=1,2,3
/// ```
pub fn serialize<T: Display, S: Serializer>(items: &[T], out: &mut S) -> Result<(), S::Error> {
    generic_delimiter::serialize(items, ',', out)
}

/// Reads a text as a list, as [`generic_delimiter::deserialize`] does with ','.
///
/// ```
/// #[serde(with = "qs_serde::helpers::comma_separated")]
/// values: Vec<u8>, // of the text 1,2,3: 1, 2 and 3
/// ```
pub fn deserialize<T: DeserializeOwned, F: Format>(
    alloc: Global,
    from: &mut Deserializer<'_, '_, F>,
) -> Result<Vec<T>, F::Error>
    ensures { IfOk result (λ items. (t : List ℕ) × Gives F.gives from.old (text t) from.new × ((t ≡ []) ↔ (items.items ≡ []))) }
{
    generic_delimiter::deserialize(alloc, ',', from)
}
