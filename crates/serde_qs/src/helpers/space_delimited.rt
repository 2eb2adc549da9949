//! Lists in one text, with spaces between the items.

ghost use Rattle.std.specs.Prelude.{◌≡◌, IfOk, map};
ghost use Rattle.qs_spec.specs.Data as d;
ghost use Rattle.qs_tree.specs.Error.{OnlyOutOfMemory};
ghost use Rattle.qs_data.specs.data.Views.{data_of};
ghost use Rattle.serde_qs.specs.Items.{joined, list_in};
ghost use Rattle.serde_qs.specs.Typed.{GivesValue};

use super::generic_delimiter;
use super::item::Item;
use qs_data::{Data, Result};
use std::alloc::Global;

/// Returns the text of a list, and the one error, as [`generic_delimiter::serialize`] does with ' '.
///
/// In a query each space is then written as `+`.
///
/// ```
/// let datum = serialize(alloc, &[1u8, 2, 3])?; // the text 1 2 3
/// ```
pub fn serialize<T: Item>(alloc: Global, list: &[T]) -> Result<Data>
    ensures exact { IfOk result (λ x. data_of x ≡ d.text (joined 32 (map T.printed list.now))) }
    ensures errors { OnlyOutOfMemory result }
{
    generic_delimiter::serialize(alloc, list, ' ')
}

/// Returns the list of a text, and each error, as [`generic_delimiter::deserialize`] does with ' '.
///
/// ```
/// let list: Vec<u8> = deserialize(alloc, datum)?; // of the text 1 2 3: 1, 2, 3
/// ```
pub fn deserialize<T: Item + Drop>(alloc: Global, datum: Data) -> Result<Vec<T>>
    ensures { GivesValue (λ list. map T.value list.items) result (list_in T.meaning 32 (data_of datum)) }
{
    generic_delimiter::deserialize(alloc, datum, ' ')
}
