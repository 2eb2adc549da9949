//! The types of fields.

ghost use Rattle.std.specs.Prelude.{◌≡◌, IfOk, is_some};
ghost use Rattle.qs_tree.specs.Error.{OnlyOutOfMemory};
ghost use Rattle.qs_tree.specs.tree.Views.{tree_of};
ghost use Rattle.qs_data.specs.data.Views.{data_of};
ghost use Rattle.qs_data.specs.shape.Views.{field_of};
ghost use Rattle.serde_qs.specs.FieldTypes.{absent, keyless};
ghost use Rattle.serde_qs.specs.Nodes.{ReadsNode, missing_data};
ghost use Rattle.serde_qs.specs.PartTables.{FieldTable, required};
ghost use Rattle.serde_qs.specs.Typed.{GivesValue};

use crate::path::Path;
use crate::traits::{Deserialize, unexpected};
use qs_data::{Data, Field, Reader, Result};
use qs_tree::ParsedValue;
use std::alloc::Global;

/// The type of a field: a type that can be read, an [`Optional`](crate::Optional) or a [`Defaulted`](crate::Defaulted).
///
/// It says what a missing field is: an error, None or a default. It is implemented for these alone; a user names them in the nested pairs
/// of [`Fields`](crate::Fields).
///
/// ```
/// type FilterParts = Struct<(String, (Optional<u32>, ()))>; // a text must be there; a number may be missing
/// ```
pub trait FieldType: Sized + Drop {
    // How the field is read and written, with the proofs that belong to it.
    ghost table: { FieldTable Self };

    /// Returns what is read for a field of this name. The one error is [`OutOfMemory`](qs_data::Error::OutOfMemory). It allocates for the
    /// name, which is copied, and the shape.
    fn field(alloc: Global, name: &str) -> Result<Field>
        ensures exact { IfOk result (λ f. field_of f ≡ (name.now, table.shape, is_some table.missing)) }
        ensures errors { OnlyOutOfMemory result };

    /// Returns the field that data means. Errors, allocation and time are the same as for [`from_data`](Deserialize::from_data).
    fn of_data(alloc: Global, datum: Data) -> Result<Self>
        ensures { GivesValue table.value result (table.meaning (data_of datum)) };

    /// Returns the field that is read from a node. Errors, allocation and time are the same as for [`from_node`](Deserialize::from_node).
    fn of_node(reader: Reader, node: &ParsedValue<'_>) -> Result<Self>
        ensures { ReadsNode table.value table.shape table.meaning reader.reject_duplicates (tree_of node.now) result };

    /// Returns the same field. If there is none, it puts the steps to the part that isn't read into the path, as
    /// [`from_traced`](Deserialize::from_traced) does.
    fn of_traced(reader: Reader, node: &ParsedValue<'_>, path: &mut Path) -> Result<Self>
        ensures { ReadsNode table.value table.shape table.meaning reader.reject_duplicates (tree_of node.now) result };

    /// Returns the field that isn't among the members of data. If it must be there, the error is [`Custom`](qs_data::Error::Custom); if an
    /// allocation failed, [`OutOfMemory`](qs_data::Error::OutOfMemory). It allocates for the message of the error, or as
    /// [`missing`](crate::OrDefault::missing) does.
    fn without_data(alloc: Global) -> Result<Self>
        ensures { GivesValue table.value result (absent table.missing) };

    /// Returns the field of this name that has no key. If it must be there, the result is the one of
    /// [`from_missing`](Deserialize::from_missing), and otherwise the one of [`without_data`](FieldType::without_data). It allocates as
    /// these do.
    fn without_key(reader: Reader, name: &str) -> Result<Self>
        ensures { GivesValue table.value result (keyless table.meaning (missing_data table.shape) table.missing) };

    /// Returns the field that has no item among this many. If it must be there, the error is the one of
    /// [`missing_item`](Reader::missing_item). Otherwise the result is the one of [`without_data`](FieldType::without_data). It allocates
    /// as these do.
    fn without_item(reader: Reader, count: usize) -> Result<Self>
        ensures { GivesValue table.value result (absent table.missing) };
}

impl<T: Deserialize + Drop> FieldType for T {
    ghost table = { required T.table };

    fn field(alloc: Global, name: &str) -> Result<Field> {
        named::<T>(alloc, name, false)
    }

    fn of_data(alloc: Global, datum: Data) -> Result<T> {
        T::from_data(alloc, datum)
    }

    #[inline(always)]
    fn of_node(reader: Reader, node: &ParsedValue<'_>) -> Result<T> {
        T::from_node(reader, node)
    }

    fn of_traced(reader: Reader, node: &ParsedValue<'_>, path: &mut Path) -> Result<T> {
        T::from_traced(reader, node, path)
    }

    fn without_data(alloc: Global) -> Result<T> {
        Err(unexpected(alloc, "a field"))
    }

    #[inline(always)]
    fn without_key(reader: Reader, name: &str) -> Result<T> {
        T::from_missing(reader, name)
    }

    #[inline(always)]
    fn without_item(reader: Reader, count: usize) -> Result<T> {
        Err(reader.missing_item(count))
    }
}

/// Returns a field with this name and the shape of a type.
pub(crate) fn named<T: Deserialize>(alloc: Global, name: &str, optional: bool) -> Result<Field>
    ensures exact { IfOk result (λ f. field_of f ≡ (name.now, T.table.shape, optional)) }
    ensures errors { OnlyOutOfMemory result }
{
    let shape = T::shape(alloc)?;
    let name = String::from_str(alloc, name)?;
    Ok(Field {
        name,
        shape,
        optional,
    })
}
