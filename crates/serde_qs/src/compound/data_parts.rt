//! The data that is written for structs and variants.

ghost use Rattle.std.specs.Prelude.{◌≡◌, IfOk};
ghost use Rattle.qs_spec.specs.Data.{members_of, values_of};
ghost use Rattle.qs_spec.specs.Data as d;
ghost use Rattle.qs_tree.specs.Error.{OnlyOutOfMemory};
ghost use Rattle.qs_data.specs.data.Views.{data_of};
ghost use Rattle.serde_qs.specs.Records.{texts};

use super::references::{ItemReferences, References};
use crate::traits::Serialize;
use qs_data::{Data, Result};
use std::alloc::Global;

/// Returns the struct of these fields under their names, for a [`to_data`](crate::Serialize::to_data) that is written by hand. The one
/// error is [`OutOfMemory`](qs_data::Error::OutOfMemory). It allocates for the data and its names, and the time grows with them.
///
/// If there are fewer names than fields, the last fields have the empty name.
///
/// ```
/// struct_of(alloc, &["x", "y"], (&self.x, (&self.y, ())))
/// ```
pub fn struct_of<R: References + Drop>(alloc: Global, names: &[&str], fields: R) -> Result<Data>
    ensures exact { IfOk result (λ x. data_of x ≡ d.struct (members_of (R.members (texts names.now) fields))) }
    ensures errors { OnlyOutOfMemory result }
{
    Ok(Data::Struct(fields.push_members(alloc, names, Vec::new(alloc))?))
}

/// Returns the variant of this name with these fields, for a [`to_data`](crate::Serialize::to_data) that is written by hand. The one error
/// is [`OutOfMemory`](qs_data::Error::OutOfMemory). It allocates for the data and its names, and the time grows with them.
///
/// If there are fewer names than fields, the last fields have the empty name.
///
/// ```
/// Sort::Between { from, to } => struct_variant(alloc, "Between", &["from", "to"], (from, (to, ()))),
/// ```
pub fn struct_variant<R: References + Drop>(
    alloc: Global,
    name: &str,
    names: &[&str],
    fields: R,
) -> Result<Data>
    ensures exact { IfOk result (λ x. data_of x ≡ d.struct_variant name.now (members_of (R.members (texts names.now) fields))) }
    ensures errors { OnlyOutOfMemory result }
{
    let name = String::from_str(alloc, name)?;
    let members = fields.push_members(alloc, names, Vec::new(alloc))?;
    Ok(Data::StructVariant(name, members))
}

/// Returns the data of a variant that holds nothing, for a [`to_data`](crate::Serialize::to_data) that is written by hand. The one error is
/// [`OutOfMemory`](qs_data::Error::OutOfMemory). It allocates for the data and its names, and the time grows with them.
///
/// ```
/// Sort::Relevance => unit_variant(alloc, "Relevance"),
/// ```
pub fn unit_variant(alloc: Global, name: &str) -> Result<Data>
    ensures exact { IfOk result (λ x. data_of x ≡ d.unit_variant name.now) }
    ensures errors { OnlyOutOfMemory result }
{
    Ok(Data::UnitVariant(String::from_str(alloc, name)?))
}

/// Returns the data of a variant that holds one value, for a [`to_data`](crate::Serialize::to_data) that is written by hand. The one error
/// is [`OutOfMemory`](qs_data::Error::OutOfMemory). It allocates for the data and its names, and the time grows with them.
///
/// ```
/// Sort::By(field) => newtype_variant(alloc, "By", field),
/// ```
pub fn newtype_variant<T: Serialize>(alloc: Global, name: &str, value: &T) -> Result<Data>
    ensures exact { IfOk result (λ x. data_of x ≡ d.newtype_variant name.now (T.datum value.now)) }
    ensures errors { OnlyOutOfMemory result }
{
    let part = Box::new(alloc, value.to_data(alloc)?)?;
    Ok(Data::NewtypeVariant(String::from_str(alloc, name)?, part))
}

/// Returns the data of a struct around one value, for a [`to_data`](crate::Serialize::to_data) that is written by hand. The one error is
/// [`OutOfMemory`](qs_data::Error::OutOfMemory). It allocates for the data and its names, and the time grows with them.
///
/// ```
/// newtype_struct(alloc, &self.0)
/// ```
pub fn newtype_struct<T: Serialize>(alloc: Global, value: &T) -> Result<Data>
    ensures exact { IfOk result (λ x. data_of x ≡ d.newtype (T.datum value.now)) }
    ensures errors { OnlyOutOfMemory result }
{
    Ok(Data::Newtype(Box::new(alloc, value.to_data(alloc)?)?))
}

/// Returns the variant of this name with these items, for a [`to_data`](crate::Serialize::to_data) that is written by hand. The one error
/// is [`OutOfMemory`](qs_data::Error::OutOfMemory). It allocates for the data and its names, and the time grows with them.
///
/// ```
/// Area::Circle(radius, unit) => tuple_variant(alloc, "Circle", (radius, (unit, ()))),
/// ```
pub fn tuple_variant<R: ItemReferences + Drop>(alloc: Global, name: &str, items: R) -> Result<Data>
    ensures exact { IfOk result (λ x. data_of x ≡ d.tuple_variant name.now (values_of (R.listed items))) }
    ensures errors { OnlyOutOfMemory result }
{
    let name = String::from_str(alloc, name)?;
    let values = items.push_items(alloc, Vec::new(alloc))?;
    Ok(Data::TupleVariant(name, values))
}

/// Returns the tuple of these items, for a [`to_data`](crate::Serialize::to_data) that is written by hand. The one error is
/// [`OutOfMemory`](qs_data::Error::OutOfMemory). It allocates for the data and its names, and the time grows with them.
///
/// ```
/// tuple_struct(alloc, (&self.0, (&self.1, ())))
/// ```
pub fn tuple_struct<R: ItemReferences + Drop>(alloc: Global, items: R) -> Result<Data>
    ensures exact { IfOk result (λ x. data_of x ≡ d.tuple (values_of (R.listed items))) }
    ensures errors { OnlyOutOfMemory result }
{
    Ok(Data::Tuple(items.push_items(alloc, Vec::new(alloc))?))
}
