//! How the parts of a value are written, in the words of their tables.

ghost use Rattle.std.specs.Prelude.{◌≡◌, IfOk};
ghost use Rattle.qs_spec.specs.Data.{members_of, values_of};
ghost use Rattle.qs_spec.specs.Data as d;
ghost use Rattle.qs_tree.specs.Error.{OnlyOutOfMemory};
ghost use Rattle.qs_data.specs.data.Views.{data_of};
ghost use Rattle.qs_data.specs.write.Parts.{WritesPart, data_part, members_part, under};
ghost use Rattle.serde_qs.specs.Records.{texts};

use super::data_parts::{tuple_struct, tuple_variant};
use super::references::{FieldReferences, ListedReferences};
use crate::parts;
use crate::traits::{RoundTrip, Serialize};
use qs_data::{Data, Result, Scalar, WriteResult, Writer};
use std::alloc::Global;

/// Returns the data of a value.
pub(crate) fn datum_of<T: RoundTrip>(alloc: Global, value: &T) -> Result<Data>
    ensures exact { IfOk result (λ x. data_of x ≡ T.table.datum value.now) }
    ensures errors { OnlyOutOfMemory result }
{
    value.to_data(alloc)
}

/// Writes a value where the writer is.
pub(crate) fn write_to<T: RoundTrip>(value: &T, writer: &mut Writer) -> WriteResult
    ensures { WritesPart result writer.old writer.new (data_part (T.table.datum value.now)) }
{
    value.write_to(writer)
}

/// Writes a value under a name.
pub(crate) fn write_under<T: RoundTrip>(writer: &mut Writer, name: &str, value: &T) -> WriteResult
    ensures { WritesPart result writer.old writer.new (under name.now (data_part (T.table.datum value.now))) }
{
    parts::write_under(writer, Scalar::Bytes(name.as_bytes()), value)
}

/// Writes the fields of a variant under its name.
pub(crate) fn write_variant<R: FieldReferences + Drop>(
    writer: &mut Writer,
    name: &str,
    names: &[&str],
    fields: R,
) -> WriteResult
    ensures { WritesPart result writer.old writer.new (under name.now (members_part (members_of (R.own_members (texts names.now) fields)))) }
{
    let len = writer.enter(Scalar::Bytes(name.as_bytes()))?;
    fields.write_members(names, writer)?;
    writer.leave(len);
    Ok(())
}

/// Writes the tuple of these items where the writer is.
pub(crate) fn write_tuple<R: ListedReferences + Drop>(writer: &mut Writer, items: R) -> WriteResult
    ensures { WritesPart result writer.old writer.new (data_part (d.tuple (values_of (R.own_data items)))) }
{
    parts::write_made(writer, tuple_struct(writer.alloc, items))
}

/// Writes the variant of this name with these items where the writer is.
pub(crate) fn write_tuple_variant<R: ListedReferences + Drop>(
    writer: &mut Writer,
    name: &str,
    items: R,
) -> WriteResult
    ensures { WritesPart result writer.old writer.new (data_part (d.tuple_variant name.now (values_of (R.own_data items)))) }
{
    parts::write_made(writer, tuple_variant(writer.alloc, name, items))
}
