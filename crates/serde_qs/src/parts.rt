//! The parts of a value that writes itself.

ghost use Rattle.std.specs.Prelude.{◌≡◌, IfOk, MatchResult, Ok};
ghost use Rattle.qs_spec.specs.Data.{Data as Datum};
ghost use Rattle.qs_tree.specs.Error.{OnlyOutOfMemory};
ghost use Rattle.qs_data.specs.data.Views.{data_of};
ghost use Rattle.qs_data.specs.declared.write.stop.Stop.TheVariants.{OutOfMemory};
ghost use Rattle.qs_data.specs.write.Parts.{WritesPart, data_part, element, under};
ghost use Rattle.qs_data.specs.write.Scalars.{scalar_text};

use crate::traits::Serialize;
use qs_data::{ArrayFormat, Data, Error, Result, Scalar, Stop, WriteResult, Writer};

/// Returns data that was made, or the error of a failed allocation as writing returns it.
pub(crate) fn data_made(made: Result<Data>) -> Result<Data, Stop>
    requires { OnlyOutOfMemory made }
    ensures { MatchResult result (λ d. made ≡ Ok d) (λ stop. stop ≡ OutOfMemory) }
{
    match made {
        Ok(datum) => Ok(datum),
        Err(Error::OutOfMemory) => Err(Stop::OutOfMemory),
        Err(_) => unreachable!(),
    }
}

/// Writes data, if it was made.
pub(crate) fn write_made(writer: &mut Writer, made: Result<Data>) -> WriteResult
    requires { OnlyOutOfMemory made }
    ensures { (x : Datum) → IfOk made (λ d. data_of d ≡ x) → WritesPart result writer.old writer.new (data_part x) }
{
    let datum = data_made(made)?;
    writer.data(&datum)
}

/// Writes a value under one more segment.
pub(crate) fn write_under<T: Serialize>(
    writer: &mut Writer,
    segment: Scalar<'_>,
    value: &T,
) -> WriteResult
    ensures { WritesPart result writer.old writer.new (under (scalar_text segment.entry) (data_part (T.datum value.now))) }
{
    let len = writer.enter(segment)?;
    value.write_to(writer)?;
    writer.leave(len);
    Ok(())
}

/// Writes a value as the element of this index.
pub(crate) fn write_element<T: Serialize>(
    writer: &mut Writer,
    place: usize,
    value: &T,
) -> WriteResult
    ensures { WritesPart result writer.old writer.new (element place (data_part (T.datum value.now))) }
{
    match writer.config.get_array_format() {
        ArrayFormat::Indexed => write_under(writer, Scalar::Unsigned(place as u64), value),
        ArrayFormat::EmptyIndexed => write_under(writer, Scalar::Bytes(&[]), value),
        ArrayFormat::Unindexed => value.write_to(writer),
    }
}
