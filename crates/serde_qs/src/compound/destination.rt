//! The destination of a value's parts.

#![tactic(auto, unfolding(qs_spec::specs::Entry::entries_at))]

ghost use Rattle.std.specs.Prelude.{◌≡◌, IfOk};
ghost use Rattle.qs_spec.specs.Data.{members_of, values_of};
ghost use Rattle.qs_spec.specs.Data as d;
ghost use Rattle.qs_tree.specs.Error.{OnlyOutOfMemory};
ghost use Rattle.qs_data.specs.data.Views.{data_of};
ghost use Rattle.qs_data.specs.declared.write.writer.Writer.{Writer};
ghost use Rattle.qs_data.specs.write.Parts.{WritesPart, data_part};
ghost use Rattle.serde_qs.specs.Destinations.{Keeps, Makes, Takes, Wrote};
ghost use Rattle.serde_qs.specs.Records.{texts};

use super::data_parts::{
    newtype_struct, newtype_variant, struct_of, struct_variant, tuple_struct, tuple_variant,
    unit_variant,
};
use super::references::{FieldReferences, ListedReferences};
use super::round_trip;
use crate::parts::data_made;
use crate::traits::RoundTrip;
use qs_data::{Data, Error, Result, Scalar, Stop, WriteResult, Writer};
use std::alloc::Global;

/// The destination of a value's parts: its data, or a writer. It is passed to [`Compound::write_parts`](crate::Compound::write_parts), which passes
/// the parts to one of its methods.
///
/// Each method returns an error only if something failed. Into data, the error is [`OutOfMemory`](qs_data::Stop::OutOfMemory): an
/// allocation failed. To a writer, it is the error of writing the parts, one that [`Writer::data`] returns.
///
/// It allocates for the data and its names, or for the text of the writer, and the time grows with the value.
///
/// ```
/// out.fields(NAMES, (&self.x, (&self.y, ())))
/// ```
pub type Out<'a> = &'a mut Destination;

/// What an [`Out`] leads to.
///
/// ```
/// let mut destination = Destination::Data(alloc, None);
/// point.write_parts(&mut destination)?; // then it is Destination::Data(alloc, Some(..))
/// ```
#[derive(Drop)]
pub enum Destination {
    /// Into data that is allocated here: the allocator, and the data once it was made.
    Data(Global, Option<Data>),
    /// To a writer.
    Writer(Writer),
}

impl Destination {
    /// Takes the fields of a struct, under their names. Errors and allocation are as for [`Out`].
    ///
    /// If there are fewer names than fields, the last fields have the empty name.
    ///
    /// ```
    /// out.fields(NAMES, (&self.x, (&self.y, ())))
    /// ```
    pub fn fields<R: FieldReferences + Drop>(&mut self, names: &[&str], fields: R) -> WriteResult
        ensures taken { Takes self.old self.new result (d.struct (members_of (R.own_members (texts names.now) fields))) }
    {
        match self {
            Destination::Data(alloc, place) => keep(place, struct_of(*alloc, names, fields)),
            Destination::Writer(writer) => fields.write_members(names, writer),
        }
    }

    /// Takes the value that represents the whole, such as the number of a type that allows only some numbers. Errors and allocation are as
    /// for [`Out`].
    ///
    /// ```
    /// out.value(&self.years)
    /// ```
    pub fn value<T: RoundTrip>(&mut self, value: &T) -> WriteResult
        ensures taken { Takes self.old self.new result (T.table.datum value.now) }
    {
        match self {
            Destination::Data(alloc, place) => keep(place, round_trip::datum_of(*alloc, value)),
            Destination::Writer(writer) => round_trip::write_to(value, writer),
        }
    }

    /// Takes the items of a tuple. Errors and allocation are as for [`Out`].
    ///
    /// ```
    /// out.items((&self.0, (&self.1, ())))
    /// ```
    pub fn items<R: ListedReferences + Drop>(&mut self, items: R) -> WriteResult
        ensures taken { Takes self.old self.new result (d.tuple (values_of (R.own_data items))) }
    {
        match self {
            Destination::Data(alloc, place) => keep(place, tuple_struct(*alloc, items)),
            Destination::Writer(writer) => round_trip::write_tuple(writer, items),
        }
    }

    /// Takes the value of a newtype. Errors and allocation are as for [`Out`].
    ///
    /// ```
    /// out.newtype(&self.0)
    /// ```
    pub fn newtype<T: RoundTrip>(&mut self, value: &T) -> WriteResult
        ensures taken { Takes self.old self.new result (d.newtype (T.table.datum value.now)) }
    {
        match self {
            Destination::Data(alloc, place) => keep(place, newtype_struct(*alloc, value)),
            Destination::Writer(writer) => round_trip::write_to(value, writer),
        }
    }

    /// Takes the name of a variant that holds nothing. Errors and allocation are as for [`Out`].
    ///
    /// ```
    /// Sort::Relevance => out.unit_variant("Relevance"),
    /// ```
    pub fn unit_variant(&mut self, name: &str) -> WriteResult
        ensures taken { Takes self.old self.new result (d.unit_variant name.now) }
    {
        match self {
            Destination::Data(alloc, place) => keep(place, unit_variant(*alloc, name)),
            Destination::Writer(writer) => writer.scalar(Scalar::Bytes(name.as_bytes())),
        }
    }

    /// Takes the name of a variant and the one value that it holds. Errors and allocation are as for [`Out`].
    ///
    /// ```
    /// Sort::By(field) => out.newtype_variant("By", field),
    /// ```
    pub fn newtype_variant<T: RoundTrip>(&mut self, name: &str, value: &T) -> WriteResult
        ensures taken { Takes self.old self.new result (d.newtype_variant name.now (T.table.datum value.now)) }
    {
        match self {
            Destination::Data(alloc, place) => keep(place, newtype_variant(*alloc, name, value)),
            Destination::Writer(writer) => round_trip::write_under(writer, name, value),
        }
    }

    /// Takes the name of a variant and the items that it holds. Errors and allocation are as for [`Out`].
    ///
    /// ```
    /// Area::Circle(radius, unit) => out.tuple_variant("Circle", (radius, (unit, ()))),
    /// ```
    pub fn tuple_variant<R: ListedReferences + Drop>(&mut self, name: &str, items: R) -> WriteResult
        ensures taken { Takes self.old self.new result (d.tuple_variant name.now (values_of (R.own_data items))) }
    {
        match self {
            Destination::Data(alloc, place) => keep(place, tuple_variant(*alloc, name, items)),
            Destination::Writer(writer) => round_trip::write_tuple_variant(writer, name, items),
        }
    }

    /// Takes the name of a variant and its fields, under their names. Errors and allocation are as for [`Out`].
    ///
    /// If there are fewer names than fields, the last fields have the empty name.
    ///
    /// ```
    /// Sort::Between { from, to } => out.struct_variant("Between", &["from", "to"], (from, (to, ()))),
    /// ```
    pub fn struct_variant<R: FieldReferences + Drop>(
        &mut self,
        name: &str,
        names: &[&str],
        fields: R,
    ) -> WriteResult
        ensures taken { Takes self.old self.new result (d.struct_variant name.now (members_of (R.own_members (texts names.now) fields))) }
    {
        match self {
            Destination::Data(alloc, place) => keep(
                place,
                struct_variant(*alloc, name, names, fields),
            ),
            Destination::Writer(writer) => round_trip::write_variant(writer, name, names, fields),
        }
    }

    /// Returns the data that was made, or the error that taking the parts returned.
    pub(crate) fn into_data(self, taken: WriteResult) -> Result<Data>
        requires { (x : d.Data) × Makes self taken x }
        ensures exact { (x : d.Data) → Makes self taken x → IfOk result (λ v. data_of v ≡ x) }
        ensures errors { OnlyOutOfMemory result }
    {
        match taken {
            Ok(()) => {}
            Err(Stop::OutOfMemory) => return Err(Error::OutOfMemory),
            Err(Stop::TooDeep | Stop::BadKey | Stop::Io) => unreachable!(),
        }
        match self {
            Destination::Data(_, Some(datum)) => Ok(datum),
            Destination::Data(_, None) | Destination::Writer(_) => unreachable!(),
        }
    }

    /// Puts back the writer that took the parts, and returns what taking them returned.
    pub(crate) fn give_back(self, writer: &mut Writer, taken: WriteResult) -> WriteResult
        requires { (old : Writer) × (x : d.Data) × Wrote old self taken x }
        ensures { (old : Writer) (x : d.Data) → Wrote old self taken x → WritesPart result old writer.new (data_part x) }
    {
        match self {
            Destination::Writer(whole) => *writer = whole,
            Destination::Data(..) => unreachable!(),
        }
        taken
    }
}

// Keeps data in its place, if it was made.
fn keep(place: &mut Option<Data>, made: Result<Data>) -> WriteResult
    requires { OnlyOutOfMemory made }
    ensures { (x : d.Data) → IfOk made (λ v. data_of v ≡ x) → Keeps place.new result x }
{
    *place = Some(data_made(made)?);
    Ok(())
}
