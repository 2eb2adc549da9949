//! Structs and enums by what they are made of.

#![tactic(auto, unfolding(crate::specs::Compound::data_by))]

mod data_parts;
mod defaulted;
mod defaults;
mod destination;
mod field_types;
mod fields;
mod items;
mod nodes;
mod optional;
mod parts;
mod payloads;
mod references;
mod round_trip;
mod source;
mod structs;
pub(crate) mod trace;
mod variants;

ghost use Rattle.std.specs.Prelude.{◌≡◌, true, IfOk, refl};
ghost use Rattle.qs_tree.specs.Error.{OnlyOutOfMemory};
ghost use Rattle.qs_data.specs.shape.Views.{shape_of};
ghost use Rattle.serde_qs.specs.Compound.{data_by};
ghost use Rattle.serde_qs.specs.Destinations.{Takes};
ghost use Rattle.serde_qs.specs.Tables.{Table, closed};
ghost use Rattle.qs_spec.specs.Shape.{is_distinct};
ghost use Rattle.serde_qs.specs.Sources.{ReadsSource};

use crate::path::Path;
use crate::traits::{Deserialize, RoundTrip, Serialize};
pub use data_parts::{
    newtype_struct, newtype_variant, struct_of, struct_variant, tuple_struct, tuple_variant,
    unit_variant,
};
pub use defaulted::{Defaulted, OrDefault};
pub use destination::{Destination, Out};
pub use field_types::FieldType;
pub use fields::Fields;
pub use items::TupleItems;
pub use optional::Optional;
pub use parts::{Enum, Parts};
pub use payloads::{Newtype, Payload, Tuple};
use qs_data::{Data, Reader, Result, Shape, WriteResult, Writer};
use qs_tree::ParsedValue;
pub use references::{FieldReferences, ItemReferences, ListedReferences, References, SkipNone};
pub use source::Source;
use std::alloc::Global;
pub use structs::{HoldsFields, StrictStruct, Struct};
pub use variants::{Last, OneOf, Variants};

/// A struct or an enum, given by its parts. It is read and written as these, and its values can be read back.
///
/// A struct is made of its fields:
///
/// ```
/// type PointParts = Struct<(i64, (i64, ()))>;
///
/// const NAMES: &[&str] = &["x", "y"];
///
/// impl Compound for Point {
///     ghost table = { made_of ⟦<PointParts as Parts>⟧.table NAMES.now (λ point. record { 0 = (point.x, (point.y, tt)) }) _ };
///
///     fn parts_shape(alloc: Global) -> Result<Shape> {
///         PointParts::shape(alloc, NAMES)
///     }
///
///     fn read(source: Source) -> Result<Point> {
///         let Struct((x, (y, ()))) = PointParts::read(source, NAMES)?;
///         Ok(Point { x, y })
///     }
///
///     fn write_parts(&self, out: Out) -> WriteResult {
///         out.fields(NAMES, (&self.x, (&self.y, ())))
///     }
/// }
/// ```
///
/// An enum is made of its variants, by [`Enum`](crate::Enum). The check rejects a block where two parts are exchanged, one
/// is left out, there are too few or too many names, or two names are equal.
pub trait Compound: Sized {
    // What it is made of, under which names, and its parts.
    ghost table: { Table Self };

    /// Returns the shape that is read for a value. The one error is [`OutOfMemory`](qs_data::Error::OutOfMemory). It allocates for names
    /// and nested shapes, and the time grows with them.
    ///
    /// ```
    /// PointParts::shape(alloc, NAMES)
    /// ```
    fn parts_shape(alloc: Global) -> Result<Shape>
        ensures exact { IfOk result (λ s. shape_of s ≡ table.shape) }
        ensures errors { OnlyOutOfMemory result };

    /// Returns the value that is read from data, or from a node of a tree. If there is none, the error is
    /// [`Custom`](qs_data::Error::Custom), or [`Utf8`](qs_data::Error::Utf8) if a string of the node isn't UTF-8; if an allocation failed,
    /// [`OutOfMemory`](qs_data::Error::OutOfMemory). There is no other error. It allocates for the value, and the time grows with the
    /// source.
    ///
    /// ```
    /// let Struct((x, (y, ()))) = PointParts::read(source, NAMES)?;
    /// Ok(Point { x, y })
    /// ```
    fn read(source: Source<'_, '_>) -> Result<Self>
        requires { is_distinct table.shape ≡ true }
        ensures exact { ReadsSource table.value table.shape table.meaning source.entry result };

    /// Passes the parts to `out`, under their names. An error is returned only if something failed: an allocation
    /// ([`OutOfMemory`](qs_data::Stop::OutOfMemory)), or the writing of the parts. The parts are made into data, or written to a writer. It
    /// allocates, and takes time, as the method of [`Out`] that it calls.
    ///
    /// ```
    /// out.fields(NAMES, (&self.x, (&self.y, ())))
    /// ```
    fn write_parts(&self, out: Out) -> WriteResult
        ensures taken { Takes out.old out.new result (table.datum self.now) };
}

impl<C: Compound> Serialize for C {
    ghost datum = { λ x. data_by C.table.datum x };

    fn to_data(&self, alloc: Global) -> Result<Data> {
        let mut destination = Destination::Data(alloc, None);
        let taken = self.write_parts(&mut destination);
        destination.into_data(taken)
    }

    fn write_to(&self, writer: &mut Writer) -> WriteResult {
        let mut destination = Destination::Writer(writer.take());
        let taken = self.write_parts(&mut destination);
        destination.give_back(writer, taken)
    }
}

impl<C: Compound> Deserialize for C {
    ghost table = { closed C.table };

    fn shape(alloc: Global) -> Result<Shape> {
        C::parts_shape(alloc)
    }

    fn from_data(alloc: Global, datum: Data) -> Result<C> {
        C::read(Source::Data(alloc, datum))
    }

    fn from_node(reader: Reader, node: &ParsedValue<'_>) -> Result<C> {
        C::read(Source::Node(reader, node))
    }

    fn from_traced(reader: Reader, node: &ParsedValue<'_>, path: &mut Path) -> Result<C> {
        C::read(Source::Traced(reader, node, path))
    }
}

impl<C: Compound> RoundTrip for C {
    ghost same_datum = { λ _. refl };
}

/// The nested pairs of a struct's fields: `fields!(self; x, y)` is `(&self.x, (&self.y, ()))`, and `fields!(x, y)` is `(x, (y, ()))`, as a
/// pattern or a value.
///
/// A field that is left out if it is None has a question mark after it: `fields!(self; x, y?)` is `(&self.x, (SkipNone(&self.y), ()))`, and
/// `fields!(x, y?)` is `(x, (Optional(y), ()))`.
///
/// ```
/// let Struct(fields!(x, y)) = PointParts::read(source, NAMES)?;
/// out.fields(NAMES, fields!(self; x, y))
/// ```
#[macro_export]
macro_rules! fields {
    () => { () };
    ($value:ident;) => { () };
    ($value:ident; $field:tt ? $(, $($others:tt)*)?) => {
        ($crate::SkipNone(&$value.$field), $crate::fields!($value; $($($others)*)?))
    };
    ($value:ident; $field:tt $(, $($others:tt)*)?) => { (&$value.$field, $crate::fields!($value; $($($others)*)?)) };
    ($field:ident ? $(, $($others:tt)*)?) => { ($crate::Optional($field), $crate::fields!($($($others)*)?)) };
    ($field:ident $(, $($others:tt)*)?) => { ($field, $crate::fields!($($($others)*)?)) };
}
