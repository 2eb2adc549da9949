//! What a type is read by and written as.

ghost use Rattle.std.specs.Prelude.{◌≡◌, IfOk, option_and_then};
ghost use Rattle.qs_spec.specs.Data.{Data as Datum};
ghost use Rattle.qs_tree.specs.Error.{OnlyOutOfMemory};
ghost use Rattle.qs_data.specs.read.Errors.{IsCustomOrOutOfMemory};
ghost use Rattle.qs_data.specs.data.Views.{data_of};
ghost use Rattle.qs_data.specs.write.Parts.{WritesPart, data_part};
ghost use Rattle.qs_data.specs.shape.Views.{shape_of};
ghost use Rattle.qs_tree.specs.tree.Views.{tree_of};
ghost use Rattle.serde_qs.specs.Nodes.{ReadsNode, missing_data};
ghost use Rattle.serde_qs.specs.Tables.{Table};
ghost use Rattle.serde_qs.specs.Typed.{GivesValue};

use crate::parts::write_made;
use crate::path::Path;
use qs_data::{Data, Error, Reader, Result, Shape, WriteResult, Writer};
use qs_tree::ParsedValue;
use std::alloc::Global;

/// A type whose values are written as a querystring.
///
/// A struct or an enum gets this trait by [`Compound`](crate::Compound).
///
/// ```
/// let datum = query.to_data(alloc)?; // Data::Struct: name, age
/// ```
pub trait Serialize {
    // The data of a value: a function of the value alone.
    ghost datum: { Self → Datum };

    /// Returns the data of this value. The one error is [`OutOfMemory`](Error::OutOfMemory).
    ///
    /// Strings are copied. The time and the memory grow with the value.
    ///
    /// ```
    /// let datum = true.to_data(alloc)?; // Data::Bool(true)
    /// ```
    fn to_data(&self, alloc: Global) -> Result<Data>
        ensures exact { IfOk result (λ d. data_of d ≡ datum self.now) }
        ensures errors { OnlyOutOfMemory result };

    /// Writes the entries of this value's data where the writer is. Typed calls write by this function.
    ///
    /// The errors, and what was written before each, are the same as for [`Writer::data`]. The default implementation makes the data. The
    /// types of this crate write their parts themselves, and copy no string.
    ///
    /// ```
    /// query.write_to(&mut writer)?; // name=Alice&age=24
    /// ```
    fn write_to(&self, writer: &mut Writer) -> WriteResult
        ensures written { WritesPart result writer.old writer.new (data_part (datum self.now)) }
    {
        write_made(writer, self.to_data(writer.alloc))
    }
}

/// A type whose values are read from a querystring.
///
/// A struct or an enum gets this trait by [`Compound`](crate::Compound).
///
/// ```
/// let shape = Query::shape(alloc)?;
/// let query = Query::from_data(alloc, deserializer.read(alloc, &shape)?)?;
/// ```
pub trait Deserialize: Sized {
    // What a value holds, the one shape that is read for it, and what data means. The table of a struct or an enum is made of its parts'
    // tables. A type that is only read has one by `only_read`.
    ghost table: { Table Self };

    /// Returns the shape that is read for a value. The one error is [`OutOfMemory`](Error::OutOfMemory).
    ///
    /// It allocates for names and nested shapes. A typed call makes the shape of a type without a [`from_node`](Deserialize::from_node) of
    /// its own.
    ///
    /// ```
    /// let shape = u8::shape(alloc)?; // Shape::U8
    /// ```
    fn shape(alloc: Global) -> Result<Shape>
        ensures exact { IfOk result (λ s. shape_of s ≡ table.shape) }
        ensures errors { OnlyOutOfMemory result };

    /// Returns the value that data means.
    ///
    /// If it means none, the error is [`Custom`](Error::Custom); if an allocation failed, [`OutOfMemory`](Error::OutOfMemory). There is no
    /// other error. Strings are moved, not copied; lists and maps are allocated anew. The time grows with the data.
    ///
    /// ```
    /// let flag = bool::from_data(alloc, Data::Bool(true))?; // true
    /// ```
    fn from_data(alloc: Global, datum: Data) -> Result<Self>
        ensures exact { GivesValue table.value result (table.meaning (data_of datum)) };

    /// Returns the value that is read from a node of a tree: the shape reads data from the node, and the data means the value. Typed calls
    /// read by this function.
    ///
    /// It returns the errors of reading by the shape, and of [`from_data`](Deserialize::from_data). The default implementation makes the
    /// shape and the data. The unit, booleans, numbers, characters, strings, options, lists, maps, and the structs and enums of
    /// [`Compound`](crate::Compound) read the node itself. It allocates for the value, and the time grows with the node.
    ///
    /// ```
    /// let age = u8::from_node(reader, node)?;
    /// ```
    fn from_node(reader: Reader, node: &ParsedValue<'_>) -> Result<Self>
        ensures node { ReadsNode table.value table.shape table.meaning reader.reject_duplicates (tree_of node.now) result }
    {
        let shape = Self::shape(reader.alloc)?;
        let datum = reader.read(&shape, node)?;
        Self::from_data(reader.alloc, datum)
    }

    /// Returns the same value as [`from_node`](Deserialize::from_node). If there is none, it puts the steps to the part that isn't read
    /// into the path, as far as they are known. [`read_explained`](crate::read_explained) reads by this function after an error.
    ///
    /// It returns the same errors. The default implementation doesn't change the path. Options, lists, maps, and the structs and enums of
    /// [`Compound`](crate::Compound) read each part to find the first that isn't read, so a part is read once for each level above it. No
    /// clause is about the path.
    ///
    /// ```
    /// let query = Query::from_traced(reader, node, &mut path)?;
    /// ```
    fn from_traced(reader: Reader, node: &ParsedValue<'_>, _path: &mut Path) -> Result<Self>
        ensures node { ReadsNode table.value table.shape table.meaning reader.reject_duplicates (tree_of node.now) result }
    {
        Self::from_node(reader, node)
    }

    /// Returns the value of a field of this name that has no key. Unless the shape is an option, the error is [`Custom`](Error::Custom),
    /// ``missing field `name` ``; if an allocation failed, [`OutOfMemory`](Error::OutOfMemory).
    ///
    /// It allocates for the message of the error. The default implementation also allocates for the shape.
    ///
    /// ```
    /// let none: Option<u8> = Option::from_missing(reader, "age")?; // None
    /// ```
    fn from_missing(reader: Reader, name: &str) -> Result<Self>
        ensures missing { GivesValue table.value result (option_and_then table.meaning (missing_data table.shape)) }
    {
        let shape = Self::shape(reader.alloc)?;
        if shape.is_option() {
            Self::from_data(reader.alloc, Data::None)
        } else {
            Err(reader.missing_field(name))
        }
    }
}

/// A type whose values can be read back from what was written.
///
/// It has no methods. [`value_comes_back`](crate::value_comes_back) states what follows from it. A struct or an enum gets this trait by
/// [`Compound`](crate::Compound).
///
/// ```
/// let text = to_string(alloc, &query)?;
/// let same: Query = from_str(alloc, text.as_str())?; // the value of `query`, where its data are plain
/// ```
pub trait RoundTrip: Serialize + Deserialize {
    // The data that is written is the table's, from which the value comes back.
    ghost same_datum: { (x : Self) → Self.table.datum x ≡ Self.datum x };
}

/// Returns the error for data that means no value of a type: [`Custom`](Error::Custom) with the message `invalid type: data, expected ..`,
/// or [`OutOfMemory`](Error::OutOfMemory) if the allocation of the message failed.
///
/// It is for a [`from_data`](Deserialize::from_data) or a [`read`](crate::Compound::read) that is written by hand. It allocates the
/// message. Call it in a function of its own, with the same clause, if `expected` has 20 characters or more: the prover doesn't find proofs
/// over longer texts.
///
/// ```
/// match datum {
///     Data::UnitVariant(name) if name.as_str() == "All" => Ok(Choice::All),
///     _ => Err(unexpected(alloc, "a choice")),
/// }
/// ```
pub fn unexpected(alloc: Global, expected: &'static str) -> Error
    ensures { IsCustomOrOutOfMemory result }
{
    Error::custom(
        alloc,
        format_args!("invalid type: data, expected {expected}"),
        &(),
    )
}
