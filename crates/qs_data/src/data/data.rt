//! Data: what is read by a shape, and what is written.
ghost use Rattle.std.specs.Cmp.{on_per, on_equiv};
ghost use Rattle.qs_data.specs.data.internal.Equality.{data_same};
ghost use Rattle.qs_data.specs.data.internal.EqualityLaws.{data_per, data_equivalence};
ghost use Rattle.qs_data.specs.data.Views.{data_of};

use crate::data::sameness::same_data;

/// A value as a querystring carries it.
///
/// Two `Data` values are equal exactly if they hold the same, whatever the capacity of their vectors: see
/// [`equality_of_data`](crate::equality_of_data).
///
/// ```
/// let ids = Data::Seq(vec![in alloc; Data::Unsigned(7)]?); // a list of one number
/// ```
#[derive(Debug, Drop)]
pub enum Data {
    /// No value.
    Unit,
    /// An absent value.
    None,
    /// A value that might be absent.
    Some(Box<Data>),
    /// A boolean.
    Bool(bool),
    /// A whole number of an unsigned type.
    Unsigned(u64),
    /// A whole number of a signed type.
    Signed(i64),
    /// A character.
    Char(char),
    /// A string.
    Text(String),
    /// A string of bytes, which need not be UTF-8.
    Bytes(Vec<u8>),
    /// A list of any length.
    Seq(Vec<Data>),
    /// A list whose length its type fixes.
    Tuple(Vec<Data>),
    /// Keys and their values, in order.
    Map(Vec<(Data, Data)>),
    /// Fields by name, in order, without those that were left out.
    Struct(Vec<(String, Data)>),
    /// A value in a type of its own.
    Newtype(Box<Data>),
    /// A variant, by name, that holds nothing.
    UnitVariant(String),
    /// A variant that holds a value.
    NewtypeVariant(String, Box<Data>),
    /// A variant that holds a list whose length its type fixes.
    TupleVariant(String, Vec<Data>),
    /// A variant that holds fields.
    StructVariant(String, Vec<(String, Data)>),
}

/// Calls itself for each level of the data, and doesn't allocate.
impl PartialEq for Data {
    ghost eq = { λ a b. data_same (data_of a) (data_of b) };

    ghost laws = { on_per data_of data_per };

    fn eq(&self, other: &Data) -> bool {
        same_data(self, other)
    }
}

impl Eq for Data {
    ghost laws = { on_equiv data_of data_equivalence };
}
