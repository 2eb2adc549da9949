//! Fields that take a default if they are missing.

ghost use Rattle.qs_spec.specs.Data.{Data as Datum};
ghost use Rattle.serde_qs.specs.PartTables.{defaulted};
ghost use Rattle.serde_qs.specs.Typed.{GivesValue};

use super::field_types::{FieldType, named};
use crate::path::Path;
use crate::traits::Deserialize;
use qs_data::{Data, Field, Reader, Result};
use qs_tree::ParsedValue;
use std::alloc::Global;

/// A type with a value for a field whose key is missing: zero, false, an empty string, list or map.
///
/// A type of your own with another default is a newtype that implements it:
///
/// ```
/// impl OrDefault for Page {
///     ghost default = { d.newtype (d.unsigned 1) };
///
///     fn missing(_alloc: Global) -> Result<Page> {
///         Ok(Page(1))
///     }
/// }
/// ```
pub trait OrDefault: Deserialize {
    // The data of the value that a missing field has.
    ghost default: { Datum };

    /// Returns the value of a missing field. If an allocation failed, the error is [`OutOfMemory`](qs_data::Error::OutOfMemory). It is
    /// [`Custom`](qs_data::Error::Custom) only if the data of the default means no value.
    ///
    /// For a type of this crate it doesn't allocate, and takes constant time.
    ///
    /// ```
    /// let page = u32::missing(alloc)?; // 0
    /// ```
    fn missing(alloc: Global) -> Result<Self>
        ensures { GivesValue Self.table.value result (Self.table.meaning default) };
}

/// A field that takes a default if its key is missing: `(String, (Defaulted<u32>, ()))` for a string and a number, which is 0 by default.
///
/// ```
/// let Struct((text, (Defaulted(page), ()))) = PagingParts::read(source, NAMES)?; // page: u32
/// ```
///
/// It is written in any case, as a field without a default is: `&self.page`.
#[derive(Debug, PartialEq, Drop)]
pub struct Defaulted<T>(pub T);

impl<T: OrDefault + Drop> FieldType for Defaulted<T> {
    ghost table = { defaulted T.default T.table };

    fn field(alloc: Global, name: &str) -> Result<Field> {
        named::<T>(alloc, name, true)
    }

    fn of_data(alloc: Global, datum: Data) -> Result<Defaulted<T>> {
        Ok(Defaulted(T::from_data(alloc, datum)?))
    }

    #[inline(always)]
    fn of_node(reader: Reader, node: &ParsedValue<'_>) -> Result<Defaulted<T>> {
        Ok(Defaulted(T::from_node(reader, node)?))
    }

    fn of_traced(reader: Reader, node: &ParsedValue<'_>, path: &mut Path) -> Result<Defaulted<T>> {
        Ok(Defaulted(T::from_traced(reader, node, path)?))
    }

    fn without_data(alloc: Global) -> Result<Defaulted<T>> {
        Ok(Defaulted(T::missing(alloc)?))
    }

    fn without_key(reader: Reader, _name: &str) -> Result<Defaulted<T>> {
        Self::without_data(reader.alloc)
    }

    fn without_item(reader: Reader, _count: usize) -> Result<Defaulted<T>> {
        Self::without_data(reader.alloc)
    }
}
