//! Fields that may be left out.

ghost use Rattle.serde_qs.specs.PartTables.{optional};

use super::field_types::{FieldType, named};
use crate::path::Path;
use crate::traits::Deserialize;
use qs_data::{Data, Field, Reader, Result};
use qs_tree::ParsedValue;
use std::alloc::Global;

/// A field that may be left out: `(String, (Optional<u32>, ()))` for a string and perhaps a number.
///
/// ```
/// let Struct((text, (Optional(page), ()))) = FilterParts::read(source, NAMES)?; // page: Option<u32>
/// ```
///
/// If it is None, it isn't written; if its key is missing, it is read as None. Its shape is the shape of `T`, so `page=` for a number is
/// rejected.
#[derive(Debug, PartialEq, Drop)]
pub struct Optional<T>(pub Option<T>);

impl<T: Deserialize + Drop> FieldType for Optional<T> {
    ghost table = { optional T.table };

    fn field(alloc: Global, name: &str) -> Result<Field> {
        named::<T>(alloc, name, true)
    }

    fn of_data(alloc: Global, datum: Data) -> Result<Optional<T>> {
        Ok(Optional(Some(T::from_data(alloc, datum)?)))
    }

    #[inline(always)]
    fn of_node(reader: Reader, node: &ParsedValue<'_>) -> Result<Optional<T>> {
        Ok(Optional(Some(T::from_node(reader, node)?)))
    }

    fn of_traced(reader: Reader, node: &ParsedValue<'_>, path: &mut Path) -> Result<Optional<T>> {
        Ok(Optional(Some(T::from_traced(reader, node, path)?)))
    }

    fn without_data(_alloc: Global) -> Result<Optional<T>> {
        Ok(Optional(None))
    }

    fn without_key(reader: Reader, _name: &str) -> Result<Optional<T>> {
        Self::without_data(reader.alloc)
    }

    fn without_item(reader: Reader, _count: usize) -> Result<Optional<T>> {
        Self::without_data(reader.alloc)
    }
}
