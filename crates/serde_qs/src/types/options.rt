//! Values that may be absent.

#![tactic(auto, unfolding(qs_spec::specs::internal::ReadFunction::reads))]

ghost use Rattle.std.specs.Prelude.{Option};
ghost use Rattle.serde_qs.specs.Meaning.{option_data};
ghost use Rattle.serde_qs.specs.internal.OwnTables.{option_datum};
ghost use Rattle.serde_qs.specs.Tables.{option_table};

use crate::path::Path;
use crate::traits::{Deserialize, RoundTrip, Serialize, unexpected};
use qs_data::{Data, Reader, Result, Shape, WriteResult, Writer};
use qs_tree::ParsedValue;
use std::alloc::Global;

impl<T: Serialize> Serialize for Option<T> {
    ghost datum = { λ o. option_data T.datum o };

    fn to_data(&self, alloc: Global) -> Result<Data> {
        match self {
            Some(part) => Ok(Data::Some(Box::new(alloc, part.to_data(alloc)?)?)),
            None => Ok(Data::None),
        }
    }

    #[tactic(auto, unfolding(qs_spec::specs::Entry::entries_at))]
    fn write_to(&self, writer: &mut Writer) -> WriteResult {
        match self {
            Some(part) => part.write_to(writer),
            None => writer.none(),
        }
    }
}

impl<T: Deserialize + Drop> Deserialize for Option<T> {
    ghost table = { option_table T.table };

    fn shape(alloc: Global) -> Result<Shape> {
        Ok(Shape::Option(Box::new(alloc, T::shape(alloc)?)?))
    }

    fn from_data(alloc: Global, datum: Data) -> Result<Option<T>> {
        match datum {
            Data::None => Ok(None),
            Data::Some(part) => Ok(Some(T::from_data(alloc, Box::into_inner(part))?)),
            _ => Err(unexpected(alloc, "an option")),
        }
    }

    fn from_node(reader: Reader, node: &ParsedValue<'_>) -> Result<Option<T>> {
        match node {
            ParsedValue::Uninitialized => Err(reader.nothing()),
            ParsedValue::NoValue => Ok(None),
            ParsedValue::Null => Ok(Some(T::from_node(reader, &ParsedValue::NoValue)?)),
            ParsedValue::String(_) | ParsedValue::Sequence(_) | ParsedValue::Map(_) => {
                Ok(Some(T::from_node(reader, node)?))
            }
        }
    }

    fn from_traced(reader: Reader, node: &ParsedValue<'_>, path: &mut Path) -> Result<Option<T>> {
        match node {
            ParsedValue::Uninitialized => Err(reader.nothing()),
            ParsedValue::NoValue => Ok(None),
            ParsedValue::Null => { Ok(Some(T::from_traced(reader, &ParsedValue::NoValue, path)?)) }
            ParsedValue::String(_) | ParsedValue::Sequence(_) | ParsedValue::Map(_) => {
                Ok(Some(T::from_traced(reader, node, path)?))
            }
        }
    }

    fn from_missing(_reader: Reader, _name: &str) -> Result<Option<T>> {
        Ok(None)
    }
}

impl<T: RoundTrip + Drop> RoundTrip for Option<T> {
    ghost same_datum = { option_datum T.table T.datum T.same_datum };
}
