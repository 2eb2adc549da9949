//! Lists.

ghost use Rattle.std.specs.Prelude.{map, option_and_then};
ghost use Rattle.qs_spec.specs.Data as d;
ghost use Rattle.std.specs.declared.vec.Vec.{Vec};
ghost use Rattle.std.specs.declared.alloc.Global.{Global};
ghost use Rattle.qs_data.specs.data.Views.{values_in};
ghost use Rattle.qs_data.specs.read.Gives.{Gives};
ghost use Rattle.qs_data.specs.write.Parts.{WritesPart, elements_part};
ghost use Rattle.qs_data.specs.read.Items.{are_text, items_view};
ghost use Rattle.qs_spec.specs.internal.ReadFunction.{reads};
ghost use Rattle.serde_qs.specs.internal.NodeParts.{each_value};
ghost use Rattle.serde_qs.specs.Typed.{GivesValue};
ghost use Rattle.serde_qs.specs.Meaning.{values_meant};
ghost use Rattle.serde_qs.specs.internal.OwnTables.{sequence_datum};
ghost use Rattle.serde_qs.specs.Tables.{sequence_table};

use crate::compound::trace::trace_items;
use crate::parts::write_element;
use crate::path::Path;
use crate::traits::{Deserialize, RoundTrip, Serialize, unexpected};
use qs_data::{Data, NodeItems, Reader, Result, Shape, WriteResult, Writer};
use qs_tree::ParsedValue;
use std::alloc::Global;

impl<T: Serialize> Serialize for Vec<T> {
    ghost datum = { λ xs. d.sequence (d.values_of (map T.datum xs.items)) };

    fn to_data(&self, alloc: Global) -> Result<Data> {
        let mut parts = Vec::new(alloc);
        for item in self {
            parts.push(item.to_data(alloc)?)?;
        }
        Ok(Data::Seq(parts))
    }

    fn write_to(&self, writer: &mut Writer) -> WriteResult {
        if self.is_empty() {
            return writer.unit();
        }
        write_elements(writer, self)
    }
}

// Writes these values as the elements of a list, in order.
fn write_elements<T: Serialize>(writer: &mut Writer, values: &Vec<T>) -> WriteResult
    ensures { WritesPart result writer.old writer.new (elements_part 0 (d.values_of (map T.datum values.now.items))) }
{
    for (place, value) in values.iter().enumerate() {
        write_element(writer, place, value)?;
    }
    Ok(())
}

impl<T: Deserialize + Drop> Deserialize for Vec<T> {
    ghost table = { sequence_table T.table };

    fn shape(alloc: Global) -> Result<Shape> {
        Ok(Shape::Seq(Box::new(alloc, T::shape(alloc)?)?))
    }

    fn from_data(alloc: Global, datum: Data) -> Result<Vec<T>> {
        let Data::Seq(parts) = datum else {
            return Err(unexpected(alloc, "a sequence"));
        };
        items_of(alloc, parts)
    }

    fn from_node(reader: Reader, node: &ParsedValue<'_>) -> Result<Vec<T>> {
        let items = reader.items(node)?;
        values_of(reader, items)
    }

    fn from_traced(reader: Reader, node: &ParsedValue<'_>, path: &mut Path) -> Result<Vec<T>> {
        trace_items::<T>(reader, node, path)?;
        Self::from_node(reader, node)
    }
}

// Returns the values that this data means, in order.
fn items_of<T: Deserialize + Drop>(alloc: Global, parts: Vec<Data>) -> Result<Vec<T>>
    ensures { GivesValue (λ (xs : Vec T Global). map T.table.value xs.items) result (values_meant T.table.meaning (values_in parts.items)) }
{
    let mut items = Vec::new(alloc);
    for part in parts {
        items.push(T::from_data(alloc, part)?)?;
    }
    Ok(items)
}

// Returns the values that are read from these items, in order.
fn values_of<T: Deserialize + Drop>(reader: Reader, items: NodeItems<'_, '_>) -> Result<Vec<T>>
    ensures { Gives (λ (xs : Vec T Global). map T.table.value xs.items) (are_text (items_view items.entry)) result
        (each_value (λ node. option_and_then T.table.meaning (reads reader.reject_duplicates T.table.shape node)) (items_view items.entry)) }
{
    let mut values = Vec::with_capacity(reader.alloc, items.len())?;
    for i in 0..items.len() {
        let Some(item) = items.get(reader, i)? else {
            break;
        };
        values.push(T::from_node(reader, item)?)?;
    }
    Ok(values)
}

impl<T: RoundTrip + Drop> RoundTrip for Vec<T> {
    ghost same_datum = { sequence_datum T.table T.datum T.same_datum };
}
