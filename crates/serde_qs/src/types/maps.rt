//! Maps whose keys are strings.

ghost use Rattle.std.specs.Prelude.{◌≡◌, IfOk, map, option_and_then};
ghost use Rattle.qs_spec.specs.Data as d;
ghost use Rattle.qs_spec.specs.internal.ReadFunction.{reads};
ghost use Rattle.qs_tree.specs.Error.{OnlyOutOfMemory};
ghost use Rattle.qs_data.specs.data.Views.{data_of, pair_of, pairs_in};
ghost use Rattle.qs_data.specs.read.Gives.{Gives};
ghost use Rattle.qs_data.specs.read.Keys.{entries_view};
ghost use Rattle.qs_data.specs.read.TreeText.{entries_are_text};
ghost use Rattle.qs_data.specs.write.Parts.{WritesPart, pairs_part};
ghost use Rattle.serde_qs.specs.internal.NodeEntries.{entries_onto};
ghost use Rattle.serde_qs.specs.Typed.{GivesValue};
ghost use Rattle.serde_qs.specs.Maps.{entry_data, values_by_text, pair_onto, pairs_onto, nowhere};
ghost use Rattle.serde_qs.specs.internal.OwnTables.{mapping_datum};
ghost use Rattle.serde_qs.specs.Tables.{mapping_table};

use crate::compound::trace::trace_values;
use crate::parts::write_under;
use crate::path::Path;
use crate::traits::{Deserialize, RoundTrip, Serialize, unexpected};
use qs_data::{Data, KeyShape, NodeEntries, Reader, Result, Scalar, Shape, WriteResult, Writer};
use qs_tree::ParsedValue;
use std::alloc::Global;
use std::collections::BTreeMap;

impl<T: Serialize> Serialize for BTreeMap<String, T> {
    ghost datum = { λ m. d.mapping (d.pairs_of (map (entry_data T.datum) m.entries)) };

    fn to_data(&self, alloc: Global) -> Result<Data> {
        let mut pairs = Vec::new(alloc);
        for (key, value) in self {
            pairs.push(entry_of(alloc, key.as_str(), value)?)?;
        }
        Ok(Data::Map(pairs))
    }

    fn write_to(&self, writer: &mut Writer) -> WriteResult {
        if self.is_empty() {
            return writer.unit();
        }
        write_pairs(writer, self)
    }
}

// Returns the data of a key and of its value.
fn entry_of<T: Serialize>(alloc: Global, key: &str, value: &T) -> Result<(Data, Data)>
    ensures exact { IfOk result (λ pair. pair_of pair ≡ (d.text key.now, T.datum value.now)) }
    ensures errors { OnlyOutOfMemory result }
{
    let text = String::from_str(alloc, key)?;
    let datum = value.to_data(alloc)?;
    Ok((Data::Text(text), datum))
}

// Writes the values under their keys, in order.
fn write_pairs<T: Serialize>(writer: &mut Writer, values: &BTreeMap<String, T>) -> WriteResult
    ensures { WritesPart result writer.old writer.new (pairs_part (d.pairs_of (map (entry_data T.datum) values.now.entries))) }
{
    for (key, value) in values {
        write_under(writer, Scalar::Bytes(key.as_bytes()), value)?;
    }
    Ok(())
}

impl<T: Deserialize + Drop> Deserialize for BTreeMap<String, T> {
    ghost table = { mapping_table T.table };

    fn shape(alloc: Global) -> Result<Shape> {
        Ok(Shape::Map(KeyShape::Text, Box::new(alloc, T::shape(alloc)?)?))
    }

    fn from_data(alloc: Global, datum: Data) -> Result<BTreeMap<String, T>> {
        match datum {
            Data::Map(pairs) => map_of(alloc, pairs),
            _ => Err(unexpected(alloc, "a map")),
        }
    }

    fn from_node(reader: Reader, node: &ParsedValue<'_>) -> Result<BTreeMap<String, T>> {
        let entries = reader.entries(node)?;
        entries_of(reader, entries)
    }

    fn from_traced(
        reader: Reader,
        node: &ParsedValue<'_>,
        path: &mut Path,
    ) -> Result<BTreeMap<String, T>> {
        trace_values::<T>(reader, node, path)?;
        Self::from_node(reader, node)
    }
}

impl<T: RoundTrip + Drop> RoundTrip for BTreeMap<String, T> {
    ghost same_datum = { mapping_datum T.table T.datum T.same_datum };
}

// Returns the map of these pairs. Of several with one key, the last counts.
fn map_of<T: Deserialize + Drop>(
    alloc: Global,
    pairs: Vec<(Data, Data)>,
) -> Result<BTreeMap<String, T>>
    ensures { GivesValue (λ m. values_by_text T.table.value m) result (pairs_onto T.table.meaning nowhere (pairs_in pairs.items)) }
{
    let mut values = BTreeMap::new(alloc);
    for (key, datum) in pairs {
        values = with_pair(alloc, values, key, datum)?;
    }
    Ok(values)
}

// Returns the map with one more pair, in place of an older pair with that key.
fn with_pair<T: Deserialize + Drop>(
    alloc: Global,
    mut values: BTreeMap<String, T>,
    key: Data,
    datum: Data,
) -> Result<BTreeMap<String, T>>
    ensures { GivesValue (λ m. values_by_text T.table.value m) result (pair_onto T.table.meaning (values_by_text T.table.value values) (data_of key) (data_of datum)) }
{
    match key {
        Data::Text(key) => {
            let value = T::from_data(alloc, datum)?;
            values.insert(key, value)?;
            Ok(values)
        }
        _ => Err(unexpected(alloc, "a string")),
    }
}

// Returns the map of these entries, each value read from its node. Of two with one key, the later counts.
fn entries_of<T: Deserialize + Drop>(
    reader: Reader,
    entries: NodeEntries<'_, '_>,
) -> Result<BTreeMap<String, T>>
    ensures { Gives (λ m. values_by_text T.table.value m) (entries_are_text (entries_view entries.entry)) result
        (entries_onto (λ node. option_and_then T.table.meaning (reads reader.reject_duplicates T.table.shape node)) nowhere (entries_view entries.entry)) }
{
    let mut values = BTreeMap::new(reader.alloc);
    for i in 0..entries.len() {
        let Some((key, node)) = entries.get(reader, i)? else {
            break;
        };
        let value = T::from_node(reader, node)?;
        values.insert(key, value)?;
    }
    Ok(values)
}
