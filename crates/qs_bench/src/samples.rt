//! Data to be written.

use crate::types::Record;
use qs_data::{Data, Result};
use serde_qs::{Serialize, from_bytes};
use std::alloc::Global;

const RECORD: &[u8] =
    b"id=42&name=Acme&phone=12345&address[city]=Carrot+City&address[street]=Special-Street*+No.+11&address[postcode]=12345&user_ids=1&user_ids=2&user_ids=3&user_ids=4";

/// Returns a record of ten entries.
pub(crate) fn record(alloc: Global) -> Result<Data> {
    let record: Record = from_bytes(alloc, RECORD)?;
    record.to_data(alloc)
}

/// Returns `count` fields, with their numbers in their names and texts, below `keys` keys.
pub(crate) fn fields_below(alloc: Global, keys: usize, count: usize) -> Result<Data> {
    let mut datum = Data::Struct(fields(alloc, count)?);
    for _key in 0..keys {
        datum = only(alloc, datum)?;
    }
    Ok(datum)
}

// Returns `count` fields.
fn fields(alloc: Global, count: usize) -> Result<Vec<(String, Data)>> {
    let mut fields = Vec::new(alloc);
    for number in 0..count {
        let name = format!(in alloc; "key{number}")?;
        let text = format!(in alloc; "value {number}")?;
        fields.push((name, Data::Text(text)))?;
    }
    Ok(fields)
}

/// Returns a field with the numbers below `count`.
pub(crate) fn numbers(alloc: Global, count: usize) -> Result<Data> {
    let mut items = Vec::new(alloc);
    for number in 0..count {
        items.push(Data::Unsigned(number as u64))?;
    }
    only(alloc, Data::Seq(items))
}

/// Returns a field with these bytes.
pub(crate) fn held(alloc: Global, content: &[u8]) -> Result<Data> {
    only(alloc, Data::Bytes(Vec::from_slice(alloc, content)?))
}

// Returns a struct of one field.
fn only(alloc: Global, datum: Data) -> Result<Data> {
    let mut fields = Vec::new(alloc);
    fields.push((String::from_str(alloc, "a")?, datum))?;
    Ok(Data::Struct(fields))
}
