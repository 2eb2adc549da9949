//! JSON as data.

ghost use Rattle.std.specs.Prelude.{◌≡◌, ◌⊎◌, map, None, IfOk, IfErr};
ghost use Rattle.std.specs.Str.{IsUtf8};
ghost use Rattle.json.specs.Json.{document};
ghost use Rattle.qs_data.specs.data.Views.{data_of, pair_of};
ghost use Rattle.qs_c.specs.Messages.{not_json_text};
ghost use Rattle.qs_c.specs.Status.{text_of, IsOutOfMemory};
ghost use Rattle.qs_c.specs.Taken.{item_data, member_data, IsJsonOf};
ghost use Rattle.qs_c.specs.declared.failure.FailureKind.TheVariants as kind;

use crate::failure::{Failure, FailureKind, failure_at};
use json::{MAX_DEPTH, Reader, Scratch, Value};
use qs_data::Data;
use std::alloc::{AllocError, Global};

/// Parses the JSON, and returns it as data.
#[tactic(auto, using(crate::proofs::Messages::text_of_json))]
pub(crate) fn taken(alloc: Global, text: &[u8]) -> Result<Data, Failure>
    ensures json { IfOk result (λ datum. IsJsonOf text.now (data_of datum)) }
    ensures none { IfErr result (λ failure. IsOutOfMemory failure ⊎ ((failure.kind ≡ kind.Json) × (IsUtf8 text.now → document text.now ≡ None) × (text_of failure ≡ not_json_text text.now))) }
{
    let Ok(text) = std::str::from_utf8(text) else {
        return Err(failure_at(alloc, FailureKind::Json, "the JSON isn't UTF-8", 0));
    };
    let mut scratch = Scratch::new(alloc);
    match Value::parse(alloc, text, &mut scratch) {
        Ok(value) => Ok(take(alloc, &value)?),
        Err(json::Error::OutOfMemory) => Err(Failure::out_of_memory()),
        Err(_) => {
            let position = error_position(alloc, text)?;
            Err(failure_at(alloc, FailureKind::Json, "the JSON is invalid", position))
        }
    }
}

// Reads the JSON again, and returns where that stops.
fn error_position(alloc: Global, text: &str) -> Result<usize, AllocError> {
    let mut scratch = Scratch::new(alloc);
    let mut reader = Reader::new(text, &mut scratch)?;
    match Value::read(alloc, &mut reader, MAX_DEPTH) {
        Err(json::Error::OutOfMemory) => Err(AllocError),
        _ => Ok(reader.offset()),
    }
}

// Returns the value as data. Calls itself for each level.
#[cycle(take)]
#[tactic(auto, using(qs_data::proofs::lemmas::data::Levels::levels))]
fn take(alloc: Global, value: &Value<'_>) -> Result<Data, AllocError>
    ensures { IfOk result (λ datum. data_of datum ≡ item_data value.now) }
{
    match value {
        Value::Null => Ok(Data::None),
        Value::Bool(value) => Ok(Data::Bool(*value)),
        Value::Number(text) | Value::String(text) => Ok(Data::Text(String::from_str(alloc, text)?)),
        Value::Array(items) => Ok(Data::Seq(take_items(alloc, items)?)),
        Value::Object(members) => Ok(Data::Map(take_members(alloc, members)?)),
    }
}

// Returns the items as data.
#[cycle(take)]
fn take_items(alloc: Global, items: &Vec<Value<'_>>) -> Result<Vec<Data>, AllocError>
    ensures { IfOk result (λ taken. map data_of taken.items ≡ map item_data items.now.items) }
{
    let mut taken = Vec::new(alloc);
    for item in items {
        taken.push(take(alloc, item)?)?;
    }
    Ok(taken)
}

// Returns the members as data, with their names as text.
#[cycle(take)]
fn take_members(
    alloc: Global,
    members: &Vec<(&str, Value<'_>)>,
) -> Result<Vec<(Data, Data)>, AllocError>
    ensures { IfOk result (λ taken. map pair_of taken.items ≡ map member_data members.now.items) }
{
    let mut taken = Vec::new(alloc);
    for member in members {
        let key = Data::Text(String::from_str(alloc, member.0)?);
        taken.push((key, take(alloc, &member.1)?))?;
    }
    Ok(taken)
}
