//! Calls without a user's type: errors that callers make, lists in one string, wrappers, data.

use super::written::{text_of, written_data};
use serde_qs::helpers::{comma_separated, generic_delimiter, pipe_delimited, space_delimited};
use serde_qs::web::{QsForm, QsQuery};
use serde_qs::{Config, Data, Deserializer, Error, KeyShape, Result, Shape};
use std::alloc::Global;
use std::str;

// Returns the text of the input, or the error if it isn't text.
fn owned_text(alloc: Global, input: &[u8]) -> Result<String> {
    Ok(String::from_utf8(Vec::from_slice(alloc, input)?)?)
}

// Returns the error that this function makes, with the input as its message.
fn made(alloc: Global, maker: &str, input: &[u8]) -> Result<String> {
    let message = str::from_utf8(input)?;
    Err(match maker {
        "custom" => Error::custom(alloc, message, &()),
        "parse_err" => Error::parse_err(alloc, message, 7),
        _ => Error::top_level(alloc, "bool"),
    })
}

// Returns the text of the number, or the error if it isn't one.
fn number(alloc: Global, input: &[u8]) -> Result<String> {
    let number = str::from_utf8(input)?.parse::<u8>()?;
    Ok(format!(in alloc; "{number}")?)
}

// Returns the items, after they were written and read, separated by bars.
fn between_bars(alloc: Global, items: &[String]) -> Result<Vec<String>> {
    let data = pipe_delimited::serialize(alloc, items)?;
    pipe_delimited::deserialize(alloc, data)
}

// Returns the items, after they were written and read, separated by spaces.
fn between_spaces(alloc: Global, items: &[String]) -> Result<Vec<String>> {
    let data = space_delimited::serialize(alloc, items)?;
    space_delimited::deserialize(alloc, data)
}

// Returns the items, after they were written and read, separated by dots.
fn between_dots(alloc: Global, items: &[String]) -> Result<Vec<String>> {
    let data = generic_delimiter::serialize(alloc, items, '.')?;
    generic_delimiter::deserialize(alloc, data, '.')
}

// Returns the items, separated by commas.
fn between_commas(alloc: Global, items: &[String]) -> Result<String> {
    match comma_separated::serialize(alloc, items)? {
        Data::Text(text) => Ok(text),
        _ => Err(Error::Unsupported),
    }
}

// Returns the items, separated by commas again, after they were written and read with each other delimiter.
fn relisted(alloc: Global, input: &[u8]) -> Result<String> {
    let data = Data::Text(owned_text(alloc, input)?);
    let items: Vec<String> = comma_separated::deserialize(alloc, data)?;
    let items = between_bars(alloc, &items)?;
    let items = between_spaces(alloc, &items)?;
    let items = between_dots(alloc, &items)?;
    between_commas(alloc, &items)
}

// Returns the texts of copies of the input, wrapped as a query and as a form.
fn wrapped(alloc: Global, input: &[u8]) -> Result<String> {
    let query = QsQuery(owned_text(alloc, input)?).clone()?;
    let form = QsForm(owned_text(alloc, input)?).clone()?;
    Ok(format!(in alloc; "{query} {form}")?)
}

// Returns a map with these keys.
fn map_of(alloc: Global, keys: &[String]) -> Result<Data> {
    let mut pairs = Vec::with_capacity(alloc, keys.len())?;
    for key in keys {
        pairs.push((Data::Text(key.clone()?), Data::Unit))?;
    }
    Ok(Data::Map(pairs))
}

// Returns a struct of fields with these names.
fn struct_of(alloc: Global, names: Vec<String>) -> Result<Data> {
    let mut members = Vec::with_capacity(alloc, names.len())?;
    for name in names {
        members.push((name, Data::Unit))?;
    }
    Ok(Data::Struct(members))
}

// Takes the items between commas as keys of a map and as names of a struct. Returns whether both are plain.
fn plainness(alloc: Global, input: &[u8]) -> Result<String> {
    let items = Data::Text(owned_text(alloc, input)?);
    let names: Vec<String> = comma_separated::deserialize(alloc, items)?;
    let map = map_of(alloc, &names)?.is_plain(Config::new());
    let structure = struct_of(alloc, names)?.is_plain(Config::new());
    Ok(format!(in alloc; "{map} {structure}")?)
}

// Returns the text of the bytes at each key of the input, in query mode and with form encoding.
fn bytes(alloc: Global, input: &[u8]) -> Result<String> {
    let shape = Shape::Map(KeyShape::Text, Box::new(alloc, Shape::Bytes)?);
    let data = Deserializer::new(alloc, input)?.read(alloc, &shape)?;
    let query = text_of(alloc, Config::new(), &data)?;
    let form = text_of(alloc, Config::new().use_form_encoding(true), &data)?;
    Ok(format!(in alloc; "{query} {form}")?)
}

/// Returns what the call of this name makes of the input, if there is one.
///
/// | name | line |
/// |---|---|
/// | `custom`, `parse_err`, `top_level` | the error that it makes of the input |
/// | `from_utf8`, `parse_int` | the input, or the error that std's error becomes |
/// | `helpers` | the items between commas, after they were written and read with each other delimiter |
/// | `web` | the texts of copies of a query and a form |
/// | `plain` | whether a map and a struct are plain whose keys and names are the items between commas |
/// | `bytes` | the bytes at each key of the input, written in query mode and with form encoding |
/// | `data` | data with a character, bytes, and a key that isn't written, as the text of their entries |
pub fn answer(alloc: Global, name: &str, input: &[u8]) -> Option<Result<String>> {
    match name {
        "custom" | "parse_err" | "top_level" => Some(made(alloc, name, input)),
        "from_utf8" => Some(owned_text(alloc, input)),
        "parse_int" => Some(number(alloc, input)),
        "helpers" => Some(relisted(alloc, input)),
        "web" => Some(wrapped(alloc, input)),
        "plain" => Some(plainness(alloc, input)),
        "bytes" => Some(bytes(alloc, input)),
        "data" => Some(written_data(alloc)),
        _ => None,
    }
}
