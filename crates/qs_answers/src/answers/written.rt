//! What a writer holds that takes one byte at a time, up to its capacity.

use qs_tests::{Narrow, Stop};
use serde_qs::{
    Config, ConfigExt, Data, Error, Result, Serialize, Serializer, to_string, to_writer,
};
use std::alloc::Global;

/// A call that writes to a writer, which stops once it is full.
#[derive(Clone, Copy)]
pub enum Call {
    /// `to_writer`, to a writer that then takes nothing.
    Lent,
    /// `serialize_to_writer`, to a writer that then is interrupted.
    Configured,
    /// `Serializer::serialize` of the same data twice, to a writer that then fails.
    Twice,
}

impl Call {
    // Returns how the writer stops.
    fn stop(self) -> Stop {
        match self {
            Call::Lent => Stop::TakesNothing,
            Call::Configured => Stop::IsInterrupted,
            Call::Twice => Stop::Fails,
        }
    }

    // Writes the value by this call.
    fn write<T: Serialize>(self, alloc: Global, value: &T, writer: &mut Narrow) -> Result<()> {
        match self {
            Call::Lent => to_writer(alloc, value, writer),
            Call::Configured => Config::new().serialize_to_writer(alloc, value, writer),
            Call::Twice => write_twice(alloc, &value.to_data(alloc)?, writer),
        }
    }

    // Returns the text whose entries may be written before an allocation fails. For a typed call it is empty, since the call makes its
    // text first.
    fn text_in_part<T: Serialize>(self, alloc: Global, value: &T) -> Result<String> {
        match self {
            Call::Lent | Call::Configured => Ok(String::new(alloc)),
            Call::Twice => {
                let text = to_string(alloc, value)?;
                Ok(format!(in alloc; "{text}&{text}")?)
            }
        }
    }
}

// Writes the data twice. After an error a serializer writes nothing and returns `Failed`.
fn write_twice(alloc: Global, data: &Data, writer: &mut Narrow) -> Result<()> {
    let mut serializer = Serializer::new(writer, Config::new());
    let first = serializer.serialize(alloc, data);
    match (first, serializer.serialize(alloc, data)) {
        (Err(error), Err(Error::Failed)) => Err(error),
        (_, second) => second,
    }
}

// Returns whether the text is a prefix of the whole text that ends with an entry, or is empty.
fn ends_with_an_entry(text: &str, whole: &str) -> bool {
    match whole.strip_prefix(text) {
        Some(rest) => text.is_empty() || rest.is_empty() || rest.starts_with('&'),
        None => false,
    }
}

// Returns what a writer holds after a call, and the error of the call. After `OutOfMemory` the writer must hold whole entries of this text.
fn held(alloc: Global, writer: Narrow, outcome: Result<()>, whole: &str) -> Result<String> {
    let held = String::from_utf8(writer.held)?;
    match outcome {
        Ok(()) => Ok(held),
        Err(Error::OutOfMemory) if ends_with_an_entry(held.as_str(), whole) => {
            Err(Error::OutOfMemory)
        }
        Err(error) => Ok(format!(in alloc; "{held} and then: {error}")?),
    }
}

/// Writes a value by this call. Returns what the writer holds, and the error of the call.
pub fn written<T: Serialize>(alloc: Global, call: Call, room: usize, value: &T) -> Result<String> {
    let whole = call.text_in_part(alloc, value)?;
    let mut writer = Narrow::new(alloc, 1, room, call.stop())?;
    let outcome = call.write(alloc, value, &mut writer);
    held(alloc, writer, outcome, &whole)
}

// Adds a member of this name to a struct's members.
fn add(alloc: Global, members: &mut Vec<(String, Data)>, name: &str, value: Data) -> Result<()> {
    Ok(members.push((String::from_str(alloc, name)?, value))?)
}

// Returns a map with a list as its key, which isn't written.
fn map_of_a_list(alloc: Global) -> Result<Data> {
    let list = Data::Seq(Vec::new(alloc));
    let pairs = Vec::from_array(alloc, [(list, Data::Unit)])?;
    Ok(Data::Map(pairs))
}

// Returns a character, bytes, and a map that isn't written.
fn data(alloc: Global) -> Result<Data> {
    let mut members = Vec::new(alloc);
    add(alloc, &mut members, "c", Data::Char('ä'))?;
    let bytes = Data::Bytes(Vec::from_slice(alloc, b"\xFF &")?);
    add(alloc, &mut members, "b", bytes)?;
    add(alloc, &mut members, "m", map_of_a_list(alloc)?)?;
    Ok(Data::Struct(members))
}

/// Returns the text of the data under a configuration.
pub fn text_of(alloc: Global, config: Config, data: &Data) -> Result<String> {
    let mut writer = Narrow::new(alloc, 1, 1000, Stop::Fails)?;
    Serializer::new(&mut writer, config).serialize(alloc, data)?;
    Ok(String::from_utf8(writer.held)?)
}

/// Writes a copy of data that no type has. Returns what the writer holds, and the error of the call.
pub fn written_data(alloc: Global) -> Result<String> {
    let copy = data(alloc)?.try_clone(alloc)?;
    let mut writer = Narrow::new(alloc, 1, 100, Stop::Fails)?;
    let outcome = Serializer::new(&mut writer, Config::new()).serialize(alloc, &copy);
    held(alloc, writer, outcome, "c=%C3%A4&b=%FF+%26")
}
