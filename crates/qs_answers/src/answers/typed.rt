//! Querystrings that are read as a user's type and written again, and why they aren't read.

use super::calls;
use super::written::{Call, written};
use qs_callers::{Order, Pair, Query, Range, Search, Sort, Values};
use qs_explain::explain;
use serde_qs::{
    Comma, Config, ConfigExt, Delimited, Deserialize, Error, Pipe, Result, Serialize, Space,
    from_bytes, from_str, to_string,
};
use std::alloc::Global;
use std::collections::BTreeMap;
use std::io::{BufRead, Read};
use std::process::ExitCode;
use std::{io, str};

/// A map of structs, and a list of them.
type Ranges = Pair<BTreeMap<String, Range>, Vec<Range>>;

/// Numbers in one text, with each delimiter.
type Lists = Pair<Delimited<u32, Comma>, Pair<Delimited<u8, Pipe>, Delimited<i64, Space>>>;

/// A question about a querystring and a type.
#[derive(Clone, Copy)]
pub enum Question {
    /// The querystring of the value that is read.
    Rewritten,
    /// Which part of it isn't read.
    Explained,
    /// The same by each typed call.
    EachCall,
    /// What a writer with this capacity holds of it.
    Written(Call, usize),
}

impl Question {
    /// Returns the question of the words after a type's name, if they are one.
    ///
    /// | words | line |
    /// |---|---|
    /// | none | the querystring of the value |
    /// | `explained` | which part isn't read |
    /// | `each_call` | the querystring of the value, if each typed call returns the same |
    /// | `to_writer ROOM`, `serialize_to_writer ROOM`, `serialize_twice ROOM` | what a writer with this capacity holds, and the error |
    pub fn from_words(word: Option<&str>, room: Option<&str>) -> Option<Question> {
        let room = match room {
            Some(digits) => Some(digits.parse::<usize>().ok()?),
            None => None,
        };
        match (word, room) {
            (None, None) => Some(Question::Rewritten),
            (Some("explained"), None) => Some(Question::Explained),
            (Some("each_call"), None) => Some(Question::EachCall),
            (Some("to_writer"), Some(room)) => Some(Question::Written(Call::Lent, room)),
            (Some("serialize_to_writer"), Some(room)) => {
                Some(Question::Written(Call::Configured, room))
            }
            (Some("serialize_twice"), Some(room)) => Some(Question::Written(Call::Twice, room)),
            _ => None,
        }
    }
}

// Returns the querystring of the value that is read from the input.
fn rewritten<T: Serialize + Deserialize + Drop>(alloc: Global, input: &[u8]) -> Result<String> {
    let value: T = from_bytes(alloc, input)?;
    to_string(alloc, &value)
}

// Returns a line that says which part of the input isn't read.
fn explained<T: Deserialize>(alloc: Global, input: &[u8]) -> Result<String> {
    match explain(alloc, Config::new(), &T::shape(alloc)?, input)? {
        Some(explanation) => Ok(explanation.to_string(alloc)?),
        None => Ok(String::from_str(alloc, "it is read")?),
    }
}

// Returns whether the value that was read has this querystring.
fn is_written_as<T: Serialize + Drop>(
    alloc: Global,
    value: Result<T>,
    wanted: &str,
) -> Result<bool> {
    Ok(Config::new().serialize_string(alloc, &value?)?.as_str() == wanted)
}

// Returns whether the value that each other typed call reads has this querystring.
fn is_read_by_each<T: Serialize + Deserialize + Drop>(
    alloc: Global,
    input: &[u8],
    wanted: &str,
) -> Result<bool> {
    let config = Config::new();
    let text = str::from_utf8(input)?;
    Ok(
        is_written_as::<T>(alloc, from_str(alloc, text), wanted)?
            && is_written_as::<T>(alloc, config.deserialize_str(alloc, text), wanted)?
            && is_written_as::<T>(alloc, config.deserialize_bytes(alloc, input), wanted)?,
    )
}

// Returns the querystring of the value that each typed call reads from the input and writes again.
fn rewritten_by_each<T: Serialize + Deserialize + Drop>(
    alloc: Global,
    input: &[u8],
) -> Result<String> {
    let querystring = rewritten::<T>(alloc, input)?;
    match is_read_by_each::<T>(alloc, input, &querystring)? {
        true => Ok(querystring),
        false => Ok(String::from_str(alloc, "the calls disagree")?),
    }
}

// Returns what a writer with this capacity holds of the querystring of the value that is read from the input.
fn written_into<T: Serialize + Deserialize + Drop>(
    alloc: Global,
    call: Call,
    room: usize,
    input: &[u8],
) -> Result<String> {
    let value: T = from_bytes(alloc, input)?;
    written(alloc, call, room, &value)
}

// Returns the answer to a question about an input and a type.
fn answer<T: Serialize + Deserialize + Drop>(
    alloc: Global,
    question: Question,
    input: &[u8],
) -> Result<String> {
    match question {
        Question::Rewritten => rewritten::<T>(alloc, input),
        Question::Explained => explained::<T>(alloc, input),
        Question::EachCall => rewritten_by_each::<T>(alloc, input),
        Question::Written(call, room) => written_into::<T>(alloc, call, room, input),
    }
}

// Returns the answer for the type of this name, or what the call of this name makes of the input, if there is one.
fn answer_by(
    alloc: Global,
    name: &str,
    question: Question,
    input: &[u8],
) -> Option<Result<String>> {
    match name {
        "map" => Some(answer::<BTreeMap<String, String>>(alloc, question, input)),
        "query" => Some(answer::<Query>(alloc, question, input)),
        "order" => Some(answer::<Order>(alloc, question, input)),
        "search" => Some(answer::<Search>(alloc, question, input)),
        "ranges" => Some(answer::<Ranges>(alloc, question, input)),
        "sorts" => Some(answer::<BTreeMap<String, Sort>>(alloc, question, input)),
        "lists" => Some(answer::<Lists>(alloc, question, input)),
        "values" => Some(answer::<BTreeMap<String, Values>>(alloc, question, input)),
        _ => calls::answer(alloc, name, input),
    }
}

// Returns the status, or 3 if the line wasn't written.
fn status(written: io::Result<()>, status: u8) -> ExitCode {
    match written {
        Ok(()) => ExitCode::from(status),
        Err(_) => ExitCode::from(3),
    }
}

/// Reads all of standard input, prints the answer for the type or the call of this name, and returns the status.
///
/// | status | line |
/// |---|---|
/// | 0 | the answer |
/// | 1 | `error: ` and the error |
/// | 2 | none: no type or call has this name |
/// | 3 | `error: out of memory`, or what could be written |
pub fn answer_about(rt: &HostRuntime, name: &str, question: Question) -> ExitCode {
    let mut input = Vec::new(rt.alloc());
    if rt.reader().read_to_end(&mut input).is_err() {
        return ExitCode::from(3);
    }
    match answer_by(rt.alloc(), name, question, input.as_slice()) {
        Some(Ok(text)) => status(println!(rt; "{text}"), 0),
        Some(Err(Error::OutOfMemory)) => status(println!(rt; "error: out of memory"), 3),
        Some(Err(error)) => status(println!(rt; "error: {error}"), 1),
        None => ExitCode::from(2),
    }
}
