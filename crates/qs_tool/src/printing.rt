//! What a command prints for the input that it reads.

ghost use Rattle.std.specs.Prelude.{◌≡◌, Some, IfOk};
ghost use Rattle.qs_spec.specs.Shape as s;
ghost use Rattle.qs_spec.specs.Tree.{IsTree, HasNoTree};
ghost use Rattle.qs_tree.specs.Error.{IsParse, OnlyParseOrOutOfMemory};
ghost use Rattle.qs_data.specs.read.Errors.{OnlyCustomUtf8OrOutOfMemory};
ghost use Rattle.qs_data.specs.read.Parsed.{ReturnsData, parsed_of};
ghost use Rattle.qs_tool.specs.InputError.{IfInputError};
ghost use Rattle.qs_tool.specs.Line.{IsFaulty, IsFaultyBy, IsPrinted, IsPrintedBy, rewritten};
ghost use Rattle.qs_tool.specs.Shown.{shown};
ghost use Rattle.qs_tool.specs.internal.Exact.{IsExact};

use crate::arguments::{Command, Request};
use crate::flat::Flat;
use crate::params::{Address, Params};
use crate::showing::show;
use crate::strict::Strict;
use serde_qs::{Config, ConfigExt, Data, Deserializer, Result, RoundTrip, Shape};
use std::alloc::Global;

/// Returns what is printed for the input, or why the input is rejected.
pub fn printed(alloc: Global, request: Request, input: &[u8]) -> Result<Vec<u8>>
    ensures text { IfOk result (λ text. IsPrinted request input.now text.items) }
    ensures fault { IfInputError result (IsFaulty request input.now) }
{
    let config = request.config;
    match (request.command, request.strict) {
        (Command::Flat, false) => rewritten::<Flat>(alloc, config, input),
        (Command::Flat, true) => rewritten::<Strict<Flat>>(alloc, config, input),
        (Command::Params, false) => rewritten::<Params<Address>>(alloc, config, input),
        (Command::Params, true) => {
            rewritten::<Strict<Params<Strict<Address>>>>(alloc, config, input)
        }
        (Command::Any, _) => printed_any(alloc, config, input),
    }
}

// Reads a value from the input, and returns the querystring that it is written as.
fn rewritten<T: RoundTrip + Drop>(alloc: Global, config: Config, input: &[u8]) -> Result<Vec<u8>>
    requires { IsExact T.table.value T.datum T.table.shape T.table.meaning }
    ensures text { IfOk result (λ text. IsPrintedBy config T.table.shape (rewritten config) input.now text.items) }
    ensures fault { IfInputError result (IsFaultyBy config T.table.shape (rewritten config) input.now) }
{
    let value: T = config.deserialize_bytes(alloc, input)?;
    Ok(config.serialize_string(alloc, &value)?.into_bytes())
}

// Returns the data that is read from the input, as it is shown.
fn printed_any(alloc: Global, config: Config, input: &[u8]) -> Result<Vec<u8>>
    ensures text { IfOk result (λ text. IsPrintedBy config s.Shape.any (λ d. Some (shown d)) input.now text.items) }
    ensures fault { IfInputError result (IsFaultyBy config s.Shape.any (λ d. Some (shown d)) input.now) }
{
    let deserializer = parsed(alloc, config, input)?;
    let value = read_data(alloc, deserializer)?;
    let mut text = Vec::new(alloc);
    let shown = show(alloc, &mut text, &value);
    value.discard();
    shown?;
    Ok(text)
}

// Parses the input as a querystring. States only the clauses that are needed here.
fn parsed<'qs>(alloc: Global, config: Config, input: &'qs [u8]) -> Result<Deserializer<'qs>>
    ensures config { IfOk result (λ d. (parsed_of d).config ≡ config) }
    ensures tree { IfOk result (λ d. IsTree config.is_form config.max_depth input.now (parsed_of d).tree) }
    ensures no_tree { IsParse result → HasNoTree config.is_form config.max_depth input.now }
    ensures errors { OnlyParseOrOutOfMemory result }
{
    Deserializer::with_config(alloc, config, input)
}

// Reads any data from a querystring. States only the clauses that are needed here.
fn read_data(alloc: Global, deserializer: Deserializer<'_>) -> Result<Data>
    ensures exact { ReturnsData (parsed_of deserializer.entry) s.Shape.any result }
    ensures errors { OnlyCustomUtf8OrOutOfMemory result }
{
    deserializer.read(alloc, &Shape::Any)
}
