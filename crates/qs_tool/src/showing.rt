//! Data as the command `any` shows it.
//!
//! What is still to be written is on a stack on the heap, so data may be nested to any depth.

ghost use Rattle.std.specs.Prelude.{◌≡◌, ◌<◌, ◌++◌, OnOk};
ghost use Rattle.qs_tree.specs.Error.{OnlyOutOfMemory};
ghost use Rattle.qs_data.specs.data.Views.{data_of, values_in, pairs_in};
ghost use Rattle.qs_tool.specs.Shown.{shown, quoted, in_brackets, in_braces, shown_values, shown_pairs};
ghost use Rattle.qs_tool.specs.internal.Pieces.{Begins, piece_text, items_left, pairs_left};

use qs_tree::encode;
use serde_qs::{Data, Result};
use std::alloc::Global;

/// A piece of the line that is still to be written.
#[derive(Clone, Copy)]
enum Pending<'d> {
    /// The data.
    Datum(&'d Data),
    /// The remaining items of a list, each after a comma, and the bracket that closes it.
    Items(&'d [Data]),
    /// The value of a pair, after a colon.
    Value(&'d Data),
    /// The remaining pairs of a map, each after a comma, and the brace that closes it.
    Pairs(&'d [(Data, Data)]),
}

/// Appends the data: `()`, `'text'`, `[x,y]` or `{'k':x,'l':y}`, and `?` for data that `Shape::Any` never reads. Each open level of a
/// list or a map takes space on the heap.
pub fn show(alloc: Global, line: &mut Vec<u8>, datum: &Data) -> Result<()>
    ensures ok { OnOk result (line.new.items ≡ line.old.items ++ shown (data_of datum.now)) }
    ensures errors { OnlyOutOfMemory result }
{
    let mut stack = Vec::new(alloc);
    begin(line, &mut stack, datum)?;
    while let Some(piece) = stack.pop() {
        proceed(line, &mut stack, piece)?;
    }
    Ok(())
}

// Appends the beginning of the piece, and pushes the rest onto the stack.
fn proceed<'d>(line: &mut Vec<u8>, stack: &mut Vec<Pending<'d>>, piece: Pending<'d>) -> Result<()>
    ensures ok { OnOk result (Begins (piece_text piece.entry) line.old.items stack.old.items line.new.items stack.new.items) }
    ensures errors { OnlyOutOfMemory result }
{
    match piece {
        Pending::Datum(datum) => begin(line, stack, datum),
        Pending::Items(items) => next_item(line, stack, items),
        Pending::Value(value) => {
            line.push(b':')?;
            begin(line, stack, value)
        }
        Pending::Pairs(pairs) => next_pair(line, stack, pairs),
    }
}

// Appends the beginning of the data, and pushes the rest onto the stack.
#[tactic(auto, using(qs_data::proofs::lemmas::data::Levels::levels, crate::proofs::Pieces::begins_whole))]
fn begin<'d>(line: &mut Vec<u8>, stack: &mut Vec<Pending<'d>>, datum: &'d Data) -> Result<()>
    ensures ok { OnOk result (Begins (shown (data_of datum.now)) line.old.items stack.old.items line.new.items stack.new.items) }
    ensures errors { OnlyOutOfMemory result }
{
    match datum {
        Data::Unit => Ok(line.extend_from_slice(b"()")?),
        Data::Text(text) => show_text(line, text.as_str()),
        Data::Seq(items) => begin_list(line, stack, items),
        Data::Map(pairs) => begin_map(line, stack, pairs),
        Data::None | Data::Some(_) | Data::Bool(_) | Data::Unsigned(_) | Data::Signed(_) => {
            Ok(line.push(b'?')?)
        }
        Data::Char(_) | Data::Bytes(_) | Data::Tuple(_) | Data::Struct(_) | Data::Newtype(_) => {
            Ok(line.push(b'?')?)
        }
        Data::UnitVariant(_)
        | Data::NewtypeVariant(_, _)
        | Data::TupleVariant(_, _)
        | Data::StructVariant(_, _) => Ok(line.push(b'?')?),
    }
}

// Appends the text between quotes, escaped as form mode does.
fn show_text(line: &mut Vec<u8>, text: &str) -> Result<()>
    ensures ok { OnOk result (line.new.items ≡ line.old.items ++ quoted text.now) }
    ensures errors { OnlyOutOfMemory result }
{
    line.push(b'\'')?;
    encode(text.as_bytes(), true, line)?;
    Ok(line.push(b'\'')?)
}

// Appends the bracket that opens a list, and pushes its items onto the stack.
fn begin_list<'d>(line: &mut Vec<u8>, stack: &mut Vec<Pending<'d>>, items: &'d [Data]) -> Result<()>
    ensures ok { OnOk result (Begins (in_brackets (shown_values (values_in items.now))) line.old.items stack.old.items line.new.items stack.new.items) }
    ensures errors { OnlyOutOfMemory result }
{
    line.push(b'[')?;
    match items.split_first() {
        None => Ok(line.push(b']')?),
        Some((first, rest)) => {
            stack.push(Pending::Items(rest))?;
            Ok(stack.push(Pending::Datum(first))?)
        }
    }
}

// Appends a comma and the beginning of the next item of a list, or the bracket that closes the list.
fn next_item<'d>(line: &mut Vec<u8>, stack: &mut Vec<Pending<'d>>, items: &'d [Data]) -> Result<()>
    ensures ok { OnOk result (Begins (items_left (shown_values (values_in items.now))) line.old.items stack.old.items line.new.items stack.new.items) }
    ensures errors { OnlyOutOfMemory result }
{
    match items.split_first() {
        None => Ok(line.push(b']')?),
        Some((item, rest)) => {
            line.push(b',')?;
            stack.push(Pending::Items(rest))?;
            begin(line, stack, item)
        }
    }
}

// Appends the brace that opens a map, and pushes its pairs onto the stack.
fn begin_map<'d>(
    line: &mut Vec<u8>,
    stack: &mut Vec<Pending<'d>>,
    pairs: &'d [(Data, Data)],
) -> Result<()>
    ensures ok { OnOk result (Begins (in_braces (shown_pairs (pairs_in pairs.now))) line.old.items stack.old.items line.new.items stack.new.items) }
    ensures errors { OnlyOutOfMemory result }
{
    line.push(b'{')?;
    match pairs.split_first() {
        None => Ok(line.push(b'}')?),
        Some((pair, rest)) => {
            stack.push(Pending::Pairs(rest))?;
            stack.push(Pending::Value(&pair.1))?;
            Ok(stack.push(Pending::Datum(&pair.0))?)
        }
    }
}

// Appends a comma and the beginning of the next pair of a map, or the brace that closes the map.
fn next_pair<'d>(
    line: &mut Vec<u8>,
    stack: &mut Vec<Pending<'d>>,
    pairs: &'d [(Data, Data)],
) -> Result<()>
    ensures ok { OnOk result (Begins (pairs_left (shown_pairs (pairs_in pairs.now))) line.old.items stack.old.items line.new.items stack.new.items) }
    ensures errors { OnlyOutOfMemory result }
{
    match pairs.split_first() {
        None => Ok(line.push(b'}')?),
        Some((pair, rest)) => {
            line.push(b',')?;
            stack.push(Pending::Pairs(rest))?;
            stack.push(Pending::Value(&pair.1))?;
            begin(line, stack, &pair.0)
        }
    }
}
