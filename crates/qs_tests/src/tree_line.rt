//! Trees written as one line, for tests and for golden cases.
//!
//! A map is `{key:value,..}`, and a sequence is `[value,..]`. Integer keys aren't quoted. Other values are `NoValue`, `Null` and
//! `Uninit`. A `*` after a text or a key says that its bytes are owned, and not borrowed from the input.
#![tactic(auto)]

use qs_tree::{Key, ParsedMap, ParsedValue};
use std::alloc::{AllocError, Global};
use std::borrow::CowSlice;

/// How the bytes of texts and keys are written.
#[derive(Clone, Copy)]
pub enum Texts {
    /// Between single quotes: printable ASCII as it is, and any other byte as `\x` and two digits.
    Quoted,
    /// Between double quotes, in hexadecimal.
    Hexadecimal,
}

/// What is still to be written.
#[derive(Clone, Copy)]
enum Pending<'t, 'qs> {
    Sign(&'static str),
    Key(&'t Key<'qs>),
    Value(&'t ParsedValue<'qs>),
}

/// Returns the tree as one line.
///
/// Its time and memory grow with the tree. No tree is too deep.
pub fn line(alloc: Global, tree: &ParsedValue<'_>, texts: Texts) -> Result<String, AllocError> {
    let mut line = String::new(alloc);
    let mut rest = vec![in alloc; Pending::Value(tree)]?;
    for _ in 0..u64::MAX {
        match rest.pop() {
            None => break,
            Some(Pending::Sign(sign)) => line.push_str(sign)?,
            Some(Pending::Key(Key::Int(index))) => line.push_str(&format!(in alloc; "{index}")?)?,
            Some(Pending::Key(Key::String(text))) => push_text(&mut line, text, texts)?,
            Some(Pending::Value(value)) => push_value(&mut line, &mut rest, value, texts)?,
        }
    }
    Ok(line)
}

// Appends the beginning of a node, and keeps the rest.
fn push_value<'t, 'qs>(
    line: &mut String,
    rest: &mut Vec<Pending<'t, 'qs>>,
    value: &'t ParsedValue<'qs>,
    texts: Texts,
) -> Result<(), AllocError> {
    match value {
        ParsedValue::String(text) => push_text(line, text, texts),
        ParsedValue::Null => line.push_str("Null"),
        ParsedValue::NoValue => line.push_str("NoValue"),
        ParsedValue::Uninitialized => line.push_str("Uninit"),
        ParsedValue::Sequence(items) => {
            line.push('[')?;
            stack_items(rest, items)
        }
        ParsedValue::Map(map) => {
            line.push('{')?;
            stack_entries(rest, map)
        }
    }
}

// Returns the pieces of a sequence, the last one first.
fn stack_items<'t, 'qs>(
    rest: &mut Vec<Pending<'t, 'qs>>,
    items: &'t Vec<ParsedValue<'qs>>,
) -> Result<(), AllocError> {
    rest.push(Pending::Sign("]"))?;
    for (place, item) in items.iter().enumerate().rev() {
        rest.push(Pending::Value(item))?;
        if place > 0 {
            rest.push(Pending::Sign(","))?;
        }
    }
    Ok(())
}

// Returns the pieces of a map, the last one first.
fn stack_entries<'t, 'qs>(
    rest: &mut Vec<Pending<'t, 'qs>>,
    map: &'t ParsedMap<'qs>,
) -> Result<(), AllocError> {
    rest.push(Pending::Sign("}"))?;
    for place in (0..map.len()).rev() {
        let Some((key, value)) = map.at(place) else {
            continue;
        };
        rest.push(Pending::Value(value))?;
        rest.push(Pending::Sign(":"))?;
        rest.push(Pending::Key(key))?;
        if place > 0 {
            rest.push(Pending::Sign(","))?;
        }
    }
    Ok(())
}

// Writes a text after the line.
fn push_text(line: &mut String, text: &CowSlice<'_, u8>, texts: Texts) -> Result<(), AllocError> {
    match texts {
        Texts::Quoted => push_quoted(line, text.as_slice())?,
        Texts::Hexadecimal => push_hexadecimal(line, text.as_slice())?,
    }
    match text {
        CowSlice::Borrowed(_) => Ok(()),
        CowSlice::Owned(_) => line.push('*'),
    }
}

// Returns the bytes between single quotes. Bytes other than printable ASCII are escaped.
fn push_quoted(line: &mut String, bytes: &[u8]) -> Result<(), AllocError> {
    line.push('\'')?;
    for byte in bytes {
        match byte {
            b' '..=b'~' => line.push(char::from(*byte))?,
            _ => {
                line.push_str("\\x")?;
                push_byte(line, *byte)?;
            }
        }
    }
    line.push('\'')
}

// Returns the bytes between double quotes, in hexadecimal digits.
fn push_hexadecimal(line: &mut String, bytes: &[u8]) -> Result<(), AllocError> {
    line.push('"')?;
    for byte in bytes {
        push_byte(line, *byte)?;
    }
    line.push('"')
}

// Returns two hexadecimal digits.
fn push_byte(line: &mut String, byte: u8) -> Result<(), AllocError> {
    line.push(digit(byte / 16))?;
    line.push(digit(byte % 16))
}

// Returns a hexadecimal digit.
fn digit(value: u8) -> char {
    char::from_digit(u32::from(value), 16).unwrap_or('?')
}
