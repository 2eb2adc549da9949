//! What is found at a part.

ghost use Rattle.std.specs.Prelude.{IfOk};
ghost use Rattle.qs_tree.specs.tree.Views.{tree_of};
ghost use Rattle.qs_data.specs.failure.Expected.{Stands};

use crate::failure::line::write_bytes;
use qs_tree::ParsedValue;
use std::alloc::{AllocError, Global};
use std::fmt;

/// What is found at a part.
///
/// ```
/// let text = Actual::Map.to_string(alloc)?; // nested keys
/// ```
#[derive(Debug, PartialEq, Eq, Drop)]
pub enum Actual {
    /// A key without `=`.
    NoValue,
    /// A key with nothing after `=`.
    Empty,
    /// A text, decoded. It need not be UTF-8.
    Text(Vec<u8>),
    /// Several values of one key.
    List,
    /// Nested keys.
    Map,
    /// No pair at all.
    Nothing,
}

impl Actual {
    /// Returns what is found at a node. Allocates for a text.
    pub(crate) fn at(alloc: Global, node: &ParsedValue<'_>) -> Result<Actual, AllocError>
        ensures { IfOk result (λ actual. Stands actual (tree_of node.now)) }
    {
        Ok(match node {
            ParsedValue::NoValue => Actual::NoValue,
            ParsedValue::Null => Actual::Empty,
            ParsedValue::String(text) => Actual::Text(text.as_slice().to_vec(alloc)?),
            ParsedValue::Sequence(_) => Actual::List,
            ParsedValue::Map(_) => Actual::Map,
            ParsedValue::Uninitialized => Actual::Nothing,
        })
    }
}

/// One line. A text is in double quotes, with U+FFFD for invalid UTF-8 and an escape such as `\u{a}` for a control character.
impl fmt::Display for Actual {
    fn fmt<W: fmt::Write>(&self, f: &mut fmt::Formatter<W>) -> fmt::Result {
        let name = match self {
            Actual::Text(bytes) => {
                f.write_str("the text \"")?;
                write_bytes(bytes, f)?;
                return f.write_str("\"");
            }
            Actual::NoValue => "no value",
            Actual::Empty => "an empty value",
            Actual::List => "several values",
            Actual::Map => "nested keys",
            Actual::Nothing => "nothing",
        };
        f.write_str(name)
    }
}
