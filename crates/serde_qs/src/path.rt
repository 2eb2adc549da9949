//! The path to a part that isn't read, and an error with its path.

ghost use Rattle.std.specs.Prelude.{◌≡◌, ◌↔◌, [], IfOk, IsErr, IsFalse, IsTrue};

use qs_data::{Error, Result};
use qs_tree::Key;
use std::alloc::{AllocError, Global};
use std::fmt;
use std::fmt::Write;

/// A step of a [`Path`].
///
/// ```
/// let text = Step::Field("age").to_string(alloc)?; // age
/// ```
#[derive(Debug, PartialEq, Eq, Drop)]
pub enum Step {
    /// The name of a field.
    Field(&'static str),
    /// The index of an item.
    Index(usize),
    /// The key of a map, or the name of a variant.
    Key(String),
}

/// The steps from a whole value to one of its parts. It is empty for the whole.
///
/// ```
/// let field = rejection.path.to_string(alloc)?; // address[city]
/// ```
#[derive(Debug, Drop)]
pub struct Path {
    /// The steps, outermost first.
    pub steps: Vec<Step>,
}

/// The error of a typed call, with the path to the part that isn't read.
///
/// ```
/// let line = rejection.to_string(alloc)?; // per_page: invalid type: data, expected a number from 1 to 100
/// ```
#[derive(Debug, Drop)]
pub struct Rejection {
    /// The path to the part. It is empty if the part is the whole value, or if the input has no tree.
    pub path: Path,
    /// The error that the typed call returns.
    pub error: Error,
}

impl Step {
    /// Returns the step for a key, with U+FFFD for what isn't UTF-8.
    pub(crate) fn of(alloc: Global, key: &Key<'_>) -> Result<Step, AllocError> {
        match key {
            Key::Int(number) => Ok(Step::Index(*number as usize)),
            Key::String(text) => {
                let text = String::from_utf8_lossy(alloc, text.as_slice())?;
                Ok(Step::Key(String::from_str(alloc, &text)?))
            }
        }
    }
}

impl Path {
    /// Returns the path to the whole. It doesn't allocate.
    pub(crate) fn new(alloc: Global) -> Path {
        Path {
            steps: Vec::new(alloc),
        }
    }

    /// Returns whether a part isn't read, by what was read there. If so, it puts the step to the part at the start of the path; if the part
    /// is read, it clears the path.
    pub(crate) fn enters<T: Drop>(
        &mut self,
        read: Result<T>,
        step: Step,
    ) -> Result<bool, AllocError>
        ensures unread { IfOk result (λ b. IsTrue b ↔ IsErr read) }
        ensures clears { IfOk result (λ b. IsFalse b → self.new.steps.items ≡ []) }
    {
        match read {
            Ok(_) => {
                self.steps.clear();
                Ok(false)
            }
            Err(Error::OutOfMemory) => Err(AllocError),
            Err(_) => {
                self.steps.insert(0, step)?;
                Ok(true)
            }
        }
    }
}

/// A key within one line: a control character is written as its escape, such as `\u{a}`.
impl fmt::Display for Step {
    fn fmt<W: fmt::Write>(&self, f: &mut fmt::Formatter<W>) -> fmt::Result {
        match self {
            Step::Field(name) => f.write_str(name),
            Step::Index(index) => write!(f, "{index}"),
            Step::Key(key) => write_within_line(key, f),
        }
    }
}

// Prints a text, with an escape for each character that would control a terminal or end the line.
fn write_within_line<W: fmt::Write>(text: &str, f: &mut fmt::Formatter<W>) -> fmt::Result {
    for c in text.chars() {
        if c.is_control() || c == '\u{2028}' || c == '\u{2029}' {
            let escape = c.escape_unicode();
            write!(f, "{escape}")?;
        } else {
            f.write_char(c)?;
        }
    }
    Ok(())
}

/// The path as a key has it: `address[city]`.
impl fmt::Display for Path {
    fn fmt<W: fmt::Write>(&self, f: &mut fmt::Formatter<W>) -> fmt::Result {
        for (i, step) in self.steps.iter().enumerate() {
            if i == 0 {
                write!(f, "{step}")?;
            } else {
                write!(f, "[{step}]")?;
            }
        }
        Ok(())
    }
}

/// The path and the error's message. If the path is empty, the message alone.
impl fmt::Display for Rejection {
    fn fmt<W: fmt::Write>(&self, f: &mut fmt::Formatter<W>) -> fmt::Result {
        let (path, error) = (&self.path, &self.error);
        if path.steps.is_empty() {
            write!(f, "{error}")
        } else {
            write!(f, "{path}: {error}")
        }
    }
}
