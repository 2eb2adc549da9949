//! A part that isn't read, and what is wrong with it.

ghost use Rattle.std.specs.Prelude.{◌≡◌, ◌∷◌, IfOk};
ghost use Rattle.qs_data.specs.failure.Mismatch.{path_of, segment_of};

use crate::failure::actual::Actual;
use crate::failure::expected::{Expected, OneOfNames};
use crate::failure::segment::Segment;
use std::alloc::AllocError;
use std::fmt;

/// A part of a tree that its shape doesn't read.
///
/// ```
/// let line = mismatch.to_string(alloc)?; // user[age]: expected u8, found the text "x"
/// ```
#[derive(Debug, Drop)]
pub struct Mismatch {
    /// The path to the part: the segments of a key that leads to it. It is empty if the part is the whole tree.
    pub path: Vec<Segment>,
    /// What is wrong with it.
    pub problem: Problem,
}

/// What is wrong with a part.
///
/// ```
/// let message = mismatch.problem.to_string(alloc)?; // expected u8, found the text "x"
/// ```
#[derive(Debug, Drop)]
pub enum Problem {
    /// What is expected, and what was found.
    Unfit(Expected, Actual),
    /// The part has this key, which its shape doesn't allow: no field or variant has it, the key shape of a map doesn't read it,
    /// or it isn't UTF-8. The second value is what is expected of the part: for an enum, its variants.
    UnexpectedKey(Segment, Expected),
}

impl Mismatch {
    /// Returns the mismatch with this segment in front of its path.
    pub(crate) fn under(self, segment: Segment) -> Result<Mismatch, AllocError>
        ensures path { IfOk result (λ m. path_of m ≡ segment_of segment ∷ path_of self) }
        ensures problem { IfOk result (λ m. m.problem ≡ self.problem) }
    {
        let Mismatch { mut path, problem } = self;
        path.insert(0, segment)?;
        Ok(Mismatch { path, problem })
    }
}

/// The path as in a key, `user[address][zip]`, and the problem. If the path is empty, only the problem.
impl fmt::Display for Mismatch {
    fn fmt<W: fmt::Write>(&self, f: &mut fmt::Formatter<W>) -> fmt::Result {
        for (i, segment) in self.path.iter().enumerate() {
            if i == 0 {
                write!(f, "{segment}")?;
            } else {
                write!(f, "[{segment}]")?;
            }
        }
        if !self.path.is_empty() {
            f.write_str(": ")?;
        }
        let problem = &self.problem;
        write!(f, "{problem}")
    }
}

impl fmt::Display for Problem {
    fn fmt<W: fmt::Write>(&self, f: &mut fmt::Formatter<W>) -> fmt::Result {
        match self {
            Problem::Unfit(expected, actual) => write!(f, "expected {expected}, found {actual}"),
            Problem::UnexpectedKey(key, Expected::OneOf(names)) => {
                let expected = OneOfNames(names);
                write!(f, "unexpected key \"{key}\", expected {expected}")
            }
            Problem::UnexpectedKey(key, _) => write!(f, "unexpected key \"{key}\""),
        }
    }
}
