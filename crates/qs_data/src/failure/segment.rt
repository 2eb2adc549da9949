//! The segments of a path.

ghost use Rattle.std.specs.Prelude.{◌≡◌, IfOk};
ghost use Rattle.qs_tree.specs.tree.Views.{segment_of_key};
ghost use Rattle.qs_data.specs.failure.Mismatch.{segment_of};

use crate::failure::line::write_bytes;
use qs_tree::Key;
use std::alloc::{AllocError, Global};
use std::fmt;

/// A segment of a path: the part of a key in a pair of brackets, or before the first bracket.
///
/// ```
/// let text = Segment::Index(1).to_string(alloc)?; // 1
/// ```
#[derive(Debug, PartialEq, Eq, Drop)]
pub enum Segment {
    /// The index of an item, or an integer key.
    Index(usize),
    /// The name of a field or a variant, or any other key, decoded. It need not be UTF-8.
    Key(Vec<u8>),
}

impl Segment {
    /// Returns a key as a segment.
    pub(crate) fn of(alloc: Global, key: &Key<'_>) -> Result<Segment, AllocError>
        ensures { IfOk result (λ segment. segment_of segment ≡ segment_of_key key.now) }
    {
        match key {
            Key::Int(number) => Ok(Segment::Index(*number as usize)),
            Key::String(text) => Ok(Segment::Key(text.as_slice().to_vec(alloc)?)),
        }
    }
}

/// One line. A key is printed as text, with U+FFFD for invalid UTF-8 and an escape such as `\u{a}` for a control character.
impl fmt::Display for Segment {
    fn fmt<W: fmt::Write>(&self, f: &mut fmt::Formatter<W>) -> fmt::Result {
        match self {
            Segment::Index(index) => write!(f, "{index}"),
            Segment::Key(key) => write_bytes(key, f),
        }
    }
}
