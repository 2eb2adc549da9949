//! The source of a value's parts.

ghost use Rattle.serde_qs.specs.Sources.{ReadsSource};

use crate::path::Path;
use crate::traits::Deserialize;
use qs_data::{Data, Reader, Result};
use qs_tree::ParsedValue;
use std::alloc::Global;

/// The source of a value's parts: data, or a node of a tree. It is passed to [`Compound::read`](crate::Compound::read), which passes it on
/// to its [`Parts`](crate::Parts).
///
/// ```
/// let point = Point::read(Source::Data(alloc, datum))?;
/// ```
#[derive(Drop)]
pub enum Source<'t, 'qs> {
    /// Data, and the allocator.
    Data(Global, Data),
    /// A node, and how it is read.
    Node(Reader, &'t ParsedValue<'qs>),
    /// The same, and the path into which the steps to the part that isn't read are put.
    Traced(Reader, &'t ParsedValue<'qs>, &'t mut Path),
}

impl Source<'_, '_> {
    /// Returns the allocator, in constant time. It doesn't allocate.
    ///
    /// ```
    /// let alloc = source.alloc();
    /// ```
    pub fn alloc(&self) -> Global {
        match self {
            Source::Data(alloc, _) => *alloc,
            Source::Node(reader, _) | Source::Traced(reader, _, _) => reader.alloc,
        }
    }

    /// Reads the value that represents the whole, such as the number of a type that allows only some numbers.
    ///
    /// ```
    /// let years: u8 = source.value()?;
    /// ```
    ///
    /// Errors, allocation and time are the same as for [`from_data`](Deserialize::from_data) or [`from_node`](Deserialize::from_node).
    pub fn value<T: Deserialize>(self) -> Result<T>
        ensures { ReadsSource T.table.value T.table.shape T.table.meaning self.entry result }
    {
        match self {
            Source::Data(alloc, datum) => T::from_data(alloc, datum),
            Source::Node(reader, node) => T::from_node(reader, node),
            Source::Traced(reader, node, path) => T::from_traced(reader, node, path),
        }
    }
}
