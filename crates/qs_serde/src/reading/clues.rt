//! What is kept for an error while a tree is read again.

ghost use Rattle.std.specs.Prelude.{◌≡◌, IfErr};
ghost use Rattle.qs_data.specs.declared.read.error.ReadError.TheVariants.{OutOfMemory};

use super::format::TreeFormat;
use super::{ReadError, Result};
use serde::Name;
use std::alloc::Global;

/// The names that were requested, and a variant's name that there isn't.
#[derive(Drop)]
pub(crate) struct Clues {
    names: Vec<Requested>,
    // Which of them was noted last.
    last: usize,
    /// Where the text is that names no variant, if the last one that was looked up doesn't.
    pub(crate) variant: Option<Place>,
}

/// A place in the open lists and maps.
#[derive(Clone, Copy)]
pub(crate) struct Place {
    /// How many are open there.
    pub(crate) depth: usize,
    /// The index of the item or entry in the innermost.
    pub(crate) at: usize,
}

// The name of a key, as a derive reports it and as it is in a querystring.
#[derive(Drop)]
struct Requested {
    // How many lists and maps are open around the node that has the key.
    depth: usize,
    name: String,
    key: String,
}

impl Requested {
    // Returns a name as it is in a querystring.
    fn new(alloc: Global, depth: usize, name: &Name<'_>) -> Result<Requested>
        ensures { IfErr result (λ e. e ≡ OutOfMemory) }
    {
        let mut key = String::new(alloc);
        name.case.append(name.kind, name.name, &mut key)?;
        Ok(Requested {
            depth,
            name: String::from_str(alloc, name.name)?,
            key,
        })
    }

    fn is(&self, depth: usize, name: &str) -> bool {
        self.depth == depth && self.name.as_str() == name
    }
}

impl Clues {
    /// Returns what is known before a read.
    pub(crate) fn none(alloc: Global) -> Clues {
        Clues {
            names: Vec::new(alloc),
            last: 0,
            variant: None,
        }
    }

    // Notes a name, in the place of one that was requested at this depth before.
    fn note(&mut self, alloc: Global, depth: usize, name: &Name<'_>) -> Result<()>
        ensures { IfErr result (λ e. e ≡ OutOfMemory) }
    {
        let requested = Requested::new(alloc, depth, name)?;
        for at in 0..self.names.len() {
            if self.names[at].is(depth, name.name) {
                self.names[at] = requested;
                self.last = at;
                return Ok(());
            }
        }
        self.last = self.names.len();
        Ok(self.names.push(requested)?)
    }

    // Notes the names of a struct at this depth.
    fn note_all(&mut self, alloc: Global, depth: usize, names: &[Name<'_>]) -> Result<()>
        ensures { IfErr result (λ e. e ≡ OutOfMemory) }
    {
        for name in names {
            if !name.skipped {
                self.note(alloc, depth, name)?;
            }
        }
        Ok(())
    }

    // Returns the key of a name that was requested at this depth.
    fn key_of<'c>(&'c self, depth: usize, name: &'c str) -> &'c str {
        for requested in &self.names {
            if requested.is(depth, name) {
                return requested.key.as_str();
            }
        }
        name
    }
}

impl<'t, 'qs> TreeFormat<'t, 'qs> {
    /// Notes the names of a struct at its end, or the name that a key matches.
    pub(crate) fn note_names(&mut self, names: &[Name<'_>], found: Option<usize>) -> Result<()>
        ensures kept { self.new ≡ record self.old { clues = self.new.clues } }
        ensures errors { IfErr result (λ e. e ≡ OutOfMemory) }
    {
        let depth = self.depth();
        match found {
            Some(at) => match names.get(at) {
                Some(name) => self
                    .clues
                    .note(self.reader.alloc, depth.saturating_sub(1), name),
                None => Ok(()),
            },
            None => self.clues.note_all(self.reader.alloc, depth, names),
        }
    }

    /// Notes where the text is that was looked up among names, if it is none of them.
    pub(crate) fn note_variant(&mut self, is_known: bool)
        ensures { self.new ≡ record self.old { clues = self.new.clues } }
    {
        if !self.search.in_order {
            return;
        }
        let at = match self.frame {
            Some(frame) => frame.last_index(),
            None => 0,
        };
        self.clues.variant = if is_known {
            None
        } else {
            Some(Place {
                depth: self.depth(),
                at,
            })
        };
    }

    /// Returns how many lists and maps are open.
    pub(crate) fn depth(&self) -> usize {
        let inner = if self.frame.is_some() { 1 } else { 0 };
        self.around.len().saturating_add(inner)
    }

    /// Returns the key of a field of the current node, by the name that a derive reports.
    pub(crate) fn key_of<'c>(&'c self, name: &'c str) -> &'c str {
        self.clues.key_of(self.depth(), name)
    }

    /// Returns the key that was requested last in the innermost map, or this name if there is none.
    pub(crate) fn last_key<'c>(&'c self, name: &'c str) -> &'c str {
        match self.clues.names.get(self.clues.last) {
            Some(requested) if requested.depth.saturating_add(1) == self.depth() => {
                requested.key.as_str()
            }
            _ => name,
        }
    }

    /// Returns the error of the key that was requested last, which there isn't.
    pub(crate) fn no_content(&self) -> ReadError {
        match self.clues.names.get(self.clues.last) {
            Some(requested) => self.error(self.reader.missing_field(requested.key.as_str())),
            None => self.no_value(),
        }
    }
}
