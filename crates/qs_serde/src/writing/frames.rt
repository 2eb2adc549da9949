//! The lists and maps around the one that is being written.

ghost use Rattle.std.specs.Prelude.{◌≡◌, ◌++◌, ◌∷◌, [], MatchOption, OnOk};

use super::frame::Frame;
use std::alloc::{AllocFailed, Global};
use std::marker::Model;

/// Frames, the innermost last. The first takes no allocation, so that a flat struct needs none.
#[derive(Drop)]
pub(crate) struct Frames {
    first: Option<Frame>,
    rest: Vec<Frame>,
}

impl Model for Frames {
    ghost use Rattle.std.specs.Prelude.{◌≡◌, ◌++◌, [], List, None, option_to_list};
    ghost use Rattle.qs_serde.specs.declared.writing.frame.Frame.{Frame};

    ghost Value = { List Frame };

    ghost view = { λ f. option_to_list f.first ++ f.rest.items };

    ghost invariant = { λ f. f.first ≡ None → f.rest.items ≡ [] };
}

impl Frames {
    /// Returns no frames.
    pub(crate) fn new(alloc: Global) -> Frames
        ensures { result ≡ [] }
    {
        Frames {
            first: None,
            rest: Vec::new(alloc),
        }
    }

    /// Adds the innermost frame.
    #[inline(always)]
    pub(crate) fn push(&mut self, frame: Frame) -> Result<(), AllocFailed<Frame>>
        ensures { OnOk result (self.new ≡ self.old ++ frame ∷ []) }
    {
        if self.first.is_some() {
            return self.rest.push(frame);
        }
        self.first = Some(frame);
        Ok(())
    }

    /// Removes the innermost frame and returns it, if there is one.
    #[inline(always)]
    pub(crate) fn pop(&mut self) -> Option<Frame>
        ensures { MatchOption result (self.old ≡ []) (λ frame. self.old ≡ self.new ++ frame ∷ []) }
    {
        match self.rest.pop() {
            Some(frame) => Some(frame),
            None => self.first.take(),
        }
    }
}
