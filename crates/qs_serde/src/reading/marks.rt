//! Marks, and how a format goes back to one.

ghost use Rattle.std.specs.Prelude.{◌≡◌};
ghost use Rattle.qs_serde.specs.Steps.{ComesBack, IsMark};
ghost use Rattle.qs_serde.specs.Tries.{marked, settled_try};

use super::format::{Asked, Mark, TreeFormat};

impl<'t, 'qs> TreeFormat<'t, 'qs> {
    /// Returns a mark of where the format is. Right after a look at the kind of a node it is taken for that of an untagged enum, whose
    /// variants have to read all of the node.
    pub(crate) fn mark_here(&mut self) -> Mark<'t, 'qs>
        ensures mark { IsMark result self.old }
        ensures marked { self.new ≡ marked self.old }
    {
        let mark = Mark {
            depth: self.around.len(),
            frame: self.frame,
            top: self.top,
            node: self.node,
            part: self.part,
            is_tried: self.is_tried,
            is_try: matches!(self.asked, Asked::Kind),
        };
        self.asked = Asked::Tried;
        self.was_tried = None;
        if mark.is_try {
            self.asked = Asked::Marked;
            self.was_tried = Some(self.is_tried);
            self.is_tried = true;
            self.part = mark.part.whole();
        }
        mark
    }

    /// The last mark wasn't that of an untagged enum.
    pub(crate) fn settle(&mut self)
        ensures { self.new ≡ record self.old { is_tried = settled_try self.old } }
    {
        if let Some(was_tried) = self.was_tried {
            self.is_tried = self.is_tried && was_tried;
        }
    }

    /// Goes back to a mark.
    #[tactic(auto, using(crate::proofs::Places::comes_back))]
    pub(crate) fn go_back(&mut self, mark: Mark<'t, 'qs>)
        ensures { ComesBack mark.entry self.old self.new }
    {
        self.around.truncate(mark.depth);
        self.frame = mark.frame;
        self.top = mark.top;
        self.node = mark.node;
        self.is_tried = self.is_tried && (mark.is_tried || mark.is_try);
        self.part = if self.is_tried {
            mark.part.whole()
        } else {
            mark.part
        };
        self.asked = Asked::Tried;
    }
}
