//! Lists and maps that are being read.

ghost use Rattle.std.specs.Prelude.{◌≡◌, ◌<◌, ◌-◌, suc};

use qs_tree::ParsedValue;

/// A list or a map that is being read.
#[derive(Clone, Copy)]
pub(crate) struct Frame {
    pub(crate) kind: FrameKind,
    /// The index of the next item or entry. The current one is at the index before.
    pub(crate) next: usize,
    /// The next field, if fields are read in their own order.
    pub(crate) field: usize,
}

/// A list or a map that is being read, with another open in it.
#[derive(Clone, Copy)]
pub(crate) struct Outer<'t, 'qs> {
    pub(crate) frame: Frame,
    /// Its node.
    pub(crate) top: &'t ParsedValue<'qs>,
}

/// What is read from it.
#[derive(Clone, Copy)]
pub(crate) enum FrameKind {
    /// The items of a list or a tuple.
    Items,
    /// The fields of a struct, by their names.
    Fields,
    /// The fields of a struct, by their positions in a sequence.
    Places,
    /// The entries of a map, or the variant that its first key names.
    Map,
}

impl Frame {
    /// Returns a frame before its first item or entry.
    pub(crate) fn new(kind: FrameKind) -> Frame
        ensures { result ≡ record { kind = kind; next = 0; field = 0 } }
    {
        Frame {
            kind,
            next: 0,
            field: 0,
        }
    }

    /// Returns the frame one item or entry further.
    #[inline(always)]
    pub(crate) fn advanced(self) -> Frame
        ensures next { self.next < 18446744073709551615 → result ≡ record self { next = suc self.next } }
        ensures field { result.field ≡ self.field }
    {
        Frame {
            next: self.next.saturating_add(1),
            ..self
        }
    }

    /// Returns the frame at the item or entry of this index.
    pub(crate) fn over(self, at: usize) -> Frame {
        Frame {
            next: at.saturating_add(1),
            ..self
        }
    }

    /// Returns the index of the current item or entry, or 0 before the first.
    pub(crate) fn last_index(self) -> usize
        ensures { result ≡ self.next - 1 }
    {
        self.next.saturating_sub(1)
    }
}
