//! Lists and maps that are being written.

ghost use Rattle.std.specs.Prelude.{◌≡◌, None};

/// A list or a map that is being written, or the top.
#[derive(Clone, Copy)]
pub(crate) struct Frame {
    pub(crate) kind: FrameKind,
    /// How many parts were written.
    pub(crate) count: usize,
    /// The length of the path before the part that is being written, if that part has a segment.
    pub(crate) part: Option<usize>,
}

/// What is written into it.
#[derive(Clone, Copy, PartialEq, Eq)]
pub(crate) enum FrameKind {
    /// One value, in no list or map.
    Top,
    /// The items of a list or a tuple.
    Items,
    /// The members of a map or a struct.
    Members,
    /// Members that go into the map or struct around it.
    Flattened,
}

/// What is written next.
#[derive(Clone, Copy)]
pub(crate) enum Next {
    /// A value, or the end of a list or a map.
    Value,
    /// A key.
    Key,
    /// A map or a struct whose members go into the one that is open.
    Flattened,
    /// Nothing, after an error.
    Nothing,
}

impl Frame {
    /// Returns a frame before its first part.
    pub(crate) fn new(kind: FrameKind) -> Frame
        ensures { result ≡ record { kind = kind; count = 0; part = None } }
    {
        Frame {
            kind,
            count: 0,
            part: None,
        }
    }
}
