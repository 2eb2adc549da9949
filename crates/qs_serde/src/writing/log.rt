//! The events that a serializer was sent. Only contracts see them.

ghost use Rattle.std.specs.Prelude.{◌≡◌, [], Some};
ghost use base.Fml.{ftrue};
ghost use Rattle.serde.specs.Event.{Log as Events};
ghost use Rattle.qs_serde.specs.Logged.{log_code};

use serde::Case;
use std::marker::Model;

/// The events so far, if they are known. At run time it has no bytes.
#[derive(Drop)]
pub(crate) struct Log {
    ghost events: { Events } by { log_code },
}

impl Model for Log {
    ghost also_owns = { λ _. ftrue };
}

/// One event, with what the serializer was given.
#[derive(Clone, Copy)]
pub(crate) enum Note<'a> {
    Bool(bool),
    I64(i64),
    U64(u64),
    I128(i128),
    U128(u128),
    Single(f32),
    Double(f64),
    Char(char),
    Text(&'a str),
    Bytes(&'a [u8]),
    Unit,
    UnitVariant(&'a str, Case),
    BeginSeq(Option<usize>),
    EndSeq,
    BeginMap(Option<usize>),
    EndMap,
    FieldKey(&'a str, Case),
    VariantKey(&'a str, Case),
    BeginKey,
    EndKey,
    Flatten,
    /// A text that contracts don't know. From then on they don't know what was written.
    Printed,
}

impl Log {
    ghost use Rattle.qs_serde.specs.Noted.{noted};

    /// Returns an empty log.
    pub(crate) fn new() -> Log
        ensures { result.events ≡ Some [] }
    {
        Log {}
    }

    /// Returns the log with one more event.
    #[inline(always)]
    pub(crate) fn then(&self, _note: &Note<'_>) -> Log
        ensures { result.events ≡ noted self.now.events _note.now }
    {
        Log {}
    }
}
