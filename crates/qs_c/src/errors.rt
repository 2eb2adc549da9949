//! The errors of the other crates, as failures.

ghost use Rattle.std.specs.Prelude.{◌≡◌};
ghost use Rattle.qs_c.specs.Errors.{kind_of, position_of, IsFailureOf};
ghost use Rattle.qs_c.specs.Status.{MemoryHasNoText};

use crate::failure::{Failure, FailureKind};
use qs_data::Error;
use std::alloc::Global;

/// Returns the error as a failure, with its text. A failed allocation has none.
#[tactic(auto, using(crate::proofs::Messages::same_text))]
pub(crate) fn failure_of(alloc: Global, error: Error) -> Failure
    ensures failure { IsFailureOf result error }
    ensures memory { MemoryHasNoText result }
{
    let kind = kind_of(&error);
    if let FailureKind::OutOfMemory = kind {
        return Failure::out_of_memory();
    }
    let position = position_of(&error);
    match String::format(alloc, error) {
        Ok(text) => Failure::new(kind, text, position),
        Err(_) => Failure::out_of_memory(),
    }
}

// Returns the kind of an error of reading or writing. Writing goes to memory, so an `Io` error is a failed allocation.
fn kind_of(error: &Error) -> FailureKind
    ensures { result ≡ kind_of error.now }
{
    match error {
        Error::Parse(_, _) => FailureKind::Parse,
        Error::Utf8(_) => FailureKind::NotUtf8,
        Error::MaxSerializationDepthExceeded(_) => FailureKind::TooDeep,
        Error::OutOfMemory | Error::Io(_) => FailureKind::OutOfMemory,
        _ => FailureKind::Mismatch,
    }
}

// Returns the position of a parse error, or 0 for any other error.
fn position_of(error: &Error) -> usize
    ensures { result ≡ position_of error.now }
{
    match error {
        Error::Parse(_, position) => *position,
        _ => 0,
    }
}
