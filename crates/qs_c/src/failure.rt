//! Why a call failed.

ghost use Rattle.std.specs.Prelude.{◌≡◌, ◌⊎◌, [], string_bytes};
ghost use Rattle.qs_c.specs.Status.{code_of, text_of, IsDone, IsOutOfMemory};

use std::alloc::{AllocError, AllocFailed, Global};

/// The kinds of errors, each a status of the header.
#[derive(Clone, Copy)]
pub(crate) enum FailureKind {
    /// An allocation failed.
    OutOfMemory,
    /// A number in the settings is too large.
    Settings,
    /// The querystring can't be parsed.
    Parse,
    /// The querystring doesn't fit the shape, or the part at the path isn't a value.
    Mismatch,
    /// A string that is read isn't UTF-8.
    NotUtf8,
    /// The text isn't a shape.
    Shape,
    /// The text can't be read as JSON.
    Json,
    /// A value nests deeper than the settings allow.
    TooDeep,
    /// The querystring is larger than the settings allow.
    TooLarge,
    /// The JSON is longer than the settings allow.
    TooLong,
    /// The path leads nowhere.
    Absent,
    /// The path isn't a key.
    Path,
}

impl FailureKind {
    /// Returns the status of this kind.
    pub(crate) fn code(self) -> u32
        ensures code { result ≡ code_of self }
        ensures failed { IsDone result → ⊥ }
    {
        match self {
            FailureKind::OutOfMemory => 2,
            FailureKind::Settings => 3,
            FailureKind::Parse => 4,
            FailureKind::Mismatch => 5,
            FailureKind::NotUtf8 => 6,
            FailureKind::Shape => 7,
            FailureKind::Json => 8,
            FailureKind::TooDeep => 9,
            FailureKind::TooLarge => 10,
            FailureKind::TooLong => 11,
            FailureKind::Absent => 12,
            FailureKind::Path => 13,
        }
    }
}

/// An error: its kind, text and position.
#[derive(Drop)]
pub(crate) struct Failure {
    pub(crate) kind: FailureKind,
    /// The text for a user; `None` if an allocation failed.
    pub(crate) text: Option<String>,
    /// The number of bytes before the error if a text can't be parsed; otherwise 0.
    pub(crate) position: usize,
}

impl Failure {
    ghost use Rattle.qs_c.specs.declared.failure.FailureKind.TheVariants.{OutOfMemory};

    /// Returns the error of a failed allocation. It has neither a text nor a position.
    pub(crate) fn out_of_memory() -> Failure
        ensures kind { result.kind ≡ OutOfMemory }
        ensures position { result.position ≡ 0 }
        ensures text { text_of result ≡ [] }
    {
        Failure {
            kind: FailureKind::OutOfMemory,
            text: None,
            position: 0,
        }
    }

    /// Returns the error of this kind, with this text and position.
    pub(crate) fn new(kind: FailureKind, text: String, position: usize) -> Failure
        ensures kind { result.kind ≡ kind }
        ensures position { result.position ≡ position }
        ensures text { text_of result ≡ string_bytes text }
    {
        Failure {
            kind,
            text: Some(text),
            position,
        }
    }
}

/// Returns the error of this kind, with this text and position, or `OutOfMemory` if the text can't be allocated.
pub(crate) fn failure_at(alloc: Global, kind: FailureKind, text: &str, position: usize) -> Failure
    ensures { IsOutOfMemory result ⊎ ((result.kind ≡ kind) × (result.position ≡ position) × (text_of result ≡ text.now)) }
{
    match String::from_str(alloc, text) {
        Ok(text) => Failure::new(kind, text, position),
        Err(_) => Failure::out_of_memory(),
    }
}

impl From<AllocError> for Failure {
    ghost use Rattle.qs_c.specs.Status.{IsOutOfMemory};

    ghost from_gives = { λ _ failure. IsOutOfMemory failure };

    fn from(_: AllocError) -> Failure {
        Failure::out_of_memory()
    }
}

impl<T: Drop> From<AllocFailed<T>> for Failure {
    ghost use Rattle.qs_c.specs.Status.{IsOutOfMemory};

    ghost from_gives = { λ _ failure. IsOutOfMemory failure };

    fn from(_: AllocFailed<T>) -> Failure {
        Failure::out_of_memory()
    }
}
