//! Why reading fails, on the way to the caller.

ghost use Rattle.std.specs.Prelude.{◌≡◌};
ghost use Rattle.qs_tree.specs.Error.{IsCustomSaying};
ghost use Rattle.qs_data.specs.read.Errors.{IsOfReading, OnlyCustomUtf8OrOutOfMemory};
ghost use Rattle.qs_data.specs.read.Narrowed.{IsNarrowed, IsPassedOn, error_of};
ghost use Rattle.qs_tree.specs.declared.error.Error.TheVariants as e;
ghost use Rattle.qs_data.specs.declared.read.error.ReadError.TheVariants.{OutOfMemory};

use qs_tree::Error;
use std::alloc::{AllocError, AllocFailed, Global};
use std::fmt::Display;
use std::str::Utf8Error;

/// The result of a function that reads: a value, or why there is none.
pub(crate) type Result<T, E = ReadError> = std::result::Result<T, E>;

/// The errors of reading. Each level of a tree passes them on, so they are small: a box holds what they say.
///
/// ```
/// Err(error) => Err(Error::from(error)), // the public error
/// ```
#[derive(Drop)]
pub enum ReadError {
    /// The tree doesn't fit what is read from it; the message says why.
    Custom(Box<String>),
    /// Bytes that are read as text aren't UTF-8.
    Utf8(Box<Utf8Error>),
    /// An allocation failed.
    OutOfMemory,
}

impl ReadError {
    /// Converts an error of reading to the type that reading passes on: the same kind, with the same contents, or
    /// [`OutOfMemory`](ReadError::OutOfMemory) if its box can't be allocated.
    ///
    /// ```
    /// Found::Several => Err(ReadError::of(alloc, reader.duplicate_field("1"))),
    /// ```
    #[inline(always)]
    pub fn of(alloc: Global, error: Error) -> ReadError
        requires { IsOfReading error }
        ensures { IsPassedOn error result }
    {
        match error {
            Error::Custom(message) => ReadError::custom(alloc, message),
            Error::Utf8(cause) => ReadError::utf8(alloc, cause),
            Error::OutOfMemory => ReadError::OutOfMemory,
            _ => unreachable!(),
        }
    }

    /// Converts the error of a result, as [`of`](ReadError::of) does. It allocates only for an error.
    ///
    /// ```
    /// Found::One(node) => ReadError::of_result(alloc, T::from_node(reader, node)),
    /// ```
    #[inline(always)]
    pub fn of_result<T>(alloc: Global, given: Result<T, Error>) -> Result<T>
        requires { OnlyCustomUtf8OrOutOfMemory given }
        ensures { IsNarrowed given result }
    {
        match given {
            Ok(value) => Ok(value),
            Err(error) => Err(ReadError::of(alloc, error)),
        }
    }

    /// Returns the error of bytes that aren't UTF-8, or `OutOfMemory` if its box can't be allocated.
    ///
    /// ```
    /// Err(cause) => Err(ReadError::utf8(alloc, cause)),
    /// ```
    #[cold]
    #[inline(never)]
    pub fn utf8(alloc: Global, cause: Utf8Error) -> ReadError
        ensures { IsPassedOn (e.Utf8 cause) result }
    {
        match Box::new(alloc, cause) {
            Ok(cause) => ReadError::Utf8(cause),
            Err(_) => ReadError::OutOfMemory,
        }
    }

    // Returns the error with this message, or that its box can't be allocated.
    #[cold]
    #[inline(never)]
    fn custom(alloc: Global, message: String) -> ReadError
        ensures { IsPassedOn (e.Custom message) result }
    {
        match Box::new(alloc, message) {
            Ok(message) => ReadError::Custom(message),
            Err(_) => ReadError::OutOfMemory,
        }
    }

    /// Returns the error with this message, or that an allocation failed.
    pub(crate) fn saying<T: Display + Drop>(alloc: Global, message: T) -> ReadError
        ensures { IsCustomSaying (error_of result) (T.output message) }
    {
        match String::format(alloc, message) {
            Ok(message) => ReadError::custom(alloc, message),
            Err(_) => ReadError::OutOfMemory,
        }
    }
}

impl From<ReadError> for Error {
    ghost from_gives = { λ cause e. e ≡ error_of cause };

    fn from(cause: ReadError) -> Error {
        match cause {
            ReadError::Custom(message) => Error::Custom(Box::into_inner(message)),
            ReadError::Utf8(cause) => Error::Utf8(Box::into_inner(cause)),
            ReadError::OutOfMemory => Error::OutOfMemory,
        }
    }
}

impl From<AllocError> for ReadError {
    ghost from_gives = { λ _ e. e ≡ OutOfMemory };

    fn from(_failed: AllocError) -> ReadError {
        ReadError::OutOfMemory
    }
}

impl<T: Drop> From<AllocFailed<T>> for ReadError {
    ghost from_gives = { λ _ e. e ≡ OutOfMemory };

    fn from(_failed: AllocFailed<T>) -> ReadError {
        ReadError::OutOfMemory
    }
}
