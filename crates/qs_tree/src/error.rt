//! Errors.
ghost use Rattle.std.specs.Prelude.{◌≡◌, ◌++◌, Some, codes};
ghost use Rattle.qs_tree.specs.Error.{IsCustomSaying, IsParseSaying, error_text};
ghost use Rattle.qs_tree.specs.declared.error.Error.TheVariants.{FromUtf8, Io, OutOfMemory, ParseInt, Utf8};

use std::alloc::{AllocError, AllocFailed, Global};
use std::fmt::Display;
use std::{fmt, io, num, str, string};

/// The result of a call: a value, or an [`Error`].
///
/// ```
/// fn count(alloc: Global, input: &[u8]) -> Result<usize> {
///     match parse(alloc, input, Config::new())? {
/// ```
pub type Result<T, E = Error> = std::result::Result<T, E>;

/// Why a call failed.
///
/// Its `Display` writes a message. For [`FromUtf8`](Error::FromUtf8), [`Io`](Error::Io),
/// [`ParseInt`](Error::ParseInt) and [`Utf8`](Error::Utf8) this is the cause's message.
///
/// ```
/// match parse(alloc, body, config) {
///     Err(Error::Parse(message, position)) => reject(message, position),
/// ```
#[derive(Debug, Drop)]
pub enum Error {
    /// The tree can't be read by the shape. Holds the message.
    Custom(String),
    /// A value nests deeper than the configuration's `max_depth`. Holds that limit.
    MaxSerializationDepthExceeded(usize),
    /// The querystring can't be parsed. Holds the message and the position: the number of bytes that were parsed, plus one if the
    /// end was parsed.
    Parse(String, usize),
    /// A map's key has a kind that can't be written as a key.
    Unsupported,
    /// An owned string isn't UTF-8. No call returns it; it is for callers' conversions.
    FromUtf8(string::FromUtf8Error),
    /// A write failed.
    Io(io::Error),
    /// A string isn't a number. No call returns it; it is for callers' conversions.
    ParseInt(num::ParseIntError),
    /// Bytes that are read as a string aren't UTF-8.
    Utf8(str::Utf8Error),
    /// An allocation failed.
    OutOfMemory,
    /// A serializer was used after an error.
    Failed,
}

impl Error {
    /// Returns a [`Custom`](Error::Custom) error for a kind of value that can't be read at the top level.
    ///
    /// Allocates the message, and takes time that grows with its length. Returns [`OutOfMemory`](Error::OutOfMemory) if the
    /// allocation fails.
    ///
    /// ```
    /// Error::top_level(alloc, "primitive") // cannot deserialize primitive at the top level.Try deserializing into a struct.
    /// ```
    pub fn top_level(alloc: Global, object: &'static str) -> Error
        ensures { IsCustomSaying result (Some (codes "cannot deserialize " ++ (object.now
            ++ codes " at the top level.Try deserializing into a struct."))) }
    {
        Error::custom(
            alloc,
            format_args!(
                "cannot deserialize {object} at the top level.Try deserializing into a struct."
            ),
            &(),
        )
    }

    /// Returns a [`Parse`](Error::Parse) error with a message and a position.
    ///
    /// Allocates the message, and takes time that grows with its length. Returns [`OutOfMemory`](Error::OutOfMemory) if the
    /// allocation or `message.fmt` fails.
    ///
    /// ```
    /// Error::parse_err(alloc, "m", 3) // parsing failed with error: 'm' at position: 3
    /// ```
    pub fn parse_err<T: Display + Drop>(alloc: Global, message: T, position: usize) -> Error
        ensures { IsParseSaying result (T.output message) position }
    {
        match String::format(alloc, message) {
            Ok(message) => Error::Parse(message, position),
            Err(_) => Error::OutOfMemory,
        }
    }

    /// Returns a [`Custom`](Error::Custom) error with a message. The last argument isn't used.
    ///
    /// Allocates the message, and takes time that grows with its length. Returns [`OutOfMemory`](Error::OutOfMemory) if the
    /// allocation or `message.fmt` fails.
    ///
    /// ```
    /// Error::custom(alloc, "no such page", &()) // no such page
    /// ```
    pub fn custom<T: Display + Drop, D>(alloc: Global, message: T, _parsed: &D) -> Error
        ensures { IsCustomSaying result (T.output message) }
    {
        match String::format(alloc, message) {
            Ok(message) => Error::Custom(message),
            Err(_) => Error::OutOfMemory,
        }
    }
}

impl Display for Error {
    ghost output = { λ e. error_text e };

    fn fmt<W: fmt::Write>(&self, f: &mut fmt::Formatter<W>) -> fmt::Result {
        match self {
            Error::Custom(message) => write!(f, "{message}"),
            Error::MaxSerializationDepthExceeded(depth) => {
                write!(f, "Maximum serialization depth `{depth}` exceeded")
            }
            Error::Parse(message, position) => {
                write!(
                    f,
                    "parsing failed with error: '{message}' at position: {position}"
                )
            }
            Error::Unsupported => f.write_str("unsupported type for serialization"),
            Error::FromUtf8(cause) => write!(f, "{cause}"),
            Error::Io(cause) => write!(f, "{cause}"),
            Error::ParseInt(cause) => write!(f, "{cause}"),
            Error::Utf8(cause) => write!(f, "{cause}"),
            Error::OutOfMemory => f.write_str("out of memory"),
            Error::Failed => f.write_str("serializer has failed"),
        }
    }
}

impl From<string::FromUtf8Error> for Error {
    ghost from_gives = { λ cause e. e ≡ FromUtf8 cause };

    fn from(cause: string::FromUtf8Error) -> Error {
        Error::FromUtf8(cause)
    }
}

impl From<io::Error> for Error {
    ghost from_gives = { λ cause e. e ≡ Io cause };

    fn from(cause: io::Error) -> Error {
        Error::Io(cause)
    }
}

impl From<num::ParseIntError> for Error {
    ghost from_gives = { λ cause e. e ≡ ParseInt cause };

    fn from(cause: num::ParseIntError) -> Error {
        Error::ParseInt(cause)
    }
}

impl From<str::Utf8Error> for Error {
    ghost from_gives = { λ cause e. e ≡ Utf8 cause };

    fn from(cause: str::Utf8Error) -> Error {
        Error::Utf8(cause)
    }
}

impl From<AllocError> for Error {
    ghost from_gives = { λ _ e. e ≡ OutOfMemory };

    fn from(_: AllocError) -> Error {
        Error::OutOfMemory
    }
}

impl<T: Drop> From<AllocFailed<T>> for Error {
    ghost from_gives = { λ _ e. e ≡ OutOfMemory };

    fn from(_: AllocFailed<T>) -> Error {
        Error::OutOfMemory
    }
}
