//! An error, and where in the value it is.

ghost use Rattle.std.specs.Prelude.{◌≡◌};
ghost use Rattle.qs_data.specs.read.Errors.{IsOfReading};

use qs_data::ReadError;
use qs_tree::Error;
use std::fmt;

/// An error of reading, with the path to the part that isn't read.
///
/// Its `Display` writes the path before the error: `address.lines[2]: invalid type: string, expected u8`.
///
/// ```
/// match qs_serde::explain_str::<Query>(alloc, Config::new(), "age=x&name=Alice") {
///     Err(error) => println!(rt; "{error}")?, // age: invalid type: string, expected u8
/// ```
#[derive(Debug, Drop)]
pub struct PathError {
    /// The path to the part that isn't read: its keys, separated by `.`, and its list indices, each in brackets. It is empty if that part
    /// is the whole value, or if the input can't be parsed. Control characters in keys are escaped.
    pub path: String,
    /// What is wrong there.
    pub error: Error,
}

impl PathError {
    /// Returns an error of reading with its path.
    pub(crate) fn new(path: String, error: ReadError) -> PathError
        ensures { IsOfReading result.error }
    {
        PathError {
            path,
            error: Error::from(error),
        }
    }
}

impl fmt::Display for PathError {
    fn fmt<W: fmt::Write>(&self, f: &mut fmt::Formatter<W>) -> fmt::Result {
        let PathError { path, error } = self;
        if path.is_empty() {
            write!(f, "{error}")
        } else {
            write!(f, "{path}: {error}")
        }
    }
}

/// The error without its path.
impl From<PathError> for Error {
    ghost from_gives = { λ error e. e ≡ error.error };

    fn from(error: PathError) -> Error {
        error.error
    }
}
