//! Explanations.

use qs_data::{Error, Mismatch, OneLine};
use std::fmt;
use std::fmt::Write;

/// Why an input isn't read.
///
/// ```
/// match explain(alloc, Config::new(), &shape, input)? {
///     Some(Explanation::Mismatch(mismatch)) => show(&mismatch.path, &mismatch.problem),
///     Some(Explanation::Syntax(error)) => show_error(&error),
///     Some(Explanation::NoPairs) => ask_again(),
///     None => accept(),
/// }
/// ```
#[derive(Debug, Drop)]
pub enum Explanation {
    /// The input has no tree. This is the error that parsing returned: [`Parse`](Error::Parse).
    Syntax(Error),
    /// The input has no pairs, but isn't empty: it is `&`. No shape reads it.
    NoPairs,
    /// A part of the tree isn't read by its shape.
    Mismatch(Mismatch),
}

/// One line: the error of parsing, that the query has no pairs, or the path and the problem, such as
/// `age: expected u8, found the text "300"`. Control characters of the input are escaped.
impl fmt::Display for Explanation {
    fn fmt<W: fmt::Write>(&self, f: &mut fmt::Formatter<W>) -> fmt::Result {
        match self {
            Explanation::Syntax(error) => write!(OneLine(f), "{error}"),
            Explanation::NoPairs => f.write_str("the query has no pairs"),
            Explanation::Mismatch(mismatch) => write!(f, "{mismatch}"),
        }
    }
}
