//! Calls that read.

#![tactic(auto, using(crate::proofs::Errors::of_tree))]

ghost use Rattle.qs_spec.specs.Config.{default};
ghost use Rattle.qs_serde.specs.Inputs.{ExplainsFrom, ReturnsFrom};

use crate::reading::{PathError, TreeFormat, read_again, read_tree};
use qs_tree::{Config, Error, Result, parse};
use serde::Deserialize;
use std::alloc::Global;

/// Returns the value that is read from a querystring, with the default configuration.
///
/// ```
/// let query: Query = from_str(alloc, "age=24&name=Alice")?; // query.age is 24
/// ```
///
/// # Errors
///
/// - [`Parse`](Error::Parse): the querystring, such as `a[b`, has no tree. The position is at most the length plus one.
/// - [`Custom`](Error::Custom) or [`Utf8`](Error::Utf8): the type doesn't read the tree, for example because a field is missing or a text
///   isn't a number; or the type's own code rejects the value.
/// - [`OutOfMemory`](Error::OutOfMemory): an allocation failed.
///
/// If there are several mistakes, the error is the first in this order: mistakes in fields, in the order of the fields; a mistake in
/// another key; a missing field. The call allocates for the tree, for a stack of the open lists and maps, and for what the type allocates.
/// The time grows with the input and the value. After an error the call reads the tree once more to find the error to report, and up to
/// three times more to find the type of a number.
pub fn from_str<'de, T: Deserialize<'de>>(alloc: Global, input: &'de str) -> Result<T>
    ensures { ReturnsFrom default input.now result }
{
    from_bytes_with(alloc, Config::new(), input.as_bytes())
}

/// Returns the value that is read from a querystring, with the default configuration. Errors, allocations and time are as for [`from_str`].
///
/// ```
/// let query: Query = from_bytes(alloc, b"age=24&name=Alice")?;
/// ```
pub fn from_bytes<'de, T: Deserialize<'de>>(alloc: Global, input: &'de [u8]) -> Result<T>
    ensures { ReturnsFrom default input.now result }
{
    from_bytes_with(alloc, Config::new(), input)
}

/// Returns the value that is read from a querystring under a configuration. Errors, allocations and time are as for [`from_str`].
///
/// ```
/// let config = Config::new().use_form_encoding(true);
/// let query: Query = from_str_with(alloc, config, "name=John%20Doe&age=7")?;
/// ```
pub fn from_str_with<'de, T: Deserialize<'de>>(
    alloc: Global,
    config: Config,
    input: &'de str,
) -> Result<T>
    ensures { ReturnsFrom config input.now result }
{
    from_bytes_with(alloc, config, input.as_bytes())
}

/// Returns the value that is read from a querystring under a configuration. The error is the one that [`from_str`] returns, with the path
/// to the part that isn't read. Allocations and time are as for that call, and for the path.
///
/// ```
/// match explain_str::<Query>(alloc, Config::new(), "age=x&name=Alice") {
///     Ok(query) => show(&query),
///     Err(error) => println!(rt; "{error}")?, // age: invalid type: string, expected u8
/// }
/// ```
pub fn explain_str<'de, T: Deserialize<'de>>(
    alloc: Global,
    config: Config,
    input: &'de str,
) -> Result<T, PathError>
    ensures { ExplainsFrom config input.now result }
{
    explain_bytes(alloc, config, input.as_bytes())
}

/// Returns the value that is read from a querystring under a configuration. Errors, allocations and time are as for [`explain_str`].
///
/// ```
/// let query: Query = explain_bytes(alloc, Config::new(), b"age=24&name=Alice")?;
/// ```
pub fn explain_bytes<'de, T: Deserialize<'de>>(
    alloc: Global,
    config: Config,
    input: &'de [u8],
) -> Result<T, PathError>
    ensures { ExplainsFrom config input.now result }
{
    let tree = match parse(alloc, input, config) {
        Ok(tree) => tree,
        Err(error) => {
            let path = String::new(alloc);
            return Err(PathError { path, error });
        }
    };
    let mut format = TreeFormat::new(alloc, config, &tree);
    match read_tree(alloc, input, &mut format) {
        Ok(value) => Ok(value),
        Err(error) => read_again(alloc, config, input, &tree, format.is_short, error),
    }
}

/// Returns the value that is read from a querystring under a configuration. Errors, allocations and time are as for [`from_str`].
///
/// ```
/// let query: Query = from_bytes_with(alloc, config, b"age=24&name=Alice")?;
/// ```
pub fn from_bytes_with<'de, T: Deserialize<'de>>(
    alloc: Global,
    config: Config,
    input: &'de [u8],
) -> Result<T>
    ensures { ReturnsFrom config input.now result }
{
    let tree = parse(alloc, input, config)?;
    let mut format = TreeFormat::new(alloc, config, &tree);
    match read_tree(alloc, input, &mut format) {
        Ok(value) => Ok(value),
        Err(error) => match read_again(alloc, config, input, &tree, format.is_short, error) {
            Ok(value) => Ok(value),
            Err(error) => Err(error.error),
        },
    }
}
