//! Typed calls that read.

ghost use Rattle.std.specs.Prelude.{◌≡◌, ◌≤◌, ◌+◌, IfOk, length};
ghost use Rattle.qs_spec.specs.Config.{are_rejected, default};
ghost use Rattle.qs_spec.specs.Tree.{IsTree, HasNoTree};
ghost use Rattle.qs_tree.specs.Error.{IfParse, IsParse, OnlyParseOrOutOfMemory};
ghost use Rattle.qs_tree.specs.tree.Views.{tree_of};
ghost use Rattle.serde_qs.specs.Nodes.{ReadsNode};
ghost use Rattle.serde_qs.specs.Typed.{ReturnsValue, ReturnsWritten};

use crate::traits::Deserialize;
use qs_data::{Config, Reader, Result};
use qs_tree::{ParsedValue, parse};
use std::alloc::Global;

/// Returns the value that is read from a querystring, with the default configuration.
///
/// ```
/// let query: Query = from_bytes(alloc, b"name=Alice&age=24")?;
/// ```
///
/// Errors, allocation and time are the same as for [`from_str`].
pub fn from_bytes<T: Deserialize>(alloc: Global, input: &[u8]) -> Result<T>
    ensures exact { ReturnsValue T.table.value default T.table.shape T.table.meaning input.now result }
    ensures back { ReturnsWritten T.table.value default T.table.shape T.table.meaning input.now result }
{
    read_typed(alloc, Config::new(), input)
}

/// Returns the value that is read from a querystring, with the default configuration.
///
/// ```
/// let query: Query = from_str(alloc, "age=24&name=Alice")?; // query.age is 24
/// ```
///
/// # Errors
///
/// - [`Parse`](qs_data::Error::Parse): the querystring has no tree, for example `a[b`. It has the position of the first error, at most the
///   input's length plus one.
/// - [`Custom`](qs_data::Error::Custom) or [`Utf8`](qs_data::Error::Utf8): the type's shape reads nothing from the tree, for example
///   because a field is missing or a string isn't a number, or the data means no value. It is `Utf8` only if a string or a key isn't UTF-8.
/// - [`OutOfMemory`](qs_data::Error::OutOfMemory): an allocation failed.
///
/// The first two are returned exactly in these cases, and there is no other error. It allocates for the tree and the value. The time
/// grows with the input and the value.
pub fn from_str<T: Deserialize>(alloc: Global, input: &str) -> Result<T>
    ensures exact { ReturnsValue T.table.value default T.table.shape T.table.meaning input.now result }
    ensures back { ReturnsWritten T.table.value default T.table.shape T.table.meaning input.now result }
{
    read_typed(alloc, Config::new(), input.as_bytes())
}

/// Returns the value that is read from a querystring under a configuration.
pub(crate) fn read_typed<T: Deserialize>(alloc: Global, config: Config, input: &[u8]) -> Result<T>
    ensures exact { ReturnsValue T.table.value config T.table.shape T.table.meaning input.now result }
    ensures back { ReturnsWritten T.table.value config T.table.shape T.table.meaning input.now result }
{
    read_tree(alloc, config, input)
}

// Returns the value that is read from the tree of a querystring.
fn read_tree<T: Deserialize>(alloc: Global, config: Config, input: &[u8]) -> Result<T>
    ensures { ReturnsValue T.table.value config T.table.shape T.table.meaning input.now result }
{
    let tree = tree(alloc, config, input)?;
    read_root(alloc, config, &tree)
}

/// Returns the tree of a querystring, with the contract that a typed call needs.
pub(super) fn tree<'qs>(alloc: Global, config: Config, input: &'qs [u8]) -> Result<ParsedValue<'qs>>
    ensures tree { IfOk result (λ t. IsTree config.is_form config.max_depth input.now (tree_of t)) }
    ensures no_tree { IsParse result → HasNoTree config.is_form config.max_depth input.now }
    ensures position { IfParse result (λ position. position ≤ length input.now + 1) }
    ensures errors { OnlyParseOrOutOfMemory result }
{
    parse(alloc, input, config)
}

// Returns the value that is read from a tree under a configuration.
fn read_root<T: Deserialize>(alloc: Global, config: Config, tree: &ParsedValue<'_>) -> Result<T>
    ensures { ReadsNode T.table.value T.table.shape T.table.meaning (are_rejected config.duplicates) (tree_of tree.now) result }
{
    T::from_node(Reader::new(alloc, config), tree)
}
