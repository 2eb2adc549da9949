//! A typed call that says which part isn't read.

ghost use Rattle.qs_spec.specs.Config.{are_rejected};
ghost use Rattle.qs_tree.specs.tree.Views.{tree_of};
ghost use Rattle.serde_qs.specs.Explained.{OnlyRejects, without_path};
ghost use Rattle.serde_qs.specs.Nodes.{ReadsNode};
ghost use Rattle.serde_qs.specs.Typed.{ReturnsValue};

use super::reading::tree;
use crate::path::{Path, Rejection};
use crate::traits::Deserialize;
use qs_data::{Config, Error, Reader, Result};
use qs_tree::ParsedValue;
use std::alloc::{AllocError, Global};
use std::result;

/// Returns the value that is read from a querystring under a configuration, or the error of [`from_bytes`](crate::from_bytes) with the path
/// to the part that isn't read.
///
/// ```
/// match read_explained::<Listing>(alloc, Config::new(), body)? {
///     Ok(listing) => show(listing),
///     Err(rejection) => reject(&rejection.path, &rejection.error), // per_page, a value that its type rejects
/// }
/// ```
///
/// There is a [`Rejection`] exactly if there is no value. Its error is [`Parse`](qs_data::Error::Parse), [`Custom`](qs_data::Error::Custom)
/// or [`Utf8`](qs_data::Error::Utf8). The path leads to the first part whose type reads nothing there, and in an enum to the variant. It
/// goes through the fields that structs read by their names, the items of lists and tuples, and the values of maps, options and newtypes.
/// It is empty if that part is the whole, such as a struct that rejects fields which are read, or if the input has no tree. The one error
/// is that an allocation failed.
///
/// Reading a value costs the same as with `from_bytes`. If there is none, each part is read again, once for each level above it.
pub fn read_explained<T: Deserialize>(
    alloc: Global,
    config: Config,
    input: &[u8],
) -> result::Result<result::Result<T, Rejection>, AllocError>
    ensures exact { ReturnsValue T.table.value config T.table.shape T.table.meaning input.now (without_path result) }
    ensures errors { OnlyRejects result }
{
    let mut path = Path::new(alloc);
    match read_traced(alloc, config, input, &mut path) {
        Ok(value) => Ok(Ok(value)),
        Err(Error::OutOfMemory) => Err(AllocError),
        Err(error) => Ok(Err(Rejection { path, error })),
    }
}

// Returns the value that is read from a querystring, and puts the steps to the part that isn't read into the path.
fn read_traced<T: Deserialize>(
    alloc: Global,
    config: Config,
    input: &[u8],
    path: &mut Path,
) -> Result<T>
    ensures { ReturnsValue T.table.value config T.table.shape T.table.meaning input.now result }
{
    let tree = tree(alloc, config, input)?;
    read_root_traced(alloc, config, &tree, path)
}

// Returns the value that is read from a tree. If there is none, it is read again for the path.
fn read_root_traced<T: Deserialize>(
    alloc: Global,
    config: Config,
    tree: &ParsedValue<'_>,
    path: &mut Path,
) -> Result<T>
    ensures { ReadsNode T.table.value T.table.shape T.table.meaning (are_rejected config.duplicates) (tree_of tree.now) result }
{
    let reader = Reader::new(alloc, config);
    match T::from_node(reader, tree) {
        Err(Error::Custom(_) | Error::Utf8(_)) => T::from_traced(reader, tree, path),
        read => read,
    }
}
