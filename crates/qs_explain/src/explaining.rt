//! Explaining why an input isn't read.

ghost use Rattle.std.specs.Prelude.{◌≡◌, true};
ghost use Rattle.qs_spec.specs.Config.{are_rejected};
ghost use Rattle.qs_spec.specs.Shape.{is_distinct};
ghost use Rattle.qs_tree.specs.tree.Views.{tree_of};
ghost use Rattle.qs_data.specs.shape.Views.{shape_of};
ghost use Rattle.qs_explain.specs.Explains.{Explains, ExplainsUnread};
ghost use Rattle.qs_explain.specs.internal.Parsed.{ExplainsParsed, ExplainsTree, IsOfTree};

use crate::explanation::Explanation;
use qs_data::{Config, Error, Failure, Mismatch, ReadError, Shape, Unread, read_with_path};
use qs_tree::{ParsedValue, parse};
use std::alloc::{AllocError, Global};

/// Explains why a shape doesn't read an input under a configuration. Returns `None` if and only if the shape reads the input.
///
/// For an input without a tree, the explanation is the error that parsing returned. Otherwise it is the failure of reading: the path of
/// a [`Mismatch`](crate::Mismatch) leads to the first part that isn't read, whose own fault it is. The input is parsed once and read once.
/// Parsing, reading and the explanation allocate; the only error is a failed allocation.
///
/// ```
/// let explained = explain(alloc, Config::new(), &shape, b"ids[]=1&ids[]=x")?; // ids[1]: expected u8, found the text "x"
/// ```
pub fn explain(
    alloc: Global,
    config: Config,
    shape: &Shape,
    input: &[u8],
) -> Result<Option<Explanation>, AllocError>
    ensures exact { Explains config (shape_of shape.now) input.now result }
    ensures related { is_distinct (shape_of shape.now) ≡ true → ExplainsUnread config (shape_of shape.now) input.now result }
{
    explain_parsed(alloc, config, shape, parse(alloc, input, config))
}

// Explains why what was parsed isn't read: by the error of parsing, or by the tree.
fn explain_parsed(
    alloc: Global,
    config: Config,
    shape: &Shape,
    parsed: Result<ParsedValue<'_>, Error>,
) -> Result<Option<Explanation>, AllocError>
    ensures { ExplainsParsed (are_rejected config.duplicates) (shape_of shape.now) parsed.entry result }
{
    match parsed {
        Ok(tree) => explain_tree(alloc, config, shape, &tree),
        Err(Error::OutOfMemory) => Err(AllocError),
        Err(error) => Ok(Some(Explanation::Syntax(error))),
    }
}

/// Explains why a tree isn't read.
pub(crate) fn explain_tree(
    alloc: Global,
    config: Config,
    shape: &Shape,
    tree: &ParsedValue<'_>,
) -> Result<Option<Explanation>, AllocError>
    ensures { ExplainsTree (are_rejected config.duplicates) (shape_of shape.now) (tree_of tree.now) result }
{
    let Unread { mismatch, error } = match read_with_path(alloc, config, shape, tree) {
        Ok(_) => return Ok(None),
        Err(Failure::OutOfMemory) => return Err(AllocError),
        Err(Failure::Unread(unread)) => Box::into_inner(unread),
    };
    match error {
        ReadError::OutOfMemory => Err(AllocError),
        ReadError::Custom(_) => Ok(Some(explanation_of(tree, mismatch))),
        ReadError::Utf8(_) => Ok(Some(explanation_of(tree, mismatch))),
    }
}

// Returns the explanation of a tree that isn't read.
fn explanation_of(tree: &ParsedValue<'_>, mismatch: Mismatch) -> Explanation
    ensures { IsOfTree (tree_of tree.now) mismatch result }
{
    match tree {
        ParsedValue::Uninitialized => Explanation::NoPairs,
        _ => Explanation::Mismatch(mismatch),
    }
}
