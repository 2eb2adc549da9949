//! Errors of parsing: their message and position, made only if there is an error.

ghost use Rattle.std.specs.Prelude.{◌≡◌, ◌+◌, ◌-◌, None, length};
ghost use Rattle.qs_tree.specs.declared.build.conflict.AddError.TheVariants as no_allocation;
ghost use Rattle.qs_tree.specs.declared.parsing.scan_error.ScanError.TheVariants.{OutOfMemory};
ghost use Rattle.qs_tree.specs.Error.{IsParseSaying};
ghost use Rattle.qs_tree.specs.internal.Parsing.{Reports};
ghost use Rattle.qs_tree.specs.internal.scan.Cursor.{to_come};

use crate::build::conflict::{AddError, Conflict, ConflictKind, conflict_below};
use crate::build::descent::OpenTree;
use crate::error::Error;
use crate::scan::cursor::Cursor;
use crate::scan::pair::{Leaf, Manner, Pair};
use crate::scan::parser::SyntaxError;
use std::alloc::{AllocError, Global};
use std::{fmt, mem, str};

/// Why an input has no tree.
#[derive(Drop)]
pub(crate) enum ScanError {
    Syntax(SyntaxError),
    Conflict(Box<Conflict>),
    OutOfMemory,
}

impl From<AllocError> for ScanError {
    ghost from_gives = { λ _ error. error ≡ OutOfMemory };

    fn from(_: AllocError) -> ScanError {
        ScanError::OutOfMemory
    }
}

/// Returns the error of a pair with a syntax error. Returns a conflict with the tree before the syntax error in its place, and
/// `OutOfMemory` if an allocation failed.
#[inline(never)]
pub(crate) fn syntax_error<'qs>(
    alloc: Global,
    tree: &mut OpenTree<'qs>,
    pair: &mut Pair<'qs>,
    error: SyntaxError,
) -> ScanError {
    match conflict_before(alloc, tree, pair, error) {
        Ok(()) => ScanError::Syntax(error),
        Err(error) => add_error(error),
    }
}

/// Returns the error of a pair that wasn't added.
#[inline(always)]
pub(crate) fn add_error(error: AddError) -> ScanError
    ensures { error ≡ no_allocation.OutOfMemory → result ≡ OutOfMemory }
{
    match error {
        AddError::Conflict(conflict) => ScanError::Conflict(conflict),
        AddError::OutOfMemory => ScanError::OutOfMemory,
    }
}

// Tests whether a pair is in conflict with the tree before its syntax error, and returns that conflict as an error. The tree isn't
// used after that.
fn conflict_before<'qs>(
    alloc: Global,
    tree: &mut OpenTree<'qs>,
    pair: &mut Pair<'qs>,
    error: SyntaxError,
) -> Result<(), AddError> {
    match error {
        SyntaxError::OpenAfterPush | SyntaxError::AfterPush => {
            pair.manner = Manner::Push;
            pair.leaf = Leaf::NoValue;
            tree.add(alloc, pair)
        }
        _ => match conflict_below(
            &mem::replace(tree, OpenTree::new(alloc)).finish(alloc)?,
            &pair.path,
        ) {
            Some((level, kind)) => Err(AddError::conflict(alloc, level, kind)),
            None => Ok(()),
        },
    }
}

impl ScanError {
    /// Returns the error at the cursor, in an input that takes `all` steps. The error's position is at most the number of steps taken.
    /// Allocates its message.
    #[inline(never)]
    pub fn into_error(
        self,
        alloc: Global,
        cursor: &Cursor<'_>,
        max_depth: usize,
        all: usize,
    ) -> Error
        ensures { Reports self (all - (length cursor.now.rest.now + to_come cursor.now.ended)) result }
    {
        match self {
            ScanError::Syntax(error) => {
                Error::parse_err(alloc, error, all.saturating_sub(cursor.to_come()))
            }
            ScanError::Conflict(conflict) => {
                let Conflict { level, kind } = Box::into_inner(conflict);
                let conflict_position = cursor.conflict_position(level, max_depth);
                conflict_error(
                    alloc,
                    kind,
                    conflict_position.key,
                    all.saturating_sub(conflict_position.to_come),
                )
            }
            ScanError::OutOfMemory => Error::OutOfMemory,
        }
    }
}

// Returns the error of a conflict after these bytes of a pair.
fn conflict_error(alloc: Global, kind: ConflictKind, key: &[u8], position: usize) -> Error
    ensures { IsParseSaying result None position }
{
    let text = match kind {
        ConflictKind::LeafOnMap(keys) => return leaf_on_map(alloc, key, keys, position),
        ConflictKind::PushOnLeaf =>
            "invalid input: the same key is used for both a value and a sequence",
        ConflictKind::BelowSequence =>
            "invalid input: the same key is used for both a sequence and a nested map",
        ConflictKind::BelowText =>
            "invalid input: the same key is used for both a value and a nested map",
        ConflictKind::BelowUnit =>
            "invalid input: the same key is used for both a unit value and a nested map",
    };
    Error::parse_err(alloc, text, position)
}

// Returns the error of a leaf added to a map with these keys.
fn leaf_on_map(alloc: Global, key: &[u8], keys: String, position: usize) -> Error
    ensures { IsParseSaying result None position }
{
    let key = str::from_utf8(key).unwrap_or("<invalid key>");
    let text = format!(in alloc;
        "invalid input: the key `{key}` appears in the input as both a sequence and a map (with keys {keys})"
    );
    match text {
        Ok(text) => Error::Parse(text, position),
        Err(_) => Error::OutOfMemory,
    }
}

impl fmt::Display for SyntaxError {
    fn fmt<W: fmt::Write>(&self, f: &mut fmt::Formatter<W>) -> fmt::Result {
        match self {
            SyntaxError::EndAfterOpen => f.write_str("query string ended before expected"),
            SyntaxError::EndInSegment => {
                f.write_str("unexpected end of input while parsing nested key")
            }
            SyntaxError::AfterSegment(character) => write!(
                f,
                "unexpected character `{character}` while parsing nested key: expected `&`, `=` or `[`"
            ),
            SyntaxError::OpenAfterPush => f.write_str(
                "unsupported: unable to parse nested maps of unindexed sequences ",
            ),
            SyntaxError::AfterPush => f.write_str(
                "unsupported: cannot mix unindexed sequences `abc[]=...` with indexed sequences `abc[0]=...`",
            ),
        }
    }
}
