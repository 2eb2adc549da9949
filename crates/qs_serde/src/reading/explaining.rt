//! The error that comes first, and its path: the tree is read again, with fields in their own order.

ghost use Rattle.std.specs.Prelude.{IfErr};
ghost use Rattle.qs_data.specs.read.Errors.{IsOfReading};

use super::format::{Asked, Search, TreeFormat, read_tree};
use super::path_error::PathError;
use super::{ReadError, Result};
use qs_data::Width;
use qs_tree::{Config, ParsedValue};
use serde::Deserialize;
use std::alloc::{AllocError, Global};

/// Reads a tree again, after a read that failed with this error. It returns the error that comes first, with its path; or the value, if a
/// list was too short for a struct, and the type has defaults for what it lacks.
#[cold]
#[inline(never)]
pub(crate) fn read_again<'de, T: Deserialize<'de>>(
    alloc: Global,
    config: Config,
    input: &'de [u8],
    tree: &ParsedValue<'_>,
    is_short: bool,
    error: ReadError,
) -> Result<T, PathError>
    ensures { IfErr result (λ e. IsOfReading e.error) }
{
    let path = String::new(alloc);
    if matches!(error, ReadError::OutOfMemory) {
        return Err(PathError::new(path, error));
    }
    let mut format = TreeFormat::new(alloc, config, tree);
    format.search = Search {
        in_order: true,
        is_short,
        ..format.search
    };
    let read: Result<T> = read_tree(alloc, input, &mut format);
    match read {
        Ok(value) if is_short => Ok(value),
        Ok(_) => Err(PathError::new(path, error)),
        Err(error) => Err(located::<T>(alloc, config, input, tree, &format, error)),
    }
}

// Returns the error with the path to where the format is, and with the type of a number.
fn located<'de, T: Deserialize<'de>>(
    alloc: Global,
    config: Config,
    input: &'de [u8],
    tree: &ParsedValue<'_>,
    format: &TreeFormat<'_, '_>,
    error: ReadError,
) -> PathError
    ensures { IsOfReading result.error }
{
    let Ok(path) = path_of(format, &error) else {
        return PathError::new(String::new(alloc), ReadError::OutOfMemory);
    };
    if !matches!(format.asked, Asked::Unsigned(_) | Asked::Signed(_)) {
        return PathError::new(path, error);
    }
    for width in [Width::Bits8, Width::Bits16, Width::Bits32] {
        let search = Search {
            probed: format.search.numbers,
            width,
            ..format.search
        };
        if let Some(error) = probed::<T>(alloc, config, input, tree, search) {
            return PathError::new(path, error);
        }
    }
    PathError::new(path, error)
}

// Returns the path to where the format is; or to the text that names no variant, or to the variant that holds a value, if this is its error.
fn path_of(format: &TreeFormat<'_, '_>, error: &ReadError) -> Result<String, AllocError> {
    if let Asked::Variant = format.asked {
        if have_one_text(error, &format.unfit()) {
            return format.path_to_variant();
        }
    }
    match format.clues.variant {
        Some(place) if have_one_text(error, &format.no_tag()) => format.path_to(place),
        _ => format.path(),
    }
}

// Reads the tree with a number given as one that this width doesn't hold. If the read fails at that number, the number is of this width:
// returns the error of the value that is there, if it has one.
fn probed<'de, T: Deserialize<'de>>(
    alloc: Global,
    config: Config,
    input: &'de [u8],
    tree: &ParsedValue<'_>,
    search: Search,
) -> Option<ReadError> {
    let mut format = TreeFormat::new(alloc, config, tree);
    format.search = Search {
        numbers: 0,
        ..search
    };
    let read: Result<T> = read_tree(alloc, input, &mut format);
    let found = read.err()?;
    if format.search.numbers != search.probed {
        return None;
    }
    let error = format.number_misfit(search.width)?;
    if have_one_text(&found, &error) {
        Some(error)
    } else {
        None
    }
}

// Returns whether two errors print the same.
fn have_one_text(a: &ReadError, b: &ReadError) -> bool {
    match (a, b) {
        (ReadError::Custom(a), ReadError::Custom(b)) => a == b,
        _ => false,
    }
}
