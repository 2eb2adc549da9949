//! Parsing: from the bytes of a querystring to its tree.

mod scan_error;

ghost use Rattle.std.specs.Prelude.{◌≡◌, ◌≤◌, ◌+◌, length, IfOk, IsOk, IsOkAnd};
ghost use Rattle.qs_spec.specs.Tree.Tree.{uninitialized};
ghost use Rattle.qs_spec.specs.internal.InPlace as in_place;
ghost use Rattle.qs_tree.specs.tree.Views.{tree_of};
ghost use Rattle.qs_tree.specs.internal.scan.Pairs.{IsRootValue, pair_of};
ghost use Rattle.qs_tree.specs.internal.scan.Cursor.{left, KnowsEnd, in_all};
ghost use Rattle.qs_tree.specs.internal.build.Descent.{whole_tree, IsFresh, IsWithoutMaps};
ghost use Rattle.qs_tree.specs.internal.Parsing.{grown, FindsTree};
ghost use Rattle.qs_tree.specs.Error.{IfParse};
ghost use Rattle.qs_tree.specs.Parsing.{Parses, AllocatesNothing};

use crate::build::descent::OpenTree;
use crate::config::Config;
use crate::error::Result;
use crate::parsing::scan_error::{ScanError, add_error, syntax_error};
use crate::scan::cursor::{Cursor, Steps};
use crate::scan::pair::Pair;
use crate::scan::parser::{Item, ParseError, parse_item};
use crate::tree::value::ParsedValue;
use std::alloc::Global;
use std::mem;

/// Parses a querystring into its tree.
///
/// Pairs are separated by `&` and added to one tree from left to right: `a[b]=1` puts `1` at `a` and `b`, `a[]=1` pushes it onto a
/// sequence, and a repeated key makes a sequence of its values. The empty input is `NoValue`; an input of `&` alone is
/// `Uninitialized`. Keys and values are decoded as [`decode`](crate::decode) does, after they are split.
///
/// # Errors
///
/// Returns the first error: [`Error::Parse`] for a pair that has a syntax error or conflicts with an earlier pair, as in
/// `a=1&a[b]=2`, and [`Error::OutOfMemory`] if an allocation failed.
///
/// # Memory and time
///
/// Borrows strings and string keys without `+` and `%` from the input. Allocates for all others, for paths of more than one key, for
/// each map and sequence, and for the message of an error. Doesn't allocate for the empty input, for `&` alone, or for `=` followed
/// by a value without `&`, `+` and `%`. Takes each byte once, as [`parse_with`] counts, and looks up each key in its map in
/// logarithmic time.
///
/// ```
/// let tree = parse(alloc, b"a[b]=1&a[c]=x%20y", Config::new())?; // a map with a map under `a`
/// ```
pub fn parse(alloc: Global, input: &[u8], config: Config) -> Result<ParsedValue<'_>>
    ensures parsed { Parses config.is_form config.max_depth input.now result }
{
    parse_with(alloc, &mut Steps::new(), input, config)
}

/// Parses a querystring as [`parse`] does, and adds the number of steps to `steps`, even if it returns an error.
///
/// A step is a byte that the parser takes, or reaching the end. So an input without an error takes one step more than its length, and
/// an input with an [`Error::Parse`] takes at least as many steps as the error's position. Only the code that takes bytes counts them.
///
/// Other reads aren't counted. The parser may read a byte several times while it takes it, and up to 31 bytes after a value. It reads
/// what it took again for an index, for escapes, for comparisons and for an error.
///
/// ```
/// let mut steps = Steps::new();
/// let tree = parse_with(alloc, &mut steps, b"a=1", Config::new())?; // four steps
/// ```
pub fn parse_with<'qs>(
    alloc: Global,
    steps: &mut Steps,
    input: &'qs [u8],
    config: Config,
) -> Result<ParsedValue<'qs>>
    ensures parsed { Parses config.is_form config.max_depth input.now result }
    ensures grows { steps.old ≤ steps.new }
    ensures most { steps.new ≤ steps.old + length input.now + 1 }
    ensures exact { IfOk result (λ _. steps.new ≡ steps.old + length input.now + 1) }
    ensures least { IfParse result (λ position. steps.old + position ≤ steps.new) }
{
    let taken = mem::replace(steps, Steps::new());
    let mut cursor = Cursor::new(input, config.get_form(), taken);
    if input.is_empty() {
        let _ = cursor.next();
        *steps = cursor.take_steps();
        return Ok(ParsedValue::NoValue);
    }
    let max_depth = config.get_max_depth();
    let tree = parse_tree(alloc, &mut cursor, max_depth);
    *steps = cursor.take_steps();
    match tree {
        Ok(tree) => Ok(tree),
        Err(error) => Err(error.into_error(alloc, &cursor, max_depth, input.len() + 1)),
    }
}

// Parses what is left of an input.
#[inline(always)]
fn parse_tree<'qs>(
    alloc: Global,
    cursor: &mut Cursor<'qs>,
    max_depth: usize,
) -> Result<ParsedValue<'qs>, ScanError>
    requires end { KnowsEnd cursor.old }
    ensures tree { FindsTree tree_of (grown max_depth (left cursor.old) uninitialized) result }
    ensures steps { in_all cursor.new ≡ in_all cursor.old }
    ensures fewer { length cursor.new.rest.now ≤ length cursor.old.rest.now }
    ensures end { IfOk result (λ _. in_all cursor.new ≡ cursor.new.steps) }
    ensures no_allocation { AllocatesNothing cursor.old.rest.now → IsOk result }
{
    let mut tree = OpenTree::new(alloc);
    let mut pair = Pair::new(alloc);
    match scan(alloc, cursor, max_depth, &mut tree, &mut pair) {
        Ok(()) => Ok(tree.finish(alloc)?),
        Err(error) => Err(error),
    }
}

// Adds the pairs of an input to a tree one by one. Each is parsed into `pair`.
#[inline(always)]
fn scan<'qs>(
    alloc: Global,
    cursor: &mut Cursor<'qs>,
    max_depth: usize,
    tree: &mut OpenTree<'qs>,
    pair: &mut Pair<'qs>,
) -> Result<(), ScanError>
    requires end { KnowsEnd cursor.old }
    ensures tree { FindsTree (λ _. whole_tree tree.new) (grown max_depth (left cursor.old) (whole_tree tree.old)) result }
    ensures steps { in_all cursor.new ≡ in_all cursor.old }
    ensures fewer { length cursor.new.rest.now ≤ length cursor.old.rest.now }
    ensures end { IfOk result (λ _. in_all cursor.new ≡ cursor.new.steps) }
    ensures no_allocation { AllocatesNothing cursor.old.rest.now → IsFresh tree.old → IsOkAnd result (λ _. IsWithoutMaps tree.new) }
{
    loop {
        let item = match parse_item(alloc, cursor, max_depth, pair) {
            Ok(item) => item,
            Err(ParseError::Syntax(error)) => return Err(syntax_error(alloc, tree, pair, error)),
            Err(ParseError::OutOfMemory) => return Err(ScanError::OutOfMemory),
        };
        match item {
            Item::End => return Ok(()),
            Item::Ampersand => {}
            Item::Pair => add(alloc, tree, pair)?,
        }
    }
}

// Adds one pair to the tree.
#[inline(always)]
fn add<'qs>(alloc: Global, tree: &mut OpenTree<'qs>, pair: &mut Pair<'qs>) -> Result<(), ScanError>
    ensures tree { let p = pair_of pair.old in FindsTree (λ _. whole_tree tree.new) (in_place.add p.path p.push p.leaf (whole_tree tree.old)) result }
    ensures fresh { IsRootValue pair.old → IsFresh tree.old → IsOkAnd result (λ _. IsWithoutMaps tree.new) }
{
    match tree.add(alloc, pair) {
        Ok(()) => Ok(()),
        Err(error) => Err(add_error(error)),
    }
}
