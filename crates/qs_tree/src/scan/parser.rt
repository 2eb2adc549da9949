//! Parsing one pair.

ghost use Rattle.std.specs.Prelude.{◌≡◌, ◌++◌, ◌<◌, [], length, IfOk, IsOk, IsTrue, true, false};
ghost use Rattle.qs_spec.specs.Grammar.{assigned, pushed, longer, ends_last, ends_root};
ghost use Rattle.qs_spec.specs.Escape.{has_escape};
ghost use Rattle.qs_spec.specs.Token.{raw_of};
ghost use Rattle.qs_spec.specs.internal.Parsing.{cut, with_leaf, parsed_value, parsed_brackets};
ghost use Rattle.qs_tree.specs.internal.scan.Pairs.{path_of};
ghost use Rattle.qs_tree.specs.internal.scan.Cursor.{ends_of, left, from_token, taken, GoesOn, IsLeft, KnowsEnd};
ghost use Rattle.qs_tree.specs.internal.scan.Parser.{IsRootStop, IsClosing, Follows, FollowsStop, IsEnd, IsMore, ParsesItem, ParsesLeaf, ParsesPair, is_nothing, root_path, from_root};
ghost use Rattle.qs_tree.specs.Parsing.{is_unescaped, AllocatesNothing};
ghost use Rattle.qs_tree.specs.declared.scan.parser.ParseError.TheVariants.{OutOfMemory};
ghost use Rattle.qs_tree.specs.internal.scan.Unallocated.{IsEqualsStop, ParsesRootValue, ParsesUnallocated};

use crate::scan::cursor::{Cursor, Token, TokenKind, Until};
use crate::scan::pair::{Leaf, Manner, Pair};
use crate::scan::path::Path;
use crate::scan::raw::{parse_key, parse_leaf};
use std::alloc::{AllocError, AllocFailed, Global};

/// What was parsed.
#[derive(Clone, Copy)]
pub(crate) enum Item {
    /// The end.
    End,
    /// An `&` without a pair before it.
    Ampersand,
    Pair,
}

/// Why no pair was parsed.
#[derive(Clone, Copy)]
pub(crate) enum ParseError {
    /// A syntax error. The path of the pair has the keys before it.
    Syntax(SyntaxError),
    OutOfMemory,
}

/// The token at which a pair has a syntax error.
#[derive(Clone, Copy)]
pub(crate) enum SyntaxError {
    /// The end after an opening bracket.
    EndAfterOpen,
    /// The end in a segment.
    EndInSegment,
    /// This character after a closed segment.
    AfterSegment(char),
    /// An opening bracket after `[]`.
    OpenAfterPush,
    /// Another token after `[]`.
    AfterPush,
}

impl From<AllocError> for ParseError {
    ghost from_gives = { λ _ error. error ≡ OutOfMemory };

    fn from(_: AllocError) -> ParseError {
        ParseError::OutOfMemory
    }
}

impl<T: Drop> From<AllocFailed<T>> for ParseError {
    ghost from_gives = { λ _ error. error ≡ OutOfMemory };

    fn from(_: AllocFailed<T>) -> ParseError {
        ParseError::OutOfMemory
    }
}

/// Parses up to the next `&` or the end, and stores the pair in `pair`. After the end it returns [`Item::End`] without a step.
///
/// Returns an error if the pair has a syntax error, or if an allocation failed. Allocates for a path of more than one key, and
/// for strings with `+` or `%`.
pub(crate) fn parse_item<'qs>(
    alloc: Global,
    cursor: &mut Cursor<'qs>,
    max_depth: usize,
    pair: &mut Pair<'qs>,
) -> Result<Item, ParseError>
    requires { KnowsEnd cursor.old }
    ensures item { ParsesItem max_depth (left cursor.old) result cursor.new pair.new }
    ensures end { IsEnd result → cursor.new.ended ≡ true }
    ensures shorter { IsMore result → length cursor.new.rest.now < length cursor.old.rest.now }
    ensures moves { GoesOn cursor.old cursor.new }
    ensures unallocated { AllocatesNothing cursor.old.rest.now → ParsesUnallocated result cursor.new pair.new }
{
    if cursor.has_ended() {
        return Ok(Item::End);
    }
    cursor.begin_pair();
    let (key, stop) = cursor.run(root_end(max_depth));
    if is_nothing(key, stop) {
        return Ok(match stop {
            None => Item::End,
            Some(_) => Item::Ampersand,
        });
    }
    pair.path.clear();
    parse_after_root(alloc, cursor, max_depth, key, stop, pair)?;
    Ok(Item::Pair)
}

// Returns whether there is no pair: the root key is empty, and `&` or the end follows.
fn is_nothing(key: &[u8], stop: Option<Token<'_>>) -> bool
    ensures { result ≡ is_nothing key.now stop.entry }
{
    match stop {
        None => key.is_empty(),
        Some(token) => key.is_empty() && token.kind.is_ampersand(),
    }
}

// Returns the tokens that end a root key: an opening bracket too, unless the depth limit is 0.
fn root_end(max_depth: usize) -> Until
    ensures { ends_of result ≡ ends_root max_depth }
{
    if max_depth == 0 {
        Until::Separator
    } else {
        Until::SeparatorOrOpen
    }
}

// Parses a pair after its root key and the token that ends it.
fn parse_after_root<'qs>(
    alloc: Global,
    cursor: &mut Cursor<'qs>,
    max_depth: usize,
    key: &'qs [u8],
    stop: Option<Token<'qs>>,
    pair: &mut Pair<'qs>,
) -> Result<(), ParseError>
    requires root { IsRootStop stop }
    requires follows { FollowsStop stop cursor.old }
    requires empty { pair.old.path ≡ [] }
    requires has_no_escape { IsTrue cursor.old.has_no_escape → has_escape key.now ≡ false }
    ensures pair { ParsesPair (from_root max_depth key.now (from_token stop.entry (left cursor.old))) result cursor.new pair.new }
    ensures moves { GoesOn cursor.old cursor.new }
    ensures root_value { key.now ≡ [] → IsEqualsStop stop.entry → IsTrue (is_unescaped cursor.old.rest.now) → ParsesRootValue result cursor.new pair.new }
{
    parse_root(alloc, key, cursor.has_no_escape(), &mut pair.path)?;
    match stop {
        Some(token) if token.kind.is_open() => {
            parse_brackets(alloc, cursor, max_depth, token, pair)
        }
        _ => parse_assigned(alloc, cursor, stop, pair),
    }
}

// Pushes a root key onto an empty path, unless the key is empty.
fn parse_root<'qs>(
    alloc: Global,
    key: &'qs [u8],
    has_no_escape: bool,
    path: &mut Path<'qs>,
) -> Result<(), AllocError>
    requires empty { path.old ≡ [] }
    requires has_no_escape { IsTrue has_no_escape → has_escape key.now ≡ false }
    ensures path { IfOk result (λ _. path_of path.new ≡ root_path key.now) }
    ensures empty { key.now ≡ [] → IsOk result × (path.new ≡ []) }
{
    if !key.is_empty() {
        path.push(parse_key(alloc, key, has_no_escape)?)?;
    }
    Ok(())
}

// Parses the value after `=`, or returns `NoValue` if another token or the end follows the key.
#[inline(always)]
fn parse_value<'qs>(
    alloc: Global,
    cursor: &mut Cursor<'qs>,
    stop: Option<Token<'qs>>,
) -> Result<Leaf<'qs>, AllocError>
    requires closing { IsClosing stop }
    requires follows { FollowsStop stop cursor.old }
    ensures leaf { ParsesLeaf (parsed_value (from_token stop.entry (left cursor.old))) result cursor.new }
    ensures moves { GoesOn cursor.old cursor.new }
    ensures has_no_escape { IsEqualsStop stop.entry → IsTrue (is_unescaped cursor.old.rest.now) → IsOk result × (cursor.new.rest.now ≡ []) }
{
    match stop {
        Some(token) if token.kind.is_equals() => {
            let raw = cursor.value();
            parse_leaf(alloc, raw, cursor.has_no_escape())
        }
        _ => Ok(Leaf::NoValue),
    }
}

// Parses an assigned pair after its path and the token that ends it.
#[inline(always)]
fn parse_assigned<'qs>(
    alloc: Global,
    cursor: &mut Cursor<'qs>,
    stop: Option<Token<'qs>>,
    pair: &mut Pair<'qs>,
) -> Result<(), ParseError>
    requires closing { IsClosing stop }
    requires follows { FollowsStop stop cursor.old }
    ensures pair { ParsesPair (with_leaf (assigned (path_of pair.old.path)) (parsed_value (from_token stop.entry (left cursor.old)))) result cursor.new pair.new }
    ensures moves { GoesOn cursor.old cursor.new }
    ensures root_value { pair.old.path ≡ [] → IsEqualsStop stop.entry → IsTrue (is_unescaped cursor.old.rest.now) → ParsesRootValue result cursor.new pair.new }
{
    pair.manner = Manner::Assign;
    pair.leaf = parse_value(alloc, cursor, stop)?;
    Ok(())
}

// Parses a push after its `[]`.
fn parse_push<'qs>(
    alloc: Global,
    cursor: &mut Cursor<'qs>,
    pair: &mut Pair<'qs>,
) -> Result<(), ParseError>
    requires { cursor.old.ended ≡ false }
    ensures pair { ParsesPair (with_leaf (pushed (path_of pair.old.path)) (parsed_value (left cursor.old))) result cursor.new pair.new }
    ensures moves { GoesOn cursor.old cursor.new }
{
    let next = cursor.next();
    let error = match next {
        Some(
            Token {
                kind: TokenKind::Open,
                ..
            },
        ) => SyntaxError::OpenAfterPush,
        Some(
            Token {
                kind: TokenKind::Close | TokenKind::Other(_),
                ..
            },
        ) => SyntaxError::AfterPush,
        _ => {
            pair.manner = Manner::Push;
            pair.leaf = parse_value(alloc, cursor, next)?;
            return Ok(());
        }
    };
    Err(ParseError::Syntax(error))
}

// Parses a pair after an opening bracket. This many more levels of brackets may follow.
fn parse_brackets<'qs>(
    alloc: Global,
    cursor: &mut Cursor<'qs>,
    max_depth: usize,
    mut bracket: Token<'qs>,
    pair: &mut Pair<'qs>,
) -> Result<(), ParseError>
    requires { Follows bracket cursor.old }
    ensures pair { ParsesPair (parsed_brackets max_depth (path_of pair.old.path) bracket.entry.raw.now (left cursor.old)) result cursor.new pair.new }
    ensures moves { GoesOn cursor.old cursor.new }
{
    let mut room = max_depth;
    loop {
        let Some(first) = cursor.next() else {
            return Err(ParseError::Syntax(SyntaxError::EndAfterOpen));
        };
        if first.kind.is_close() {
            return parse_push(alloc, cursor, pair);
        }
        if room == 0 {
            return parse_last_key(alloc, cursor, bracket, pair);
        }
        let (segment, stop) = cursor.run_from(first.position, Until::Close);
        let has_no_escape = first.has_no_escape() && cursor.has_no_escape();
        pair.path.push(parse_key(alloc, segment, has_no_escape)?)?;
        let Some(_) = stop else {
            return Err(ParseError::Syntax(SyntaxError::EndInSegment));
        };
        let next = cursor.next();
        let Some(token) = next else {
            return parse_assigned(alloc, cursor, next, pair);
        };
        let character = match token.kind {
            TokenKind::Open => {
                bracket = token;
                room -= 1;
                continue;
            }
            TokenKind::Ampersand | TokenKind::Equals => return parse_assigned(
                alloc, cursor, next, pair,
            ),
            TokenKind::Close => ']',
            TokenKind::Other(byte) => char::from(byte),
        };
        return Err(ParseError::Syntax(SyntaxError::AfterSegment(character)));
    }
}

// Parses a pair after the first token in a bracket at the depth limit, which begins the last key.
fn parse_last_key<'qs>(
    alloc: Global,
    cursor: &mut Cursor<'qs>,
    bracket: Token<'qs>,
    pair: &mut Pair<'qs>,
) -> Result<(), ParseError>
    requires end { cursor.old.ended ≡ false }
    requires follows { IsLeft bracket.position.rest.now cursor.old.rest.now }
    ensures pair { let run = cut ends_last (left cursor.old) in let key = taken bracket.entry.position.rest.now cursor.old.rest.now ++ raw_of run.0 in
        ParsesPair (with_leaf (assigned (longer (path_of pair.old.path) key)) (parsed_value run.1)) result cursor.new pair.new }
    ensures moves { GoesOn cursor.old cursor.new }
{
    let (key, stop) = cursor.run_from(bracket.position, Until::Separator);
    pair.path.push(parse_key(alloc, key, false)?)?;
    parse_assigned(alloc, cursor, stop, pair)
}
