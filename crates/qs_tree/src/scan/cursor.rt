//! A cursor over an input, which takes it token by token and counts the steps.

mod conflict_position;
mod steps;

ghost use Rattle.std.specs.Prelude.{◌≡◌, ◌==◌, ◌&&◌, ℕ, ◌+◌, ◌++◌, ◌<◌, ◌≤◌, ◌-◌, [], length, take, drop, not, IfSome, IfNone, IsTrue, true, false};
ghost use Rattle.qs_spec.specs.Escape.{has_escape};
ghost use Rattle.qs_spec.specs.Token.{raw_of, tokens};
ghost use Rattle.qs_tree.specs.Parsing.{is_unescaped};
ghost use Rattle.qs_tree.specs.escape.Classes.{is_escape};
ghost use Rattle.qs_spec.specs.Grammar.{is_amp, is_equals, is_open, is_close};
ghost use Rattle.qs_spec.specs.internal.Parsing.{cut};
ghost use Rattle.qs_tree.specs.internal.scan.Cursor.{kind_of_token, token_of, BeginsWith, ends_of, left, spent, looks, ended_after, raw_from_token, from_token, IsPast, GoesOn, taken, to_come, IsInside, IsLeft, classes_of};

pub use self::steps::Steps;
use crate::escape::{CLASSES, CLOSE, ESCAPE, OPEN, SEPARATOR, find_value_end};
use std::mem;

/// The kind of a token.
#[derive(Clone, Copy)]
pub(crate) enum TokenKind {
    Ampersand,
    Equals,
    Open,
    Close,
    Other(u8),
}

impl TokenKind {
    /// Returns whether it is `&`.
    pub fn is_ampersand(self) -> bool
        ensures { result ≡ is_amp (kind_of_token self) }
    {
        matches!(self, TokenKind::Ampersand)
    }

    /// Returns whether it is `=`.
    pub fn is_equals(self) -> bool
        ensures { result ≡ is_equals (kind_of_token self) }
    {
        matches!(self, TokenKind::Equals)
    }

    /// Returns whether it is an opening bracket.
    pub fn is_open(self) -> bool
        ensures { result ≡ is_open (kind_of_token self) }
    {
        matches!(self, TokenKind::Open)
    }

    /// Returns whether it is a closing bracket.
    pub fn is_close(self) -> bool
        ensures { result ≡ is_close (kind_of_token self) }
    {
        matches!(self, TokenKind::Close)
    }
}

/// A token: a byte, or in form encoding an escaped bracket.
#[derive(Clone, Copy)]
pub(crate) struct Token<'qs> {
    pub kind: TokenKind,
    pub raw: &'qs [u8],
    /// The position of its first byte.
    pub position: Position<'qs>,
}

impl Token<'_> {
    /// Returns whether it is known to have no `+` and `%`.
    #[inline(always)]
    pub fn has_no_escape(&self) -> bool
        ensures one { result ≡ (length self.now.raw.now == 1 && not (has_escape self.now.raw.now)) }
        ensures known { IsTrue result → has_escape self.now.raw.now ≡ false }
    {
        matches!(self.raw, [byte] if *byte != b'+' && *byte != b'%')
    }
}

/// A position in the input, as the bytes from there on.
#[derive(Clone, Copy)]
pub(crate) struct Position<'qs> {
    rest: &'qs [u8],
}

/// The tokens that end a run.
#[derive(Clone, Copy)]
pub(crate) enum Until {
    /// `&` or `=`.
    Separator,
    /// `&`, `=` or an opening bracket.
    SeparatorOrOpen,
    /// A closing bracket.
    Close,
}

impl Until {
    // Returns the classes of the bytes that end the run, and of escapes.
    #[inline(always)]
    fn classes(self) -> u8
        ensures { result ≡ classes_of self }
    {
        match self {
            Until::Separator => SEPARATOR | ESCAPE,
            Until::SeparatorOrOpen => SEPARATOR | OPEN | ESCAPE,
            Until::Close => CLOSE | ESCAPE,
        }
    }

    // Returns whether a byte is a token of the run, and no escape.
    #[inline(always)]
    #[tactic(auto, using(crate::proofs::lemmas::escape::ByteClasses::inside_alone))]
    fn is_inside(self, byte: u8) -> bool
        ensures inside { IsTrue result → IsInside (ends_of self) byte }
        ensures has_no_escape { IsTrue result → is_escape byte ≡ false }
    {
        CLASSES[byte as usize] & self.classes() == 0
    }

    // Returns whether a token of this kind ends the run.
    fn is_at(self, kind: TokenKind) -> bool
        ensures { result ≡ ends_of self (kind_of_token kind) }
    {
        match (self, kind) {
            (Until::Close, TokenKind::Close) => true,
            (Until::Separator | Until::SeparatorOrOpen, TokenKind::Ampersand | TokenKind::Equals) =>
                true,
            (Until::SeparatorOrOpen, TokenKind::Open) => true,
            _ => false,
        }
    }
}

// Returns the kind of the first token, and its length.
fn first_token(bytes: &[u8], is_form: bool) -> (TokenKind, usize)
    requires { 0 < length bytes.now }
    ensures token { BeginsWith is_form bytes.now result.0 result.1 }
    ensures some { 0 < result.1 }
    ensures within { result.1 ≤ length bytes.now }
{
    if is_form && bytes.len() >= 3 && bytes[0] == b'%' && bytes[1] == b'5' {
        if bytes[2] == b'B' {
            return (TokenKind::Open, 3);
        }
        if bytes[2] == b'D' {
            return (TokenKind::Close, 3);
        }
    }
    match bytes[0] {
        b'&' => (TokenKind::Ampersand, 1),
        b'=' => (TokenKind::Equals, 1),
        b'[' => (TokenKind::Open, 1),
        b']' => (TokenKind::Close, 1),
        byte => (TokenKind::Other(byte), 1),
    }
}

// Returns the length of a run, without the token that ends it, and whether it is known to have no `+` and `%`.
#[inline(always)]
fn run_len(bytes: &[u8], is_form: bool, until: Until) -> (usize, bool)
    ensures within { result.0 ≤ length bytes.now }
    ensures run { take result.0 bytes.now ≡ raw_of (cut (ends_of until) (tokens is_form bytes.now)).0 }
    ensures stop { tokens is_form (drop result.0 bytes.now) ≡ (cut (ends_of until) (tokens is_form bytes.now)).1 }
    ensures has_no_escape { IsTrue result.1 → has_escape (take result.0 bytes.now) ≡ false }
{
    let mut at = 0;
    let mut has_no_escape = true;
    while at < bytes.len() {
        if until.is_inside(bytes[at]) {
            at += 1;
            continue;
        }
        let (kind, len) = first_token(&bytes[at..], is_form);
        if until.is_at(kind) {
            break;
        }
        at += len;
        has_no_escape = false;
    }
    (at, has_no_escape)
}

/// A cursor over an input. A step is a byte that the cursor takes, or reaching the end. Methods that take no byte count no step, and
/// return only bytes that were taken.
///
/// Other reads aren't counted. These are all of them:
///
/// - A method may read a byte that it takes several times: to tell whether it ends the run, whether it is an escape, and which token
///   it begins. It reads the token that ends a run or a value again when it takes that token. If nothing is left, it only compares
///   lengths.
/// - In form encoding it reads the two bytes after a `%`, which may be part of an escaped bracket.
/// - It reads up to 31 bytes after the `&` that ends a value, since the search for it tests 32 bytes at a time.
/// - Bytes that were taken are read again for an index, for escapes, for comparisons of keys, and for the message and position of an
///   error.
#[derive(Drop)]
pub(crate) struct Cursor<'qs> {
    rest: &'qs [u8],
    ended: bool,
    is_form: bool,
    /// Whether the last run or value is known to have no `+` and `%`.
    has_no_escape: bool,
    steps: Steps,
    /// The input from the current pair's first byte on.
    pair: &'qs [u8],
}

impl<'qs> Cursor<'qs> {
    /// Returns a cursor at the start of an input, with the steps of earlier calls.
    pub fn new(input: &'qs [u8], is_form: bool, steps: Steps) -> Self
        ensures rest { result.rest.now ≡ input.now }
        ensures is_form { result.is_form ≡ is_form }
        ensures steps { result.steps ≡ steps }
        ensures fresh { result.ended ≡ false }
    {
        Cursor {
            rest: input,
            ended: false,
            is_form,
            has_no_escape: false,
            steps,
            pair: input,
        }
    }

    /// Starts a pair at the current position.
    pub fn begin_pair(&mut self)
        ensures rest { self.new.rest.now ≡ self.old.rest.now }
        ensures is_form { self.new.is_form ≡ self.old.is_form }
        ensures ended { self.new.ended ≡ self.old.ended }
        ensures steps { self.new.steps ≡ self.old.steps }
    {
        self.pair = self.rest;
    }

    /// Takes the steps so far.
    pub fn take_steps(&mut self) -> Steps
        ensures steps { result ≡ self.old.steps }
        ensures rest { self.new.rest.now ≡ self.old.rest.now }
        ensures ended { self.new.ended ≡ self.old.ended }
    {
        mem::replace(&mut self.steps, Steps::new())
    }

    /// Returns whether the end was reached. This isn't a step.
    pub fn has_ended(&self) -> bool
        ensures { result ≡ self.now.ended }
    {
        self.ended
    }

    /// Returns whether the last run or value is known to have no `+` and `%`.
    pub fn has_no_escape(&self) -> bool
        ensures { result ≡ self.now.has_no_escape }
    {
        self.has_no_escape
    }

    /// Returns the current position.
    pub fn position(&self) -> Position<'qs>
        ensures { result.rest.now ≡ self.now.rest.now }
    {
        Position { rest: self.rest }
    }

    /// Returns how many steps remain: one for each remaining byte, and one for the end unless it was reached.
    pub fn to_come(&self) -> usize
        ensures { result ≡ length self.now.rest.now + to_come self.now.ended }
    {
        self.rest.len() + usize::from(!self.ended)
    }

    /// Returns the bytes that were taken since a position.
    pub fn since(&self, position: Position<'qs>) -> &'qs [u8]
        requires { length self.now.rest.now ≤ length position.rest.now }
        ensures { result.now ≡ taken position.entry.rest.now self.now.rest.now }
    {
        let len = position.rest.len() - self.rest.len();
        &position.rest[..len]
    }

    /// Takes the next token, or reaches the end.
    #[inline(always)]
    pub fn next(&mut self) -> Option<Token<'qs>>
        ensures token { left self.old ≡ from_token result (left self.new) }
        ensures bytes { self.old.rest.now ≡ raw_from_token result self.new.rest.now }
        ensures position { IfSome result (λ t. t.position.rest.now ≡ self.old.rest.now) }
        ensures end { IfNone result (self.new.rest.now ≡ []) }
        ensures shorter { IfSome result (λ _. length self.new.rest.now < length self.old.rest.now) }
        ensures is_form { self.new.is_form ≡ self.old.is_form }
        ensures cost { spent self.new ≡ spent self.old + looks result }
        ensures ended { self.new.ended ≡ ended_after result self.old.ended }
        ensures has_no_escape { self.new.has_no_escape ≡ self.old.has_no_escape }
    {
        if self.rest.is_empty() {
            self.ended = true;
            self.steps.add(1);
            return None;
        }
        let position = self.position();
        let (kind, len) = first_token(self.rest, self.is_form);
        let (raw, rest) = self.rest.split_at(len);
        self.rest = rest;
        self.steps.add(len);
        Some(Token {
            kind,
            raw,
            position,
        })
    }

    /// Takes a run and the token that ends it, or everything up to the end. Returns the bytes of the run, and that token.
    #[inline(always)]
    pub fn run(&mut self, until: Until) -> (&'qs [u8], Option<Token<'qs>>)
        ensures run { result.0.now ≡ raw_of (cut (ends_of until) (left self.old)).0 }
        ensures token { (cut (ends_of until) (left self.old)).1 ≡ from_token result.1 (left self.new) }
        ensures bytes { self.old.rest.now ≡ result.0.now ++ raw_from_token result.1 self.new.rest.now }
        ensures kind { IfSome result.1 (λ t. ends_of until (kind_of_token t.kind) ≡ true) }
        ensures position { IfSome result.1 (λ t. t.position.rest.now ≡ t.raw.now ++ self.new.rest.now) }
        ensures end { IfNone result.1 (self.new.rest.now ≡ []) }
        ensures shorter { IfSome result.1 (λ _. length self.new.rest.now < length self.old.rest.now) }
        ensures cost { spent self.new ≡ spent self.old + looks result.1 }
        ensures ended { self.new.ended ≡ ended_after result.1 self.old.ended }
        ensures fewer { length self.new.rest.now ≤ length self.old.rest.now }
        ensures is_form { self.new.is_form ≡ self.old.is_form }
        ensures has_no_escape { IsTrue self.new.has_no_escape → has_escape result.0.now ≡ false }
    {
        self.run_from(self.position(), until)
    }

    /// Takes a run as [`run`](Cursor::run) does, and returns the bytes from an earlier position on.
    #[inline(always)]
    pub fn run_from(
        &mut self,
        position: Position<'qs>,
        until: Until,
    ) -> (&'qs [u8], Option<Token<'qs>>)
        requires { IsLeft position.rest.now self.old.rest.now }
        ensures run { result.0.now ≡ taken position.entry.rest.now self.old.rest.now ++ raw_of (cut (ends_of until) (left self.old)).0 }
        ensures token { (cut (ends_of until) (left self.old)).1 ≡ from_token result.1 (left self.new) }
        ensures bytes { position.entry.rest.now ≡ result.0.now ++ raw_from_token result.1 self.new.rest.now }
        ensures kind { IfSome result.1 (λ t. ends_of until (kind_of_token t.kind) ≡ true) }
        ensures position { IfSome result.1 (λ t. t.position.rest.now ≡ t.raw.now ++ self.new.rest.now) }
        ensures end { IfNone result.1 (self.new.rest.now ≡ []) }
        ensures shorter { IfSome result.1 (λ _. length self.new.rest.now < length self.old.rest.now) }
        ensures cost { spent self.new ≡ spent self.old + looks result.1 }
        ensures ended { self.new.ended ≡ ended_after result.1 self.old.ended }
        ensures fewer { length self.new.rest.now ≤ length self.old.rest.now }
        ensures is_form { self.new.is_form ≡ self.old.is_form }
        ensures has_no_escape { IsTrue self.new.has_no_escape → has_escape (raw_of (cut (ends_of until) (left self.old)).0) ≡ false }
    {
        let (len, has_no_escape) = run_len(self.rest, self.is_form, until);
        self.has_no_escape = has_no_escape;
        let (_, rest) = self.rest.split_at(len);
        self.rest = rest;
        self.steps.add(len);
        let before = self.since(position);
        (before, self.next())
    }

    /// Takes a value, which ends before the next `&` or the end, and that `&` or the end.
    pub fn value(&mut self) -> &'qs [u8]
        ensures value { result.now ≡ raw_of (cut is_amp (left self.old)).0 }
        ensures past { IsPast (cut is_amp (left self.old)).1 self.new }
        ensures has_no_escape { IsTrue (is_unescaped self.old.rest.now) → (has_escape result.now ≡ false) × (self.new.rest.now ≡ []) }
        ensures fewer { length self.new.rest.now ≤ length self.old.rest.now }
        ensures moves { self.old.ended ≡ false → GoesOn self.old self.new }
        ensures noted { IsTrue self.new.has_no_escape → has_escape result.now ≡ false }
    {
        let (end, has_no_escape) = find_value_end(self.rest);
        self.has_no_escape = has_no_escape;
        let (value, rest) = self.rest.split_at(end);
        self.rest = rest;
        self.steps.add(end);
        let _ = self.next();
        value
    }
}
