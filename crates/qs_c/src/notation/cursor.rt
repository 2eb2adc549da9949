//! Words, names and signs in a shape's text.

ghost use Rattle.std.specs.Prelude.{◌≡◌, ℕ, List, IsTrue, IsFalse, length, string_bytes};
ghost use Rattle.qs_c.specs.Notation.{after_word, after_sign, comes, goes_on, name, name_of, quoted, trimmed, wanted, word, word as word_of, word_name};
ghost use Rattle.std.specs.Str.{bytes_eq};
ghost use Rattle.qs_c.specs.internal.Parses.{Parses};

use super::class::{Class, run};
use super::stop::{Result, Stop};
use qs_tree::decode;
use std::alloc::Global;

/// The rest of the text, without white space at its front.
#[derive(Drop)]
pub(crate) struct Cursor<'t> {
    rest: &'t [u8],
}

impl<'t> Cursor<'t> {
    /// Returns a cursor at the front of the text.
    pub(crate) fn new(text: &'t [u8]) -> Cursor<'t>
        ensures { result.rest.now ≡ trimmed text.now }
    {
        Cursor {
            rest: without_blanks(text),
        }
    }

    /// Returns the number of bytes left.
    pub(crate) fn len(&self) -> usize
        ensures { result ≡ length self.now.rest.now }
    {
        self.rest.len()
    }

    /// Takes the sign if it is next, and returns whether it is.
    pub(crate) fn take(&mut self, sign: u8) -> bool
        ensures comes { result ≡ comes sign self.old.rest.now }
        ensures taken { IsTrue result → self.new.rest.now ≡ after_sign self.old.rest.now }
        ensures left { IsFalse result → self.new.rest.now ≡ self.old.rest.now }
    {
        match self.rest {
            [first, rest @ ..] if *first == sign => {
                self.rest = without_blanks(rest);
                true
            }
            _ => false,
        }
    }

    /// Takes the sign, or returns an error with the reason if it isn't next.
    pub(crate) fn expect(&mut self, sign: u8, reason: &'static str) -> Result<()>
        ensures { Parses (λ u. tt) (wanted sign reason.now self.old.rest.now) result self.new.rest.now }
    {
        if self.take(sign) {
            Ok(())
        } else {
            Err(Stop::Fault(reason))
        }
    }

    /// Returns whether a list goes on. If so it takes a comma, and otherwise the sign that closes the list.
    #[tactic(auto, using(crate::proofs::Found::steps), unfolding(crate::specs::Notation::goes_on))]
    pub(crate) fn goes_on(&mut self, sign: u8, reason: &'static str) -> Result<bool>
        ensures { Parses (λ more. more) (goes_on sign reason.now self.old.rest.now) result self.new.rest.now }
    {
        if self.take(b',') {
            return Ok(true);
        }
        self.expect(sign, reason)?;
        Ok(false)
    }

    /// Takes the next word, which may be empty.
    #[tactic(auto, using(crate::proofs::Found::steps), unfolding(crate::specs::Notation::word, crate::specs::Notation::after_word))]
    pub(crate) fn word(&mut self) -> &'t [u8]
        ensures word { result.now ≡ word self.old.rest.now }
        ensures rest { self.new.rest.now ≡ after_word self.old.rest.now }
    {
        let len = run(Class::Word, self.rest);
        let (word, rest) = self.rest.split_at(len);
        self.rest = without_blanks(rest);
        word
    }

    /// Takes the word if it is next, and returns whether it is.
    pub(crate) fn take_word(&mut self, word: &[u8]) -> bool
        ensures comes { result ≡ bytes_eq (word_of self.old.rest.now) word.now }
        ensures taken { IsTrue result → self.new.rest.now ≡ after_word self.old.rest.now }
        ensures left { IsFalse result → self.new.rest.now ≡ self.old.rest.now }
    {
        let before = self.rest;
        if self.word() == word {
            return true;
        }
        self.rest = before;
        false
    }

    /// Takes the next name: a word, or the text between two `"`, decoded as in a querystring.
    #[tactic(auto, using(crate::proofs::Found::steps), unfolding(crate::specs::Notation::name))]
    pub(crate) fn name(&mut self, alloc: Global) -> Result<String>
        ensures { Parses string_bytes (name self.old.rest.now) result self.new.rest.now }
    {
        match self.rest {
            [b'"', rest @ ..] => {
                self.rest = rest;
                self.quoted(alloc)
            }
            _ => self.word_name(alloc),
        }
    }

    // Takes a name up to the closing quote, and decodes it.
    #[tactic(auto, using(crate::proofs::Found::steps), unfolding(crate::specs::Notation::quoted))]
    fn quoted(&mut self, alloc: Global) -> Result<String>
        ensures { Parses string_bytes (quoted self.old.rest.now) result self.new.rest.now }
    {
        let len = run(Class::NoQuote, self.rest);
        let (name, rest) = self.rest.split_at(len);
        self.rest = rest;
        self.expect(b'"', "a name has no closing quote")?;
        match decode(alloc, name) {
            Ok(bytes) => name_of(alloc, bytes.as_slice()),
            Err(_) => Err(Stop::OutOfMemory),
        }
    }

    // Takes the next word as a name.
    fn word_name(&mut self, alloc: Global) -> Result<String>
        ensures { Parses string_bytes (word_name self.old.rest.now) result self.new.rest.now }
    {
        let word = self.word();
        if word.is_empty() {
            return Err(Stop::Fault("a name is wanted"));
        }
        name_of(alloc, word)
    }
}

// Returns the bytes as a name.
fn name_of(alloc: Global, bytes: &[u8]) -> Result<String>
    ensures { (rest : List ℕ) → Parses string_bytes (name_of bytes.now rest) result rest }
{
    match std::str::from_utf8(bytes) {
        Ok(name) => Ok(String::from_str(alloc, name)?),
        Err(_) => Err(Stop::Fault("a name isn't UTF-8")),
    }
}

// Returns the text without the white space at its front.
#[tactic(auto, using(crate::proofs::Found::steps), unfolding(crate::specs::Notation::trimmed))]
fn without_blanks(text: &[u8]) -> &[u8]
    ensures { result.now ≡ trimmed text.now }
{
    let blanks = run(Class::Blank, text);
    &text[blanks..]
}
