//! Whether the keys of a map are UTF-8.

ghost use Rattle.std.specs.Prelude.{◌≡◌, Err};
ghost use Rattle.std.specs.Str.{is_utf8};
ghost use Rattle.qs_spec.specs.Segment.{segment_text};
ghost use Rattle.qs_spec.specs.Node.{keys_are_text};
ghost use Rattle.qs_tree.specs.tree.Views.{entries_of_map, segment_of_key};
ghost use Rattle.qs_tree.specs.declared.error.Error.TheVariants.{Utf8};
ghost use Rattle.qs_data.specs.read.Narrowed.{IsPassedOn};
ghost use Rattle.qs_data.specs.read.internal.Hint.{IsKeyError};
ghost use Rattle.qs_data.specs.read.Errors.{IsOfReading};
ghost use Rattle.qs_data.specs.read.Keys.{NumbersFit, KeyFits, PassesTest, entries_view};

use crate::read::error::{ReadError, Result};
use crate::read::keys::NodeEntries;
use crate::read::message::key_error;
use qs_tree::{Error, Key, ParsedMap};
use std::alloc::Global;
use std::str;
use std::str::Utf8Error;

/// A key that isn't UTF-8, which [`NodeEntries::test`] returns.
///
/// ```
/// let broken = entries.test(); // Err for %FF=1
/// ```
#[derive(Clone, Copy)]
pub struct BrokenKey<'t> {
    text: &'t [u8],
    cause: Utf8Error,
}

impl BrokenKey<'_> {
    /// Returns the error of this key.
    pub(crate) fn error(self, alloc: Global) -> ReadError
        ensures { (broken : ReadError) × IsPassedOn (Utf8 self.entry.cause) broken × IsKeyError self.entry.text.now broken result }
    {
        key_error(alloc, self.text, ReadError::utf8(alloc, self.cause))
    }

    /// Returns the error of this key: [`Utf8`](qs_tree::Error::Utf8), or [`Custom`](qs_tree::Error::Custom) with a hint if the key holds a
    /// bracket. It allocates.
    ///
    /// ```
    /// if let Err(broken) = entries.test() {
    ///     return Err(broken.into_error(alloc));
    /// }
    /// ```
    pub fn into_error(self, alloc: Global) -> Error
        ensures { IsOfReading result }
    {
        Error::from(self.error(alloc))
    }
}

/// Tests whether all keys are UTF-8, and returns the first that isn't.
#[tactic(auto, using(crate::proofs::lemmas::read::Numbers::empty_text))]
pub(crate) fn test_keys<'t>(entries: NodeEntries<'t, '_>) -> Result<(), BrokenKey<'t>>
    ensures text { PassesTest result (keys_are_text (entries_view entries.entry)) }
    ensures fit { NumbersFit (entries_view entries.entry) }
{
    match entries {
        NodeEntries::Empty => Ok(()),
        NodeEntries::Leaf(_) => Ok(()),
        NodeEntries::Map(map) => test_map(map),
    }
}

// Tests the keys of a map. It looks at all keys, so the integers among them are known to have 32 bits whatever the result.
#[tactic(auto, using(crate::proofs::lemmas::read::Entries::after_none, crate::proofs::lemmas::read::Entries::after_all, crate::proofs::lemmas::read::Entries::tested_all, crate::proofs::lemmas::read::Entries::tested_done, crate::proofs::lemmas::read::Entries::fit_done))]
fn test_map<'t>(map: &'t ParsedMap<'_>) -> Result<(), BrokenKey<'t>>
    ensures text { PassesTest result (keys_are_text (entries_of_map map.now)) }
    ensures fit { NumbersFit (entries_of_map map.now) }
{
    let mut tested = Ok(());
    for i in 0..map.len() {
        let Some((key, _)) = map.at(i) else {
            break;
        };
        tested = tested.and(test_key(key));
    }
    tested
}

/// Returns whether the keys of a map are UTF-8. It looks at all keys, as `test_map` does.
#[tactic(auto, using(crate::proofs::lemmas::read::Entries::after_none, crate::proofs::lemmas::read::Entries::after_all, crate::proofs::lemmas::read::Entries::passed_all, crate::proofs::lemmas::read::Entries::passed_done, crate::proofs::lemmas::read::Entries::passed_fit))]
#[inline(always)]
pub(crate) fn keys_are_text(map: &ParsedMap<'_>) -> bool
    ensures text { result ≡ keys_are_text (entries_of_map map.now) }
    ensures fit { NumbersFit (entries_of_map map.now) }
{
    let mut passed = true;
    for i in 0..map.len() {
        let Some((key, _)) = map.at(i) else {
            break;
        };
        passed &= is_utf8_key(key);
    }
    passed
}

// Returns whether a key is UTF-8.
#[inline(always)]
#[tactic(auto, using(crate::proofs::lemmas::read::Numbers::decimal_text))]
fn is_utf8_key(key: &Key<'_>) -> bool
    ensures text { result ≡ is_utf8 (segment_text (segment_of_key key.now)) }
    ensures fit { KeyFits (segment_of_key key.now) }
{
    match key {
        Key::Int(number) => {
            let _fits = *number;
            true
        }
        Key::String(text) => is_text(text.as_slice()),
    }
}

/// Returns whether bytes are UTF-8, as `test_text` tests it.
#[inline(always)]
#[tactic(auto, using(crate::proofs::lemmas::read::Errors::utf8_tests, crate::proofs::lemmas::read::Numbers::ascii_text))]
pub(crate) fn is_text(text: &[u8]) -> bool
    ensures { result ≡ is_utf8 text.now }
{
    text.is_ascii() || str::from_utf8(text).is_ok()
}

// Tests whether a key is UTF-8.
#[tactic(auto, using(crate::proofs::lemmas::read::Numbers::decimal_text))]
fn test_key<'t>(key: &'t Key<'_>) -> Result<(), BrokenKey<'t>>
    ensures text { PassesTest result (is_utf8 (segment_text (segment_of_key key.now))) }
    ensures fit { KeyFits (segment_of_key key.now) }
{
    match key {
        Key::Int(number) => {
            let _fits = *number;
            Ok(())
        }
        Key::String(text) => test_text(text.as_slice()),
    }
}

// Tests whether bytes are UTF-8. Most are ASCII, for which the test is faster.
#[tactic(auto, using(crate::proofs::lemmas::read::Errors::utf8_tests, crate::proofs::lemmas::read::Numbers::ascii_text))]
fn test_text(text: &[u8]) -> Result<(), BrokenKey<'_>>
    ensures { PassesTest result (is_utf8 text.now) }
{
    if text.is_ascii() {
        return Ok(());
    }
    match str::from_utf8(text) {
        Ok(_) => Ok(()),
        Err(cause) => Err(BrokenKey { text, cause }),
    }
}
