//! Keys that no field of a struct has.

ghost use Rattle.std.specs.Prelude.{◌≡◌, ◌||◌, None};
ghost use Rattle.std.specs.Str.{is_utf8};
ghost use Rattle.qs_spec.specs.Segment.{segment_text};
ghost use Rattle.qs_spec.specs.Shape.{Fields, are_ignored, is_field_name};
ghost use Rattle.qs_spec.specs.Node.{keys_are_names, keys_are_text};
ghost use Rattle.qs_tree.specs.tree.Views.{entries_of_map, segment_of_key};
ghost use Rattle.qs_data.specs.shape.Views.{fields_in};
ghost use Rattle.qs_data.specs.read.Gives.{Gives};
ghost use Rattle.qs_data.specs.read.internal.ReadError.{ReadGives, ReadRejects};
ghost use Rattle.qs_data.specs.read.Keys.{entries_view, unknown_of, when};

use crate::read::by_shape::Reader;
use crate::read::error::{ReadError, Result};
use crate::read::keys::NodeEntries;
use crate::read::message::{Message, key_error};
use crate::read::scalar::as_text;
use crate::shape::{Field, is_field_name};
use itoa::Buffer;
use qs_tree::{Error, Key, ParsedMap};
use std::alloc::Global;

/// What happens to a key that no field has.
///
/// ```
/// UnknownKeys::Rejected.reject(reader, &fields, entries)?; // an error for age=24&x=1 where only `age` is a field
/// ```
#[derive(Clone, Copy)]
pub enum UnknownKeys {
    /// It is ignored.
    Ignored,
    /// It is rejected.
    Rejected,
}

/// The names of the fields of a struct.
///
/// ```
/// let fields = vec![in alloc; age]?; // of the type Field
/// let known = fields.has(b"age"); // true
/// ```
pub trait FieldNames {
    // The fields.
    ghost fields: { Self → Fields };

    /// Returns whether one of the fields has this name.
    ///
    /// ```
    /// let known = fields.has(b"age");
    /// ```
    fn has(&self, name: &[u8]) -> bool
        ensures { result ≡ is_field_name name.now (fields self.now) };
}

impl FieldNames for Vec<Field> {
    ghost fields = { λ fs. fields_in fs.items };

    fn has(&self, name: &[u8]) -> bool {
        is_field_name(self, name)
    }
}

impl UnknownKeys {
    /// Rejects the smallest key that no field has, if unknown keys are rejected. It allocates only for the error.
    ///
    /// The error is [`Custom`](qs_tree::Error::Custom), with a hint if the key holds a bracket, or [`Utf8`](qs_tree::Error::Utf8) if the
    /// key isn't UTF-8 and holds none. Each key is compared with the fields' names up to its own. Keys after the first unknown one aren't
    /// looked at.
    ///
    /// ```
    /// unknown.reject(reader, &names, entries)?;
    /// ```
    #[inline(always)]
    pub fn reject<N: FieldNames>(
        self,
        reader: Reader,
        names: &N,
        entries: NodeEntries<'_, '_>,
    ) -> Result<(), Error>
        ensures { let es = entries_view entries.entry in
            Gives (λ _. tt) (keys_are_text es) result (when (keys_are_names (N.fields names.now) es || are_ignored (unknown_of self))) }
    {
        Ok(self.test(reader.alloc, names, entries)?)
    }

    /// Does the same as [`reject`](UnknownKeys::reject), with the error type that is used inside reading.
    #[inline(always)]
    pub(crate) fn test<N: FieldNames>(
        self,
        alloc: Global,
        names: &N,
        entries: NodeEntries<'_, '_>,
    ) -> Result<()>
        ensures { let es = entries_view entries.entry in
            ReadGives (λ _. tt) (keys_are_text es) result (when (keys_are_names (N.fields names.now) es || are_ignored (unknown_of self))) }
    {
        match (self, entries) {
            (UnknownKeys::Ignored, _) | (_, NodeEntries::Empty) => Ok(()),
            (UnknownKeys::Rejected, NodeEntries::Leaf(_)) => test_name(alloc, names, &[]),
            (UnknownKeys::Rejected, NodeEntries::Map(map)) => test_map(alloc, names, map),
        }
    }
}

// Tests whether all keys of a map are names, and returns the error of the first that isn't.
#[tactic(auto, using(crate::proofs::lemmas::read::Entries::after_none, crate::proofs::lemmas::read::Entries::after_all))]
fn test_map<N: FieldNames>(alloc: Global, names: &N, map: &ParsedMap<'_>) -> Result<()>
    ensures { let es = entries_of_map map.now in
        ReadGives (λ _. tt) (keys_are_text es) result (when (keys_are_names (N.fields names.now) es)) }
{
    for i in 0..map.len() {
        let Some((key, _)) = map.at(i) else {
            break;
        };
        test_key(alloc, names, key)?;
    }
    Ok(())
}

// Tests whether the text of a key is a name, and returns an error if it isn't.
fn test_key<N: FieldNames>(alloc: Global, names: &N, key: &Key<'_>) -> Result<()>
    ensures { let name = segment_text (segment_of_key key.now) in
        ReadGives (λ _. tt) (is_utf8 name) result (when (is_field_name name (N.fields names.now))) }
{
    match key {
        Key::Int(number) => {
            let mut buffer = Buffer::new();
            test_name(alloc, names, buffer.format(*number).as_bytes())
        }
        Key::String(text) => test_name(alloc, names, text.as_slice()),
    }
}

// Tests whether a text is a name, and returns an error if it isn't.
fn test_name<N: FieldNames>(alloc: Global, names: &N, name: &[u8]) -> Result<()>
    ensures { ReadGives (λ _. tt) (is_utf8 name.now) result (when (is_field_name name.now (N.fields names.now))) }
{
    if names.has(name) {
        Ok(())
    } else {
        Err(unknown_key(alloc, name))
    }
}

// Returns the error of a key that no field has.
fn unknown_key(alloc: Global, key: &[u8]) -> ReadError
    ensures { ReadRejects {Y = Unit {0}} (is_utf8 key.now) result None }
{
    let error = match as_text(alloc, key) {
        Ok(text) => Message::UnknownField(text).error(alloc),
        Err(error) => error,
    };
    key_error(alloc, key, error)
}
