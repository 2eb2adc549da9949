//! The errors of values that don't fit their types.

#![tactic(auto, using(crate::proofs::Errors::step_errors))]

ghost use Rattle.std.specs.Prelude.{◌≡◌, ◌≢◌, ◌⊎◌, Bool};
ghost use Rattle.qs_data.specs.declared.read.error.ReadError.TheVariants.{OutOfMemory};
ghost use Rattle.std.specs.Str.{is_utf8};
ghost use Rattle.qs_tree.specs.tree.Views.{tree_of};
ghost use Rattle.qs_data.specs.read.internal.ReadError.{ReadIsCustom};
ghost use Rattle.qs_data.specs.read.Errors.{IsOfReading};
ghost use Rattle.qs_data.specs.read.Narrowed.{IsPassedOn};
ghost use Rattle.qs_data.specs.read.TreeText.{is_text};
ghost use Rattle.qs_serde.specs.Errors.{IsStepError};
ghost use Rattle.qs_serde.specs.Nodes.{node_tree};

use super::format::{Asked, TreeFormat};
use super::node::{Node, Part, entries_in, entry_at};
use itoa::Buffer;
use qs_data::{ReadError, Shape, Width};
use qs_tree::{Error, Key, ParsedValue};
use std::fmt::Display;
use std::str;

impl<'t, 'qs> TreeFormat<'t, 'qs> {
    /// Returns the error of a value that doesn't fit its type, if no more is known.
    #[cold]
    #[inline(never)]
    pub(crate) fn no_value(&self) -> ReadError
        ensures { ReadIsCustom result }
    {
        self.saying("invalid value")
    }

    /// Returns the error of a text that isn't a number.
    #[cold]
    #[inline(never)]
    pub(crate) fn no_number(&self) -> ReadError
        ensures { ReadIsCustom result }
    {
        self.saying("invalid type: string, expected a number")
    }

    /// Returns the error of a text that isn't borrowed from the input, or of a node that isn't read as a text.
    #[cold]
    #[inline(never)]
    pub(crate) fn not_borrowed(&self, node: Node<'t, 'qs>) -> ReadError
        ensures { IsStepError (is_text (node_tree node.entry)) result }
    {
        match self.read_key(node, &Shape::Text) {
            Ok(_) => self.hinted(
                node,
                self.saying("invalid type: string, expected a borrowed string"),
            ),
            Err(error) => error,
        }
    }

    /// Returns the error of a value that doesn't fit its type, by what the type requested.
    #[cold]
    #[inline(never)]
    pub(crate) fn unfit(&self) -> ReadError {
        match self.asked {
            Asked::Unit | Asked::Key | Asked::Content | Asked::Kind | Asked::Ended => {
                self.unfit_as(self.part, &Shape::Unit)
            }
            Asked::Unsigned(part) => self.unfit_as(part, &unsigned_shape(self.search.width)),
            Asked::Signed(part) => self.unfit_as(part, &signed_shape(self.search.width)),
            Asked::Enum => self.error(self.reader.not_an_enum(self.node)),
            Asked::Variant => {
                self.saying("invalid type: unit variant, expected a variant that holds a value")
            }
            Asked::Lacking => self.no_content(),
            Asked::Tried => self.saying("data did not match any variant of untagged enum"),
            Asked::Entry | Asked::Marked | Asked::Nothing => self.no_value(),
        }
    }

    // Returns the error of a part that doesn't fit this shape.
    fn unfit_as(&self, part: Part, shape: &Shape) -> ReadError {
        match self.misfit(part, shape) {
            Some(error) => error,
            None => self.no_value(),
        }
    }

    /// Returns the error of the number that was requested last, if this width doesn't hold it.
    pub(crate) fn number_misfit(&self, width: Width) -> Option<ReadError> {
        match self.asked {
            Asked::Unsigned(part) => self.misfit(part, &unsigned_shape(width)),
            Asked::Signed(part) => self.misfit(part, &signed_shape(width)),
            _ => None,
        }
    }

    // Returns the error of a part, if this shape doesn't read it.
    fn misfit(&self, part: Part, shape: &Shape) -> Option<ReadError> {
        self.read_key(self.part(part), shape).err()
    }

    /// Converts an error, as [`ReadError::of`] does.
    pub(crate) fn error(&self, error: Error) -> ReadError
        requires { IsOfReading error }
        ensures { IsPassedOn error result }
    {
        ReadError::of(self.reader.alloc, error)
    }

    /// Returns the error with this message.
    pub(crate) fn saying<T: Display + Drop>(&self, message: T) -> ReadError
        ensures { ReadIsCustom result }
    {
        self.error(Error::custom(self.reader.alloc, message, &()))
    }

    /// Returns the error of a node that names no variant.
    #[cold]
    #[inline(never)]
    pub(crate) fn no_variant(&self, node: Node<'t, 'qs>) -> ReadError
        ensures { IsStepError (is_text (node_tree node.entry)) result }
    {
        match node {
            Node::Value(ParsedValue::String(text)) => self.unnamed_variant(text.as_slice()),
            Node::Value(ParsedValue::Null) => self.unnamed_variant(&[]),
            Node::Value(value) => self.error(self.reader.not_an_enum(value)),
            Node::Key(Key::String(text)) => self.unnamed_variant(text.as_slice()),
            Node::Key(Key::Int(number)) => {
                let mut buffer = Buffer::new();
                self.unnamed_variant(buffer.format(*number).as_bytes())
            }
            Node::EmptyKey | Node::NoValue => self.unnamed_variant(&[]),
            Node::Nothing => self.no_value(),
        }
    }

    /// Returns the error of a variant that isn't known, or is known under a tag.
    #[cold]
    #[inline(never)]
    pub(crate) fn no_tag(&self) -> ReadError {
        match self.tag() {
            Some(tag) => self.no_variant(Node::Value(tag)),
            None => self.saying("unknown variant"),
        }
    }

    // Returns the text that names no variant, if it is in the innermost map or in the current node.
    fn tag(&self) -> Option<&'t ParsedValue<'qs>> {
        let place = self.clues.variant?;
        let map = if self.depth() < place.depth {
            self.node
        } else {
            self.top
        };
        let (_, tag) = entry_at(map, place.at)?;
        Some(tag)
    }

    /// Returns the error of a list that ended too early, or goes on.
    pub(crate) fn wrong_length(&self) -> ReadError
        ensures { ReadIsCustom result }
    {
        self.error(self.reader.missing_item(self.count))
    }

    // Returns the error of a text that names no variant.
    fn unnamed_variant(&self, name: &[u8]) -> ReadError
        ensures { IsStepError (is_utf8 name.now) result }
    {
        self.error(self.reader.unknown_variant(name))
    }

    /// Returns the error of a key of this map that isn't UTF-8.
    #[cold]
    #[inline(never)]
    pub(crate) fn broken_key(&self, map: &ParsedValue<'_>) -> ReadError
        ensures { IsStepError (is_text (tree_of map.now)) result }
    {
        match entries_in(map).test() {
            Ok(()) => self.no_value(),
            Err(key) => self.error(key.into_error(self.reader.alloc)),
        }
    }

    /// Returns the error of a key of this map that isn't UTF-8 and should name a variant. It has no hint.
    #[cold]
    #[inline(never)]
    pub(crate) fn broken_variant(&self, map: &ParsedValue<'_>, key: Node<'t, 'qs>) -> ReadError
        ensures { IsStepError (is_text (tree_of map.now)) result }
    {
        match entries_in(map).test() {
            Ok(()) => self.no_value(),
            Err(_) => self.no_variant(key),
        }
    }

    /// Returns the error of a key that names no field.
    #[cold]
    #[inline(never)]
    pub(crate) fn no_field(&self) -> ReadError {
        let key = self.key();
        let error = match key {
            Node::Key(Key::Int(number)) => self.unknown_field(buffered(
                &mut Buffer::new(),
                *number,
            )),
            Node::Key(Key::String(text)) => match str::from_utf8(text.as_slice()) {
                Ok(name) => self.unknown_field(name),
                Err(cause) => ReadError::utf8(self.reader.alloc, cause),
            },
            _ => self.unknown_field(""),
        };
        self.hinted(key, error)
    }

    // Returns the error of a key with this text, which names no field.
    fn unknown_field(&self, name: &str) -> ReadError {
        self.saying(format_args!("unknown field `{name}`"))
    }

    /// Returns the error of a node, with a hint if the node is a key that contains a bracket.
    #[cold]
    #[inline(never)]
    pub(crate) fn hinted(&self, node: Node<'t, 'qs>, error: ReadError) -> ReadError
        ensures step { (all_text : Bool) → IsStepError all_text error → IsStepError all_text result }
        ensures hinted { (result ≡ error) ⊎ (ReadIsCustom result × (error ≢ OutOfMemory)) }
    {
        if !node.has_bracket() || matches!(error, ReadError::OutOfMemory) {
            return error;
        }
        self.saying(format_args!(
            "{}\n\
            Invalid field contains an encoded bracket -- consider using form encoding mode\n\
            \u{20} https://docs.rs/serde_qs/latest/serde_qs/#query-string-vs-form-encoding",
            Error::from(error)
        ))
    }
}

// Returns the digits of a number.
fn buffered(buffer: &mut Buffer, number: u32) -> &str {
    buffer.format(number)
}

// Returns the shape of an unsigned number.
fn unsigned_shape(width: Width) -> Shape {
    match width {
        Width::Bits8 => Shape::U8,
        Width::Bits16 => Shape::U16,
        Width::Bits32 => Shape::U32,
        Width::Bits64 => Shape::U64,
    }
}

// Returns the shape of a signed number.
fn signed_shape(width: Width) -> Shape {
    match width {
        Width::Bits8 => Shape::I8,
        Width::Bits16 => Shape::I16,
        Width::Bits32 => Shape::I32,
        Width::Bits64 => Shape::I64,
    }
}
