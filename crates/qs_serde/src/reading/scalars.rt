//! Values of one text.

#![tactic(auto, using(crate::proofs::Errors::step_errors))]

ghost use Rattle.std.specs.Prelude.{◌≡◌, Bool, true, map, slice_range, IfErr, IfOk, IfSome, OnOk, Some, string_bytes};
ghost use Rattle.std.specs.Str.{is_utf8};
ghost use Rattle.qs_spec.specs.Data as d;
ghost use Rattle.qs_spec.specs.Node.{item_text, last_item};
ghost use Rattle.qs_spec.specs.Shape as s;
ghost use Rattle.qs_data.specs.data.Views.{data_of};
ghost use Rattle.qs_data.specs.shape.Views.{shape_of};
ghost use Rattle.qs_tree.specs.tree.Views.{items_from, tree_of};
ghost use Rattle.qs_data.specs.read.Reads.{reads};
ghost use Rattle.qs_data.specs.read.internal.ReadError.{ReadGives, ReadIsUtf8};
ghost use Rattle.qs_data.specs.read.TreeText.{is_text};
ghost use Rattle.qs_data.specs.read.internal.GivenText.{given_text};
ghost use Rattle.qs_serde.specs.Errors.{FailsOn, IsStepError};
ghost use Rattle.qs_serde.specs.Nodes.{node_tree};
ghost use Rattle.qs_serde.specs.Places.{scalar_at};
ghost use Rattle.qs_serde.specs.Steps.{Returns, Takes};

use super::data::as_text;
use super::format::TreeFormat;
use super::node::Node;
use super::{ReadError, Result};
use memchr::memmem;
use qs_data::{Data, Reader, Shape};
use qs_tree::{Key, ParsedValue};
use std::alloc::Global;
use std::borrow::CowSlice;
use std::str;

impl<'t, 'qs> TreeFormat<'t, 'qs> {
    /// Reads a node by a shape. If the node is a key that contains a bracket, its error has a hint.
    #[inline(never)]
    pub(crate) fn read_key(&self, node: Node<'t, 'qs>, shape: &Shape) -> Result<Data>
        ensures errors { FailsOn (node_tree node.entry) result }
        ensures exact { ReadGives data_of (is_text (node_tree node.entry)) result (reads self.now.reader.reject_duplicates (shape_of shape.now) (node_tree node.entry)) }
    {
        match node.read(self.reader, shape) {
            Ok(data) => Ok(data),
            Err(error) => Err(self.hinted(node, error)),
        }
    }

    /// Reads what is next by a shape.
    pub(crate) fn by_shape(&mut self, shape: &Shape) -> Result<Data>
        ensures takes { Takes self.old self.new }
        ensures exact { Returns data_of self.old (shape_of shape.now) result }
        ensures errors { FailsOn (scalar_at self.old) result }
    {
        let node = self.take();
        self.read_key(node, shape)
    }

    /// Reads a node as a boolean.
    #[inline(always)]
    pub(crate) fn boolean(&self, node: Node<'t, 'qs>) -> Result<Data>
        ensures { ReadGives data_of (is_text (node_tree node.entry)) result (reads self.now.reader.reject_duplicates s.Shape.boolean (node_tree node.entry)) }
    {
        match node {
            Node::Value(value) => ReadError::of_result(
                self.reader.alloc,
                self.reader.boolean(value),
            ),
            _ => self.read_key(node, &Shape::Bool),
        }
    }

    /// Reads what is next as a text.
    #[tactic(auto, using(crate::proofs::Errors::step_errors, crate::proofs::Borrowed::text_read, crate::proofs::Borrowed::text_only))]
    pub(crate) fn text(&mut self) -> Result<String>
        ensures takes { Takes self.old self.new }
        ensures exact { Returns (λ v. d.text (string_bytes v)) self.old s.Shape.text result }
        ensures errors { FailsOn (scalar_at self.old) result }
    {
        let node = self.take();
        if let Some(text) = plain_text(node) {
            return Ok(String::from_str(self.reader.alloc, text)?);
        }
        let data = self.read_key(node, &Shape::Text)?;
        match as_text(data) {
            Some(text) => Ok(text),
            None => Err(self.no_value()),
        }
    }

    /// Returns the range of a text in the input. Any occurrence will do, since all have the same bytes.
    pub(crate) fn place(&self, text: &[u8], input: &[u8]) -> Result<(usize, usize)>
        ensures errors { IfErr result (IsStepError true) }
        ensures place { IfOk result (λ r. slice_range input.now r.0 r.1 ≡ text.now) }
    {
        let Some(start) = memmem::find(input, text) else {
            return Err(self.no_value());
        };
        let end = start.saturating_add(text.len());
        if input.get(start..end) == Some(text) {
            Ok((start, end))
        } else {
            Err(self.no_value())
        }
    }
}

/// Returns the text of a node or a key that is one, if it is UTF-8.
#[inline(always)]
#[tactic(auto, using(qs_data::proofs::lemmas::read::Errors::utf8_tests))]
pub(crate) fn plain_text<'t>(node: Node<'t, '_>) -> Option<&'t str>
    ensures text { IfSome result (λ t. is_utf8 t.now ≡ true) }
    ensures given { IfSome result (λ t. (reject_duplicates : Bool) → given_text reject_duplicates (node_tree node.entry) ≡ Some (Some t.now)) }
{
    let bytes = match node {
        Node::Value(ParsedValue::String(text)) => text.as_slice(),
        Node::Key(Key::String(text)) => text.as_slice(),
        _ => return None,
    };
    match str::from_utf8(bytes) {
        Ok(text) => Some(text),
        Err(_) => None,
    }
}

/// Returns the last text of a node, if the node borrows it from the input. An empty value has none.
pub(crate) fn borrowed_text<'t, 'qs>(reader: Reader, node: Node<'t, 'qs>) -> Option<&'t [u8]>
    ensures { IfSome result (λ b. given_text reader.reject_duplicates (node_tree node.entry) ≡ Some (Some b.now)) }
{
    match node {
        Node::Value(value) => borrowed_value(reader, value),
        Node::EmptyKey => Some(&[]),
        Node::Key(Key::String(CowSlice::Borrowed(text))) => Some(text),
        _ => None,
    }
}

// Returns the last text of a value, if the value borrows it from the input.
fn borrowed_value<'t>(reader: Reader, value: &'t ParsedValue<'_>) -> Option<&'t [u8]>
    ensures { IfSome result (λ b. given_text reader.reject_duplicates (tree_of value.now) ≡ Some (Some b.now)) }
{
    match value {
        ParsedValue::String(CowSlice::Borrowed(text)) => Some(text),
        ParsedValue::Sequence(items) => Some(borrowed_last(reader, items)?),
        _ => None,
    }
}

// Returns the text of the last item, if the item borrows it from the input; `None` if there are several items and duplicates are rejected.
#[tactic(auto, using(qs_data::proofs::lemmas::read::Scalars::last_item_is))]
fn borrowed_last<'t>(reader: Reader, items: &'t [ParsedValue<'_>]) -> Option<&'t [u8]>
    ensures { IfSome result (λ b. last_item reader.reject_duplicates (items_from (map tree_of items.now)) ≡ Some b.now) }
{
    let Some(last) = items.last() else {
        return None;
    };
    if reader.reject_duplicates && items.len() > 1 {
        return None;
    }
    Some(borrowed_item(last)?)
}

// Returns the text of an item, if the item borrows it from the input. The text of an empty value is empty.
fn borrowed_item<'t>(item: &'t ParsedValue<'_>) -> Option<&'t [u8]>
    ensures { IfSome result (λ b. item_text (tree_of item.now) ≡ Some b.now) }
{
    match item {
        ParsedValue::NoValue | ParsedValue::Null => Some(&[]),
        ParsedValue::String(CowSlice::Borrowed(text)) => Some(text),
        _ => None,
    }
}

/// Tests whether a text is UTF-8.
#[tactic(auto, using(qs_data::proofs::lemmas::read::Errors::utf8_tests, qs_data::proofs::lemmas::read::ReadErrors::passed_utf8))]
pub(crate) fn test_utf8(alloc: Global, text: &[u8]) -> Result<()>
    ensures text { OnOk result (is_utf8 text.now ≡ true) }
    ensures utf8 { IfErr result ReadIsUtf8 }
    ensures errors { IfErr result (IsStepError (is_utf8 text.now)) }
{
    match str::from_utf8(text) {
        Ok(_) => Ok(()),
        Err(cause) => Err(ReadError::utf8(alloc, cause)),
    }
}
