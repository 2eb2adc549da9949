//! The nodes of a tree, and the keys that lead to them.

ghost use Rattle.std.specs.Prelude.{◌≡◌, ◌<◌, drop, false, true, None, Some, slice_get, option_map, IfOk, IfSome, MatchOption};
ghost use Rattle.qs_spec.specs.Leaf.Leaf.{Text};
ghost use Rattle.qs_spec.specs.Node.{are_ints, keys_are_text};
ghost use Rattle.qs_spec.specs.Tree.Tree.{leaf};
ghost use Rattle.qs_tree.specs.tree.Views.{entries_of_map, tree_of};
ghost use Rattle.qs_data.specs.data.Views.{data_of};
ghost use Rattle.qs_data.specs.shape.Views.{shape_of};
ghost use Rattle.qs_data.specs.read.Items.{first_item, items_view};
ghost use Rattle.qs_data.specs.read.Reads.{reads};
ghost use Rattle.qs_data.specs.read.internal.ReadError.{ReadGives};
ghost use Rattle.qs_data.specs.read.Keys.{entries_view};
ghost use Rattle.qs_data.specs.read.TreeText.{is_text};
ghost use Rattle.qs_serde.specs.Nodes.{IsEntry, is_list, is_map, listed, node_tree, pairs_in, whole_text};
ghost use Rattle.qs_serde.specs.Places.{whole_part};

use super::{ReadError, Result};
use itoa::Buffer;
use qs_data::{Data, NodeEntries, NodeItems, Reader, Shape};
use qs_tree::{Key, ParsedMap, ParsedValue};
use std::borrow::CowSlice;

/// What the next step reads.
#[derive(Clone, Copy)]
pub(crate) enum Node<'t, 'qs> {
    /// A node of the tree.
    Value(&'t ParsedValue<'qs>),
    /// No value, in place of an empty one, for what an option holds.
    NoValue,
    /// A key of a map.
    Key(&'t Key<'qs>),
    /// The empty key, under which a text is an entry.
    EmptyKey,
    /// What no value is read from.
    Nothing,
}

/// Which part of the current node is read next.
#[derive(Clone, Copy, PartialEq, Eq)]
pub(crate) enum Part {
    /// The value.
    Value,
    /// The value, under the key that names an enum's variant.
    Held,
    /// No value, in place of an empty one, for what an option holds.
    NoValue,
    /// The key, and then the value.
    Key,
    /// The value, of which a variant of an untagged enum has to read all.
    Whole,
    /// No value, in place of an empty one, for such a variant.
    Nothing,
}

impl Part {
    /// Returns the same part for a variant of an untagged enum.
    pub(crate) fn whole(self) -> Part
        ensures { result ≡ whole_part self }
    {
        match self {
            Part::Value | Part::Held | Part::Whole => Part::Whole,
            Part::NoValue | Part::Nothing => Part::Nothing,
            Part::Key => Part::Key,
        }
    }
}

// Returns a text as a node.
fn text_node(bytes: &[u8]) -> ParsedValue<'_>
    ensures { tree_of result ≡ leaf (Text bytes.now false) }
{
    ParsedValue::String(CowSlice::Borrowed(bytes))
}

impl<'t, 'qs> Node<'t, 'qs> {
    /// Returns a node as a scalar reads it for a variant of an untagged enum: an empty value is an empty text, and only texts are read.
    pub(crate) fn whole(value: &'t ParsedValue<'qs>) -> Node<'t, 'qs>
        ensures { node_tree result ≡ whole_text (tree_of value.now) }
    {
        match value {
            ParsedValue::String(_) => Node::Value(value),
            ParsedValue::Null => Node::EmptyKey,
            _ => Node::Nothing,
        }
    }

    /// Reads the node by a shape. A key is read as its text.
    pub(crate) fn read(self, reader: Reader, shape: &Shape) -> Result<Data>
        ensures { ReadGives data_of (is_text (node_tree self.entry)) result (reads reader.reject_duplicates (shape_of shape.now) (node_tree self.entry)) }
    {
        match self {
            Node::Value(value) => read_value(reader, shape, value),
            Node::NoValue => read_value(reader, shape, &ParsedValue::NoValue),
            Node::EmptyKey => read_value(reader, shape, &text_node(&[])),
            Node::Nothing => read_value(reader, shape, &ParsedValue::Uninitialized),
            Node::Key(Key::Int(number)) => {
                let mut buffer = Buffer::new();
                let digits = buffer.format(*number).as_bytes();
                read_value(reader, shape, &text_node(digits))
            }
            Node::Key(Key::String(text)) => read_value(reader, shape, &text_node(text.as_slice())),
        }
    }

    /// Returns whether this is a key that contains a bracket. Perhaps the input should have been read in form mode.
    pub(crate) fn has_bracket(self) -> bool {
        match self {
            Node::Key(Key::String(text)) => text.as_slice().contains(&b'['),
            _ => false,
        }
    }
}

// Reads a value by a shape.
fn read_value(reader: Reader, shape: &Shape, value: &ParsedValue<'_>) -> Result<Data>
    ensures { ReadGives data_of (is_text (tree_of value.now)) result (reads reader.reject_duplicates (shape_of shape.now) (tree_of value.now)) }
{
    ReadError::of_result(reader.alloc, reader.read(shape, value))
}

/// Returns the item at an index of a node, if there is one. It is an error if a map has another key there.
#[inline(always)]
pub(crate) fn item_at<'t, 'qs>(
    reader: Reader,
    value: &'t ParsedValue<'qs>,
    at: usize,
) -> Result<Option<&'t ParsedValue<'qs>>>
    ensures item { ReadGives (option_map (λ v. tree_of v.now)) true result (first_item (drop at (listed (tree_of value.now)))) }
    ensures index { IfOk result (λ item. IfSome item (λ _. at < 18446744073709551615)) }
{
    let items = items_in(value);
    if at < items.len() {
        ReadError::of_result(reader.alloc, items.get(reader, at))
    } else {
        Ok(None)
    }
}

// Returns the items of a node that has a list of them.
#[inline(always)]
fn items_in<'t, 'qs>(value: &'t ParsedValue<'qs>) -> NodeItems<'t, 'qs>
    ensures { items_view result ≡ listed (tree_of value.now) }
{
    match value {
        ParsedValue::Sequence(items) => NodeItems::Sequence(items),
        ParsedValue::Map(map) => NodeItems::Places(map),
        ParsedValue::String(_) => NodeItems::One(value),
        _ => NodeItems::Empty,
    }
}

/// Returns whether a node is a list: a sequence, or a map whose keys are all integers.
pub(crate) fn is_list(value: &ParsedValue<'_>) -> bool
    ensures { result ≡ is_list (tree_of value.now) }
{
    match value {
        ParsedValue::Sequence(_) => true,
        ParsedValue::Map(map) => are_integers(map),
        _ => false,
    }
}

/// Returns whether a node is a map that isn't a list.
pub(crate) fn is_map(value: &ParsedValue<'_>) -> bool
    ensures { result ≡ is_map (tree_of value.now) }
{
    match value {
        ParsedValue::Map(map) => !are_integers(map),
        _ => false,
    }
}

// Returns whether all keys of a map are integers.
#[tactic(auto, using(qs_data::proofs::lemmas::read::Entries::after_all, qs_data::proofs::lemmas::read::Entries::after_none))]
fn are_integers(map: &ParsedMap<'_>) -> bool
    ensures { result ≡ are_ints (entries_of_map map.now) }
{
    for at in 0..map.len() {
        let Some((key, _)) = map.at(at) else {
            break;
        };
        if let Key::String(_) = key {
            return false;
        }
    }
    true
}

/// Returns the entries of a node that has a map of them.
pub(crate) fn entries_in<'t, 'qs>(value: &'t ParsedValue<'qs>) -> NodeEntries<'t, 'qs>
    ensures { keys_are_text (entries_view result) ≡ false → is_text (tree_of value.now) ≡ false }
{
    match value {
        ParsedValue::Map(map) => NodeEntries::Map(map),
        ParsedValue::String(_) => NodeEntries::Leaf(value),
        _ => NodeEntries::Empty,
    }
}

/// Returns the key at an index and its value, if there is an entry.
#[inline(always)]
pub(crate) fn entry_at<'t, 'qs>(
    value: &'t ParsedValue<'qs>,
    at: usize,
) -> Option<(Node<'t, 'qs>, &'t ParsedValue<'qs>)>
    ensures entry { MatchOption result (slice_get (pairs_in (tree_of value.now)) at ≡ None) (λ e. IsEntry (slice_get (pairs_in (tree_of value.now)) at) e.0 (tree_of e.1.now)) }
    ensures index { IfSome result (λ _. at < 18446744073709551615) }
{
    match value {
        ParsedValue::Map(map) => {
            if at >= map.len() {
                return None;
            }
            match map.at(at) {
                Some((key, value)) => Some((Node::Key(key), value)),
                None => None,
            }
        }
        ParsedValue::String(_) => {
            if at == 0 {
                Some((Node::EmptyKey, value))
            } else {
                None
            }
        }
        _ => None,
    }
}
