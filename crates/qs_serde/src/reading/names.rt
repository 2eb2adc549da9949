//! Names, and the texts and keys that match them.

ghost use Rattle.std.specs.Prelude.{◌≡◌, ◌<◌, ◌↔◌, false, decimal, IfSome, IsTrue, true, MatchOption};
ghost use Rattle.std.specs.List.{list_any};
ghost use Rattle.std.specs.Str.{is_utf8};
ghost use Rattle.serde.specs.Names.{StandsFor};
ghost use Rattle.qs_spec.specs.Segment.{segment_text};
ghost use Rattle.qs_tree.specs.tree.Views.{segment_of_key, tree_of};
ghost use Rattle.qs_serde.specs.Nodes.{node_tree};
ghost use Rattle.qs_serde.specs.Lookups.{FindsText, LooksUp};
ghost use Rattle.qs_serde.specs.Steps.{HasNoName, IsNextName};

use super::node::Node;
use itoa::Buffer;
use qs_tree::{Key, ParsedValue};
use serde::{Case, Name};
use std::str;

/// Returns the index of the name that a text or a key matches, or `usize::MAX` if it matches none. Returns `None` if it isn't UTF-8, or
/// isn't a text.
#[inline(always)]
pub(crate) fn find_node(names: &[Name<'_>], node: Node<'_, '_>) -> Option<usize>
    ensures { IfSome result (λ at. LooksUp (node_tree node.entry) names.now at) }
{
    match node {
        Node::Key(key) => Some(find_key(names, key)?),
        Node::Value(value) => Some(find_value(names, value)?),
        Node::EmptyKey => Some(find_text(names, &[])?),
        Node::NoValue | Node::Nothing => None,
    }
}

// Returns the index of the name that a key matches.
#[inline(always)]
fn find_key(names: &[Name<'_>], key: &Key<'_>) -> Option<usize>
    ensures { IfSome result (λ at. FindsText names.now (segment_text (segment_of_key key.now)) at × (is_utf8 (segment_text (segment_of_key key.now)) ≡ true)) }
{
    match key {
        Key::Int(number) => Some(find_number(names, *number)),
        Key::String(text) => Some(find_text(names, text.as_slice())?),
    }
}

// Returns the index of the name that the text of a node matches. The text of an empty value is empty.
#[inline(always)]
fn find_value(names: &[Name<'_>], value: &ParsedValue<'_>) -> Option<usize>
    ensures { IfSome result (λ at. LooksUp (tree_of value.now) names.now at) }
{
    match value {
        ParsedValue::String(text) => Some(find_text(names, text.as_slice())?),
        ParsedValue::Null => Some(find_text(names, &[])?),
        _ => None,
    }
}

// Returns the index of the name that a text matches.
#[inline(always)]
#[tactic(auto, using(qs_data::proofs::lemmas::read::Errors::utf8_tests))]
fn find_text(names: &[Name<'_>], text: &[u8]) -> Option<usize>
    ensures { IfSome result (λ at. FindsText names.now text.now at × (is_utf8 text.now ≡ true)) }
{
    if let Some(at) = find_same(names, text) {
        return Some(at);
    }
    match str::from_utf8(text) {
        Ok(text) => Some(serde::find(names, text)),
        Err(_) => None,
    }
}

// Returns the index of the name that is this text, if each name up to it is matched only by itself. Such a text is UTF-8.
fn find_same(names: &[Name<'_>], text: &[u8]) -> Option<usize>
    ensures { IfSome result (λ at. FindsText names.now text.now at × (is_utf8 text.now ≡ true)) }
{
    for at in 0..names.len() {
        if is_same(&names[at], text)? {
            return Some(at);
        }
    }
    None
}

// Returns whether a name is this text, if it is matched only by itself.
#[inline(always)]
fn is_same(name: &Name<'_>, text: &[u8]) -> Option<bool>
    ensures stands { IfSome result (λ b. IsTrue b ↔ StandsFor text.now name.now) }
    ensures utf8 { IfSome result (λ b. IsTrue b → is_utf8 text.now ≡ true) }
{
    if name.skipped {
        return None;
    }
    if name.case != Case::AsIs {
        return None;
    }
    if !name.aliases.is_empty() {
        return None;
    }
    let name = name.name;
    Some(name.as_bytes() == text)
}

// Returns the index of the name that the digits of a number match.
#[inline(never)]
#[tactic(auto, using(qs_data::proofs::lemmas::read::Errors::utf8_tests), unfolding(crate::specs::Lookups::FindsText))]
fn find_number(names: &[Name<'_>], number: u32) -> usize
    ensures find { FindsText names.now (decimal number) result }
    ensures utf8 { is_utf8 (decimal number) ≡ true }
{
    let mut buffer = Buffer::new();
    let digits = buffer.format(number);
    let _text = digits.as_bytes();
    serde::find(names, digits)
}

/// Returns the index of the first name, from an index on, that isn't skipped.
pub(crate) fn first_name(names: &[Name<'_>], from: usize) -> Option<usize>
    ensures first { MatchOption result (HasNoName names.now from) (IsNextName names.now from) }
    ensures index { IfSome result (λ at. at < 18446744073709551615) }
{
    for at in from..names.len() {
        if !names[at].skipped {
            return Some(at);
        }
    }
    None
}

/// Returns whether a name is skipped, such as that of a field whose fields share the map.
pub(crate) fn has_skipped(names: &[Name<'_>]) -> bool
    ensures { result ≡ list_any (λ name. name.skipped) names.now }
{
    names.iter().any(|name| name.skipped)
}
