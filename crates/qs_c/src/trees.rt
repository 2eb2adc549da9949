//! A tree as JSON, whatever it holds.

ghost use Rattle.std.specs.Prelude.{◌≡◌, ◌++◌, [], ◌∷◌, true, is_none, IfOk, OnOk};
ghost use Rattle.std.specs.Str.{is_utf8};
ghost use Rattle.json.specs.Json as j;
ghost use Rattle.json.specs.Token.{key as a_key};
ghost use Rattle.json.specs.Tree.{json_tokens};
ghost use Rattle.qs_spec.specs.Node.{is_place, keys_are_text, value_at_key};
ghost use Rattle.qs_spec.specs.Segment.{Str, segment_text};
ghost use Rattle.qs_tree.specs.tree.Views.{tree_of, entries_of_map, items_of, segment_of_key};
ghost use Rattle.qs_data.specs.read.TreeText.{is_text, items_are_text, entries_are_text};
ghost use Rattle.qs_c.specs.Shown.{array_tokens, object_tokens};
ghost use Rattle.qs_c.specs.Trees.{json_of_tree, json_of_items, json_of_values, json_of_entries, json_of_root, tree_text, are_places, is_alone, has_names, items_have_names, values_have_names, entries_have_names};
ghost use Rattle.qs_c.specs.internal.Trees.{Passes};

use itoa::Buffer;
use json::Writer;
use qs_data::{Config, NodeEntries, ReadError, Reader};
use qs_tree::{Key, ParsedMap, ParsedValue};
use std::alloc::Global;
use std::str;

/// The result of a step: an error says that a text or a key isn't UTF-8, or that two keys have one text.
type Result<T> = std::result::Result<T, ReadError>;

/// Returns the tree as JSON without blanks.
pub(crate) fn tree_to_json(alloc: Global, tree: &ParsedValue<'_>) -> Result<Vec<u8>>
    ensures text { IfOk result (λ text. text.items ≡ tree_text (tree_of tree.now)) }
    ensures passes { Passes (is_text (tree_of tree.now)) (has_names (tree_of tree.now)) result }
{
    let mut writer = Writer::new(Vec::with_capacity(alloc, 128)?);
    show_root(alloc, &mut writer, tree)?;
    Ok(writer.into_inner())
}

// Writes a whole tree.
fn show_root(alloc: Global, writer: &mut Writer, tree: &ParsedValue<'_>) -> Result<()>
    ensures tokens { OnOk result (writer.new.tokens ≡ writer.old.tokens ++ json_tokens (json_of_root (tree_of tree.now))) }
    ensures passes { Passes (is_text (tree_of tree.now)) (has_names (tree_of tree.now)) result }
    ensures before { writer.new.before ≡ writer.old.before }
{
    match tree {
        ParsedValue::NoValue | ParsedValue::Uninitialized => {
            writer.begin_object()?;
            Ok(writer.end_object()?)
        }
        ParsedValue::Map(_) => show(alloc, writer, tree),
        _ => show_alone(alloc, writer, tree),
    }
}

// Writes an object with one member, under the empty name.
fn show_alone(alloc: Global, writer: &mut Writer, node: &ParsedValue<'_>) -> Result<()>
    ensures tokens { OnOk result (writer.new.tokens ≡ writer.old.tokens ++ object_tokens (j.member [] (json_of_tree (tree_of node.now)) j.no_members)) }
    ensures passes { Passes (is_text (tree_of node.now)) (has_names (tree_of node.now)) result }
    ensures before { writer.new.before ≡ writer.old.before }
{
    writer.begin_object()?;
    writer.key("")?;
    show(alloc, writer, node)?;
    Ok(writer.end_object()?)
}

// Writes a node. Calls itself for each level.
#[cycle(show)]
fn show(alloc: Global, writer: &mut Writer, node: &ParsedValue<'_>) -> Result<()>
    ensures tokens { OnOk result (writer.new.tokens ≡ writer.old.tokens ++ json_tokens (json_of_tree (tree_of node.now))) }
    ensures passes { Passes (is_text (tree_of node.now)) (has_names (tree_of node.now)) result }
    ensures before { writer.new.before ≡ writer.old.before }
{
    match node {
        ParsedValue::NoValue | ParsedValue::Uninitialized => Ok(writer.null()?),
        ParsedValue::Null => Ok(writer.string("")?),
        ParsedValue::String(text) => show_text(alloc, writer, text.as_slice()),
        ParsedValue::Sequence(items) => show_items(alloc, writer, items),
        ParsedValue::Map(map) => {
            if are_places(map) {
                show_values(alloc, writer, map)
            } else {
                show_entries(alloc, writer, map)
            }
        }
    }
}

// Writes a text.
#[tactic(auto, using(qs_data::proofs::lemmas::read::Errors::utf8_tests))]
fn show_text(alloc: Global, writer: &mut Writer, text: &[u8]) -> Result<()>
    ensures tokens { OnOk result (writer.new.tokens ≡ writer.old.tokens ++ json_tokens (j.string text.now)) }
    ensures passes { Passes (is_utf8 text.now) true result }
    ensures before { writer.new.before ≡ writer.old.before }
{
    match str::from_utf8(text) {
        Ok(text) => Ok(writer.string(text)?),
        Err(cause) => Err(ReadError::utf8(alloc, cause)),
    }
}

// Writes the items of a sequence as an array.
#[cycle(show)]
#[tactic(auto, using(qs_tree::proofs::lemmas::tree::NodeCounts::item_at_within))]
fn show_items(alloc: Global, writer: &mut Writer, items: &Vec<ParsedValue<'_>>) -> Result<()>
    ensures tokens { OnOk result (writer.new.tokens ≡ writer.old.tokens ++ array_tokens (json_of_items (items_of items.now.items))) }
    ensures passes { Passes (items_are_text (items_of items.now.items)) (items_have_names (items_of items.now.items)) result }
    ensures before { writer.new.before ≡ writer.old.before }
{
    writer.begin_array()?;
    for item in items {
        show(alloc, writer, item)?;
    }
    Ok(writer.end_array()?)
}

// Writes the values of a map as an array.
#[cycle(show)]
fn show_values(alloc: Global, writer: &mut Writer, map: &ParsedMap<'_>) -> Result<()>
    requires { are_places 0 (entries_of_map map.now) ≡ true }
    ensures tokens { OnOk result (writer.new.tokens ≡ writer.old.tokens ++ array_tokens (json_of_values (entries_of_map map.now))) }
    ensures passes { Passes (entries_are_text (entries_of_map map.now)) (values_have_names (entries_of_map map.now)) result }
    ensures before { writer.new.before ≡ writer.old.before }
{
    writer.begin_array()?;
    for i in 0..map.len() {
        let Some((_, value)) = map.at(i) else {
            break;
        };
        show(alloc, writer, value)?;
    }
    Ok(writer.end_array()?)
}

// Writes the entries of a map as an object.
#[cycle(show)]
fn show_entries(alloc: Global, writer: &mut Writer, map: &ParsedMap<'_>) -> Result<()>
    ensures tokens { OnOk result (writer.new.tokens ≡ writer.old.tokens ++ object_tokens (json_of_entries (entries_of_map map.now))) }
    ensures passes { Passes (entries_are_text (entries_of_map map.now)) (entries_have_names (entries_of_map map.now) (entries_of_map map.now)) result }
    ensures before { writer.new.before ≡ writer.old.before }
{
    test_keys(alloc, map)?;
    writer.begin_object()?;
    for i in 0..map.len() {
        let Some((key, value)) = map.at(i) else {
            break;
        };
        show_key(alloc, writer, map, key)?;
        show(alloc, writer, value)?;
    }
    Ok(writer.end_object()?)
}

// Tests whether the keys of a map are UTF-8. The error of a key that holds a bracket has a hint.
fn test_keys(alloc: Global, map: &ParsedMap<'_>) -> Result<()>
    ensures { Passes (keys_are_text (entries_of_map map.now)) true result }
{
    match NodeEntries::Map(map).test() {
        Ok(()) => Ok(()),
        Err(broken) => Err(ReadError::of(alloc, broken.into_error(alloc))),
    }
}

// Writes a key of a map as the name of a member.
#[tactic(auto, using(qs_data::proofs::lemmas::read::Errors::utf8_tests, qs_data::proofs::lemmas::read::Numbers::decimal_text))]
fn show_key(alloc: Global, writer: &mut Writer, map: &ParsedMap<'_>, key: &Key<'_>) -> Result<()>
    ensures tokens { OnOk result (writer.new.tokens ≡ writer.old.tokens ++ a_key (segment_text (segment_of_key key.now)) ∷ []) }
    ensures passes { Passes (is_utf8 (segment_text (segment_of_key key.now))) (is_alone (entries_of_map map.now) (segment_of_key key.now)) result }
    ensures before { writer.new.before ≡ writer.old.before }
{
    match key {
        Key::Int(number) => show_number(alloc, writer, map, Buffer::new().format(*number)),
        Key::String(text) => match str::from_utf8(text.as_slice()) {
            Ok(name) => Ok(writer.key(name)?),
            Err(cause) => Err(ReadError::utf8(alloc, cause)),
        },
    }
}

// Writes the digits of an integer key as the name of a member, unless a string key has them too.
fn show_number(alloc: Global, writer: &mut Writer, map: &ParsedMap<'_>, digits: &str) -> Result<()>
    ensures tokens { OnOk result (writer.new.tokens ≡ writer.old.tokens ++ a_key digits.now ∷ []) }
    ensures passes { Passes true (is_none (value_at_key (Str digits.now) (entries_of_map map.now))) result }
    ensures before { writer.new.before ≡ writer.old.before }
{
    match map.get(&Key::from(digits)) {
        None => Ok(writer.key(digits)?),
        Some(_) => {
            let error = Reader::new(alloc, Config::new()).duplicate_field(digits);
            Err(ReadError::of(alloc, error))
        }
    }
}

// Returns whether the keys of a map are 0, 1 and so on.
fn are_places(map: &ParsedMap<'_>) -> bool
    ensures { result ≡ are_places 0 (entries_of_map map.now) }
{
    for i in 0..map.len() {
        let Some((key, _)) = map.at(i) else {
            break;
        };
        if !is_place(key, i) {
            return false;
        }
    }
    true
}

// Returns whether the key is this index.
fn is_place(key: &Key<'_>, i: usize) -> bool
    ensures { result ≡ is_place i (segment_of_key key.now) }
{
    match key {
        Key::Int(number) => *number < u32::MAX && *number as usize == i,
        Key::String(_) => false,
    }
}
