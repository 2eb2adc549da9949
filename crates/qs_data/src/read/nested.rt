//! Lists and maps that are being read, one within the other.

ghost use Rattle.std.specs.Prelude.{◌≡◌, OnOk, IfErr, option_map};
ghost use Rattle.qs_spec.specs.Data.{values_of, pairs_of};
ghost use Rattle.qs_spec.specs.Data.Data.{sequence, mapping};
ghost use Rattle.qs_spec.specs.Shape.KeyShape.{text};
ghost use Rattle.qs_spec.specs.internal.ReadFunction.{any_data, read_each, read_pairs};
ghost use Rattle.qs_tree.specs.tree.Views.{tree_of, entries_of_map};
ghost use Rattle.qs_data.specs.declared.read.error.ReadError.TheVariants.{OutOfMemory};
ghost use Rattle.qs_data.specs.data.Views.{data_of};
ghost use Rattle.qs_data.specs.read.Items.{items_view, are_text};
ghost use Rattle.qs_data.specs.read.TreeText.{entries_are_text};
ghost use Rattle.qs_data.specs.read.internal.Sizes.{list_size, entries_size};
ghost use Rattle.qs_data.specs.read.internal.Nesting.{Visits, Advances, Extends, done_of, frame_data, frame_is_text, frame_size};
ghost use Rattle.qs_data.specs.declared.read.nested.Partial.TheVariants as frame;

use crate::data::Data;
use crate::read::error::Result;
use crate::read::items::{NodeItems, are_integers};
use crate::read::key::read_key;
use crate::read::message::Message;
use crate::read::scalar::text_data;
use crate::shape::KeyShape;
use qs_tree::{ParsedMap, ParsedValue};
use std::alloc::Global;
use std::mem;

/// A node that is visited.
#[derive(Drop)]
pub(crate) enum Visited<'t, 'qs> {
    /// A leaf, which is read at once.
    Leaf(Data),
    /// A list or a map that isn't read yet.
    Inner(Partial<'t, 'qs>),
}

/// A list or a map that is partly read.
#[derive(Drop)]
pub(crate) enum Partial<'t, 'qs> {
    List(PartialList<'t, 'qs>),
    Map(PartialMap<'t, 'qs>),
}

/// A list whose first items are read.
pub(crate) struct PartialList<'t, 'qs> {
    items: NodeItems<'t, 'qs>,
    /// The index of the first item that wasn't visited.
    next: usize,
    values: Vec<Data>,
}

/// A map whose first entries are read.
pub(crate) struct PartialMap<'t, 'qs> {
    entries: &'t ParsedMap<'qs>,
    /// The index of the first entry that wasn't visited.
    next: usize,
    /// The key of the list or map that is being read.
    key: Data,
    pairs: Vec<(Data, Data)>,
}

/// Reads a leaf, or begins a list or a map. It allocates only to copy a text and for an error.
#[tactic(auto, unfolding(qs_spec::specs::internal::ReadFunction::any_data))]
pub(crate) fn visit<'t, 'qs>(alloc: Global, value: &'t ParsedValue<'qs>) -> Result<Visited<'t, 'qs>>
    ensures { Visits result (tree_of value.now) }
{
    match value {
        ParsedValue::Uninitialized => Err(Message::Uninitialized.error(alloc)),
        ParsedValue::NoValue => Ok(Visited::Leaf(Data::Unit)),
        ParsedValue::Null => Ok(Visited::Leaf(Data::Text(String::new(alloc)))),
        ParsedValue::String(text) => Ok(Visited::Leaf(text_data(alloc, text.as_slice())?)),
        ParsedValue::Sequence(values) => {
            Ok(Visited::Inner(Partial::list(alloc, NodeItems::Sequence(values))))
        }
        ParsedValue::Map(map) => {
            let is_list = are_integers(map);
            if is_list {
                Ok(Visited::Inner(Partial::list(alloc, NodeItems::Places(map))))
            } else {
                Ok(Visited::Inner(Partial::map(alloc, map)))
            }
        }
    }
}

impl<'t, 'qs> Partial<'t, 'qs> {
    // Returns a list that isn't read yet.
    fn list(alloc: Global, items: NodeItems<'t, 'qs>) -> Self
        ensures value { frame_data result ≡ option_map (λ ds. sequence (values_of ds)) (read_each any_data (items_view items.entry)) }
        ensures text { frame_is_text result ≡ are_text (items_view items.entry) }
        ensures size { frame_size result ≡ list_size (items_view items.entry) }
    {
        Partial::List(PartialList {
            items,
            next: 0,
            values: Vec::new(alloc),
        })
    }

    // Returns a map that isn't read yet.
    fn map(alloc: Global, entries: &'t ParsedMap<'qs>) -> Self
        ensures value { frame_data result ≡ option_map (λ ps. mapping (pairs_of ps)) (read_pairs text any_data (entries_of_map entries.now)) }
        ensures text { frame_is_text result ≡ entries_are_text (entries_of_map entries.now) }
        ensures size { frame_size result ≡ entries_size (entries_of_map entries.now) }
    {
        Partial::Map(PartialMap {
            entries,
            next: 0,
            key: Data::Unit,
            pairs: Vec::new(alloc),
        })
    }

    /// Reads leaves up to the next inner list or map, and returns it. None if there is no further one.
    pub fn advance(&mut self, alloc: Global) -> Result<Option<Partial<'t, 'qs>>>
        ensures { Advances result self.old self.new }
    {
        match self {
            Partial::List(list) => list.advance(alloc),
            Partial::Map(map) => map.advance(alloc),
        }
    }

    /// Adds the value of the inner list or map that was read last.
    pub fn add(&mut self, value: Data) -> Result<()>
        ensures ok { OnOk result (Extends (data_of value) self.old self.new) }
        ensures err { IfErr result (λ e. e ≡ OutOfMemory) }
    {
        match self {
            Partial::List(list) => list.add(value),
            Partial::Map(map) => map.add(value),
        }
    }

    /// Returns what was read, once nothing is left.
    pub fn done(self) -> Data
        ensures { data_of result ≡ done_of self.entry }
    {
        match self {
            Partial::List(list) => Data::Seq(list.into_values()),
            Partial::Map(map) => Data::Map(map.into_pairs()),
        }
    }
}

impl Drop for PartialList<'_, '_> {
    // Drops each value by a loop: what was read before an error may be nested deep.
    fn drop(self) {
        for value in self.into_values() {
            value.discard();
        }
    }
}

impl Drop for PartialMap<'_, '_> {
    // Drops each value by a loop, as a list's frame does.
    fn drop(self) {
        for (_key, value) in self.into_pairs() {
            value.discard();
        }
    }
}

impl<'t, 'qs> PartialList<'t, 'qs> {
    // Returns what was read.
    fn into_values(self) -> Vec<Data>
        ensures { result ≡ self.entry.values }
    {
        let PartialList {
            items: _items,
            next: _next,
            values,
        } = self;
        values
    }

    // Reads leaves up to the next list or map.
    fn advance(&mut self, alloc: Global) -> Result<Option<Partial<'t, 'qs>>>
        ensures { Advances result (frame.List self.old) (frame.List self.new) }
    {
        for place in self.next..self.items.len() {
            let Some(item) = self.items.at(alloc, place)? else {
                break;
            };
            match visit(alloc, item)? {
                Visited::Leaf(data) => self.values.push(data)?,
                Visited::Inner(frame) => {
                    self.next = place + 1;
                    return Ok(Some(frame));
                }
            }
        }
        Ok(None)
    }

    // Adds one more value.
    fn add(&mut self, value: Data) -> Result<()>
        ensures ok { OnOk result (Extends (data_of value) (frame.List self.old) (frame.List self.new)) }
        ensures err { IfErr result (λ e. e ≡ OutOfMemory) }
    {
        self.values.push(value)?;
        Ok(())
    }
}

impl<'t, 'qs> PartialMap<'t, 'qs> {
    // Returns what was read.
    fn into_pairs(self) -> Vec<(Data, Data)>
        ensures { result ≡ self.entry.pairs }
    {
        let PartialMap {
            entries: _entries,
            next: _next,
            key: _key,
            pairs,
        } = self;
        pairs
    }

    // Reads leaves up to the next list or map, their keys as texts.
    fn advance(&mut self, alloc: Global) -> Result<Option<Partial<'t, 'qs>>>
        ensures { Advances result (frame.Map self.old) (frame.Map self.new) }
    {
        for place in self.next..self.entries.len() {
            let Some((key, value)) = self.entries.at(place) else {
                break;
            };
            let key = read_key(alloc, &KeyShape::Text, key)?;
            match visit(alloc, value)? {
                Visited::Leaf(data) => self.pairs.push((key, data))?,
                Visited::Inner(frame) => {
                    self.keep_key(place + 1, key);
                    return Ok(Some(frame));
                }
            }
        }
        Ok(None)
    }

    // Keeps the key of a list or map until that is read, and the index after it.
    fn keep_key(&mut self, next: usize, key: Data)
        ensures entries { self.new.entries ≡ self.old.entries }
        ensures next { self.new.next ≡ next }
        ensures key { self.new.key ≡ key }
        ensures pairs { self.new.pairs ≡ self.old.pairs }
    {
        self.next = next;
        self.key = key;
    }

    // Adds the value of the key that was kept.
    fn add(&mut self, value: Data) -> Result<()>
        ensures ok { OnOk result (Extends (data_of value) (frame.Map self.old) (frame.Map self.new)) }
        ensures err { IfErr result (λ e. e ≡ OutOfMemory) }
    {
        let key = mem::replace(&mut self.key, Data::Unit);
        self.pairs.push((key, value))?;
        Ok(())
    }
}
