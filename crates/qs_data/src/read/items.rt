//! The items of a node.

ghost use Rattle.std.specs.Prelude.{◌≡◌, length, drop, option_map, true};
ghost use Rattle.qs_spec.specs.Node.{items, are_ints, is_place};
ghost use Rattle.qs_tree.specs.tree.Views.{tree_of, entries_of_map, segment_of_key};
ghost use Rattle.qs_data.specs.read.Gives.{Gives};
ghost use Rattle.qs_data.specs.read.internal.ReadError.{ReadGives};
ghost use Rattle.qs_data.specs.read.Items.{items_view, first_item};
ghost use Rattle.qs_data.specs.read.internal.Keys.{passed};
ghost use Rattle.qs_spec.specs.Node.{placed};

use crate::read::by_shape::Reader;
use crate::read::error::Result;
use crate::read::message::{Expected, Message, Unexpected};
use qs_tree::{Error, Key, ParsedMap, ParsedValue};
use std::alloc::Global;

/// The items of a node.
///
/// ```
/// let items = reader.items(node)?;
/// for i in 0..items.len() {
///     let Some(item) = items.get(reader, i)? else {
///         break;
///     };
///     values.push(T::from_node(reader, item)?)?;
/// }
/// ```
#[derive(Clone, Copy)]
pub enum NodeItems<'t, 'qs> {
    /// No items.
    Empty,
    /// A string, as the only item.
    One(&'t ParsedValue<'qs>),
    /// The elements of a sequence.
    Sequence(&'t [ParsedValue<'qs>]),
    /// The values of a map whose keys are integers.
    Places(&'t ParsedMap<'qs>),
}

/// Returns the items of a node, if it has a list of them.
pub(crate) fn items_of<'t, 'qs>(
    alloc: Global,
    value: &'t ParsedValue<'qs>,
    expected: Expected,
) -> Result<NodeItems<'t, 'qs>>
    ensures { ReadGives items_view true result (items (tree_of value.now)) }
{
    match value {
        ParsedValue::NoValue | ParsedValue::Null => Ok(NodeItems::Empty),
        ParsedValue::String(_) => Ok(NodeItems::One(value)),
        ParsedValue::Sequence(values) => Ok(NodeItems::Sequence(values)),
        ParsedValue::Map(map) => {
            if are_integers(map) {
                Ok(NodeItems::Places(map))
            } else {
                Err(Message::mismatch(alloc, value, expected))
            }
        }
        ParsedValue::Uninitialized => Err(Message::mismatch(alloc, value, expected)),
    }
}

/// Returns whether all keys of a map are integers.
#[tactic(auto, using(crate::proofs::lemmas::read::Entries::after_all, crate::proofs::lemmas::read::Entries::after_none))]
pub(crate) fn are_integers(map: &ParsedMap<'_>) -> bool
    ensures { result ≡ are_ints (entries_of_map map.now) }
{
    for i in 0..map.len() {
        let Some((key, _)) = map.at(i) else {
            break;
        };
        if let Key::String(_) = key {
            return false;
        }
    }
    true
}

impl<'t, 'qs> NodeItems<'t, 'qs> {
    /// Returns the number of items, in constant time.
    ///
    /// ```
    /// let count = reader.items(&ParsedValue::Null)?.len(); // 0
    /// ```
    #[tactic(auto, using(crate::proofs::lemmas::read::Items::each_length, crate::proofs::lemmas::read::Items::places_length))]
    pub fn len(self) -> usize
        ensures { result ≡ length (items_view self.entry) }
    {
        match self {
            NodeItems::Empty => 0,
            NodeItems::One(_) => 1,
            NodeItems::Sequence(values) => values.len(),
            NodeItems::Places(map) => map.len(),
        }
    }

    /// Returns the item at an index, or `None` if the index is out of range. It is an error if a map has
    /// another key there.
    #[inline(always)]
    #[tactic(auto, using(crate::proofs::lemmas::read::Items::item_first))]
    pub(crate) fn at(self, alloc: Global, place: usize) -> Result<Option<&'t ParsedValue<'qs>>>
        ensures { ReadGives (option_map (λ v. tree_of v.now)) true result (first_item (drop place (items_view self.entry))) }
    {
        match self {
            NodeItems::Empty => Ok(None),
            NodeItems::One(value) => {
                if place == 0 {
                    Ok(Some(value))
                } else {
                    Ok(None)
                }
            }
            NodeItems::Sequence(values) => Ok(values.get(place)),
            NodeItems::Places(map) => value_at(alloc, map, place),
        }
    }

    /// Returns the item at an index, or `None` if the index is out of range. If a map has another key there,
    /// the error is [`Custom`](qs_tree::Error::Custom), for which it allocates. It takes constant time.
    ///
    /// ```
    /// let Some(first) = items.get(reader, 0)? else {
    ///     return Err(reader.missing_item(0));
    /// };
    /// ```
    #[inline(always)]
    pub fn get(
        self,
        reader: Reader,
        place: usize,
    ) -> std::result::Result<Option<&'t ParsedValue<'qs>>, Error>
        ensures { Gives (option_map (λ v. tree_of v.now)) true result (first_item (drop place (items_view self.entry))) }
    {
        Ok(self.at(reader.alloc, place)?)
    }
}

// Returns the value at an index of a map, whose key must be that index.
#[tactic(auto, using(crate::proofs::lemmas::read::Items::first_none))]
fn value_at<'t, 'qs>(
    alloc: Global,
    map: &'t ParsedMap<'qs>,
    place: usize,
) -> Result<Option<&'t ParsedValue<'qs>>>
    ensures { ReadGives (option_map (λ v. tree_of v.now)) true result (first_item (drop place (placed 0 (entries_of_map map.now)))) }
{
    let Some((key, value)) = map.at(place) else {
        return Ok(None);
    };
    test_place(alloc, key, place)?;
    Ok(Some(value))
}

// Tests whether a key is the index that is due. No item has the index 4,294,967,295.
fn test_place(alloc: Global, key: &Key<'_>, due: usize) -> Result<()>
    ensures { ReadGives (λ _. true) true result (passed (is_place due (segment_of_key key.now))) }
{
    let Key::Int(index) = *key else {
        let found = Unexpected::Map;
        let expected = Expected::Sequence;
        return Err(Message::InvalidType { found, expected }.error(alloc));
    };
    if index as usize != due {
        return Err(Message::MissingIndex { due, index }.error(alloc));
    }
    if index == u32::MAX {
        return Err(Message::TooManyElements.error(alloc));
    }
    Ok(())
}
