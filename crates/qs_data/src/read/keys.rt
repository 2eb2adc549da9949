//! The entries of a node, and the value under a name.

ghost use Rattle.std.specs.Prelude.{◌≡◌, ◌++◌, ◌<◌, ◌^◌, ℕ, IsTrue, decimal, length, option_map, string_bytes};
ghost use Rattle.qs_spec.specs.Node.{found, keys_are_text};
ghost use Rattle.qs_tree.specs.tree.Views.{entries_of_map, entry_list, tree_of};
ghost use Rattle.qs_data.specs.read.Entries.{entries_after, first_entry};
ghost use Rattle.qs_data.specs.read.Found.{IsFound};
ghost use Rattle.qs_data.specs.read.Gives.{Gives};
ghost use Rattle.qs_data.specs.read.internal.ReadError.{ReadGives};
ghost use Rattle.qs_data.specs.read.Keys.{NumbersFit, PassesTest, entries_view};
ghost use Rattle.qs_data.specs.read.internal.Keys.{ParsesNumber, value_in};

use crate::read::by_shape::Reader;
use crate::read::error::Result;
use crate::read::key::key_string;
use crate::read::key_test::{BrokenKey, keys_are_text, test_keys};
use itoa::Buffer;
use qs_tree::{Error, Key, ParsedMap, ParsedValue};
use std::alloc::Global;

/// Keys with their values, from which the fields of a struct or the pairs of a map are read.
///
/// ```
/// let entries = reader.entries(node)?;
/// if let Err(broken) = entries.test() {
///     return Err(broken.into_error(alloc));
/// }
/// match entries.find("age") {
///     Found::One(node) => u8::from_node(reader, node),
///     Found::Missing => Err(reader.missing_field("age")),
///     Found::Several => Err(reader.duplicate_field("age")),
/// }
/// ```
#[derive(Clone, Copy)]
pub enum NodeEntries<'t, 'qs> {
    /// No entries.
    Empty,
    /// The entries of a map.
    Map(&'t ParsedMap<'qs>),
    /// A leaf under the empty string key.
    Leaf(&'t ParsedValue<'qs>),
}

/// What is found under a name.
///
/// ```
/// match find_value(&map, "age") {
///     Found::One(node) => read_value(alloc, config, &Shape::U8, node),
///     Found::Missing => Ok(Data::None),
///     Found::Several => Err(Reader::new(alloc, config).duplicate_field("age")),
/// }
/// ```
#[derive(Clone, Copy)]
pub enum Found<'t, 'qs> {
    /// Nothing.
    Missing,
    /// This value.
    One(&'t ParsedValue<'qs>),
    /// Two values: one under the string key, and one under the integer key with the same digits.
    Several,
}

impl<'t, 'qs> NodeEntries<'t, 'qs> {
    /// Looks up the value under a name: under the string key, or under the integer key whose digits are the name. It makes at most two
    /// look-ups by binary search, and doesn't allocate.
    ///
    /// The clause requires integer keys of 32 bits, which every tree has. [`test`](NodeEntries::test) and
    /// [`keys_are_text`](NodeEntries::keys_are_text) show this, so call one of them first.
    ///
    /// ```
    /// if let Found::One(node) = entries.find("age") {
    ///     age = u8::from_node(reader, node)?;
    /// }
    /// ```
    #[inline(always)]
    pub fn find(self, name: &str) -> Found<'t, 'qs>
        requires { NumbersFit (entries_view self) }
        ensures { IsFound result (found name.now (entries_view self.entry)) }
    {
        find(self, name)
    }

    /// Tests whether all keys are UTF-8. If not, the error is the first key that isn't. It looks at each key once, and doesn't allocate.
    ///
    /// ```
    /// entries.test().map_err(|broken| broken.into_error(alloc))?;
    /// ```
    pub fn test(self) -> std::result::Result<(), BrokenKey<'t>>
        ensures text { PassesTest result (keys_are_text (entries_view self.entry)) }
        ensures fit { NumbersFit (entries_view self.entry) }
    {
        test_keys(self)
    }

    /// Returns whether all keys are UTF-8. It takes less time than [`test`](NodeEntries::test), which also returns the broken key.
    ///
    /// ```
    /// if !entries.keys_are_text() {
    ///     return Err(unexpected(alloc, "keys that are UTF-8"));
    /// }
    /// ```
    #[inline(always)]
    #[tactic(auto, using(crate::proofs::lemmas::read::Numbers::empty_text))]
    pub fn keys_are_text(self) -> bool
        ensures text { result ≡ keys_are_text (entries_view self.entry) }
        ensures fit { NumbersFit (entries_view self.entry) }
    {
        match self {
            NodeEntries::Empty => true,
            NodeEntries::Leaf(_) => true,
            NodeEntries::Map(map) => keys_are_text(map),
        }
    }

    /// Returns the number of entries, in constant time.
    ///
    /// ```
    /// let count = NodeEntries::Map(&map).len();
    /// ```
    pub fn len(self) -> usize
        ensures { result ≡ length (entry_list (entries_view self.entry)) }
    {
        match self {
            NodeEntries::Empty => 0,
            NodeEntries::Map(map) => map.len(),
            NodeEntries::Leaf(_) => 1,
        }
    }

    /// Returns the entry at an index in the order of the keys, or `None` if the index is out of range: its key as a string, with an
    /// integer as its digits, and its value. It allocates the string.
    ///
    /// If the key isn't UTF-8, the error is [`Utf8`](qs_tree::Error::Utf8), or [`Custom`](qs_tree::Error::Custom) with a hint if the key
    /// holds a bracket.
    ///
    /// ```
    /// let Some((key, node)) = entries.get(reader, 0)? else {
    ///     return Ok(values);
    /// };
    /// values.insert(key, T::from_node(reader, node)?)?;
    /// ```
    #[inline(always)]
    #[tactic(auto, using(crate::proofs::lemmas::read::FirstEntry::lone_end, crate::proofs::lemmas::read::FirstEntry::lone_first))]
    pub fn get(
        self,
        reader: Reader,
        place: usize,
    ) -> std::result::Result<Option<(String, &'t ParsedValue<'qs>)>, Error>
        ensures { Gives (option_map (λ e. (string_bytes e.0, tree_of e.1.now))) (keys_are_text (entries_view self.entry)) result
            (first_entry (entries_after place (entries_view self.entry))) }
    {
        match self {
            NodeEntries::Empty => Ok(None),
            NodeEntries::Map(map) => Ok(entry_at(reader.alloc, map, place)?),
            NodeEntries::Leaf(leaf) => {
                if place == 0 {
                    Ok(Some((String::new(reader.alloc), leaf)))
                } else {
                    Ok(None)
                }
            }
        }
    }
}

// Returns the entry at an index of a map, its key as a string.
#[tactic(auto, using(crate::proofs::lemmas::read::FirstEntry::first_none))]
fn entry_at<'t, 'qs>(
    alloc: Global,
    map: &'t ParsedMap<'qs>,
    place: usize,
) -> Result<Option<(String, &'t ParsedValue<'qs>)>>
    ensures { ReadGives (option_map (λ e. (string_bytes e.0, tree_of e.1.now))) (keys_are_text (entries_of_map map.now)) result
        (first_entry (entries_after place (entries_of_map map.now))) }
{
    let Some((key, value)) = map.at(place) else {
        return Ok(None);
    };
    let text = key_string(alloc, key)?;
    Ok(Some((text, value)))
}

/// Returns the value under a name.
#[inline(always)]
pub(crate) fn find<'t, 'qs>(entries: NodeEntries<'t, 'qs>, name: &str) -> Found<'t, 'qs>
    requires { NumbersFit (entries_view entries) }
    ensures { IsFound result (found name.now (entries_view entries.entry)) }
{
    match entries {
        NodeEntries::Empty => Found::Missing,
        NodeEntries::Map(map) => find_in_map(map, name),
        NodeEntries::Leaf(leaf) => {
            if name.is_empty() {
                Found::One(leaf)
            } else {
                Found::Missing
            }
        }
    }
}

// Returns the value under a name in a map: by the string key, and by the integer key whose digits are the name.
#[inline(always)]
fn find_in_map<'t, 'qs>(map: &'t ParsedMap<'qs>, name: &str) -> Found<'t, 'qs>
    requires { NumbersFit (entries_of_map map.now) }
    ensures { IsFound result (found name.now (entries_of_map map.now)) }
{
    let by_text = map.get(&Key::from(name));
    match number_of(name) {
        Some(number) => either(map.get(&Key::from(number)), by_text),
        None => either(None, by_text),
    }
}

// Returns what two look-ups found: nothing, one value, or two.
#[inline(always)]
fn either<'t, 'qs>(
    a: Option<&'t ParsedValue<'qs>>,
    b: Option<&'t ParsedValue<'qs>>,
) -> Found<'t, 'qs>
    ensures { IsFound result (value_in a.entry ++ value_in b.entry) }
{
    match (a, b) {
        (None, None) => Found::Missing,
        (Some(value), None) | (None, Some(value)) => Found::One(value),
        (Some(_), Some(_)) => Found::Several,
    }
}

// Returns the number whose digits are the name, if there is one. Most names don't begin with a digit, and aren't parsed.
#[inline(always)]
fn number_of(name: &str) -> Option<u32>
    ensures { ParsesNumber result name.now }
{
    if begins_with_a_digit(name.as_bytes()) {
        parsed_number(name)
    } else {
        None
    }
}

// Returns the number whose digits are the name, if there is one.
#[inline(never)]
fn parsed_number(name: &str) -> Option<u32>
    ensures { ParsesNumber result name.now }
{
    match name.parse::<u32>() {
        Ok(number) => {
            let mut buffer = Buffer::new();
            if buffer.format(number) == name {
                Some(number)
            } else {
                None
            }
        }
        Err(_) => None,
    }
}

// Returns whether a text begins with a digit, as every number does.
#[inline(always)]
#[tactic(auto, using(crate::proofs::lemmas::read::Numbers::decimal_begins))]
fn begins_with_a_digit(text: &[u8]) -> bool
    ensures { (n : ℕ) → n < 2 ^ 32 → decimal n ≡ text.now → IsTrue result }
{
    match text {
        [first, ..] => first.is_ascii_digit(),
        [] => false,
    }
}
