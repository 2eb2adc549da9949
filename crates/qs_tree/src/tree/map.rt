//! The maps of a tree.
ghost use Rattle.std.specs.Prelude.{◌≡◌, ◌+◌, [], length, ◌∷◌, ◌<◌, ◌≤◌, option_map, slice_get, MatchOption, IfOk, IfErr, IsTrue, ◌↔◌};
ghost use Rattle.std.specs.List.Sorted.{IsStrictlySortedBy};
ghost use Rattle.std.specs.Map.{keys_of, lookup};
ghost use Rattle.std.specs.BTreeMap.{is_at};
ghost use Rattle.std.specs.Cmp.{on_per};
ghost use Rattle.qs_spec.specs.Node.{value_at_key};
ghost use Rattle.qs_spec.specs.Tree.Entries.{entry, no_entries};
ghost use Rattle.qs_tree.specs.tree.Equality.{entries_same};
ghost use Rattle.qs_tree.specs.internal.tree.EqualityLaws.{entries_per};
ghost use Rattle.qs_tree.specs.tree.Keys.{key_cmp};
ghost use Rattle.qs_tree.specs.tree.Ordered.{AreOrdered};
ghost use Rattle.qs_tree.specs.internal.tree.Places.{IsHit, IsGap};
ghost use Rattle.qs_tree.specs.tree.Lookup.{binary_digits};
ghost use Rattle.qs_tree.specs.internal.build.Builder.{entries_held};
ghost use Rattle.qs_tree.specs.tree.Views.{segment_of_key, is_owned_key, parsed_segment_of_key, tree_of, entries_of_map, map_pairs, take_out};

use crate::scan::cursor::Steps;
use crate::tree::dropping::drop_tree;
use crate::tree::entries::SortedEntries;
use crate::tree::key::Key;
use crate::tree::sameness::same_entries;
use crate::tree::value::ParsedValue;
use std::alloc::{AllocError, Global};
use std::cmp::Ordering;

/// A map from keys to values, sorted by key.
///
/// Keys are looked up by binary search. The key that is looked up may have any lifetime:
///
/// ```
/// map.get(&Key::from("name"))
/// ```
#[cycle(tree)]
#[derive(Debug)]
pub struct ParsedMap<'qs> {
    pub(crate) map: SortedEntries<Key<'qs>, ParsedValue<'qs>>,
}

impl<'qs> ParsedMap<'qs> {
    /// Returns an empty map. Doesn't allocate.
    ///
    /// ```
    /// ParsedMap::new(alloc).len() // 0
    /// ```
    #[must_use]
    pub fn new(alloc: Global) -> Self
        ensures { entries_of_map result ≡ no_entries }
    {
        ParsedMap {
            map: SortedEntries::new(alloc),
        }
    }

    /// Returns a map with one entry. Returns an error only if the allocation failed.
    #[inline(always)]
    pub(crate) fn of(
        alloc: Global,
        key: Key<'qs>,
        value: ParsedValue<'qs>,
    ) -> Result<Self, AllocError>
        ensures { IfOk result (λ map. entries_of_map map ≡ entry (segment_of_key key.entry) (is_owned_key key.entry) (tree_of value.entry) no_entries) }
    {
        Ok(ParsedMap {
            map: SortedEntries::of(alloc, key, value)?,
        })
    }

    /// Returns the number of entries. Takes constant time, and doesn't allocate.
    ///
    /// ```
    /// map.len() // 2 for a=1&b=2
    /// ```
    #[must_use]
    #[tactic(auto, using(crate::proofs::lemmas::tree::Keys::lengths))]
    pub fn len(&self) -> usize
        ensures { result ≡ length (map_pairs self.now) }
    {
        self.map.len()
    }

    /// Returns whether there are no entries. Takes constant time, and doesn't allocate.
    ///
    /// ```
    /// ParsedMap::new(alloc).is_empty() // true
    /// ```
    #[must_use]
    pub fn is_empty(&self) -> bool
        ensures { IsTrue result ↔ map_pairs self.now ≡ [] }
    {
        self.len() == 0
    }

    /// Returns the value at a key, or `None`. Doesn't allocate, and takes logarithmic time, as [`get_with`](ParsedMap::get_with) does.
    ///
    /// ```
    /// map.get(&Key::from(7u32)) // the value of 7=x
    /// ```
    #[must_use]
    pub fn get<'k>(&self, key: &Key<'k>) -> Option<&ParsedValue<'qs>>
        ensures value { option_map (λ v. tree_of v.now) result ≡ value_at_key (segment_of_key key.now) (entries_of_map self.now) }
        ensures ordered { AreOrdered (entries_of_map self.now) }
    {
        self.get_with(key, &mut Steps::new())
    }

    /// Returns the value at a key, or `None`. Adds the number of comparisons to `steps`: at most as many as the length has binary
    /// digits, and at least one for a map with entries. Doesn't allocate.
    ///
    /// ```
    /// map.get_with(&Key::from("name"), &mut steps)
    /// ```
    #[must_use]
    pub fn get_with<'k>(&self, key: &Key<'k>, steps: &mut Steps) -> Option<&ParsedValue<'qs>>
        ensures value { option_map (λ v. tree_of v.now) result ≡ value_at_key (segment_of_key key.now) (entries_of_map self.now) }
        ensures ordered { AreOrdered (entries_of_map self.now) }
        ensures most { steps.new ≤ steps.old + binary_digits (length (map_pairs self.now)) }
        ensures least { 0 < length (map_pairs self.now) → steps.old < steps.new }
        ensures grows { steps.old ≤ steps.new }
    {
        lookup(self.map.as_slice(), key, steps)
    }

    /// Returns the entry at an index, in the order of keys, or `None`. Takes constant time, and doesn't allocate.
    ///
    /// ```
    /// map.at(0) // the entry with the smallest key
    /// ```
    #[must_use]
    pub fn at(&self, at: usize) -> Option<(&Key<'qs>, &ParsedValue<'qs>)>
        ensures value { option_map (λ p. (parsed_segment_of_key p.0.now, tree_of p.1.now)) result ≡ slice_get (map_pairs self.now) at }
        ensures ordered { AreOrdered (entries_of_map self.now) }
    {
        self.map.at(at)
    }

    /// Removes a key, and returns its value. Returns `None` and changes nothing if the key is missing.
    ///
    /// Finds the key in logarithmic time, and moves the entries after it. Doesn't allocate.
    ///
    /// ```
    /// let name = map.remove(&Key::from("name"));
    /// ```
    pub fn remove<'k>(&mut self, key: &Key<'k>) -> Option<ParsedValue<'qs>>
        ensures value { option_map tree_of result ≡ value_at_key (segment_of_key key.now) (entries_of_map self.old) }
        ensures rest { entries_of_map self.new ≡ take_out (segment_of_key key.now) (entries_of_map self.old) }
        ensures ordered { AreOrdered (entries_of_map self.old) }
    {
        match search(self.map.as_slice(), key, &mut Steps::new()) {
            Ok(at) => Some(self.map.remove_at(at).1),
            Err(_) => None,
        }
    }

    /// Removes the entry with the smallest key, and returns it, or `None` for an empty map. Moves all other entries, and doesn't
    /// allocate.
    ///
    /// ```
    /// let first = map.pop_first(); // the entry of 0 in b=1&0=2
    /// ```
    pub fn pop_first(&mut self) -> Option<(Key<'qs>, ParsedValue<'qs>)>
        ensures value { MatchOption result ((map_pairs self.old ≡ []) × (map_pairs self.new ≡ [])) (λ p. map_pairs self.old ≡ (parsed_segment_of_key p.0, tree_of p.1) ∷ map_pairs self.new) }
        ensures ordered { AreOrdered (entries_of_map self.old) }
    {
        if self.map.len() == 0 {
            return None;
        }
        Some(self.map.remove_at(0))
    }

    /// Returns the map with these entries.
    pub(crate) fn from_entries(map: SortedEntries<Key<'qs>, ParsedValue<'qs>>) -> Self
        ensures { entries_of_map result ≡ entries_held map.entry }
    {
        ParsedMap { map }
    }

    /// Returns the map's entries.
    pub(crate) fn into_entries(self) -> SortedEntries<Key<'qs>, ParsedValue<'qs>>
        ensures { result ≡ self.entry.map }
    {
        let ParsedMap { map } = self;
        map
    }
}

/// Ignores ownership. Recurses for each level of the trees, and doesn't allocate.
impl<'qs> PartialEq for ParsedMap<'qs> {
    ghost eq = { λ a b. entries_same (entries_of_map a) (entries_of_map b) };

    ghost laws = { on_per entries_of_map entries_per };

    fn eq(&self, other: &ParsedMap<'qs>) -> bool {
        same_entries(self.map.as_slice(), other.map.as_slice())
    }
}

/// Doesn't allocate, and takes constant stack.
impl<'qs> Drop for ParsedMap<'qs> {
    fn drop(self) {
        drop_tree(ParsedValue::Map(self));
    }
}

/// Returns the value at a key among sorted entries, or `None`. Adds the number of comparisons to `steps`.
pub(crate) fn lookup<'e, 'k, 'qs, V>(
    entries: &'e [(Key<'qs>, V)],
    key: &Key<'k>,
    steps: &mut Steps,
) -> Option<&'e V>
    requires { IsStrictlySortedBy key_cmp (keys_of entries.now) }
    ensures value { option_map (λ v. v.now) result ≡ lookup (is_at (key_cmp key.now)) entries.now }
    ensures most { steps.new ≤ steps.old + binary_digits (length entries.now) }
    ensures least { 0 < length entries.now → steps.old < steps.new }
    ensures grows { steps.old ≤ steps.new }
{
    match search(entries, key, steps) {
        Ok(at) => Some(&entries[at].1),
        Err(_) => None,
    }
}

/// Finds a key among sorted entries by binary search, and returns its index, or as `Err` the index at which to insert it. Adds the
/// number of comparisons to `steps`.
pub(crate) fn search<'k, 'qs, V>(
    entries: &[(Key<'qs>, V)],
    key: &Key<'k>,
    steps: &mut Steps,
) -> Result<usize, usize>
    requires { IsStrictlySortedBy key_cmp (keys_of entries.now) }
    ensures found { IfOk result (IsHit key_cmp key.now entries.now) }
    ensures absent { IfErr result (IsGap key_cmp key.now entries.now) }
    ensures most { steps.new ≤ steps.old + binary_digits (length entries.now) }
    ensures least { 0 < length entries.now → steps.old < steps.new }
    ensures grows { steps.old ≤ steps.new }
{
    let mut low = 0;
    let mut high = entries.len();
    while low < high {
        let middle = low + (high - low) / 2;
        match steps.compare(key, &entries[middle].0) {
            Ordering::Less => high = middle,
            Ordering::Equal => return Ok(middle),
            Ordering::Greater => low = middle + 1,
        }
    }
    Err(low)
}
