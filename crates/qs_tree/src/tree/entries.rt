//! A sorted vector of entries with distinct keys.
ghost use Rattle.std.specs.Prelude.{◌≡◌, ◌<◌, ◌≤◌, [], length, ◌∷◌, ◌++◌, IfOk, IfNone, MatchResult, OnOk, OnErr, Some, option_map, slice_get};
ghost use Rattle.std.specs.List.{insert, remove};
ghost use Rattle.std.specs.Option.{option_to_list};
ghost use Rattle.std.specs.List.Sorted.{IsStrictlySortedBy};
ghost use Rattle.std.specs.Map.{keys_of};
ghost use Rattle.std.specs.BTreeMap.{insert_entry};
ghost use Rattle.std.specs.Vec.{vec_len, vec_capacity};
ghost use Rattle.qs_tree.specs.internal.tree.Places.{IsGap, IsPlaced, put_value};

use std::alloc::{AllocError, Global};
use std::marker::Model;
use std::mem;

/// The capacity of the first allocation.
const FIRST_ROOM: usize = 4;

/// Vectors with fewer entries than this grow to more than twice their length, others by a third.
const MANY: usize = 1000;

/// A sorted vector of entries with distinct keys. Contracts see the list of entries.
#[derive(Debug, Drop)]
pub(crate) struct SortedEntries<K: Ord, V> {
    items: Vec<(K, V)>,
}

impl<K: Ord, V> Model for SortedEntries<K, V> {
    ghost use Rattle.std.specs.Prelude.{List};
    ghost use Rattle.std.specs.Coded.{coded_list, coded×};
    ghost use Rattle.std.specs.List.Sorted.{IsStrictlySortedBy};
    ghost use Rattle.std.specs.Map.{keys_of};

    ghost Value = { List (K × V) };

    ghost coded = { coded_list (coded× K.code V.code) };

    ghost view = { λ a. a.items.items };

    ghost invariant = { λ a. IsStrictlySortedBy K.cmp (keys_of a.items.items) };
}

impl<K: Ord, V> SortedEntries<K, V> {
    ghost use Rattle.std.specs.Borrow.{sem};
    ghost use Rattle.qs_tree.specs.internal.tree.Lending.{LendsValue};

    /// Returns a vector without entries. Doesn't allocate.
    #[tactic(auto, using(crate::proofs::lemmas::tree::Places::sorted_none))]
    pub fn new(alloc: Global) -> Self
        ensures { result ≡ [] }
    {
        SortedEntries {
            items: Vec::new(alloc),
        }
    }

    /// Returns an empty vector with this capacity. Returns an error only if the allocation failed.
    #[tactic(auto, using(crate::proofs::lemmas::tree::Places::sorted_none))]
    pub fn with_capacity(alloc: Global, capacity: usize) -> Result<Self, AllocError>
        ensures { IfOk result (λ entries. entries ≡ []) }
    {
        let items = Vec::with_capacity(alloc, capacity)?;
        Ok(SortedEntries { items })
    }

    /// Returns the entries of a vector whose keys are sorted and distinct, or as `Err` any other vector.
    pub fn of_sorted(items: Vec<(K, V)>) -> Result<Self, Vec<(K, V)>>
        ensures all { MatchResult result (λ entries. entries ≡ items.items) (λ others. others.items ≡ items.items) }
        ensures sorted { IfOk result (λ entries. IsStrictlySortedBy K.cmp (keys_of entries)) }
    {
        if items.is_sorted_by(|left, right| left.0.cmp(&right.0).is_lt()) {
            Ok(SortedEntries { items })
        } else {
            Err(items)
        }
    }

    /// Returns the number of entries.
    pub fn len(&self) -> usize
        ensures { result ≡ length self.now }
    {
        self.items.len()
    }

    /// Returns the allocator of the entries.
    pub fn allocator(&self) -> Global {
        *self.items.allocator()
    }

    /// Returns the entries as a sorted slice.
    pub fn as_slice(&self) -> &[(K, V)]
        ensures all { result.now ≡ self.now }
        ensures sorted { IsStrictlySortedBy K.cmp (keys_of self.now) }
    {
        &self.items
    }

    /// Returns the entries as a sorted vector.
    pub fn into_items(self) -> Vec<(K, V)>
        ensures all { result.items ≡ self }
        ensures sorted { IsStrictlySortedBy K.cmp (keys_of self) }
    {
        let SortedEntries { items } = self;
        items
    }

    /// Returns the entry at an index, or `None`.
    pub fn at(&self, at: usize) -> Option<(&K, &V)>
        ensures value { option_map (λ p. (p.0.now, p.1.now)) result ≡ slice_get self.now at }
        ensures sorted { IsStrictlySortedBy K.cmp (keys_of self.now) }
    {
        match self.items.get(at) {
            Some(entry) => Some((&entry.0, &entry.1)),
            None => None,
        }
    }

    /// Returns a mutable reference to the value at an index.
    pub fn at_mut(&mut self, at: usize) -> &mut V
        requires { at < length self.old }
        ensures* writes_back { sem 𝓛 (LendsValue K.row V.row K.Ord.own K.PartialEq.own K.PartialOrd.own self.entry at result) }
        ensures value { option_map (λ e. e.1) (slice_get self.old at) ≡ Some result.now }
    {
        let item = &mut self.items[at];
        &mut item.1
    }

    /// Replaces the value at an index, and returns the old one.
    pub fn replace(&mut self, at: usize, value: V) -> V
        requires { at < length self.old }
        ensures old { option_map (λ e. e.1) (slice_get self.old at) ≡ Some result }
        ensures new { self.new ≡ put_value self.old at value }
    {
        mem::replace(&mut self.items[at].1, value)
    }

    /// Removes the last entry, and returns it.
    #[tactic(auto, using(crate::proofs::lemmas::tree::Places::sorted_front))]
    pub fn pop(&mut self) -> Option<(K, V)>
        ensures all { self.old ≡ self.new ++ option_to_list result }
        ensures none { IfNone result (self.new ≡ []) }
    {
        self.items.pop()
    }

    /// Frees the memory of an empty vector.
    pub fn destroy_empty(self)
        requires { self ≡ [] }
    {
        self.into_items().destroy_empty();
    }
}

impl<K: Ord + Drop, V: Drop> SortedEntries<K, V> {
    /// Returns a vector of one entry. Returns an error only if the allocation failed.
    #[inline(always)]
    #[tactic(auto, using(crate::proofs::lemmas::tree::Places::sorted_one))]
    pub fn of(alloc: Global, key: K, value: V) -> Result<Self, AllocError>
        ensures { IfOk result (λ entries. entries ≡ (key, value) ∷ []) }
    {
        let mut entries = SortedEntries::new(alloc);
        entries.push(key, value)?;
        Ok(entries)
    }

    /// Inserts an entry with a missing key at an index. On an error nothing is changed.
    #[inline(always)]
    pub fn insert_at(&mut self, at: usize, key: K, value: V) -> Result<(), AllocError>
        requires { IsGap K.cmp key self.old at }
        ensures ok { OnOk result (self.new ≡ insert_entry K.cmp self.old key value) }
        ensures err { OnErr result (self.new ≡ self.old) }
    {
        reserve_one(&mut self.items)?;
        insert_reserved(&mut self.items, at, (key, value));
        Ok(())
    }

    /// Puts a value at the index of its key. If there is an equal key, that key is kept. On an error nothing is changed.
    pub fn put_at(
        &mut self,
        place: Result<usize, usize>,
        key: K,
        value: V,
    ) -> Result<(), AllocError>
        requires { IsPlaced K.cmp key self.old place }
        ensures { OnOk result (self.new ≡ insert_entry K.cmp self.old key value) }
    {
        match place {
            Ok(at) => {
                self.replace(at, value);
                Ok(())
            }
            Err(at) => self.insert_at(at, key, value),
        }
    }

    /// Pushes an entry whose key is greater than all others. On an error nothing is changed.
    #[inline(always)]
    pub fn push(&mut self, key: K, value: V) -> Result<(), AllocError>
        requires { IsStrictlySortedBy K.cmp (keys_of self.old ++ key ∷ []) }
        ensures ok { OnOk result (self.new ≡ self.old ++ (key, value) ∷ []) }
        ensures err { OnErr result (self.new ≡ self.old) }
    {
        reserve_one(&mut self.items)?;
        self.items.push_reserved((key, value));
        Ok(())
    }

    /// Removes the entry at an index, and returns it.
    pub fn remove_at(&mut self, at: usize) -> (K, V)
        requires { at < length self.old }
        ensures entry { slice_get self.old at ≡ Some result }
        ensures rest { self.new ≡ remove self.old at }
        ensures sorted { IsStrictlySortedBy K.cmp (keys_of self.old) }
    {
        self.items.remove(at)
    }
}

// Inserts an item at an index of a vector with spare capacity. Moves the item fewer times than `insert` does.
#[inline(always)]
fn insert_reserved<T>(items: &mut Vec<T>, at: usize, item: T)
    requires within { at ≤ length items.old.items }
    requires room { vec_len items.old < vec_capacity items.old }
    ensures { items.new.items ≡ insert items.old.items at item }
{
    let len = items.len();
    items.push_reserved(item);
    if at < len {
        items[at..].rotate_right(1);
    }
}

/// Reserves capacity for one more entry, and little that may stay unused. Returns an error only if the allocation failed.
#[inline(always)]
pub(crate) fn reserve_one<T>(items: &mut Vec<T>) -> Result<(), AllocError>
    ensures items { items.new.items ≡ items.old.items }
    ensures room { OnOk result (vec_len items.new < vec_capacity items.new) }
{
    let len = items.len();
    if len < items.capacity() {
        return Ok(());
    }
    items.reserve_exact(if len < MANY {
        FIRST_ROOM + len
    } else {
        len / 3
    })
}
