//! A map of only leaves, in the order in which they were added.
//!
//! It is the map of their pairs. They are sorted once, when the map is finished; until then adding a leaf takes constant time.
ghost use Rattle.std.specs.Prelude.{◌≡◌, Some, false, IfOk, OnOk};
ghost use Rattle.std.specs.List.{list_all};
ghost use Rattle.std.specs.List.Sorted.{IsPermutation};
ghost use Rattle.qs_spec.specs.internal.InPlace.{add_to_leaves, add_here, update};
ghost use Rattle.qs_tree.specs.tree.Views.{parsed_segment_of_key, entries_of_map, tree_of};
ghost use Rattle.qs_tree.specs.internal.scan.Pairs.{leaf_of};
ghost use Rattle.qs_tree.specs.internal.build.Unsorted.{AreLeaves, entries_of_leaves, is_leaf};

use crate::build::add_to_value::add_leaf_at;
use crate::build::conflict::AddError;
use crate::build::distinct::have_distinct_keys;
use crate::scan::pair::Leaf;
use crate::tree::entries::{SortedEntries, reserve_one};
use crate::tree::key::Key;
use crate::tree::map::ParsedMap;
use crate::tree::value::ParsedValue;
use std::alloc::{AllocError, Global};

/// How many keys rise, or fall, in a row in runs that a stable sort leaves as they are.
const RUN: usize = 8;

/// A map of only leaves, in the order in which they were added. Leaves with the same key make a sequence.
#[derive(Drop)]
pub(crate) struct Unsorted<'qs> {
    leaves: Vec<(Key<'qs>, ParsedValue<'qs>)>,
    ghost are_leaves: { AreLeaves leaves.items },
}

impl<'qs> Unsorted<'qs> {
    ghost use Rattle.qs_tree.specs.internal.build.Builder.{entries_held, unsorted_entries};

    /// Returns a finished map of only leaves as an unsorted one. Doesn't allocate.
    pub fn of(map: ParsedMap<'qs>) -> Self
        requires { AreLeaves map.map }
        ensures { unsorted_entries result ≡ entries_of_map map.entry }
    {
        Unsorted {
            leaves: map.into_entries().into_items(),
        }
    }

    /// Adds a leaf at a key.
    #[tactic(auto, using(crate::proofs::lemmas::build::Unsorted::added_to_leaves, crate::proofs::lemmas::build::Unsorted::added_here))]
    pub fn push(&mut self, key: Key<'qs>, leaf: Leaf<'qs>) -> Result<(), AllocError>
        ensures leaves { OnOk result (update (parsed_segment_of_key key.entry) (add_to_leaves false (leaf_of leaf.entry)) (unsorted_entries self.old) ≡ Some (unsorted_entries self.new)) }
        ensures here { OnOk result (update (parsed_segment_of_key key.entry) (add_here false (leaf_of leaf.entry)) (unsorted_entries self.old) ≡ Some (unsorted_entries self.new)) }
    {
        reserve_one(&mut self.leaves)?;
        self.leaves.push_reserved((key, leaf.into_value()));
        Ok(())
    }

    /// Returns the finished entries. Sorts the leaves in their vector, and copies them to another one only if a key has several.
    #[inline(never)]
    pub fn into_entries(
        self,
        alloc: Global,
    ) -> Result<SortedEntries<Key<'qs>, ParsedValue<'qs>>, AllocError>
        ensures { IfOk result (λ entries. entries_held entries ≡ unsorted_entries self.entry) }
    {
        let mut leaves = self.leaves;
        sort(alloc, &mut leaves)?;
        match SortedEntries::of_sorted(leaves) {
            Ok(entries) => Ok(entries),
            Err(leaves) => Self::merge(alloc, leaves),
        }
    }

    // Returns the entries of sorted leaves. Leaves with the same key make a sequence.
    #[inline(never)]
    fn merge(
        alloc: Global,
        leaves: Vec<(Key<'qs>, ParsedValue<'qs>)>,
    ) -> Result<SortedEntries<Key<'qs>, ParsedValue<'qs>>, AllocError>
        ensures { IfOk result (λ entries. entries_held entries ≡ entries_of_leaves leaves.entry.items) }
    {
        let mut entries = SortedEntries::with_capacity(alloc, leaves.len())?;
        for entry in leaves {
            match add_leaf_at(alloc, &mut entries, entry.0, Leaf::of(entry.1), 0) {
                Ok(()) => {}
                Err(AddError::OutOfMemory) => return Err(AllocError),
                // Leaves don't conflict with one another.
                Err(AddError::Conflict(_)) => unreachable!(),
            }
        }
        Ok(entries)
    }
}

// Sorts leaves by their keys, and keeps leaves with the same key in order. Takes a buffer as long as the leaves only if they are in
// runs, or if a key has several.
fn sort<'qs>(
    alloc: Global,
    leaves: &mut Vec<(Key<'qs>, ParsedValue<'qs>)>,
) -> Result<(), AllocError>
    ensures same { OnOk result (entries_of_leaves leaves.new.items ≡ entries_of_leaves leaves.old.items) }
    ensures permutation { IsPermutation leaves.old.items leaves.new.items }
{
    if !are_runs(leaves) && have_distinct_keys(alloc, leaves)? {
        leaves.sort_unstable_by(|left, right| left.0.compare(&right.0));
        return Ok(());
    }
    leaves.sort_by(|left, right| left.0.compare(&right.0))
}

// Returns whether the keys rise nearly everywhere, or fall.
fn are_runs<'qs>(leaves: &[(Key<'qs>, ParsedValue<'qs>)]) -> bool {
    let falls = leaves
        .iter()
        .zip(leaves.iter().skip(1))
        .filter(|(left, right)| left.0.compare(&right.0).is_gt())
        .count();
    falls.min(leaves.len().saturating_sub(falls)) <= leaves.len() / RUN
}

/// Returns whether all values are leaves.
pub(crate) fn are_leaves<'qs>(entries: &[(Key<'qs>, ParsedValue<'qs>)]) -> bool
    ensures { result ≡ list_all (λ p. is_leaf (tree_of p.1)) entries.now }
{
    entries.iter().all(|entry| entry.1.is_leaf())
}
