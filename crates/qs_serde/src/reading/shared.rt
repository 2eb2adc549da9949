//! The maps whose first key names a variant, and those that several values share: fields beside flattened ones, and tags.

#![tactic(auto, using(crate::proofs::Errors::step_errors))]

ghost use Rattle.std.specs.Prelude.{◌≡◌, ◌⊎◌, ◌||◌, not, true, false, [], Some, None, IfErr, IfOk, IfSome, IfNone, OnOk, slice_get};
ghost use Rattle.qs_tree.specs.tree.Views.{tree_of};
ghost use Rattle.qs_data.specs.read.internal.ReadError.{ReadRejects};
ghost use Rattle.qs_data.specs.read.TreeText.{is_text};
ghost use Rattle.qs_serde.specs.Errors.{FailsOn};
ghost use Rattle.qs_serde.specs.Nodes.{is_map, pairs_in};
ghost use Rattle.qs_serde.specs.Places.{count_of, held_part, kind_of};
ghost use Rattle.qs_serde.specs.Steps.{EntryIs, Leaves};
ghost use Rattle.qs_serde.specs.Tries.{may_enter, needs_map, picked_part, settled, tried_after};

use super::Result;
use super::format::{Asked, TreeFormat};
use super::frame::Frame;
use super::names::{find_node, has_skipped};
use super::node::{Part, is_map};
use qs_tree::ParsedValue;
use serde::Name;

impl<'t, 'qs> TreeFormat<'t, 'qs> {
    /// Goes to the next entry of a map that names a variant or is shared, and returns the index of the name that its key matches. At the
    /// end of an enum there are no names: its map ends, and the other keys are passed over, unless all has to be read.
    pub(crate) fn go_to_shared(&mut self, names: &[Name<'_>], frame: Frame) -> Result<Option<usize>>
        ensures some { kind_of self.old ≡ Some frame.kind → count_of self.old ≡ frame.next → IfOk result (λ o. IfSome o (λ at. EntryIs frame.next names.now at (picked_part names.now self.old) (settled names.now self.old) self.new)) }
        ensures none { IfOk result (λ o. IfNone o (Leaves self.old self.new)) }
        ensures end { count_of self.old ≡ frame.next → IfOk result (λ o. IfNone o (((names.now ≡ []) × ((settled names.now self.old).is_tried ≡ false)) ⊎ (slice_get (pairs_in (tree_of self.old.top.now)) frame.next ≡ None))) }
        ensures enters { count_of self.old ≡ frame.next → OnOk result (may_enter names.now self.old ≡ true) }
        ensures errors { FailsOn (tree_of self.old.top.now) result }
    {
        if frame.next == 0 {
            if let Asked::Kind = self.asked {
                return self.go_to_variant(names, frame);
            }
            self.enter(names)?;
        }
        if names.is_empty() && !self.is_tried {
            self.close();
            return Ok(None);
        }
        let found = self.go_to_member(names, frame, self.value_part())?;
        self.note_found(names, found);
        Ok(found)
    }

    // Goes to the first entry of a map, and returns the index of the variant that its key names.
    fn go_to_variant(&mut self, names: &[Name<'_>], frame: Frame) -> Result<Option<usize>>
        ensures some { kind_of self.old ≡ Some frame.kind → IfOk result (λ o. IfSome o (λ at. EntryIs frame.next names.now at (held_part self.old.is_tried) self.old self.new)) }
        ensures none { IfOk result (λ o. IfNone o ((slice_get (pairs_in (tree_of self.old.top.now)) frame.next ≡ None) × Leaves self.old self.new)) }
        ensures errors { FailsOn (tree_of self.old.top.now) result }
    {
        let map = self.top;
        let Some(key) = self.go_to_entry(frame) else {
            self.asked = Asked::Enum;
            return Ok(None);
        };
        self.part = self.variant_part();
        match find_node(names, key) {
            Some(at) => {
                self.note_variant_key(at);
                Ok(Some(at))
            }
            None => Err(self.broken_variant(map, key)),
        }
    }

    // Returns the part of a node under a variant's name that is read first.
    fn variant_part(&self) -> Part
        ensures { result ≡ held_part self.now.is_tried }
    {
        if self.is_tried {
            Part::Whole
        } else {
            Part::Held
        }
    }

    // Notes that a key names no variant, for the error.
    fn note_variant_key(&mut self, at: usize)
        ensures { self.new ≡ record self.old { asked = self.new.asked } }
    {
        if at == usize::MAX {
            self.asked = Asked::Key;
        }
    }

    // Notes what was requested in a map, and whether it is there.
    fn note_found(&mut self, names: &[Name<'_>], found: Option<usize>)
        ensures { self.new ≡ record self.old { asked = self.new.asked } }
    {
        self.asked = match found {
            Some(usize::MAX) => Asked::Key,
            Some(_) if names.len() == 1 => Asked::Content,
            Some(_) => Asked::Unit,
            None if names.len() == 1 => Asked::Lacking,
            None => Asked::Nothing,
        };
    }

    // Tests a map before its first key. A variant of an untagged enum, or of an enum with a content, has fields only in a map. Fields that
    // share their map with others belong to no such variant.
    fn enter(&mut self, names: &[Name<'_>]) -> Result<()>
        ensures settles { OnOk result (self.new ≡ record self.old { is_tried = tried_after names.now self.old }) }
        ensures enters { OnOk result (not (needs_map names.now self.old.asked) || is_map (tree_of self.old.top.now) ≡ true) }
        ensures errors { FailsOn (tree_of self.old.top.now) result }
    {
        match self.asked {
            Asked::Marked if has_skipped(names) => {
                self.settle();
                Ok(())
            }
            Asked::Marked | Asked::Content => self.test_map(self.top),
            _ => Ok(()),
        }
    }

    /// Tests whether a node is a map that isn't a list.
    pub(crate) fn test_map(&self, node: &ParsedValue<'_>) -> Result<()>
        ensures map { OnOk result (is_map (tree_of node.now) ≡ true) }
        ensures errors { IfErr result (λ e. ReadRejects {Y = Unit {0}} (is_text (tree_of node.now)) e None × (is_map (tree_of node.now) ≡ false)) }
    {
        if is_map(node) {
            Ok(())
        } else {
            Err(self.error(self.reader.not_a_struct(node)))
        }
    }
}
