//! The items of lists and the entries of maps, one after another.

#![tactic(auto, using(crate::proofs::Errors::step_errors))]

ghost use Rattle.std.specs.Prelude.{◌≡◌, true, ℕ, ◌≢◌, [], Ok, None, Some, IfErr, IfOk, OnOk, IfSome, IfNone, MatchBool, MatchOption, drop, slice_get, IsTrue};
ghost use Rattle.serde.specs.Event.{map_ends};
ghost use Rattle.qs_tree.specs.tree.Views.{tree_of};
ghost use Rattle.qs_data.specs.read.internal.ReadError.{ReadGives, ReadRejects};
ghost use Rattle.qs_data.specs.read.Items.{first_item};
ghost use Rattle.qs_data.specs.read.TreeText.{is_text};
ghost use Rattle.qs_serde.specs.Errors.{FailsOn, IsStepError};
ghost use Rattle.qs_serde.specs.Nodes.{listed, pairs_in};
ghost use Rattle.qs_serde.specs.Places.{count_of, kind_of, value_part};
ghost use Rattle.qs_serde.specs.Steps.{Comes, EndsAt, EntryComes, EntryIs, FieldComes, HasNoItem, HasNoName, HasParts, IsPlain, Leaves, Picks, Reads, field_of, list_kind, next_node, next_struct, whole_struct};
ghost use Rattle.qs_serde.specs.Tries.{may_enter};

use super::format::{Asked, TreeFormat};
use super::frame::{Frame, FrameKind};
use super::names::{find_node, first_name};
use super::node::{Node, Part, entry_at, is_list, item_at};
use super::{ReadError, Result};
use qs_tree::ParsedValue;
use serde::Name;

impl<'t, 'qs> TreeFormat<'t, 'qs> {
    /// Goes to the next item of the innermost list, and returns whether there is one. At the end it leaves the list.
    #[inline(always)]
    #[tactic(auto, using(crate::proofs::Places::item_child, crate::proofs::Errors::step_errors))]
    pub(crate) fn go_to_item(&mut self, frame: Frame) -> Result<bool>
        ensures errors { IfErr result (λ e. IsStepError true e × ReadRejects true e (first_item (drop frame.next (listed (tree_of self.old.top.now))))) }
        ensures step { kind_of self.old ≡ Some frame.kind → count_of self.old ≡ frame.next → IfOk result (λ b. MatchBool b (Comes self.old self.new) (HasNoItem self.old × Leaves self.old self.new)) }
        ensures field { IfOk result (λ b. IsTrue b → field_of self.new ≡ frame.field) }
        ensures tried { self.new.is_tried ≡ self.old.is_tried }
    {
        match item_at(self.reader, self.top, frame.next) {
            Ok(Some(value)) => {
                self.advance(frame, value);
                self.part = self.value_part();
                Ok(true)
            }
            Ok(None) => {
                self.leave_list(frame);
                Ok(false)
            }
            Err(error) => {
                self.close();
                Err(error)
            }
        }
    }

    // Leaves the innermost list after its last item.
    #[inline(never)]
    fn leave_list(&mut self, frame: Frame)
        ensures leaves { Leaves self.old self.new }
        ensures tried { self.new.is_tried ≡ self.old.is_tried }
    {
        self.count = frame.next;
        self.close();
        self.asked = Asked::Ended;
    }

    /// Goes to the entry at the frame's index in the innermost map, and returns its key. At the end it leaves the map.
    #[inline(always)]
    #[tactic(auto, using(crate::proofs::Places::entry_child))]
    pub(crate) fn go_to_entry(&mut self, frame: Frame) -> Option<Node<'t, 'qs>>
        ensures some { kind_of self.old ≡ Some frame.kind → IfSome result (λ key. EntryComes frame.next key self.old self.new) }
        ensures none { IfNone result ((slice_get (pairs_in (tree_of self.old.top.now)) frame.next ≡ None) × Leaves self.old self.new) }
        ensures tried { self.new.is_tried ≡ self.old.is_tried }
    {
        match entry_at(self.top, frame.next) {
            Some((key, value)) => {
                self.advance(frame, value);
                Some(key)
            }
            None => {
                self.close();
                None
            }
        }
    }

    /// Goes to the entry at the frame's index in the innermost map, and returns the index of the name that its key matches.
    #[inline(always)]
    pub(crate) fn go_to_member(
        &mut self,
        names: &[Name<'_>],
        frame: Frame,
        part: Part,
    ) -> Result<Option<usize>>
        ensures some { kind_of self.old ≡ Some frame.kind → IfOk result (λ o. IfSome o (λ at. EntryIs frame.next names.now at part self.old self.new)) }
        ensures none { IfOk result (λ o. IfNone o ((slice_get (pairs_in (tree_of self.old.top.now)) frame.next ≡ None) × Leaves self.old self.new)) }
        ensures tried { self.new.is_tried ≡ self.old.is_tried }
        ensures errors { FailsOn (tree_of self.old.top.now) result }
    {
        let map = self.top;
        let Some(key) = self.go_to_entry(frame) else {
            return Ok(None);
        };
        self.part = part;
        match find_node(names, key) {
            Some(at) => Ok(Some(at)),
            None => Err(self.broken_key(map)),
        }
    }

    /// Goes to the next key of any list or map, and returns the index of the name that it matches. At the end it leaves the list or map.
    #[inline(never)]
    pub(crate) fn go_to_key(&mut self, names: &[Name<'_>]) -> Result<Option<usize>>
        ensures step { IfOk result (λ o. MatchOption o (Reads self.old map_ends self.new) (λ at. Picks self.old true names.now at self.new)) }
        ensures end { IfOk result (λ o. IfNone o (IsPlain self.old → EndsAt (kind_of self.old) self.old names.now)) }
        ensures enters { kind_of self.old ≡ Some FrameKind.Map → OnOk result (may_enter names.now self.old ≡ true) }
        ensures errors { FailsOn (tree_of self.old.top.now) result }
    {
        let found = self.go_by_kind(names)?;
        if self.search.in_order {
            self.note_names(names, found)?;
        }
        Ok(found)
    }

    // Goes to the next key of a list or map of any kind.
    fn go_by_kind(&mut self, names: &[Name<'_>]) -> Result<Option<usize>>
        ensures step { IfOk result (λ o. MatchOption o (Reads self.old map_ends self.new) (λ at. Picks self.old true names.now at self.new)) }
        ensures end { IfOk result (λ o. IfNone o (IsPlain self.old → EndsAt (kind_of self.old) self.old names.now)) }
        ensures enters { kind_of self.old ≡ Some FrameKind.Map → OnOk result (may_enter names.now self.old ≡ true) }
        ensures errors { FailsOn (tree_of self.old.top.now) result }
    {
        let Some(frame) = self.frame else {
            self.close();
            return Ok(None);
        };
        match frame.kind {
            FrameKind::Fields => {
                if self.search.in_order {
                    self.go_to_field(names, frame)
                } else {
                    self.go_to_member(names, frame, self.value_part())
                }
            }
            FrameKind::Places => self.go_to_place(names, frame),
            FrameKind::Map | FrameKind::Items => self.go_to_shared(names, frame),
        }
    }

    /// Goes to the next item of a sequence that is read as a struct, and returns the index of its field. Further items are passed over, but
    /// each field has an item.
    fn go_to_place(&mut self, names: &[Name<'_>], frame: Frame) -> Result<Option<usize>>
        ensures errors { FailsOn (tree_of self.old.top.now) result }
        ensures some { kind_of self.old ≡ Some frame.kind → count_of self.old ≡ frame.next → field_of self.old ≡ frame.field → IfOk result (λ o. IfSome o (λ at. FieldComes names.now at self.old self.new)) }
        ensures none { IfOk result (λ o. IfNone o (HasNoName names.now frame.field × Leaves self.old self.new)) }
    {
        let Some(at) = first_name(names, frame.field) else {
            self.leave_list(frame);
            return Ok(None);
        };
        let field = at.saturating_add(1);
        if self.go_to_item(Frame { field, ..frame })? {
            return Ok(Some(at));
        }
        self.is_short = true;
        Err(self.wrong_length())
    }

    /// Goes to the next entry of a struct, and returns the index of its field. Entries are in the order of their fields, with other keys
    /// last.
    fn go_to_field(&mut self, names: &[Name<'_>], frame: Frame) -> Result<Option<usize>>
        ensures errors { FailsOn (tree_of self.old.top.now) result }
        ensures some { kind_of self.old ≡ Some frame.kind → IfOk result (λ o. IfSome o (λ at. (i : ℕ) × EntryIs i names.now at (value_part self.old.is_tried) self.old self.new)) }
        ensures none { IfOk result (λ o. IfNone o (Leaves self.old self.new)) }
    {
        match self.field_after(names, frame) {
            Some((field, next)) => {
                let frame = Frame {
                    next,
                    field,
                    ..frame
                };
                self.go_to_member(names, frame, self.value_part())
            }
            None => {
                self.close();
                Ok(None)
            }
        }
    }

    // Returns the next field that has an entry, in the order of the fields, and the index of its entry.
    fn field_after(&self, names: &[Name<'_>], frame: Frame) -> Option<(usize, usize)> {
        let mut from = frame.next;
        for field in frame.field..names.len().saturating_add(1) {
            if let Some(at) = self.entry_of(names, field, from) {
                return Some((field, at));
            }
            from = 0;
        }
        None
    }

    // Returns the index of the first entry, from an index on, whose key names this field. If `field` is `names.len()`, it is the first
    // whose key names no field.
    fn entry_of(&self, names: &[Name<'_>], field: usize, from: usize) -> Option<usize> {
        for at in from..usize::MAX {
            let (key, _) = entry_at(self.top, at)?;
            let found = match find_node(names, key) {
                Some(found) => found.min(names.len()),
                None => names.len(),
            };
            if found == field {
                return Some(at);
            }
        }
        None
    }

    /// Returns the kind of frame by which what is next is read as a struct.
    #[tactic(auto, using(crate::proofs::Errors::rejects_custom, crate::proofs::Errors::rejects_further))]
    pub(crate) fn kind_of_struct(&self) -> Result<FrameKind>
        ensures exact { ReadGives (λ kind. kind) (is_text (tree_of self.now.node.now)) result (next_struct self.now) }
        ensures parts { IfOk result (λ kind. HasParts kind (tree_of self.now.node.now)) }
        ensures node { OnOk result (next_node self.now ≡ Some (tree_of self.now.node.now)) }
    {
        let node = self.next_node()?;
        if self.part == Part::Whole {
            return self.kind_of_whole(node);
        }
        match node {
            ParsedValue::NoValue | ParsedValue::Null | ParsedValue::Map(_) => Ok(FrameKind::Fields),
            ParsedValue::Sequence(_) => Ok(self.kind_of_list()),
            ParsedValue::String(_) => Err(self.error(self.reader.not_a_struct(node))),
            ParsedValue::Uninitialized => Err(self.error(self.reader.nothing())),
        }
    }

    // Returns the kind of frame by which a sequence is read as a struct: each item as a field, or all items if the sequence may end early.
    fn kind_of_list(&self) -> FrameKind
        ensures { result ≡ list_kind self.now.search.is_short }
    {
        if self.search.is_short {
            FrameKind::Items
        } else {
            FrameKind::Places
        }
    }

    // Returns the kind of frame by which a variant of an untagged enum reads a node as a struct: all items of a list, or the fields of a map.
    #[tactic(auto, using(crate::proofs::Errors::rejects_custom, crate::proofs::Errors::rejects_further))]
    fn kind_of_whole(&self, node: &ParsedValue<'_>) -> Result<FrameKind>
        ensures { ReadGives (λ kind. kind) (is_text (tree_of node.now)) result (whole_struct (tree_of node.now)) }
    {
        if is_list(node) {
            return Ok(FrameKind::Items);
        }
        self.test_map(node)?;
        Ok(FrameKind::Fields)
    }
}
