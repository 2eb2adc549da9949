//! The steps of reading that serde calls.

ghost use Rattle.std.specs.Prelude.{◌≡◌, ◌↔◌, ⊤, true, false, None, IsSome, slice_range, string_bytes, IfErr, IfOk, IsOk, OnOk, IsTrue, MatchBool, MatchOption, Ok, Some, IfNone, ◌⊎◌, ◌&&◌};
ghost use Rattle.qs_spec.specs.Leaf.Leaf.{NoValue};
ghost use Rattle.qs_spec.specs.Tree.Tree.{leaf, uninitialized};
ghost use Rattle.serde.specs.Event.{boolean, signed, unsigned, single, double, character, text, octets, key_begins, map_begins, map_ends, nothing, seq_begins, seq_ends};
ghost use Rattle.qs_tree.specs.tree.Views.{tree_of};
ghost use Rattle.qs_data.specs.read.internal.ReadError.{ReadGives, ReadRejects};
ghost use Rattle.qs_data.specs.declared.read.error.ReadError.TheVariants.{OutOfMemory};
ghost use Rattle.std.specs.Float.{binary32, binary64};
ghost use Rattle.qs_spec.specs.Data as d;
ghost use Rattle.qs_spec.specs.Shape as s;
ghost use Rattle.qs_data.specs.read.TreeText.{is_text};
ghost use Rattle.qs_serde.specs.Errors.{FailsOn, IsStepError};
ghost use Rattle.qs_serde.specs.Places.{kind_of, scalar_at, tree_at};
ghost use Rattle.qs_serde.specs.Steps.{BeginsAfterLook, BeginsMap, BeginsStruct, Comes, EndsAt, Leaves, Looks, LooksInside, HasNoEntry, HasNoItem, IsPlain, next_float, next_item_of, ComesBack, IsMark, Picks, Reads, Returns, Stays, Takes, next_entries, next_items, next_kind, next_struct, next_unit};
ghost use Rattle.qs_serde.specs.Tries.{marked, may_enter, may_go_over};

use super::data::{as_bool, as_bytes, as_char};
use super::format::{Asked, Mark, TreeFormat};
use super::frame::FrameKind;
use super::names::find_node;
use super::node::{Node, Part, is_list, is_map};
use super::scalars::{borrowed_text, test_utf8};
use super::{ReadError, Result};
use qs_data::Shape;
use qs_tree::ParsedValue;
use serde::{Format, Kind, Name};
use std::alloc::Global;

#[tactic(auto, using(crate::proofs::Errors::step_errors))]
impl<'t, 'qs> Format for TreeFormat<'t, 'qs> {
    type Error = ReadError;

    type Mark = Mark<'t, 'qs>;

    ghost gives = { λ old _ e new. Reads old e new };

    ghost picks = { λ old _ is_key names at new. Picks old is_key names at new };

    ghost stays = { Stays };

    #[tactic(auto, using(crate::proofs::Errors::step_errors, crate::proofs::Borrowed::boolean_only))]
    fn bool(&mut self, _input: &[u8]) -> Result<bool>
        ensures step { IfOk result (λ v. Reads self.old (boolean v) self.new) }
        ensures exact { Returns d.boolean self.old s.Shape.boolean result }
    {
        let node = self.take();
        let data = self.boolean(node)?;
        match as_bool(data) {
            Some(value) => Ok(value),
            None => Err(self.no_value()),
        }
    }

    #[tactic(auto, using(crate::proofs::ReadNumbers::signed_wider))]
    fn i64(&mut self, _input: &[u8]) -> Result<i64>
        ensures step { IfOk result (λ v. Reads self.old (signed v) self.new) }
        ensures exact { IsPlain self.old → Returns d.signed self.old (s.Shape.signed 64) result }
        ensures errors { FailsOn (scalar_at self.old) result }
    {
        self.signed()
    }

    #[tactic(auto, using(crate::proofs::ReadNumbers::unsigned_wider))]
    fn u64(&mut self, _input: &[u8]) -> Result<u64>
        ensures step { IfOk result (λ v. Reads self.old (unsigned v) self.new) }
        ensures exact { IsPlain self.old → Returns d.unsigned self.old (s.Shape.unsigned 64) result }
        ensures errors { FailsOn (scalar_at self.old) result }
    {
        self.unsigned()
    }

    fn i128(&mut self, _input: &[u8]) -> Result<i128>
        ensures step { IfOk result (λ v. Reads self.old (signed v) self.new) }
        ensures exact { Returns d.signed self.old (s.Shape.signed 128) result }
    {
        self.parsed()
    }

    fn u128(&mut self, _input: &[u8]) -> Result<u128>
        ensures step { IfOk result (λ v. Reads self.old (unsigned v) self.new) }
        ensures exact { Returns d.unsigned self.old (s.Shape.unsigned 128) result }
    {
        self.parsed()
    }

    fn f32(&mut self, _input: &[u8]) -> Result<f32>
        ensures step { IfOk result (λ v. Reads self.old (single v) self.new) }
        ensures exact { ReadGives (λ x. x) (is_text (scalar_at self.old)) result (next_float binary32 self.old) }
    {
        self.parsed()
    }

    fn f64(&mut self, _input: &[u8]) -> Result<f64>
        ensures step { IfOk result (λ v. Reads self.old (double v) self.new) }
        ensures exact { ReadGives (λ x. x) (is_text (scalar_at self.old)) result (next_float binary64 self.old) }
    {
        self.parsed()
    }

    #[tactic(auto, using(crate::proofs::Errors::step_errors, crate::proofs::Borrowed::character_only))]
    fn char(&mut self, _input: &[u8]) -> Result<char>
        ensures step { IfOk result (λ v. Reads self.old (character v) self.new) }
        ensures exact { Returns d.character self.old s.Shape.character result }
    {
        let data = self.by_shape(&Shape::Char)?;
        match as_char(data) {
            Some(value) => Ok(value),
            None => Err(self.no_value()),
        }
    }

    // The tree doesn't say where in the input its texts are, so they are searched for.
    #[tactic(auto, using(crate::proofs::Errors::step_errors, crate::proofs::Borrowed::text_read, qs_data::proofs::lemmas::read::Scalars::scalar_bad))]
    fn plain_str(&mut self, input: &[u8]) -> Result<(usize, usize)>
        ensures step { IfOk result (λ r. Reads self.old (text (slice_range input.now r.0 r.1)) self.new) }
        ensures errors { FailsOn (scalar_at self.old) result }
    {
        let node = self.take();
        let Some(text) = borrowed_text(self.reader, node) else {
            return Err(self.not_borrowed(node));
        };
        test_utf8(self.reader.alloc, text)?;
        let place = self.place(text, input)?;
        Ok(place)
    }

    #[tactic(auto, using(crate::proofs::Errors::step_errors, crate::proofs::Borrowed::bytes_read))]
    fn plain_bytes(&mut self, input: &[u8]) -> Result<(usize, usize)>
        ensures step { IfOk result (λ r. Reads self.old (octets (slice_range input.now r.0 r.1)) self.new) }
        ensures errors { FailsOn (scalar_at self.old) result }
    {
        let node = self.take();
        let Some(text) = borrowed_text(self.reader, node) else {
            return Err(self.not_borrowed(node));
        };
        let place = self.place(text, input)?;
        Ok(place)
    }

    fn string(&mut self, _alloc: Global, _input: &[u8]) -> Result<String>
        ensures step { IfOk result (λ v. Reads self.old (text (string_bytes v)) self.new) }
        ensures exact { Returns (λ v. d.text (string_bytes v)) self.old s.Shape.text result }
    {
        self.text()
    }

    #[tactic(auto, using(crate::proofs::Errors::step_errors, crate::proofs::Borrowed::bytes_only))]
    fn byte_buf(&mut self, _alloc: Global, _input: &[u8]) -> Result<Vec<u8>>
        ensures step { IfOk result (λ v. Reads self.old (octets v.items) self.new) }
        ensures exact { Returns (λ v. d.bytes v.items) self.old s.Shape.bytes result }
    {
        let data = self.by_shape(&Shape::Bytes)?;
        match as_bytes(data) {
            Some(bytes) => Ok(bytes),
            None => Err(self.no_value()),
        }
    }

    fn peek(&mut self, _input: &[u8]) -> Result<Kind>
        ensures step { OnOk result (Stays self.old self.new) }
        ensures looks { Looks self.old self.new }
        ensures kind { ReadGives (λ k. k) true result (next_kind self.old) }
    {
        self.look()
    }

    // What a unit variant holds is passed over.
    #[tactic(auto, unfolding(qs_spec::specs::internal::ReadFunction::reads))]
    fn take_unit(&mut self, _input: &[u8]) -> Result<bool>
        ensures step { IfOk result (λ b. MatchBool b (Reads self.old nothing self.new) (Stays self.old self.new)) }
        ensures exact { result ≡ Ok (next_unit self.old) }
        ensures kept { self.new ≡ self.old }
    {
        match self.part {
            Part::Held | Part::NoValue | Part::Nothing => Ok(true),
            Part::Value => Ok(matches!(self.node, ParsedValue::Null | ParsedValue::NoValue)),
            Part::Whole => Ok(matches!(self.node, ParsedValue::NoValue)),
            Part::Key => Ok(false),
        }
    }

    fn take_none(&mut self, _input: &[u8]) -> Result<bool>
        ensures step { IfOk result (λ b. MatchBool b (Reads self.old nothing self.new) (Stays self.old self.new)) }
        ensures none { IfOk result (λ b. IsTrue b ↔ (tree_at self.old ≡ leaf NoValue)) }
        ensures some { IfOk result (λ b. MatchBool b (self.new ≡ self.old) (LooksInside self.old self.new)) }
        ensures errors { IfErr result (λ e. IsStepError true e × ((self.new ≡ self.old) × (tree_at self.old ≡ uninitialized))) }
    {
        self.look_for_none()
    }

    #[tactic(auto, using(crate::proofs::Errors::begin_errors, crate::proofs::Places::has_items))]
    fn begin_seq(&mut self, _input: &[u8]) -> Result<()>
        ensures step { OnOk result (Reads self.old (seq_begins None) self.new) }
        ensures errors { IfErr result (λ e. ReadRejects true e (next_items self.old)) }
    {
        let node = self.next_node()?;
        if self.part == Part::Whole && !is_list(node) {
            return Err(self.no_value());
        }
        ReadError::of_result(self.reader.alloc, self.reader.items(node))?;
        self.open(FrameKind::Items)
    }

    #[inline(always)]
    fn next_item(&mut self, _input: &[u8]) -> Result<bool>
        ensures step { IfOk result (λ b. MatchBool b (Stays self.old self.new) (Reads self.old seq_ends self.new)) }
        ensures exact { IfOk result (λ b. MatchBool b (Comes self.old self.new) (HasNoItem self.old × Leaves self.old self.new)) }
        ensures tried { self.new.is_tried ≡ self.old.is_tried }
        ensures errors { IfErr result (λ e. IsStepError true e × (IsSome self.old.frame → ReadRejects true e (next_item_of self.old))) }
    {
        let Some(frame) = self.frame else {
            return Err(self.no_value());
        };
        self.go_to_item(frame)
    }

    // Skips the further items of a sequence that is longer than the tuple, unless all has to be read.
    #[tactic(auto, using(crate::proofs::Errors::step_errors, crate::proofs::Errors::rejects_end))]
    fn end_tuple(&mut self, input: &[u8]) -> Result<()>
        ensures step { OnOk result (Reads self.old seq_ends self.new) }
        ensures whole { self.old.is_tried ≡ true → OnOk result (HasNoItem self.old) }
        ensures errors { IfErr result (λ e. IsStepError true e × (self.old.is_tried ≡ true) × (IsSome self.old.frame → (e ≡ OutOfMemory) ⊎ ¬ HasNoItem self.old)) }
        ensures tried { self.new.is_tried ≡ self.old.is_tried }
    {
        if self.is_tried {
            if self.next_item(input)? {
                return Err(self.wrong_length());
            }
            return Ok(());
        }
        self.close();
        Ok(())
    }

    #[tactic(auto, using(crate::proofs::Errors::begin_errors, crate::proofs::Places::has_map))]
    fn begin_map(&mut self, _input: &[u8]) -> Result<()>
        ensures step { OnOk result (Reads self.old (map_begins None) self.new) }
        ensures map { OnOk result (BeginsMap self.old self.new) }
        ensures errors { IfErr result (λ e. ReadRejects true e (next_entries self.old)) }
    {
        let node = self.next_node()?;
        if self.part == Part::Whole && !matches!(self.asked, Asked::Marked) && !is_map(node) {
            return Err(self.error(self.reader.not_an_enum(node)));
        }
        ReadError::of_result(self.reader.alloc, self.reader.entries(node))?;
        self.open(FrameKind::Map)
    }

    // A sequence is begun as a map too: `next_key` then counts its fields, and further items are passed over. Where all items have to be
    // read, it is begun as a list.
    #[tactic(auto, using(crate::proofs::Errors::begin_errors))]
    fn begin_struct(&mut self, _input: &[u8]) -> Result<bool>
        ensures step { IfOk result (λ b. BeginsAfterLook self.old b self.new) }
        ensures kind { OnOk result (BeginsStruct self.old self.new) }
        ensures errors { IfErr result (λ e. ReadRejects (is_text (tree_of self.old.node.now)) e (next_struct self.old)) }
    {
        let kind = self.kind_of_struct()?;
        self.open(kind)?;
        Ok(matches!(kind, FrameKind::Items))
    }

    #[inline(always)]
    fn next_key(&mut self, _input: &[u8], names: &[Name<'_>]) -> Result<Option<usize>>
        ensures step { IfOk result (λ o. MatchOption o (Reads self.old map_ends self.new) (λ at. Picks self.old true names.now at self.new)) }
        ensures end { IfOk result (λ o. IfNone o (IsPlain self.old → EndsAt (kind_of self.old) self.old names.now)) }
        ensures enters { kind_of self.old ≡ Some FrameKind.Map → OnOk result (may_enter names.now self.old ≡ true) }
        ensures errors { FailsOn (tree_of self.old.top.now) result }
    {
        if let Some(frame) = self.frame {
            if let FrameKind::Fields = frame.kind {
                if !self.search.in_order {
                    return self.go_to_member(names, frame, self.value_part());
                }
            }
        }
        self.go_to_key(names)
    }

    fn next_entry(&mut self, _input: &[u8]) -> Result<bool>
        ensures step { IfOk result (λ b. MatchBool b (Reads self.old key_begins self.new) (Reads self.old map_ends self.new)) }
        ensures end { IfOk result (λ b. MatchBool b ⊤ (HasNoEntry self.old)) }
        ensures whole { IsSome self.old.frame → OnOk result (may_go_over self.old ≡ true) }
        ensures errors { IfErr result (λ e. IsStepError true e × (may_go_over self.old ≡ false)) }
        ensures tried { self.new.is_tried ≡ self.old.is_tried }
    {
        let Some(frame) = self.frame else {
            self.close();
            return Ok(false);
        };
        if frame.next == 0 && matches!(self.asked, Asked::Marked) && !is_map(self.top) {
            return Err(self.no_value());
        }
        match self.go_to_entry(frame) {
            Some(_) => {
                self.part = Part::Key;
                Ok(true)
            }
            None => Ok(false),
        }
    }

    fn variant(&mut self, _input: &[u8], names: &[Name<'_>]) -> Result<usize>
        ensures step { IfOk result (λ at. Picks self.old false names.now at self.new) }
        ensures errors { FailsOn (scalar_at self.old) result }
    {
        if matches!(self.asked, Asked::Content) {
            self.settle();
        }
        let is_key = self.part == Part::Key;
        let node = self.take();
        self.asked = if is_key { Asked::Entry } else { Asked::Variant };
        let found = find_node(names, node);
        self.note_variant(matches!(found, Some(at) if at < names.len()));
        match found {
            Some(at) => Ok(at),
            None => Err(self.hinted(node, self.no_variant(node))),
        }
    }

    fn skip(&mut self, _input: &[u8]) -> Result<()>
        ensures takes { Takes self.old self.new }
        ensures returns { IsOk result }
    {
        if self.part == Part::Key {
            self.part = self.value_part();
        }
        Ok(())
    }

    fn mark(&mut self) -> Mark<'t, 'qs>
        ensures mark { IsMark result self.old }
        ensures marked { self.new ≡ marked self.old }
    {
        self.mark_here()
    }

    fn rewind(&mut self, mark: Mark<'t, 'qs>)
        ensures { ComesBack mark.entry self.old self.new }
    {
        self.go_back(mark);
    }

    fn release(&mut self, mark: Mark<'t, 'qs>)
        ensures { self.new ≡ record self.old { is_tried = self.old.is_tried && mark.entry.is_tried } }
    {
        self.is_tried = self.is_tried && mark.is_tried;
    }

    fn is_fatal(&self, error: &ReadError) -> bool
        ensures { IsTrue result ↔ (error.now ≡ OutOfMemory) }
    {
        matches!(error, ReadError::OutOfMemory)
    }

    // A list that is read as a struct lacks an item rather than a name.
    fn missing(&self, name: &str) -> ReadError {
        match self.asked {
            Asked::Ended => self.wrong_length(),
            _ => self.error(self.reader.missing_field(self.key_of(name))),
        }
    }

    fn duplicate(&self, name: &str) -> ReadError {
        self.error(self.reader.duplicate_field(self.last_key(name)))
    }

    fn unknown_key(&self) -> ReadError {
        self.no_field()
    }

    // The text was looked up among the names, or the current key.
    fn unknown_variant(&self) -> ReadError {
        match self.asked {
            Asked::Variant => self.no_variant(Node::Value(self.node)),
            Asked::Entry => self.hinted(self.key(), self.no_variant(self.key())),
            Asked::Key => self.no_variant(self.key()),
            _ => self.no_tag(),
        }
    }

    fn wrong_len(&self) -> ReadError {
        self.wrong_length()
    }

    fn invalid(&self) -> ReadError {
        self.unfit()
    }

    fn no_memory(&self) -> ReadError
        ensures { result ≡ OutOfMemory }
    {
        ReadError::OutOfMemory
    }

    fn custom(&self, message: &str) -> ReadError {
        self.saying(message)
    }
}
