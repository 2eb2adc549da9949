//! Looks at what is next.

#![tactic(auto, using(crate::proofs::Errors::step_errors))]

ghost use Rattle.std.specs.Prelude.{◌≡◌, ◌↔◌, true, IfErr, IfOk, IsTrue, MatchBool, OnOk};
ghost use Rattle.qs_spec.specs.Leaf.Leaf.{NoValue};
ghost use Rattle.qs_spec.specs.Tree.Tree.{leaf, uninitialized};
ghost use Rattle.serde.specs.Event.{nothing};
ghost use Rattle.qs_data.specs.read.internal.ReadError.{ReadGives};
ghost use Rattle.qs_serde.specs.Errors.{IsStepError};
ghost use Rattle.qs_serde.specs.Places.{tree_at};
ghost use Rattle.qs_serde.specs.Steps.{Looks, LooksInside, Reads, Stays, next_kind};

use super::Result;
use super::format::{Asked, TreeFormat};
use super::node::Part;
use qs_tree::ParsedValue;
use serde::Kind;

impl<'t, 'qs> TreeFormat<'t, 'qs> {
    /// Returns the kind of what is next.
    pub(crate) fn look(&mut self) -> Result<Kind>
        ensures step { OnOk result (Stays self.old self.new) }
        ensures looks { Looks self.old self.new }
        ensures kind { ReadGives (λ k. k) true result (next_kind self.old) }
    {
        if self.part == Part::Key {
            return Ok(Kind::Str);
        }
        self.asked = Asked::Kind;
        match self.part {
            Part::Key => Ok(Kind::Str),
            Part::NoValue | Part::Nothing => Ok(Kind::Unit),
            Part::Value | Part::Held | Part::Whole => match self.node {
                ParsedValue::Uninitialized => Err(self.error(self.reader.nothing())),
                ParsedValue::Null | ParsedValue::NoValue => Ok(Kind::Unit),
                ParsedValue::String(_) => Ok(Kind::Str),
                ParsedValue::Sequence(_) => Ok(Kind::Seq),
                ParsedValue::Map(_) => Ok(Kind::Map),
            },
        }
    }

    /// Returns whether there is no value. An empty value is `Some` of what is read from no value, which is then next.
    #[tactic(auto, using(crate::proofs::Errors::step_errors), unfolding(qs_spec::specs::internal::ReadFunction::reads))]
    pub(crate) fn look_for_none(&mut self) -> Result<bool>
        ensures step { IfOk result (λ b. MatchBool b (Reads self.old nothing self.new) (Stays self.old self.new)) }
        ensures none { IfOk result (λ b. IsTrue b ↔ (tree_at self.old ≡ leaf NoValue)) }
        ensures some { IfOk result (λ b. MatchBool b (self.new ≡ self.old) (LooksInside self.old self.new)) }
        ensures errors { IfErr result (λ e. IsStepError true e × ((self.new ≡ self.old) × (tree_at self.old ≡ uninitialized))) }
    {
        match self.part {
            Part::NoValue | Part::Nothing => Ok(true),
            Part::Key => Ok(false),
            Part::Value | Part::Held => match self.node {
                ParsedValue::NoValue => Ok(true),
                ParsedValue::Null => {
                    self.part = Part::NoValue;
                    Ok(false)
                }
                ParsedValue::Uninitialized => Err(self.error(self.reader.nothing())),
                _ => Ok(false),
            },
            Part::Whole => match self.node {
                ParsedValue::NoValue => Ok(true),
                ParsedValue::Uninitialized => Err(self.error(self.reader.nothing())),
                _ => Ok(false),
            },
        }
    }
}
