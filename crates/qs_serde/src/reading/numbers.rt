//! Numbers.

#![tactic(auto, using(crate::proofs::Errors::step_errors))]

ghost use Rattle.std.specs.Prelude.{◌≡◌, Bool, false, IfSome, Some};
ghost use Rattle.qs_spec.specs.Data as d;
ghost use Rattle.qs_spec.specs.Shape as s;
ghost use Rattle.qs_data.specs.read.Reads.{reads};
ghost use Rattle.qs_serde.specs.Errors.{FailsOn};
ghost use Rattle.qs_serde.specs.Nodes.{node_tree};
ghost use Rattle.qs_serde.specs.Places.{scalar_at};
ghost use Rattle.qs_serde.specs.Steps.{IsPlain, Notes, Returns, ReturnsParsed, Takes};

use super::Result;
use super::data::{as_signed, as_unsigned};
use super::format::{Asked, Search, TreeFormat};
use super::node::Node;
use super::scalars::plain_text;
use qs_data::{Shape, Width};
use std::str;

impl Search {
    // Counts a number that is requested, if fields are read in their own order, and returns whether it is replaced by another.
    #[inline(always)]
    fn is_probed(&mut self) -> bool
        ensures counts { self.new ≡ record self.old { numbers = self.new.numbers } }
        ensures plain { self.old.in_order ≡ false → result ≡ false }
    {
        if !self.in_order {
            return false;
        }
        self.numbers = self.numbers.saturating_add(1);
        self.numbers == self.probed
    }
}

// Returns the smallest unsigned number that this width doesn't hold; for 64 bits, the largest number.
fn past_unsigned(width: Width) -> u64 {
    match width {
        Width::Bits8 => 1 << 8,
        Width::Bits16 => 1 << 16,
        Width::Bits32 => 1 << 32,
        Width::Bits64 => u64::MAX,
    }
}

// Returns the smallest positive number that a signed number of this width doesn't hold; for 64 bits, the largest number.
fn past_signed(width: Width) -> i64 {
    match width {
        Width::Bits8 => 1 << 7,
        Width::Bits16 => 1 << 15,
        Width::Bits32 => 1 << 31,
        Width::Bits64 => i64::MAX,
    }
}

impl<'t, 'qs> TreeFormat<'t, 'qs> {
    /// Reads a signed number of 64 bits.
    #[tactic(auto, using(crate::proofs::Errors::step_errors, crate::proofs::Borrowed::signed_only))]
    pub(crate) fn signed(&mut self) -> Result<i64>
        ensures notes { Notes self.old self.new }
        ensures number { IsPlain self.old → Returns d.signed self.old (s.Shape.signed 64) result }
        ensures errors { FailsOn (scalar_at self.old) result }
    {
        let asked = Asked::Signed(self.part);
        let node = self.take();
        self.asked = asked;
        if self.search.is_probed() {
            return Ok(past_signed(self.search.width));
        }
        if let Some(number) = plain_signed(node) {
            return Ok(number);
        }
        let data = self.read_key(node, &Shape::I64)?;
        match as_signed(data) {
            Some(number) => Ok(number),
            None => Err(self.no_value()),
        }
    }

    /// Reads an unsigned number of 64 bits.
    #[tactic(auto, using(crate::proofs::Errors::step_errors, crate::proofs::Borrowed::unsigned_only))]
    pub(crate) fn unsigned(&mut self) -> Result<u64>
        ensures notes { Notes self.old self.new }
        ensures number { IsPlain self.old → Returns d.unsigned self.old (s.Shape.unsigned 64) result }
        ensures errors { FailsOn (scalar_at self.old) result }
    {
        let asked = Asked::Unsigned(self.part);
        let node = self.take();
        self.asked = asked;
        if self.search.is_probed() {
            return Ok(past_unsigned(self.search.width));
        }
        if let Some(number) = plain_unsigned(node) {
            return Ok(number);
        }
        let data = self.read_key(node, &Shape::U64)?;
        match as_unsigned(data) {
            Some(number) => Ok(number),
            None => Err(self.no_value()),
        }
    }

    /// Parses a text as a number that the library has no shape for.
    pub(crate) fn parsed<T: str::FromStr + Drop>(&mut self) -> Result<T>
    where
        T::Err: Drop,
        ensures takes { Takes self.old self.new }
        ensures parsed { ReturnsParsed T.from_str_gives self.old result }
        ensures errors { FailsOn (scalar_at self.old) result }
    {
        let text = self.text()?;
        match text.as_str().parse::<T>() {
            Ok(value) => Ok(value),
            Err(_) => Err(self.no_number()),
        }
    }
}

// Returns the signed number that a plain text holds.
fn plain_signed(node: Node<'_, '_>) -> Option<i64>
    ensures { IfSome result (λ n. (reject_duplicates : Bool) → reads reject_duplicates (s.Shape.signed 64) (node_tree node.entry) ≡ Some (d.signed n)) }
{
    match plain_text(node)?.parse() {
        Ok(number) => Some(number),
        Err(_) => None,
    }
}

// Returns the unsigned number that a plain text holds.
fn plain_unsigned(node: Node<'_, '_>) -> Option<u64>
    ensures { IfSome result (λ n. (reject_duplicates : Bool) → reads reject_duplicates (s.Shape.unsigned 64) (node_tree node.entry) ≡ Some (d.unsigned n)) }
{
    match plain_text(node)?.parse() {
        Ok(number) => Some(number),
        Err(_) => None,
    }
}
