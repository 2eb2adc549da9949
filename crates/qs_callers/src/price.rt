//! A price: a struct around one value.

ghost use Rattle.serde_qs.specs.PartTables.{made_of};
ghost use Rattle.std.specs.Prelude.{[]};

use serde_qs::{Compound, Newtype, Out, Parts, Result, Shape, Source, WriteResult};
use std::alloc::Global;

/// A price in cents, written as a plain number.
#[derive(Debug, PartialEq, Drop)]
pub struct Price(pub u32);

type PriceParts = Newtype<u32>;

impl Compound for Price {
    ghost table = { made_of ⟦<PriceParts as Parts>⟧.table [] (λ price. record { 0 = price.0 }) _ };

    fn parts_shape(alloc: Global) -> Result<Shape> {
        PriceParts::shape(alloc, &[])
    }

    fn read(source: Source) -> Result<Price> {
        let Newtype(cents) = PriceParts::read(source, &[])?;
        Ok(Price(cents))
    }

    fn write_parts(&self, out: Out) -> WriteResult {
        out.newtype(&self.0)
    }
}
