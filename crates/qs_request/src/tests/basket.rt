//! A struct of two fields.

ghost use Rattle.qs_request.specs.declared.tests.basket.TheConstants.{NAMES};
ghost use Rattle.serde_qs.specs.PartTables.{made_of};

use serde_qs::{Compound, Out, Parts, Result, Shape, Source, Struct, WriteResult};
use std::alloc::Global;

/// A number and a list of numbers.
#[derive(Drop)]
pub struct Basket {
    pub foo: u64,
    pub bars: Vec<u64>,
}

type BasketParts = Struct<(u64, (Vec<u64>, ()))>;

const NAMES: &[&str] = &["foo", "bars"];

impl Compound for Basket {
    ghost table = { made_of ⟦<BasketParts as Parts>⟧.table NAMES.now (λ basket. record { 0 = (basket.foo, (basket.bars, tt)) }) _ };

    fn parts_shape(alloc: Global) -> Result<Shape> {
        BasketParts::shape(alloc, NAMES)
    }

    fn read(source: Source) -> Result<Basket> {
        let Struct((foo, (bars, ()))) = BasketParts::read(source, NAMES)?;
        Ok(Basket { foo, bars })
    }

    fn write_parts(&self, out: Out) -> WriteResult {
        out.fields(NAMES, (&self.foo, (&self.bars, ())))
    }
}
