//! A range of numbers.

ghost use Rattle.qs_callers.specs.declared.range.TheConstants.{NAMES};
ghost use Rattle.serde_qs.specs.PartTables.{made_of};

use serde_qs::{Compound, Out, Parts, Result, Shape, Source, Struct, WriteResult};
use std::alloc::Global;

/// The numbers from one to another.
#[derive(Debug, PartialEq, Drop)]
pub struct Range {
    pub from: u32,
    pub to: u32,
}

type RangeParts = Struct<(u32, (u32, ()))>;

const NAMES: &[&str] = &["from", "to"];

impl Compound for Range {
    ghost table = { made_of ⟦<RangeParts as Parts>⟧.table NAMES.now (λ range. record { 0 = (range.from, (range.to, tt)) }) _ };

    fn parts_shape(alloc: Global) -> Result<Shape> {
        RangeParts::shape(alloc, NAMES)
    }

    fn read(source: Source) -> Result<Range> {
        let Struct((from, (to, ()))) = RangeParts::read(source, NAMES)?;
        Ok(Range { from, to })
    }

    fn write_parts(&self, out: Out) -> WriteResult {
        out.fields(NAMES, (&self.from, (&self.to, ())))
    }
}
