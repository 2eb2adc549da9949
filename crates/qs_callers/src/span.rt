//! A span: a struct of two values without names.

ghost use Rattle.serde_qs.specs.PartTables.{made_of};
ghost use Rattle.std.specs.Prelude.{[]};

use serde_qs::{Compound, Out, Parts, Result, Shape, Source, Tuple, WriteResult};
use std::alloc::Global;

/// From the first to the last of some lines.
#[derive(Debug, PartialEq, Drop)]
pub struct Span(pub u32, pub u32);

type SpanParts = Tuple<(u32, (u32, ()))>;

impl Compound for Span {
    ghost table = { made_of ⟦<SpanParts as Parts>⟧.table [] (λ span. record { 0 = (span.0, (span.1, tt)) }) _ };

    fn parts_shape(alloc: Global) -> Result<Shape> {
        SpanParts::shape(alloc, &[])
    }

    fn read(source: Source) -> Result<Span> {
        let Tuple((first, (last, ()))) = SpanParts::read(source, &[])?;
        Ok(Span(first, last))
    }

    fn write_parts(&self, out: Out) -> WriteResult {
        out.items((&self.0, (&self.1, ())))
    }
}
