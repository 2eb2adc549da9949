//! Two values under the names `a` and `b`, of any types whose values are read back as they were written.

ghost use Rattle.qs_callers.specs.declared.pair.TheConstants.{NAMES};
ghost use Rattle.serde_qs.specs.PartTables.{made_of};

use serde_qs::{Compound, Out, Parts, Result, RoundTrip, Shape, Source, Struct, WriteResult};
use std::alloc::Global;

/// Two values.
#[derive(Debug, PartialEq, Drop)]
pub struct Pair<A, B> {
    pub a: A,
    pub b: B,
}

type PairParts<A, B> = Struct<(A, (B, ()))>;

const NAMES: &[&str] = &["a", "b"];

impl<A: RoundTrip + Drop, B: RoundTrip + Drop> Compound for Pair<A, B> {
    ghost table = { made_of ⟦<PairParts<A, B> as Parts>⟧.table NAMES.now (λ pair. record { 0 = (pair.a, (pair.b, tt)) }) _ };

    fn parts_shape(alloc: Global) -> Result<Shape> {
        PairParts::<A, B>::shape(alloc, NAMES)
    }

    fn read(source: Source) -> Result<Pair<A, B>> {
        let Struct((a, (b, ()))) = PairParts::<A, B>::read(source, NAMES)?;
        Ok(Pair { a, b })
    }

    fn write_parts(&self, out: Out) -> WriteResult {
        out.fields(NAMES, (&self.a, (&self.b, ())))
    }
}
