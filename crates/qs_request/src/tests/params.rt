//! A struct of five fields.

ghost use Rattle.qs_request.specs.declared.tests.params.TheConstants.{NAMES};
ghost use Rattle.serde_qs.specs.PartTables.{made_of};

use serde_qs::{Compound, Out, Parts, Result, Shape, Source, Struct, WriteResult, fields};
use std::alloc::Global;

/// Numbers, a list of them, and a boolean.
#[derive(Drop)]
pub struct Params {
    pub foo: u64,
    pub bars: Vec<u64>,
    pub limit: u64,
    pub offset: u64,
    pub remaining: bool,
}

type ParamsParts = Struct<(u64, (Vec<u64>, (u64, (u64, (bool, ())))))>;

const NAMES: &[&str] = &["foo", "bars", "limit", "offset", "remaining"];

impl Compound for Params {
    ghost table = { made_of ⟦<ParamsParts as Parts>⟧.table NAMES.now (λ params. record { 0 = (params.foo, (params.bars, (params.limit, (params.offset, (params.remaining, tt))))) }) _ };

    fn parts_shape(alloc: Global) -> Result<Shape> {
        ParamsParts::shape(alloc, NAMES)
    }

    fn read(source: Source) -> Result<Params> {
        let Struct((foo, (bars, (limit, (offset, (remaining, ())))))) = ParamsParts::read(
            source, NAMES,
        )?;
        Ok(Params {
            foo,
            bars,
            limit,
            offset,
            remaining,
        })
    }

    fn write_parts(&self, out: Out) -> WriteResult {
        out.fields(NAMES, fields!(self; foo, bars, limit, offset, remaining))
    }
}
