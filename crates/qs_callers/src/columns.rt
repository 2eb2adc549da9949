//! Columns of numbers: lists in one text each, with other delimiters than a comma.

ghost use Rattle.qs_callers.specs.declared.columns.TheConstants.{NAMES};
ghost use Rattle.serde_qs.specs.PartTables.{made_of};

use serde_qs::{
    Compound, Delimited, Out, Parts, Pipe, Result, Shape, Source, Space, Struct, WriteResult,
};
use std::alloc::Global;

/// Two columns.
#[derive(Debug, PartialEq, Drop)]
pub struct Columns {
    pub left: Delimited<i8, Pipe>,
    pub right: Delimited<u64, Space>,
}

type ColumnsParts = Struct<(Delimited<i8, Pipe>, (Delimited<u64, Space>, ()))>;

const NAMES: &[&str] = &["a", "b"];

impl Compound for Columns {
    ghost table = { made_of ⟦<ColumnsParts as Parts>⟧.table NAMES.now (λ columns. record { 0 = (columns.left, (columns.right, tt)) }) _ };

    fn parts_shape(alloc: Global) -> Result<Shape> {
        ColumnsParts::shape(alloc, NAMES)
    }

    fn read(source: Source) -> Result<Columns> {
        let Struct((left, (right, ()))) = ColumnsParts::read(source, NAMES)?;
        Ok(Columns { left, right })
    }

    fn write_parts(&self, out: Out) -> WriteResult {
        out.fields(NAMES, (&self.left, (&self.right, ())))
    }
}
