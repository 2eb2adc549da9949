//! A chart: a struct with a list in one text.

ghost use Rattle.qs_callers.specs.declared.chart.TheConstants.{NAMES};
ghost use Rattle.serde_qs.specs.PartTables.{made_of};

use serde_qs::{
    Comma, Compound, Delimited, Out, Parts, Result, Shape, Source, Struct, WriteResult,
};
use std::alloc::Global;

/// A chart, with its values in one text: `title=Rain&values=1,2,3`.
#[derive(Debug, PartialEq, Drop)]
pub struct Chart {
    pub title: String,
    pub values: Delimited<u32, Comma>,
}

type ChartParts = Struct<(String, (Delimited<u32, Comma>, ()))>;

const NAMES: &[&str] = &["title", "values"];

impl Compound for Chart {
    ghost table = { made_of ⟦<ChartParts as Parts>⟧.table NAMES.now (λ chart. record { 0 = (chart.title, (chart.values, tt)) }) _ };

    fn parts_shape(alloc: Global) -> Result<Shape> {
        ChartParts::shape(alloc, NAMES)
    }

    fn read(source: Source) -> Result<Chart> {
        let Struct((title, (values, ()))) = ChartParts::read(source, NAMES)?;
        Ok(Chart { title, values })
    }

    fn write_parts(&self, out: Out) -> WriteResult {
        out.fields(NAMES, (&self.title, (&self.values, ())))
    }
}
