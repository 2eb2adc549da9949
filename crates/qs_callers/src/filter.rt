//! A filter: a struct with fields that may be left out.

ghost use Rattle.qs_callers.specs.declared.filter.TheConstants.{NAMES};
ghost use Rattle.serde_qs.specs.PartTables.{made_of};

use serde_qs::{
    Compound, Optional, Out, Parts, Result, Shape, Source, Struct, WriteResult, fields,
};
use std::alloc::Global;

/// What is shown, and how much of it.
#[derive(Debug, PartialEq, Drop)]
pub struct Filter {
    pub text: String,
    pub page: Option<u32>,
    pub size: Option<u8>,
}

type FilterParts = Struct<(String, (Optional<u32>, (Optional<u8>, ())))>;

const NAMES: &[&str] = &["text", "page", "size"];

impl Compound for Filter {
    ghost table = { made_of ⟦<FilterParts as Parts>⟧.table NAMES.now (λ filter. record { 0 = (filter.text, (record { 0 = filter.page }, (record { 0 = filter.size }, tt))) }) _ };

    fn parts_shape(alloc: Global) -> Result<Shape> {
        FilterParts::shape(alloc, NAMES)
    }

    fn read(source: Source) -> Result<Filter> {
        let Struct(fields!(text, page?, size?)) = FilterParts::read(source, NAMES)?;
        Ok(Filter { text, page, size })
    }

    fn write_parts(&self, out: Out) -> WriteResult {
        out.fields(NAMES, fields!(self; text, page?, size?))
    }
}
