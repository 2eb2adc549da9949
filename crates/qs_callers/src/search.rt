//! A search: a struct with a list of lists, a map and an optional value.

ghost use Rattle.qs_callers.specs.declared.search.TheConstants.{NAMES};
ghost use Rattle.serde_qs.specs.PartTables.{made_of};

use serde_qs::{Compound, Out, Parts, Result, Shape, Source, Struct, WriteResult, fields};
use std::alloc::Global;
use std::collections::BTreeMap;

/// What is searched for.
#[derive(Debug, PartialEq, Drop)]
pub struct Search {
    pub text: String,
    pub page: Option<u32>,
    pub ranges: Vec<Vec<i64>>,
    pub labels: BTreeMap<String, String>,
}

type SearchParts = Struct<(String, (Option<u32>, (Vec<Vec<i64>>, Rest)))>;

type Rest = (BTreeMap<String, String>, ());

const NAMES: &[&str] = &["text", "page", "ranges", "labels"];

impl Compound for Search {
    ghost table = { made_of ⟦<SearchParts as Parts>⟧.table NAMES.now (λ search. record { 0 = (search.text, (search.page, (search.ranges, (search.labels, tt)))) }) _ };

    fn parts_shape(alloc: Global) -> Result<Shape> {
        SearchParts::shape(alloc, NAMES)
    }

    fn read(source: Source) -> Result<Search> {
        let Struct(fields!(text, page, ranges, labels)) = SearchParts::read(source, NAMES)?;
        Ok(Search {
            text,
            page,
            ranges,
            labels,
        })
    }

    fn write_parts(&self, out: Out) -> WriteResult {
        out.fields(NAMES, fields!(self; text, page, ranges, labels))
    }
}
