//! Whom a search asks for: a struct by its fields.

ghost use Rattle.qs_callers.specs.declared.query.TheConstants.{NAMES};
ghost use Rattle.serde_qs.specs.PartTables.{made_of};

use serde_qs::{Compound, Out, Parts, Result, Shape, Source, Struct, WriteResult, fields};
use std::alloc::Global;

/// Whom a search asks for.
#[derive(Debug, PartialEq, Drop)]
pub struct Query {
    pub name: String,
    pub age: u8,
    pub occupation: String,
}

type QueryParts = Struct<(String, (u8, (String, ())))>;

const NAMES: &[&str] = &["name", "age", "occupation"];

impl Compound for Query {
    ghost table = { made_of ⟦<QueryParts as Parts>⟧.table NAMES.now (λ query. record { 0 = (query.name, (query.age, (query.occupation, tt))) }) _ };

    fn parts_shape(alloc: Global) -> Result<Shape> {
        QueryParts::shape(alloc, NAMES)
    }

    fn read(source: Source) -> Result<Query> {
        let Struct(fields!(name, age, occupation)) = QueryParts::read(source, NAMES)?;
        Ok(Query {
            name,
            age,
            occupation,
        })
    }

    fn write_parts(&self, out: Out) -> WriteResult {
        out.fields(NAMES, fields!(self; name, age, occupation))
    }
}
