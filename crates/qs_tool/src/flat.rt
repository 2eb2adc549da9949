//! What the command `flat` reads and writes.

ghost use Rattle.qs_tool.specs.declared.flat.TheConstants.{NAMES};
ghost use Rattle.serde_qs.specs.PartTables.{made_of};

use crate::strict::Strict;
use serde_qs::{
    Compound, Optional, Out, Parts, Result, Shape, Source, StrictStruct, Struct, WriteResult,
    fields,
};
use std::alloc::Global;

/// Five fields, none of them nested.
#[derive(Debug, Drop)]
pub struct Flat {
    pub name: String,
    pub age: u8,
    pub occupation: String,
    pub active: Option<bool>,
    pub note: Option<String>,
}

type FlatFields = (
    String,
    (u8, (String, (Optional<bool>, (Option<String>, ())))),
);

const NAMES: &[&str] = &["name", "age", "occupation", "active", "note"];

impl Compound for Flat {
    ghost table = { made_of ⟦<Struct<FlatFields> as Parts>⟧.table NAMES.now (λ flat. record { 0 = (flat.name, (flat.age, (flat.occupation, (record { 0 = flat.active }, (flat.note, tt))))) }) _ };

    fn parts_shape(alloc: Global) -> Result<Shape> {
        Struct::<FlatFields>::shape(alloc, NAMES)
    }

    fn read(source: Source) -> Result<Flat> {
        let Struct(flat) = Struct::<FlatFields>::read(source, NAMES)?;
        let fields!(name, age, occupation, active?, note) = flat;
        Ok(Flat {
            name,
            age,
            occupation,
            active,
            note,
        })
    }

    fn write_parts(&self, out: Out) -> WriteResult {
        out.fields(NAMES, fields!(self; name, age, occupation, active?, note))
    }
}

impl Compound for Strict<Flat> {
    ghost table = { made_of ⟦<StrictStruct<FlatFields> as Parts>⟧.table NAMES.now (λ strict. record { 0 = (strict.0.name, (strict.0.age, (strict.0.occupation, (record { 0 = strict.0.active }, (strict.0.note, tt))))) }) _ };

    fn parts_shape(alloc: Global) -> Result<Shape> {
        StrictStruct::<FlatFields>::shape(alloc, NAMES)
    }

    fn read(source: Source) -> Result<Strict<Flat>> {
        let StrictStruct(strict) = StrictStruct::<FlatFields>::read(source, NAMES)?;
        let fields!(name, age, occupation, active?, note) = strict;
        Ok(Strict(Flat {
            name,
            age,
            occupation,
            active,
            note,
        }))
    }

    fn write_parts(&self, out: Out) -> WriteResult {
        self.0.write_parts(out)
    }
}
