//! Structs of scalars, and of one list.

ghost use Rattle.qs_bench.specs.declared.types.person.TheConstants.{IDS, PERSON};
ghost use Rattle.serde_qs.specs.PartTables.{made_of};

use serde::{Deserialize, Serialize};
use serde_qs::{Compound, Out, Parts, Result, Shape, Source, Struct, WriteResult};
use std::alloc::Global;

/// Somebody: three fields.
#[derive(Drop, Serialize, Deserialize)]
pub struct Person {
    pub name: String,
    pub age: u8,
    pub occupation: String,
}

type PersonParts = Struct<(String, (u8, (String, ())))>;

const PERSON: &[&str] = &["name", "age", "occupation"];

impl Compound for Person {
    ghost table = { made_of ⟦<PersonParts as Parts>⟧.table PERSON.now (λ person. record { 0 = (person.name, (person.age, (person.occupation, tt))) }) _ };

    fn parts_shape(alloc: Global) -> Result<Shape> {
        PersonParts::shape(alloc, PERSON)
    }

    fn read(source: Source) -> Result<Person> {
        let Struct((name, (age, (occupation, ())))) = PersonParts::read(source, PERSON)?;
        Ok(Person {
            name,
            age,
            occupation,
        })
    }

    fn write_parts(&self, out: Out) -> WriteResult {
        out.fields(PERSON, (&self.name, (&self.age, (&self.occupation, ()))))
    }
}

/// A list of numbers under one field.
#[derive(Drop, Serialize, Deserialize)]
pub struct Ids {
    pub ids: Vec<u64>,
}

type IdsParts = Struct<(Vec<u64>, ())>;

const IDS: &[&str] = &["ids"];

impl Compound for Ids {
    ghost table = { made_of ⟦<IdsParts as Parts>⟧.table IDS.now (λ list. record { 0 = (list.ids, tt) }) _ };

    fn parts_shape(alloc: Global) -> Result<Shape> {
        IdsParts::shape(alloc, IDS)
    }

    fn read(source: Source) -> Result<Ids> {
        let Struct((ids, ())) = IdsParts::read(source, IDS)?;
        Ok(Ids { ids })
    }

    fn write_parts(&self, out: Out) -> WriteResult {
        out.fields(IDS, (&self.ids, ()))
    }
}
