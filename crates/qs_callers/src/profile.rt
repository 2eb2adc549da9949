//! A profile: a struct of ten fields, one of them an enum.

ghost use Rattle.qs_callers.specs.declared.profile.TheConstants.{NAMES};
ghost use Rattle.serde_qs.specs.PartTables.{made_of};

use crate::sort::Sort;
use serde_qs::{Compound, Out, Parts, Result, Shape, Source, Struct, WriteResult, fields};
use std::alloc::Global;

/// What a user has chosen.
#[derive(Debug, PartialEq, Drop)]
pub struct Profile {
    pub name: String,
    pub age: u8,
    pub city: String,
    pub zip: u32,
    pub langs: Vec<String>,
    pub sort: Sort,
    pub size: Option<u16>,
    pub dark: bool,
    pub news: bool,
    pub visits: u64,
}

type ProfileParts = Struct<(String, (u8, (String, (u32, (Vec<String>, (Sort, Rest))))))>;

type Rest = (Option<u16>, (bool, (bool, (u64, ()))));

const NAMES: &[&str] = &[
    "name", "age", "city", "zip", "langs", "sort", "size", "dark", "news", "visits",
];

impl Compound for Profile {
    ghost table = { made_of ⟦<ProfileParts as Parts>⟧.table NAMES.now (λ p. record { 0 = (p.name, (p.age, (p.city, (p.zip, (p.langs, (p.sort, (p.size, (p.dark, (p.news, (p.visits, tt)))))))))) }) _ };

    fn parts_shape(alloc: Global) -> Result<Shape> {
        ProfileParts::shape(alloc, NAMES)
    }

    fn read(source: Source) -> Result<Profile> {
        let Struct(fields!(name, age, city, zip, langs, sort, size, dark, news, visits)) =
            ProfileParts::read(source, NAMES)?;
        Ok(Profile {
            name,
            age,
            city,
            zip,
            langs,
            sort,
            size,
            dark,
            news,
            visits,
        })
    }

    fn write_parts(&self, out: Out) -> WriteResult {
        out.fields(
            NAMES,
            fields!(self; name, age, city, zip, langs, sort, size, dark, news, visits),
        )
    }
}
