//! How what was found is sorted: an enum by its variants.

ghost use Rattle.qs_callers.specs.declared.sort.Sort.TheVariants.{Relevance, By, Between};
ghost use Rattle.serde_qs.specs.declared.compound.variants.OneOf.TheVariants.{First, Later};
ghost use Rattle.qs_callers.specs.declared.sort.TheConstants.{NAMES};
ghost use Rattle.serde_qs.specs.PartTables.{made_of};

use serde_qs::OneOf::{First, Later};
use serde_qs::{
    Compound, Enum, Last, Newtype, OneOf, Out, Parts, Result, Shape, Source, Struct, WriteResult,
    fields,
};
use std::alloc::Global;

/// How what was found is sorted.
#[derive(Debug, PartialEq, Drop)]
pub enum Sort {
    /// The best match first.
    Relevance,
    /// By the field of this name.
    By(String),
    /// By price, of those between these prices alone.
    Between { from: u32, to: u32 },
}

type SortParts = Enum<OneOf<(), OneOf<Newtype<String>, Last<Struct<(u32, (u32, ()))>>>>>;

const NAMES: &[&str] = &["Relevance", "By", "Between", "from", "to"];

impl Compound for Sort {
    ghost table = { made_of ⟦<SortParts as Parts>⟧.table NAMES.now (elim [ Relevance ↦ record { 0 = First tt } | By name ↦ record { 0 = Later (First (record { 0 = name })) } | Between from to ↦ record { 0 = Later (Later (record { 0 = record { 0 = (from, (to, tt)) } })) } ]) _ };

    fn parts_shape(alloc: Global) -> Result<Shape> {
        SortParts::shape(alloc, NAMES)
    }

    fn read(source: Source) -> Result<Sort> {
        let Enum(variant) = SortParts::read(source, NAMES)?;
        Ok(match variant {
            First(()) => Sort::Relevance,
            Later(First(Newtype(name))) => Sort::By(name),
            Later(Later(Last(Struct(between)))) => {
                let fields!(from, to) = between;
                Sort::Between { from, to }
            }
        })
    }

    fn write_parts(&self, out: Out) -> WriteResult {
        match self {
            Sort::Relevance => out.unit_variant("Relevance"),
            Sort::By(name) => out.newtype_variant("By", name),
            Sort::Between { from, to } => {
                out.struct_variant("Between", &["from", "to"], (from, (to, ())))
            }
        }
    }
}
