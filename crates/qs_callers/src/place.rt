//! Where something is: an enum with a tuple variant.

ghost use Rattle.qs_callers.specs.declared.place.Place.TheVariants.{Anywhere, At};
ghost use Rattle.serde_qs.specs.declared.compound.variants.OneOf.TheVariants.{First, Later};
ghost use Rattle.qs_callers.specs.declared.place.TheConstants.{NAMES};
ghost use Rattle.serde_qs.specs.PartTables.{made_of};

use serde_qs::OneOf::{First, Later};
use serde_qs::{
    Compound, Enum, Last, OneOf, Out, Parts, Result, Shape, Source, Tuple, WriteResult,
};
use std::alloc::Global;

/// Where something is.
#[derive(Debug, PartialEq, Drop)]
pub enum Place {
    /// Wherever it may be.
    Anywhere,
    /// So far to the east, and so far to the north.
    At(i32, i32),
}

type PlaceParts = Enum<OneOf<(), Last<Tuple<(i32, (i32, ()))>>>>;

const NAMES: &[&str] = &["Anywhere", "At"];

impl Compound for Place {
    ghost table = { made_of ⟦<PlaceParts as Parts>⟧.table NAMES.now (elim [ Anywhere ↦ record { 0 = First tt } | At east north ↦ record { 0 = Later (record { 0 = record { 0 = (east, (north, tt)) } }) } ]) _ };

    fn parts_shape(alloc: Global) -> Result<Shape> {
        PlaceParts::shape(alloc, NAMES)
    }

    fn read(source: Source) -> Result<Place> {
        let Enum(variant) = PlaceParts::read(source, NAMES)?;
        Ok(match variant {
            First(()) => Place::Anywhere,
            Later(Last(Tuple((east, (north, ()))))) => Place::At(east, north),
        })
    }

    fn write_parts(&self, out: Out) -> WriteResult {
        match self {
            Place::Anywhere => out.unit_variant("Anywhere"),
            Place::At(east, north) => out.tuple_variant("At", (east, (north, ()))),
        }
    }
}
