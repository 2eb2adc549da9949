//! An age: a type that allows only some numbers.

ghost use Rattle.std.specs.Prelude.{◌≡◌, ◌≤◌, refl};
ghost use Rattle.std.proofs.lemmas.Bool.{le-leb};
ghost use Rattle.qs_spec.specs.Data as d;
ghost use Rattle.qs_spec.specs.Shape as s;
ghost use Rattle.serde_qs.specs.internal.ComesBack.{unsigned_back};
ghost use Rattle.serde_qs.specs.Meaning.{unsigned_in};
ghost use Rattle.serde_qs.specs.Tables.{table_of};

use serde_qs::{Compound, Deserialize, Out, Result, Shape, Source, WriteResult, unexpected};
use std::alloc::Global;

/// An age in years, below 150.
#[derive(Debug, PartialEq, Drop)]
pub struct Age {
    years: u8,
    ghost is_allowed: { years ≤ 149 },
}

impl Age {
    /// Returns the years.
    pub fn years(&self) -> u8
        ensures { result ≡ self.now.years }
    {
        self.years
    }
}

impl Compound for Age {
    ghost table = { table_of (λ age. age.years) (λ age. d.unsigned age.years) (s.Shape.unsigned 8) (unsigned_in 149) refl (λ age e _ p. unsigned_back 149 age.years e (le-leb age.years 149 age.is_allowed) p) };

    fn parts_shape(alloc: Global) -> Result<Shape> {
        u8::shape(alloc)
    }

    fn read(source: Source) -> Result<Age> {
        let alloc = source.alloc();
        let years: u8 = source.value()?;
        if years <= 149 {
            Ok(Age { years })
        } else {
            Err(unexpected(alloc, "an age below 150"))
        }
    }

    fn write_parts(&self, out: Out) -> WriteResult {
        out.value(&self.years)
    }
}
