//! A postal address.

ghost use Rattle.qs_callers.specs.declared.address.TheConstants.{NAMES};
ghost use Rattle.serde_qs.specs.PartTables.{made_of};

use serde_qs::{Compound, Out, Parts, Result, Shape, Source, Struct, WriteResult};
use std::alloc::Global;

/// A postal address.
#[derive(Debug, PartialEq, Drop)]
pub struct Address {
    pub street: String,
    pub city: String,
}

type AddressParts = Struct<(String, (String, ()))>;

const NAMES: &[&str] = &["street", "city"];

impl Compound for Address {
    ghost table = { made_of ⟦<AddressParts as Parts>⟧.table NAMES.now (λ address. record { 0 = (address.street, (address.city, tt)) }) _ };

    fn parts_shape(alloc: Global) -> Result<Shape> {
        AddressParts::shape(alloc, NAMES)
    }

    fn read(source: Source) -> Result<Address> {
        let Struct((street, (city, ()))) = AddressParts::read(source, NAMES)?;
        Ok(Address { street, city })
    }

    fn write_parts(&self, out: Out) -> WriteResult {
        out.fields(NAMES, (&self.street, (&self.city, ())))
    }
}
