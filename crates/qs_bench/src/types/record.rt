//! A record of ten entries.

ghost use Rattle.qs_bench.specs.declared.types.record.TheConstants.{ADDRESS, RECORD};
ghost use Rattle.serde_qs.specs.PartTables.{made_of};

use serde::{Deserialize, Serialize};
use serde_qs::{Compound, Out, Parts, Result, Shape, Source, Struct, WriteResult};
use std::alloc::Global;

/// Somebody's address.
#[derive(Drop, Serialize, Deserialize)]
pub struct Address {
    pub city: String,
    pub street: String,
    pub postcode: String,
}

type AddressParts = Struct<(String, (String, (String, ())))>;

const ADDRESS: &[&str] = &["city", "street", "postcode"];

impl Compound for Address {
    ghost table = { made_of ⟦<AddressParts as Parts>⟧.table ADDRESS.now (λ address. record { 0 = (address.city, (address.street, (address.postcode, tt))) }) _ };

    fn parts_shape(alloc: Global) -> Result<Shape> {
        AddressParts::shape(alloc, ADDRESS)
    }

    fn read(source: Source) -> Result<Address> {
        let Struct((city, (street, (postcode, ())))) = AddressParts::read(source, ADDRESS)?;
        Ok(Address {
            city,
            street,
            postcode,
        })
    }

    fn write_parts(&self, out: Out) -> WriteResult {
        out.fields(ADDRESS, (&self.city, (&self.street, (&self.postcode, ()))))
    }
}

/// A record, which is written as ten entries if it has four ids.
#[derive(Drop, Serialize, Deserialize)]
pub struct Record {
    pub id: u64,
    pub name: String,
    pub phone: u64,
    pub address: Address,
    pub user_ids: Vec<u8>,
}

type RecordParts = Struct<(u64, (String, (u64, (Address, (Vec<u8>, ())))))>;

const RECORD: &[&str] = &["id", "name", "phone", "address", "user_ids"];

impl Compound for Record {
    ghost table = { made_of ⟦<RecordParts as Parts>⟧.table RECORD.now (λ r. record { 0 = (r.id, (r.name, (r.phone, (r.address, (r.user_ids, tt))))) }) _ };

    fn parts_shape(alloc: Global) -> Result<Shape> {
        RecordParts::shape(alloc, RECORD)
    }

    fn read(source: Source) -> Result<Record> {
        let Struct((id, (name, (phone, (address, (user_ids, ())))))) = RecordParts::read(
            source, RECORD,
        )?;
        Ok(Record {
            id,
            name,
            phone,
            address,
            user_ids,
        })
    }

    fn write_parts(&self, out: Out) -> WriteResult {
        out.fields(
            RECORD,
            (
                &self.id,
                (
                    &self.name,
                    (&self.phone, (&self.address, (&self.user_ids, ()))),
                ),
            ),
        )
    }
}
