//! What the command `params` reads and writes.

ghost use Rattle.qs_tool.specs.declared.params.TheConstants.{ADDRESS, PARAMS};
ghost use Rattle.serde_qs.specs.PartTables.{made_of};

use crate::strict::Strict;
use serde_qs::{
    Compound, Out, Parts, Result, RoundTrip, Shape, Source, StrictStruct, Struct, WriteResult,
    fields,
};
use std::alloc::Global;

/// Where someone lives.
#[derive(Debug, Drop)]
pub struct Address {
    pub city: String,
    pub street: String,
    pub postcode: String,
}

type AddressFields = (String, (String, (String, ())));

const ADDRESS: &[&str] = &["city", "street", "postcode"];

impl Compound for Address {
    ghost table = { made_of ⟦<Struct<AddressFields> as Parts>⟧.table ADDRESS.now (λ address. record { 0 = (address.city, (address.street, (address.postcode, tt))) }) _ };

    fn parts_shape(alloc: Global) -> Result<Shape> {
        Struct::<AddressFields>::shape(alloc, ADDRESS)
    }

    fn read(source: Source) -> Result<Address> {
        let Struct(address) = Struct::<AddressFields>::read(source, ADDRESS)?;
        let fields!(city, street, postcode) = address;
        Ok(Address {
            city,
            street,
            postcode,
        })
    }

    fn write_parts(&self, out: Out) -> WriteResult {
        out.fields(ADDRESS, fields!(self; city, street, postcode))
    }
}

impl Compound for Strict<Address> {
    ghost table = { made_of ⟦<StrictStruct<AddressFields> as Parts>⟧.table ADDRESS.now (λ strict. record { 0 = (strict.0.city, (strict.0.street, (strict.0.postcode, tt))) }) _ };

    fn parts_shape(alloc: Global) -> Result<Shape> {
        StrictStruct::<AddressFields>::shape(alloc, ADDRESS)
    }

    fn read(source: Source) -> Result<Strict<Address>> {
        let StrictStruct(strict) = StrictStruct::<AddressFields>::read(source, ADDRESS)?;
        let fields!(city, street, postcode) = strict;
        Ok(Strict(Address {
            city,
            street,
            postcode,
        }))
    }

    fn write_parts(&self, out: Out) -> WriteResult {
        self.0.write_parts(out)
    }
}

/// Five fields. The address and the list are nested; the address is an [`Address`], strict or not.
#[derive(Debug, Drop)]
pub struct Params<A> {
    pub id: u8,
    pub name: String,
    pub phone: u32,
    pub address: A,
    pub user_ids: Vec<u8>,
}

type ParamsFields<A> = (u8, (String, (u32, (A, (Vec<u8>, ())))));

const PARAMS: &[&str] = &["id", "name", "phone", "address", "user_ids"];

impl<A: RoundTrip + Drop> Compound for Params<A> {
    ghost table = { made_of ⟦<Struct<ParamsFields<A>> as Parts>⟧.table PARAMS.now (λ params. record { 0 = (params.id, (params.name, (params.phone, (params.address, (params.user_ids, tt))))) }) _ };

    fn parts_shape(alloc: Global) -> Result<Shape> {
        Struct::<ParamsFields<A>>::shape(alloc, PARAMS)
    }

    fn read(source: Source) -> Result<Params<A>> {
        let Struct(params) = Struct::<ParamsFields<A>>::read(source, PARAMS)?;
        let fields!(id, name, phone, address, user_ids) = params;
        Ok(Params {
            id,
            name,
            phone,
            address,
            user_ids,
        })
    }

    fn write_parts(&self, out: Out) -> WriteResult {
        out.fields(PARAMS, fields!(self; id, name, phone, address, user_ids))
    }
}

impl<A: RoundTrip + Drop> Compound for Strict<Params<A>> {
    ghost table = { made_of ⟦<StrictStruct<ParamsFields<A>> as Parts>⟧.table PARAMS.now (λ strict. record { 0 = (strict.0.id, (strict.0.name, (strict.0.phone, (strict.0.address, (strict.0.user_ids, tt))))) }) _ };

    fn parts_shape(alloc: Global) -> Result<Shape> {
        StrictStruct::<ParamsFields<A>>::shape(alloc, PARAMS)
    }

    fn read(source: Source) -> Result<Strict<Params<A>>> {
        let StrictStruct(strict) = StrictStruct::<ParamsFields<A>>::read(source, PARAMS)?;
        let fields!(id, name, phone, address, user_ids) = strict;
        Ok(Strict(Params {
            id,
            name,
            phone,
            address,
            user_ids,
        }))
    }

    fn write_parts(&self, out: Out) -> WriteResult {
        self.0.write_parts(out)
    }
}
