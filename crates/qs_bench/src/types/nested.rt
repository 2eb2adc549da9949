//! A text five keys deep.

ghost use Rattle.qs_bench.specs.declared.types.nested.TheConstants.{A, B, C, D, E};
ghost use Rattle.serde_qs.specs.PartTables.{made_of};

use serde::{Deserialize, Serialize};
use serde_qs::{Compound, Out, Parts, Result, Shape, Source, Struct, WriteResult};
use std::alloc::Global;

/// A text under `a`, `b`, `c`, `d` and `e`.
#[derive(Drop, Serialize, Deserialize)]
pub struct Nested {
    pub a: Second,
}

const A: &[&str] = &["a"];

impl Compound for Nested {
    ghost table = { made_of ⟦<Struct<(Second, ())> as Parts>⟧.table A.now (λ x. record { 0 = (x.a, tt) }) _ };

    fn parts_shape(alloc: Global) -> Result<Shape> {
        Struct::<(Second, ())>::shape(alloc, A)
    }

    fn read(source: Source) -> Result<Nested> {
        let Struct((a, ())) = Struct::<(Second, ())>::read(source, A)?;
        Ok(Nested { a })
    }

    fn write_parts(&self, out: Out) -> WriteResult {
        out.fields(A, (&self.a, ()))
    }
}

/// The value of `a`.
#[derive(Drop, Serialize, Deserialize)]
pub struct Second {
    pub b: Third,
}

const B: &[&str] = &["b"];

impl Compound for Second {
    ghost table = { made_of ⟦<Struct<(Third, ())> as Parts>⟧.table B.now (λ x. record { 0 = (x.b, tt) }) _ };

    fn parts_shape(alloc: Global) -> Result<Shape> {
        Struct::<(Third, ())>::shape(alloc, B)
    }

    fn read(source: Source) -> Result<Second> {
        let Struct((b, ())) = Struct::<(Third, ())>::read(source, B)?;
        Ok(Second { b })
    }

    fn write_parts(&self, out: Out) -> WriteResult {
        out.fields(B, (&self.b, ()))
    }
}

/// The value of `b`.
#[derive(Drop, Serialize, Deserialize)]
pub struct Third {
    pub c: Fourth,
}

const C: &[&str] = &["c"];

impl Compound for Third {
    ghost table = { made_of ⟦<Struct<(Fourth, ())> as Parts>⟧.table C.now (λ x. record { 0 = (x.c, tt) }) _ };

    fn parts_shape(alloc: Global) -> Result<Shape> {
        Struct::<(Fourth, ())>::shape(alloc, C)
    }

    fn read(source: Source) -> Result<Third> {
        let Struct((c, ())) = Struct::<(Fourth, ())>::read(source, C)?;
        Ok(Third { c })
    }

    fn write_parts(&self, out: Out) -> WriteResult {
        out.fields(C, (&self.c, ()))
    }
}

/// The value of `c`.
#[derive(Drop, Serialize, Deserialize)]
pub struct Fourth {
    pub d: Fifth,
}

const D: &[&str] = &["d"];

impl Compound for Fourth {
    ghost table = { made_of ⟦<Struct<(Fifth, ())> as Parts>⟧.table D.now (λ x. record { 0 = (x.d, tt) }) _ };

    fn parts_shape(alloc: Global) -> Result<Shape> {
        Struct::<(Fifth, ())>::shape(alloc, D)
    }

    fn read(source: Source) -> Result<Fourth> {
        let Struct((d, ())) = Struct::<(Fifth, ())>::read(source, D)?;
        Ok(Fourth { d })
    }

    fn write_parts(&self, out: Out) -> WriteResult {
        out.fields(D, (&self.d, ()))
    }
}

/// The value of `d`.
#[derive(Drop, Serialize, Deserialize)]
pub struct Fifth {
    pub e: String,
}

const E: &[&str] = &["e"];

impl Compound for Fifth {
    ghost table = { made_of ⟦<Struct<(String, ())> as Parts>⟧.table E.now (λ x. record { 0 = (x.e, tt) }) _ };

    fn parts_shape(alloc: Global) -> Result<Shape> {
        Struct::<(String, ())>::shape(alloc, E)
    }

    fn read(source: Source) -> Result<Fifth> {
        let Struct((e, ())) = Struct::<(String, ())>::read(source, E)?;
        Ok(Fifth { e })
    }

    fn write_parts(&self, out: Out) -> WriteResult {
        out.fields(E, (&self.e, ()))
    }
}
