//! A payment: a struct and an enum that reject unknown keys.

ghost use Rattle.qs_callers.specs.declared.payment.Method.TheVariants.{Cash, Card};
ghost use Rattle.serde_qs.specs.declared.compound.variants.OneOf.TheVariants.{First, Later};
ghost use Rattle.qs_callers.specs.declared.payment.TheConstants.{PAYMENT, METHOD};
ghost use Rattle.serde_qs.specs.PartTables.{made_of};

use serde_qs::OneOf::{First, Later};
use serde_qs::{
    Compound, Enum, Last, OneOf, Out, Parts, Result, RoundTrip, Shape, Source, StrictStruct,
    WriteResult,
};
use std::alloc::Global;

/// How much is paid, and how it is.
#[derive(Debug, PartialEq, Drop)]
pub struct Payment<M> {
    pub amount: u32,
    pub method: M,
}

type PaymentParts<M> = StrictStruct<(u32, (M, ()))>;

const PAYMENT: &[&str] = &["amount", "method"];

impl<M: RoundTrip + Drop> Compound for Payment<M> {
    ghost table = { made_of ⟦<PaymentParts<M> as Parts>⟧.table PAYMENT.now (λ payment. record { 0 = (payment.amount, (payment.method, tt)) }) _ };

    fn parts_shape(alloc: Global) -> Result<Shape> {
        PaymentParts::<M>::shape(alloc, PAYMENT)
    }

    fn read(source: Source) -> Result<Payment<M>> {
        let StrictStruct((amount, (method, ()))) = PaymentParts::<M>::read(source, PAYMENT)?;
        Ok(Payment { amount, method })
    }

    fn write_parts(&self, out: Out) -> WriteResult {
        out.fields(PAYMENT, (&self.amount, (&self.method, ())))
    }
}

/// How it is paid.
#[derive(Debug, PartialEq, Drop)]
pub enum Method {
    Cash,
    /// With a card of this number, which is valid up to this year.
    Card { number: String, year: u16 },
}

type MethodParts = Enum<OneOf<(), Last<StrictStruct<(String, (u16, ()))>>>>;

const METHOD: &[&str] = &["Cash", "Card", "number", "year"];

impl Compound for Method {
    ghost table = { made_of ⟦<MethodParts as Parts>⟧.table METHOD.now (elim [ Cash ↦ record { 0 = First tt } | Card number year ↦ record { 0 = Later (record { 0 = record { 0 = (number, (year, tt)) } }) } ]) _ };

    fn parts_shape(alloc: Global) -> Result<Shape> {
        MethodParts::shape(alloc, METHOD)
    }

    fn read(source: Source) -> Result<Method> {
        let Enum(variant) = MethodParts::read(source, METHOD)?;
        Ok(match variant {
            First(()) => Method::Cash,
            Later(Last(StrictStruct((number, (year, ()))))) => Method::Card { number, year },
        })
    }

    fn write_parts(&self, out: Out) -> WriteResult {
        match self {
            Method::Cash => out.unit_variant("Cash"),
            Method::Card { number, year } => {
                out.struct_variant("Card", &["number", "year"], (number, (year, ())))
            }
        }
    }
}
