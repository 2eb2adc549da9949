//! Signed numbers of 8 to 64 bits.

#![tactic(auto, unfolding(qs_spec::specs::internal::ReadFunction::reads))]

ghost use Rattle.std.specs.Prelude.{◌≡◌, ◌-◌, ◌^◌, ◌≤ℤ◌, ℤ, pos, neg_ℤ, IfOk, refl};
ghost use Rattle.qs_spec.specs.Data as d;
ghost use Rattle.qs_spec.specs.Shape as s;
ghost use Rattle.qs_data.specs.data.Views.{data_of};
ghost use Rattle.qs_data.specs.shape.Widths.{bits_of};
ghost use Rattle.qs_data.specs.write.Parts.{WritesPart, data_part};
ghost use Rattle.serde_qs.specs.Fitting.{fitting};
ghost use Rattle.serde_qs.specs.internal.ComesBack.{signed_back};
ghost use Rattle.serde_qs.specs.internal.Ranges.{signed_within};
ghost use Rattle.serde_qs.specs.Meaning.{signed_between, signed_in};
ghost use Rattle.serde_qs.specs.Tables.{table_of};
ghost use Rattle.serde_qs.specs.Typed.{GivesValue};

use crate::traits::{Deserialize, RoundTrip, Serialize, unexpected};
use qs_data::{Data, Reader, Result, Scalar, Shape, Width, WriteResult, Writer};
use qs_tree::ParsedValue;
use std::alloc::Global;

// Returns the number that this data means, if it is from `least` to `most`.
#[inline(always)]
fn signed(alloc: Global, datum: Data, least: i64, most: i64, expected: &'static str) -> Result<i64>
    ensures exact { GivesValue (λ (z : ℤ). z) result (signed_between least most (data_of datum)) }
    ensures bound { IfOk result (λ z. (least ≤ℤ z) × (z ≤ℤ most)) }
{
    let Data::Signed(n) = datum else {
        return Err(unexpected(alloc, expected));
    };
    if n < least {
        return Err(unexpected(alloc, expected));
    }
    if n > most {
        return Err(unexpected(alloc, expected));
    }
    Ok(n)
}

// Returns the data of a number of this width.
fn number(value: i64, _width: Width) -> Data
    requires { (neg_ℤ (pos (2 ^ (bits_of _width - 1))) ≤ℤ value) × (value ≤ℤ pos (2 ^ (bits_of _width - 1) - 1)) }
    ensures { data_of result ≡ fitting (s.Shape.signed (bits_of _width)) (d.signed value) }
{
    Data::Signed(value)
}

// Writes a number of this width.
fn write_number(writer: &mut Writer, value: i64, _width: Width) -> WriteResult
    requires { (neg_ℤ (pos (2 ^ (bits_of _width - 1))) ≤ℤ value) × (value ≤ℤ pos (2 ^ (bits_of _width - 1) - 1)) }
    ensures { WritesPart result writer.old writer.new (data_part (fitting (s.Shape.signed (bits_of _width)) (d.signed value))) }
{
    writer.scalar(Scalar::Signed(value))
}

impl Serialize for i8 {
    ghost datum = { λ z. fitting (s.Shape.signed 8) (d.signed z) };

    fn to_data(&self, _alloc: Global) -> Result<Data> {
        Ok(number(i64::from(*self), Width::Bits8))
    }

    fn write_to(&self, writer: &mut Writer) -> WriteResult {
        write_number(writer, i64::from(*self), Width::Bits8)
    }
}

impl Deserialize for i8 {
    ghost table = { table_of (λ z. z) d.signed (s.Shape.signed 8) (signed_in 8) refl (λ z e h p. signed_back 8 z e (signed_within 8 z h) p) };

    fn shape(_alloc: Global) -> Result<Shape> {
        Ok(Shape::I8)
    }

    #[inline(always)]
    fn from_data(alloc: Global, datum: Data) -> Result<i8> {
        Ok(signed(alloc, datum, -128, 127, "i8")? as i8)
    }

    #[inline(always)]
    fn from_node(reader: Reader, node: &ParsedValue<'_>) -> Result<i8> {
        Self::from_data(reader.alloc, reader.signed(Width::Bits8, node)?)
    }
}

impl RoundTrip for i8 {
    ghost same_datum = { λ _. refl };
}

impl Serialize for i16 {
    ghost datum = { λ z. fitting (s.Shape.signed 16) (d.signed z) };

    fn to_data(&self, _alloc: Global) -> Result<Data> {
        Ok(number(i64::from(*self), Width::Bits16))
    }

    fn write_to(&self, writer: &mut Writer) -> WriteResult {
        write_number(writer, i64::from(*self), Width::Bits16)
    }
}

impl Deserialize for i16 {
    ghost table = { table_of (λ z. z) d.signed (s.Shape.signed 16) (signed_in 16) refl (λ z e h p. signed_back 16 z e (signed_within 16 z h) p) };

    fn shape(_alloc: Global) -> Result<Shape> {
        Ok(Shape::I16)
    }

    #[inline(always)]
    fn from_data(alloc: Global, datum: Data) -> Result<i16> {
        Ok(signed(alloc, datum, -32768, 32767, "i16")? as i16)
    }

    #[inline(always)]
    fn from_node(reader: Reader, node: &ParsedValue<'_>) -> Result<i16> {
        Self::from_data(reader.alloc, reader.signed(Width::Bits16, node)?)
    }
}

impl RoundTrip for i16 {
    ghost same_datum = { λ _. refl };
}

impl Serialize for i32 {
    ghost datum = { λ z. fitting (s.Shape.signed 32) (d.signed z) };

    fn to_data(&self, _alloc: Global) -> Result<Data> {
        Ok(number(i64::from(*self), Width::Bits32))
    }

    fn write_to(&self, writer: &mut Writer) -> WriteResult {
        write_number(writer, i64::from(*self), Width::Bits32)
    }
}

impl Deserialize for i32 {
    ghost table = { table_of (λ z. z) d.signed (s.Shape.signed 32) (signed_in 32) refl (λ z e h p. signed_back 32 z e (signed_within 32 z h) p) };

    fn shape(_alloc: Global) -> Result<Shape> {
        Ok(Shape::I32)
    }

    #[inline(always)]
    fn from_data(alloc: Global, datum: Data) -> Result<i32> {
        Ok(signed(alloc, datum, -2147483648, 2147483647, "i32")? as i32)
    }

    #[inline(always)]
    fn from_node(reader: Reader, node: &ParsedValue<'_>) -> Result<i32> {
        Self::from_data(reader.alloc, reader.signed(Width::Bits32, node)?)
    }
}

impl RoundTrip for i32 {
    ghost same_datum = { λ _. refl };
}

impl Serialize for i64 {
    ghost datum = { λ z. fitting (s.Shape.signed 64) (d.signed z) };

    fn to_data(&self, _alloc: Global) -> Result<Data> {
        Ok(number(*self, Width::Bits64))
    }

    fn write_to(&self, writer: &mut Writer) -> WriteResult {
        write_number(writer, *self, Width::Bits64)
    }
}

impl Deserialize for i64 {
    ghost table = { table_of (λ z. z) d.signed (s.Shape.signed 64) (signed_in 64) refl (λ z e h p. signed_back 64 z e (signed_within 64 z h) p) };

    fn shape(_alloc: Global) -> Result<Shape> {
        Ok(Shape::I64)
    }

    #[inline(always)]
    fn from_data(alloc: Global, datum: Data) -> Result<i64> {
        signed(alloc, datum, i64::MIN, i64::MAX, "i64")
    }

    #[inline(always)]
    fn from_node(reader: Reader, node: &ParsedValue<'_>) -> Result<i64> {
        Self::from_data(reader.alloc, reader.signed(Width::Bits64, node)?)
    }
}

impl RoundTrip for i64 {
    ghost same_datum = { λ _. refl };
}
