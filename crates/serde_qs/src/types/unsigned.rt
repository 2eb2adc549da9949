//! Unsigned numbers of 8 to 64 bits.

#![tactic(auto, unfolding(qs_spec::specs::internal::ReadFunction::reads))]

ghost use Rattle.std.specs.Prelude.{◌≡◌, ◌≤◌, ◌<◌, ◌^◌, ℕ, IfOk, refl};
ghost use Rattle.qs_spec.specs.Data as d;
ghost use Rattle.qs_spec.specs.Shape as s;
ghost use Rattle.qs_data.specs.data.Views.{data_of};
ghost use Rattle.qs_data.specs.shape.Widths.{bits_of};
ghost use Rattle.qs_data.specs.write.Parts.{WritesPart, data_part};
ghost use Rattle.serde_qs.specs.Fitting.{fitting};
ghost use Rattle.serde_qs.specs.internal.ComesBack.{unsigned_back};
ghost use Rattle.serde_qs.specs.internal.Ranges.{unsigned_within};
ghost use Rattle.serde_qs.specs.Meaning.{unsigned_in};
ghost use Rattle.serde_qs.specs.Tables.{table_of};
ghost use Rattle.serde_qs.specs.Typed.{GivesValue};

use crate::traits::{Deserialize, RoundTrip, Serialize, unexpected};
use qs_data::{Data, Reader, Result, Scalar, Shape, Width, WriteResult, Writer};
use qs_tree::ParsedValue;
use std::alloc::Global;

// Returns the number that this data means, if it is at most `most`.
#[inline(always)]
fn unsigned(alloc: Global, datum: Data, most: u64, expected: &'static str) -> Result<u64>
    ensures exact { GivesValue (λ (n : ℕ). n) result (unsigned_in most (data_of datum)) }
    ensures bound { IfOk result (λ n. n ≤ most) }
{
    match datum {
        Data::Unsigned(n) => {
            if n <= most {
                Ok(n)
            } else {
                Err(unexpected(alloc, expected))
            }
        }
        _ => Err(unexpected(alloc, expected)),
    }
}

// Returns the data of a number of this width.
fn number(value: u64, _width: Width) -> Data
    requires { value < 2 ^ bits_of _width }
    ensures { data_of result ≡ fitting (s.Shape.unsigned (bits_of _width)) (d.unsigned value) }
{
    Data::Unsigned(value)
}

// Writes a number of this width.
fn write_number(writer: &mut Writer, value: u64, _width: Width) -> WriteResult
    requires { value < 2 ^ bits_of _width }
    ensures { WritesPart result writer.old writer.new (data_part (fitting (s.Shape.unsigned (bits_of _width)) (d.unsigned value))) }
{
    writer.scalar(Scalar::Unsigned(value))
}

impl Serialize for u8 {
    ghost datum = { λ n. fitting (s.Shape.unsigned 8) (d.unsigned n) };

    fn to_data(&self, _alloc: Global) -> Result<Data> {
        Ok(number(u64::from(*self), Width::Bits8))
    }

    fn write_to(&self, writer: &mut Writer) -> WriteResult {
        write_number(writer, u64::from(*self), Width::Bits8)
    }
}

impl Deserialize for u8 {
    ghost table = { table_of (λ n. n) d.unsigned (s.Shape.unsigned 8) (unsigned_in 255) refl (λ n e h p. unsigned_back 255 n e (unsigned_within 8 n h) p) };

    fn shape(_alloc: Global) -> Result<Shape> {
        Ok(Shape::U8)
    }

    #[inline(always)]
    fn from_data(alloc: Global, datum: Data) -> Result<u8> {
        Ok(unsigned(alloc, datum, 255, "u8")? as u8)
    }

    #[inline(always)]
    fn from_node(reader: Reader, node: &ParsedValue<'_>) -> Result<u8> {
        Self::from_data(reader.alloc, reader.unsigned(Width::Bits8, node)?)
    }
}

impl RoundTrip for u8 {
    ghost same_datum = { λ _. refl };
}

impl Serialize for u16 {
    ghost datum = { λ n. fitting (s.Shape.unsigned 16) (d.unsigned n) };

    fn to_data(&self, _alloc: Global) -> Result<Data> {
        Ok(number(u64::from(*self), Width::Bits16))
    }

    fn write_to(&self, writer: &mut Writer) -> WriteResult {
        write_number(writer, u64::from(*self), Width::Bits16)
    }
}

impl Deserialize for u16 {
    ghost table = { table_of (λ n. n) d.unsigned (s.Shape.unsigned 16) (unsigned_in 65535) refl (λ n e h p. unsigned_back 65535 n e (unsigned_within 16 n h) p) };

    fn shape(_alloc: Global) -> Result<Shape> {
        Ok(Shape::U16)
    }

    #[inline(always)]
    fn from_data(alloc: Global, datum: Data) -> Result<u16> {
        Ok(unsigned(alloc, datum, 65535, "u16")? as u16)
    }

    #[inline(always)]
    fn from_node(reader: Reader, node: &ParsedValue<'_>) -> Result<u16> {
        Self::from_data(reader.alloc, reader.unsigned(Width::Bits16, node)?)
    }
}

impl RoundTrip for u16 {
    ghost same_datum = { λ _. refl };
}

impl Serialize for u32 {
    ghost datum = { λ n. fitting (s.Shape.unsigned 32) (d.unsigned n) };

    fn to_data(&self, _alloc: Global) -> Result<Data> {
        Ok(number(u64::from(*self), Width::Bits32))
    }

    fn write_to(&self, writer: &mut Writer) -> WriteResult {
        write_number(writer, u64::from(*self), Width::Bits32)
    }
}

impl Deserialize for u32 {
    ghost table = { table_of (λ n. n) d.unsigned (s.Shape.unsigned 32) (unsigned_in 4294967295) refl (λ n e h p. unsigned_back 4294967295 n e (unsigned_within 32 n h) p) };

    fn shape(_alloc: Global) -> Result<Shape> {
        Ok(Shape::U32)
    }

    #[inline(always)]
    fn from_data(alloc: Global, datum: Data) -> Result<u32> {
        Ok(unsigned(alloc, datum, 4294967295, "u32")? as u32)
    }

    #[inline(always)]
    fn from_node(reader: Reader, node: &ParsedValue<'_>) -> Result<u32> {
        Self::from_data(reader.alloc, reader.unsigned(Width::Bits32, node)?)
    }
}

impl RoundTrip for u32 {
    ghost same_datum = { λ _. refl };
}

impl Serialize for u64 {
    ghost datum = { λ n. fitting (s.Shape.unsigned 64) (d.unsigned n) };

    fn to_data(&self, _alloc: Global) -> Result<Data> {
        Ok(number(*self, Width::Bits64))
    }

    fn write_to(&self, writer: &mut Writer) -> WriteResult {
        write_number(writer, *self, Width::Bits64)
    }
}

impl Deserialize for u64 {
    ghost table = { table_of (λ n. n) d.unsigned (s.Shape.unsigned 64) (unsigned_in 18446744073709551615) refl (λ n e h p. unsigned_back 18446744073709551615 n e (unsigned_within 64 n h) p) };

    fn shape(_alloc: Global) -> Result<Shape> {
        Ok(Shape::U64)
    }

    #[inline(always)]
    fn from_data(alloc: Global, datum: Data) -> Result<u64> {
        unsigned(alloc, datum, 18446744073709551615, "u64")
    }

    #[inline(always)]
    fn from_node(reader: Reader, node: &ParsedValue<'_>) -> Result<u64> {
        Self::from_data(reader.alloc, reader.unsigned(Width::Bits64, node)?)
    }
}

impl RoundTrip for u64 {
    ghost same_datum = { λ _. refl };
}
