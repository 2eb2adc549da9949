//! Structs, and variants with named fields.

ghost use Rattle.std.specs.Prelude.{◌≡◌};
ghost use Rattle.qs_spec.specs.Shape.{UnknownKeys as Unknown};
ghost use Rattle.qs_data.specs.data.Views.{data_of};
ghost use Rattle.qs_data.specs.read.Keys.{unknown_of};
ghost use Rattle.serde_qs.specs.PartTables.{fields_parts, fields_payload};
ghost use Rattle.serde_qs.specs.Records.{struct_in, texts};
ghost use Rattle.serde_qs.specs.Typed.{GivesValue};
ghost use Rattle.serde_qs.specs.Variants.{struct_variant_in};

use super::fields::Fields;
use super::parts::Parts;
use super::payloads::Payload;
use super::{nodes, trace};
use crate::path::Path;
use crate::traits::unexpected;
use qs_data::{Data, Reader, Result, Shape, UnknownKeys, VariantKind};
use qs_tree::ParsedValue;
use std::alloc::Global;

/// The fields of a struct, or of a variant with named fields, as nested pairs: `Struct<(u8, (u8, ()))>`.
///
/// ```
/// let Struct((x, (y, ()))) = PointParts::read(source, NAMES)?;
/// ```
#[derive(Debug, PartialEq, Drop)]
pub struct Struct<F>(pub F);

/// The fields of a struct, or of a variant with named fields, as in a [`Struct`], except that a map with a key that no field
/// has is rejected: `StrictStruct<(u8, (u8, ()))>`.
///
/// ```
/// let StrictStruct((amount, (method, ()))) = PaymentParts::read(source, NAMES)?;
/// ```
///
/// It is serde's `deny_unknown_fields`. It is written as a `Struct` is.
#[derive(Debug, PartialEq, Drop)]
pub struct StrictStruct<F>(pub F);

/// What holds the fields of a struct, and says what is done with unknown keys: a [`Struct`] or a [`StrictStruct`].
///
/// It is implemented for these alone. A user names them, and calls no function of it. Its functions take constant time.
pub trait HoldsFields: Sized {
    type Held: Fields;

    // The fields, and what is done with unknown keys.
    ghost held: { Self → Self.Held };

    ghost unknown: { Unknown };

    /// Returns a value that holds these fields. It doesn't allocate.
    fn holding(fields: Self::Held) -> Self
        ensures { held result ≡ fields };

    /// Returns what is done with unknown keys.
    fn unknown() -> UnknownKeys
        ensures { unknown_of result ≡ unknown };
}

impl<F: Fields> HoldsFields for Struct<F> {
    type Held = F;

    ghost held = { λ x. x.0 };

    ghost unknown = { Unknown.ignored };

    #[inline(always)]
    fn holding(fields: F) -> Struct<F> {
        Struct(fields)
    }

    #[inline(always)]
    fn unknown() -> UnknownKeys {
        UnknownKeys::Ignored
    }
}

impl<F: Fields> HoldsFields for StrictStruct<F> {
    type Held = F;

    ghost held = { λ x. x.0 };

    ghost unknown = { Unknown.rejected };

    #[inline(always)]
    fn holding(fields: F) -> StrictStruct<F> {
        StrictStruct(fields)
    }

    #[inline(always)]
    fn unknown() -> UnknownKeys {
        UnknownKeys::Rejected
    }
}

impl<S: HoldsFields> Parts for S {
    ghost table = { fields_parts S.unknown S.held S.Held.table };

    fn shape(alloc: Global, names: &[&'static str]) -> Result<Shape> {
        let fields = S::Held::push_fields(alloc, names, Vec::new(alloc))?;
        match S::unknown() {
            UnknownKeys::Ignored => Ok(Shape::Struct(fields)),
            UnknownKeys::Rejected => Ok(Shape::StrictStruct(fields)),
        }
    }

    fn from_data(alloc: Global, names: &[&'static str], datum: Data) -> Result<S> {
        Ok(S::holding(struct_fields(alloc, names, datum)?))
    }

    #[inline(always)]
    fn from_node(reader: Reader, names: &[&'static str], node: &ParsedValue<'_>) -> Result<S> {
        Ok(S::holding(nodes::fields_of_struct(reader, S::unknown(), names, node)?))
    }

    fn from_traced(
        reader: Reader,
        names: &[&'static str],
        node: &ParsedValue<'_>,
        path: &mut Path,
    ) -> Result<S> {
        trace::trace_struct::<S::Held>(reader, names, node, path)?;
        <S as Parts>::from_node(reader, names, node)
    }
}

impl<S: HoldsFields> Payload for S {
    ghost table = { fields_payload S.unknown S.held S.Held.table };

    fn skip<'a>(names: &'a [&'static str]) -> &'a [&'static str] {
        S::Held::skip(names)
    }

    fn kind(alloc: Global, names: &[&'static str]) -> Result<VariantKind> {
        let fields = S::Held::push_fields(alloc, names, Vec::new(alloc))?;
        match S::unknown() {
            UnknownKeys::Ignored => Ok(VariantKind::Struct(fields)),
            UnknownKeys::Rejected => Ok(VariantKind::StrictStruct(fields)),
        }
    }

    fn from_data(alloc: Global, names: &[&'static str], datum: Data) -> Result<S> {
        Ok(S::holding(variant_fields(alloc, names, datum)?))
    }

    fn from_node(
        reader: Reader,
        names: &[&'static str],
        held: Option<&ParsedValue<'_>>,
    ) -> Result<S> {
        let node = reader.struct_variant(held)?;
        Ok(S::holding(nodes::fields_of_variant(reader, S::unknown(), names, node)?))
    }
}

// Returns the fields that the data of a struct means.
#[inline(never)]
fn struct_fields<F: Fields>(alloc: Global, names: &[&'static str], datum: Data) -> Result<F>
    ensures { GivesValue F.table.value result (struct_in (F.table.meaning (texts names.now)) (data_of datum)) }
{
    let Data::Struct(mut members) = datum else {
        return Err(unexpected(alloc, "a struct"));
    };
    members.reverse();
    F::from_members(alloc, names, members)
}

// Returns the fields that the data of a struct variant means.
fn variant_fields<F: Fields>(alloc: Global, names: &[&'static str], datum: Data) -> Result<F>
    ensures { GivesValue F.table.value result (struct_variant_in (F.table.meaning (texts names.now)) (data_of datum)) }
{
    let Data::StructVariant(_, mut members) = datum else {
        return Err(unexpected(alloc, "a struct variant"));
    };
    members.reverse();
    F::from_members(alloc, names, members)
}
