//! What a variant of an enum holds.

#![tactic(auto, using(crate::proofs::Levels::levels))]

ghost use Rattle.std.specs.Prelude.{◌≡◌, ℕ, List, option_and_then, option_map, true, IfOk};
ghost use Rattle.qs_spec.specs.Shape.{is_distinct_kind};
ghost use Rattle.qs_tree.specs.Error.{OnlyOutOfMemory};
ghost use Rattle.qs_tree.specs.tree.Views.{tree_of};
ghost use Rattle.qs_data.specs.data.Views.{data_of};
ghost use Rattle.qs_data.specs.read.Gives.{Gives};
ghost use Rattle.qs_data.specs.read.Held.{held_is_text};
ghost use Rattle.qs_data.specs.shape.Views.{kind_of};
ghost use Rattle.serde_qs.specs.Held.{kind_held};
ghost use Rattle.serde_qs.specs.PartTables.{PayloadTable, newtype_payload, tuple_payload, unit_payload};
ghost use Rattle.serde_qs.specs.Records.{texts};
ghost use Rattle.serde_qs.specs.Typed.{GivesValue};

use super::items::TupleItems;
use crate::traits::{Deserialize, unexpected};
use qs_data::{Data, Reader, Result, VariantKind};
use qs_tree::ParsedValue;
use std::alloc::Global;

/// What a variant of one value holds, or a struct around one value, which is read and written as that value.
///
/// ```
/// let Newtype(cents) = PriceParts::read(source, &[])?; // PriceParts = Newtype<u32>
/// ```
#[derive(Debug, PartialEq, Drop)]
pub struct Newtype<T>(pub T);

/// The items of a tuple, or of a variant with items, as nested pairs: `Tuple<(u8, (u8, ()))>`.
///
/// ```
/// let Tuple((first, (last, ()))) = SpanParts::read(source, &[])?;
/// ```
#[derive(Debug, PartialEq, Drop)]
pub struct Tuple<I>(pub I);

/// What a variant of an enum holds: `()`, a [`Newtype`], a [`Tuple`], a [`Struct`](crate::Struct) or a [`StrictStruct`](crate::StrictStruct).
///
/// It is implemented for these alone; a user names them in an [`Enum`](crate::Enum).
///
/// ```
/// type SortParts = Enum<OneOf<(), Last<Newtype<String>>>>; // the first holds (), the last a Newtype<String>
/// ```
pub trait Payload: Sized {
    // How it is read and written, by its names, with the proofs that belong to it.
    ghost table: { PayloadTable Self };

    /// Returns the names after its own. It doesn't allocate, and takes a step for each of its fields.
    fn skip<'a>(names: &'a [&'static str]) -> &'a [&'static str]
        ensures { texts result.now ≡ table.after (texts names.now) };

    /// Returns what is read for it. The one error is [`OutOfMemory`](qs_data::Error::OutOfMemory). It allocates for names, which are copied,
    /// and nested shapes.
    fn kind(alloc: Global, names: &[&'static str]) -> Result<VariantKind>
        ensures exact { IfOk result (λ k. kind_of k ≡ table.shape (texts names.now)) }
        ensures errors { OnlyOutOfMemory result };

    /// Returns what data of such a variant means. It returns the same errors as [`from_data`](Deserialize::from_data). It allocates, and
    /// takes time, as `from_data` of each part does.
    fn from_data(alloc: Global, names: &[&'static str], datum: Data) -> Result<Self>
        ensures { GivesValue table.value result (table.meaning (texts names.now) (data_of datum)) };

    /// Returns what is read from the value that such a variant holds. If a string alone names the variant, it holds none. It returns the
    /// same errors as [`from_node`](Deserialize::from_node). It allocates, and takes time, as `from_node` of each part does.
    fn from_node(
        reader: Reader,
        names: &[&'static str],
        held: Option<&ParsedValue<'_>>,
    ) -> Result<Self>
        requires { is_distinct_kind (table.shape (texts names.now)) ≡ true }
        ensures { let t = option_map (λ v. tree_of v.now) held.entry in (name : List ℕ) →
            Gives table.value (held_is_text t) result (option_and_then (table.meaning (texts names.now)) (kind_held reader.reject_duplicates (table.shape (texts names.now)) name t)) };
}

impl Payload for () {
    ghost table = { unit_payload };

    fn skip<'a>(names: &'a [&'static str]) -> &'a [&'static str] {
        names
    }

    fn kind(_alloc: Global, _names: &[&'static str]) -> Result<VariantKind> {
        Ok(VariantKind::Unit)
    }

    fn from_data(alloc: Global, _names: &[&'static str], datum: Data) -> Result<()> {
        match datum {
            Data::UnitVariant(_) => Ok(()),
            _ => Err(unexpected(alloc, "a unit variant")),
        }
    }

    fn from_node(
        _reader: Reader,
        _names: &[&'static str],
        _held: Option<&ParsedValue<'_>>,
    ) -> Result<()> {
        Ok(())
    }
}

impl<T: Deserialize> Payload for Newtype<T> {
    ghost table = { newtype_payload T.table };

    fn skip<'a>(names: &'a [&'static str]) -> &'a [&'static str] {
        names
    }

    fn kind(alloc: Global, _names: &[&'static str]) -> Result<VariantKind> {
        Ok(VariantKind::Newtype(Box::new(alloc, T::shape(alloc)?)?))
    }

    fn from_data(alloc: Global, _names: &[&'static str], datum: Data) -> Result<Newtype<T>> {
        match datum {
            Data::NewtypeVariant(_, part) => Ok(Newtype(T::from_data(
                alloc,
                Box::into_inner(part),
            )?)),
            _ => Err(unexpected(alloc, "a newtype variant")),
        }
    }

    fn from_node(
        reader: Reader,
        _names: &[&'static str],
        held: Option<&ParsedValue<'_>>,
    ) -> Result<Newtype<T>> {
        let node = reader.newtype_variant(held)?;
        Ok(Newtype(T::from_node(reader, node)?))
    }
}

impl<I: TupleItems> Payload for Tuple<I> {
    ghost table = { tuple_payload I.table };

    fn skip<'a>(names: &'a [&'static str]) -> &'a [&'static str] {
        names
    }

    fn kind(alloc: Global, _names: &[&'static str]) -> Result<VariantKind> {
        Ok(VariantKind::Tuple(I::push_shapes(alloc, Vec::new(alloc))?))
    }

    fn from_data(alloc: Global, _names: &[&'static str], datum: Data) -> Result<Tuple<I>> {
        let Data::TupleVariant(_, mut values) = datum else {
            return Err(unexpected(alloc, "a tuple variant"));
        };
        values.reverse();
        Ok(Tuple(I::from_items(alloc, values)?))
    }

    fn from_node(
        reader: Reader,
        _names: &[&'static str],
        held: Option<&ParsedValue<'_>>,
    ) -> Result<Tuple<I>> {
        let items = reader.tuple_variant(held)?;
        Ok(Tuple(I::from_places(reader, items, 0)?))
    }
}
