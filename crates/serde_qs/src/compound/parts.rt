//! What a struct or an enum is made of.

#![tactic(auto, unfolding(qs_spec::specs::internal::ReadFunction::reads))]

ghost use Rattle.std.specs.Prelude.{◌≡◌, IfOk, true};
ghost use Rattle.qs_tree.specs.Error.{OnlyOutOfMemory};
ghost use Rattle.qs_data.specs.data.Views.{data_of};
ghost use Rattle.qs_data.specs.shape.Views.{shape_of};
ghost use Rattle.qs_spec.specs.Shape.{is_distinct};
ghost use Rattle.qs_tree.specs.tree.Views.{tree_of};
ghost use Rattle.serde_qs.specs.Nodes.{ReadsNode};
ghost use Rattle.serde_qs.specs.Sources.{ReadsSource};
ghost use Rattle.serde_qs.specs.PartTables.{PartsTable, enum_parts, newtype_parts, tuple_parts};
ghost use Rattle.serde_qs.specs.Records.{texts};
ghost use Rattle.serde_qs.specs.Typed.{GivesValue};

use super::items::TupleItems;
use super::payloads::{Newtype, Tuple};
use super::source::Source;
use super::trace;
use super::variants::{Variants, variant_of};
use crate::path::Path;
use crate::traits::{Deserialize, unexpected};
use qs_data::{Data, Reader, Result, Shape};
use qs_tree::ParsedValue;
use std::alloc::Global;

/// What an enum is made of: one of its variants.
///
/// ```
/// type SortParts = Enum<OneOf<(), Last<Newtype<String>>>>;
/// ```
#[derive(Debug, PartialEq, Drop)]
pub struct Enum<V>(pub V);

/// What a struct or an enum is made of: its fields, its items, its variants, or one value.
///
/// It is implemented for [`Struct`](crate::Struct), [`StrictStruct`](crate::StrictStruct), [`Tuple`], [`Enum`] and [`Newtype`] alone; a user names them in a type
/// alias, for a [`Compound`](crate::Compound).
///
/// ```
/// type PointParts = Struct<(i64, (i64, ()))>;
/// ```
pub trait Parts: Sized {
    // How they are read and written, by their names, with the proofs that belong to them. The table of a struct or an enum is made of it.
    ghost table: { PartsTable Self };

    /// Returns the shape that is read for them. The one error is [`OutOfMemory`](qs_data::Error::OutOfMemory). It allocates for the names,
    /// which are copied, and the nested shapes, and the time grows with them.
    ///
    /// ```
    /// let shape = PointParts::shape(alloc, &["x", "y"])?; // Shape::Struct
    /// ```
    fn shape(alloc: Global, names: &[&'static str]) -> Result<Shape>
        ensures exact { IfOk result (λ s. shape_of s ≡ table.shape (texts names.now)) }
        ensures errors { OnlyOutOfMemory result };

    /// Returns the parts that data means. It returns the same errors as [`from_data`](Deserialize::from_data) of the whole. It allocates,
    /// and takes time, as `from_data` of each part does.
    ///
    /// ```
    /// let Struct((x, (y, ()))) = PointParts::from_data(alloc, NAMES, datum)?;
    /// ```
    fn from_data(alloc: Global, names: &[&'static str], datum: Data) -> Result<Self>
        ensures { GivesValue table.value result (table.meaning (texts names.now) (data_of datum)) };

    /// Returns the parts that are read from a node of a tree, without a shape or data in between. It returns the same errors as
    /// [`from_node`](Deserialize::from_node) of the whole. It allocates as `from_node` of each part does, and the time grows with the node.
    ///
    /// ```
    /// let Struct((x, (y, ()))) = PointParts::from_node(reader, NAMES, node)?;
    /// ```
    fn from_node(reader: Reader, names: &[&'static str], node: &ParsedValue<'_>) -> Result<Self>
        requires { is_distinct (table.shape (texts names.now)) ≡ true }
        ensures node { ReadsNode table.value (table.shape (texts names.now)) (table.meaning (texts names.now)) reader.reject_duplicates (tree_of node.now) result };

    /// Returns the same parts. If there are none, it puts the steps to the first part that isn't read into the path. It returns the same
    /// errors as [`from_traced`](Deserialize::from_traced) of the whole.
    ///
    /// ```
    /// let Struct((x, (y, ()))) = PointParts::from_traced(reader, NAMES, node, path)?;
    /// ```
    fn from_traced(
        reader: Reader,
        names: &[&'static str],
        node: &ParsedValue<'_>,
        path: &mut Path,
    ) -> Result<Self>
        requires { is_distinct (table.shape (texts names.now)) ≡ true }
        ensures node { ReadsNode table.value (table.shape (texts names.now)) (table.meaning (texts names.now)) reader.reject_duplicates (tree_of node.now) result };

    /// Returns the parts that are read from data or from a node. Errors, allocation and time are the same as for
    /// [`from_data`](Parts::from_data) or [`from_node`](Parts::from_node).
    ///
    /// ```
    /// let Struct((x, (y, ()))) = PointParts::read(source, NAMES)?;
    /// ```
    #[inline(always)]
    fn read(source: Source<'_, '_>, names: &[&'static str]) -> Result<Self>
        requires { is_distinct (table.shape (texts names.now)) ≡ true }
        ensures source { ReadsSource table.value (table.shape (texts names.now)) (table.meaning (texts names.now)) source.entry result }
    {
        let (reader, node) = match source {
            Source::Data(alloc, datum) => return Self::from_data(alloc, names, datum),
            Source::Node(reader, node) => (reader, node),
            Source::Traced(reader, node, path) => {
                return Self::from_traced(reader, names, node, path);
            }
        };
        Self::from_node(reader, names, node)
    }
}

impl<V: Variants> Parts for Enum<V> {
    ghost table = { enum_parts V.table };

    fn shape(alloc: Global, names: &[&'static str]) -> Result<Shape> {
        let variants = V::push_variants(alloc, names, Vec::new(alloc))?;
        Ok(Shape::Enum(variants))
    }

    fn from_data(alloc: Global, names: &[&'static str], datum: Data) -> Result<Enum<V>> {
        Ok(Enum(V::from_variant(alloc, names, datum)?))
    }

    fn from_node(
        reader: Reader,
        names: &[&'static str],
        node: &ParsedValue<'_>,
    ) -> Result<Enum<V>> {
        Ok(Enum(variant_of(reader, names, node)?))
    }

    fn from_traced(
        reader: Reader,
        names: &[&'static str],
        node: &ParsedValue<'_>,
        path: &mut Path,
    ) -> Result<Enum<V>> {
        trace::trace_variant(reader.alloc, node, path)?;
        Self::from_node(reader, names, node)
    }
}

impl<T: Deserialize> Parts for Newtype<T> {
    ghost table = { newtype_parts T.table };

    fn shape(alloc: Global, _names: &[&'static str]) -> Result<Shape> {
        Ok(Shape::Newtype(Box::new(alloc, T::shape(alloc)?)?))
    }

    fn from_data(alloc: Global, _names: &[&'static str], datum: Data) -> Result<Newtype<T>> {
        match datum {
            Data::Newtype(part) => Ok(Newtype(T::from_data(alloc, Box::into_inner(part))?)),
            _ => Err(unexpected(alloc, "a newtype")),
        }
    }

    fn from_node(
        reader: Reader,
        _names: &[&'static str],
        node: &ParsedValue<'_>,
    ) -> Result<Newtype<T>> {
        Ok(Newtype(T::from_node(reader, node)?))
    }

    fn from_traced(
        reader: Reader,
        _names: &[&'static str],
        node: &ParsedValue<'_>,
        path: &mut Path,
    ) -> Result<Newtype<T>> {
        Ok(Newtype(T::from_traced(reader, node, path)?))
    }
}

impl<I: TupleItems> Parts for Tuple<I> {
    ghost table = { tuple_parts I.table };

    fn shape(alloc: Global, _names: &[&'static str]) -> Result<Shape> {
        Ok(Shape::Tuple(I::push_shapes(alloc, Vec::new(alloc))?))
    }

    #[tactic(auto, using(crate::proofs::Levels::levels))]
    fn from_data(alloc: Global, _names: &[&'static str], datum: Data) -> Result<Tuple<I>> {
        let Data::Tuple(mut values) = datum else {
            return Err(unexpected(alloc, "a tuple"));
        };
        values.reverse();
        Ok(Tuple(I::from_items(alloc, values)?))
    }

    fn from_node(
        reader: Reader,
        _names: &[&'static str],
        node: &ParsedValue<'_>,
    ) -> Result<Tuple<I>> {
        let items = reader.tuple(I::count(), node)?;
        Ok(Tuple(I::from_places(reader, items, 0)?))
    }

    fn from_traced(
        reader: Reader,
        names: &[&'static str],
        node: &ParsedValue<'_>,
        path: &mut Path,
    ) -> Result<Tuple<I>> {
        trace::trace_tuple::<I>(reader, node, path)?;
        Self::from_node(reader, names, node)
    }
}
