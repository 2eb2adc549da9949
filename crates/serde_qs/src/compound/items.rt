//! The items of a tuple, as nested pairs.

ghost use Rattle.std.specs.Prelude.{◌≡◌, ◌++◌, ◌-◌, ◌^◌, drop, length, map, min, IfOk};
ghost use Rattle.qs_tree.specs.Error.{OnlyOutOfMemory};
ghost use Rattle.qs_data.specs.read.Gives.{Gives};
ghost use Rattle.qs_data.specs.read.Items.{are_text, items_view};
ghost use Rattle.qs_data.specs.shape.Views.{shape_of};
ghost use Rattle.serde_qs.specs.Held.{by_shapes};
ghost use Rattle.serde_qs.specs.PartTables.{ItemsTable, item, no_items};
ghost use Rattle.serde_qs.specs.Tuples.{values_back};
ghost use Rattle.serde_qs.specs.Typed.{GivesValue};

use super::trace;
use crate::path::Path;
use crate::traits::{Deserialize, unexpected};
use qs_data::{Data, NodeItems, Reader, Result, Shape};
use std::alloc::{AllocError, Global};

/// The items of a tuple, as nested pairs of an item and the items after it: `(A, (B, (C, ())))`.
///
/// It is implemented for these alone; a user names them in a [`Tuple`](crate::Tuple).
///
/// ```
/// type SpanParts = Tuple<(u32, (u32, ()))>; // the items are (u32, (u32, ()))
/// ```
pub trait TupleItems: Sized {
    // How they are read and written, with the proofs that belong to them.
    ghost table: { ItemsTable Self };

    /// Returns these shapes, followed in order by the shapes that are read for the items. The one error is
    /// [`OutOfMemory`](qs_data::Error::OutOfMemory). It allocates for the shapes.
    fn push_shapes(alloc: Global, shapes: Vec<Shape>) -> Result<Vec<Shape>>
        ensures exact { IfOk result (λ all. map shape_of all.items ≡ map shape_of shapes.items ++ table.shape) }
        ensures errors { OnlyOutOfMemory result };

    /// Returns how many items there are, at most `usize::MAX`. It doesn't allocate.
    fn count() -> usize
        ensures { result ≡ min (length table.shape) (2 ^ 64 - 1) };

    /// Returns the items that values mean; the last value is the first item's. It returns the same errors as
    /// [`from_data`](Deserialize::from_data). It allocates, and takes time, as `from_data` of each item does.
    fn from_items(alloc: Global, values: Vec<Data>) -> Result<Self>
        ensures { GivesValue table.value result (table.meaning (values_back values.items)) };

    /// Returns the items that are read from a node's items, from an index on. It returns the same errors as
    /// [`from_node`](Deserialize::from_node). It allocates, and takes time, as `from_node` of each item does.
    fn from_places(reader: Reader, items: NodeItems<'_, '_>, place: usize) -> Result<Self>
        ensures { Gives table.value (are_text (items_view items.entry)) result
            (by_shapes reader.reject_duplicates table.shape table.meaning (drop place (items_view items.entry))) };

    /// Puts the steps to the first item from an index on that isn't read into the path, if there is one. The one error is that an
    /// allocation failed. It reads each item up to that one.
    fn trace(
        reader: Reader,
        items: NodeItems<'_, '_>,
        place: usize,
        path: &mut Path,
    ) -> Result<(), AllocError>;
}

impl TupleItems for () {
    ghost table = { no_items };

    fn push_shapes(_alloc: Global, shapes: Vec<Shape>) -> Result<Vec<Shape>> {
        Ok(shapes)
    }

    fn count() -> usize {
        0
    }

    fn from_items(alloc: Global, mut values: Vec<Data>) -> Result<()> {
        match values.pop() {
            None => Ok(()),
            Some(_) => Err(unexpected(alloc, "no further item")),
        }
    }

    #[tactic(auto, unfolding(qs_spec::specs::internal::ReadFunction::reads))]
    fn from_places(_reader: Reader, _items: NodeItems<'_, '_>, _place: usize) -> Result<()> {
        Ok(())
    }

    fn trace(
        _reader: Reader,
        _items: NodeItems<'_, '_>,
        _place: usize,
        _path: &mut Path,
    ) -> Result<(), AllocError> {
        Ok(())
    }
}

impl<T: Deserialize + Drop, R: TupleItems> TupleItems for (T, R) {
    ghost table = { item T.table R.table };

    fn push_shapes(alloc: Global, mut shapes: Vec<Shape>) -> Result<Vec<Shape>> {
        shapes.push(T::shape(alloc)?)?;
        R::push_shapes(alloc, shapes)
    }

    fn count() -> usize {
        R::count().saturating_add(1)
    }

    fn from_items(alloc: Global, mut values: Vec<Data>) -> Result<(T, R)> {
        let Some(datum) = values.pop() else {
            return Err(unexpected(alloc, "an item"));
        };
        let first = T::from_data(alloc, datum)?;
        let others = R::from_items(alloc, values)?;
        Ok((first, others))
    }

    fn from_places(reader: Reader, items: NodeItems<'_, '_>, place: usize) -> Result<(T, R)> {
        let count = items.len();
        let Some(item) = items.get(reader, place)? else {
            return Err(reader.missing_item(count));
        };
        let first = T::from_node(reader, item)?;
        let others = R::from_places(reader, items, place + 1)?;
        Ok((first, others))
    }

    fn trace(
        reader: Reader,
        items: NodeItems<'_, '_>,
        place: usize,
        path: &mut Path,
    ) -> Result<(), AllocError> {
        if trace::is_unread_item::<T>(reader, items, place, path)? {
            return Ok(());
        }
        R::trace(reader, items, place.saturating_add(1), path)
    }
}
