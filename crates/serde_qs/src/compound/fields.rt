//! The fields of a struct, as nested pairs.

#![tactic(auto, unfolding(qs_spec::specs::internal::ReadFunction::reads))]

ghost use Rattle.std.specs.Prelude.{◌≡◌, ◌++◌, map, IfOk, true};
ghost use Rattle.qs_spec.specs.Shape.{field_names_differ, fields_of, is_field_name};
ghost use Rattle.qs_tree.specs.Error.{OnlyOutOfMemory};
ghost use Rattle.qs_tree.specs.tree.Views.{items_from, tree_of};
ghost use Rattle.qs_data.specs.read.Gives.{Gives};
ghost use Rattle.qs_data.specs.read.TreeText.{entries_are_text, items_are_text};
ghost use Rattle.qs_data.specs.read.Keys.{NumbersFit, entries_view};
ghost use Rattle.qs_data.specs.shape.Views.{field_of};
ghost use Rattle.serde_qs.specs.Nodes.{by_names, by_places};
ghost use Rattle.serde_qs.specs.PartTables.{FieldsTable, field, no_fields};
ghost use Rattle.serde_qs.specs.Records.{first_of, members_back, others_of, texts};
ghost use Rattle.serde_qs.specs.Typed.{GivesValue};

use super::field_types::FieldType;
use super::{nodes, trace};
use crate::path::Path;
use crate::traits::unexpected;
use qs_data::{Data, Field, NodeEntries, Reader, Result};
use qs_tree::ParsedValue;
use std::alloc::{AllocError, Global};

/// The fields of a struct, as nested pairs of a field and the fields after it: `(A, (B, (C, ())))`.
///
/// Each field is a [`FieldType`](crate::FieldType). It is implemented for these pairs alone; a user names them in a
/// [`Struct`](crate::Struct).
///
/// ```
/// type FilterParts = Struct<(String, (Optional<u32>, ()))>; // the fields are (String, (Optional<u32>, ()))
/// ```
pub trait Fields: Sized + Drop {
    // How they are read and written, by their names, with the proofs that belong to them.
    ghost table: { FieldsTable Self };

    /// Returns the names after the fields' names. It doesn't allocate, and takes a step for each field.
    fn skip<'a>(names: &'a [&'static str]) -> &'a [&'static str]
        ensures { texts result.now ≡ table.after (texts names.now) };

    /// Returns whether one of the fields has this name. It doesn't allocate, and compares at most one name for each field.
    fn has(names: &[&'static str], name: &[u8]) -> bool
        ensures { result ≡ is_field_name name.now (fields_of (table.shape (texts names.now))) };

    /// Returns these fields, followed in order by what is read for the fields of these names. The one error is
    /// [`OutOfMemory`](qs_data::Error::OutOfMemory). It allocates for the names, which are copied, and the shapes.
    fn push_fields(alloc: Global, names: &[&'static str], fields: Vec<Field>) -> Result<Vec<Field>>
        ensures exact { IfOk result (λ all. map field_of all.items ≡ map field_of fields.items ++ table.shape (texts names.now)) }
        ensures errors { OnlyOutOfMemory result };

    /// Returns the fields that members mean; the last member is the first field's. It returns the same errors as
    /// [`from_data`](crate::Deserialize::from_data). It allocates, and takes time, as `from_data` of each field does.
    fn from_members(
        alloc: Global,
        names: &[&'static str],
        members: Vec<(String, Data)>,
    ) -> Result<Self>
        ensures { GivesValue table.value result (table.meaning (texts names.now) (members_back members.items)) };

    /// Returns the fields that are read by their names, from keys with their values. It returns the same errors as
    /// [`from_node`](crate::Deserialize::from_node). It allocates as `from_node` of each field does, and looks up each name.
    fn from_entries(
        reader: Reader,
        names: &[&'static str],
        entries: NodeEntries<'_, '_>,
    ) -> Result<Self>
        requires fit { NumbersFit (entries_view entries) }
        requires differ { field_names_differ (fields_of (table.shape (texts names.now))) ≡ true }
        ensures { Gives table.value (entries_are_text (entries_view entries.entry)) result
            (by_names reader.reject_duplicates (table.shape (texts names.now)) (table.meaning (texts names.now)) (entries_view entries.entry)) };

    /// Returns the fields that are read by their indices, from these items, which are the last of `count`. It returns the same errors as
    /// [`from_node`](crate::Deserialize::from_node). It allocates, and takes time, as `from_node` of each field does.
    fn from_places(
        reader: Reader,
        names: &[&'static str],
        items: &[ParsedValue<'_>],
        count: usize,
    ) -> Result<Self>
        requires { field_names_differ (fields_of (table.shape (texts names.now))) ≡ true }
        ensures { Gives table.value (items_are_text (items_from (map tree_of items.now))) result
            (by_places reader.reject_duplicates (table.shape (texts names.now)) (table.meaning (texts names.now)) (items_from (map tree_of items.now))) };

    /// Puts the steps to the first field that isn't read by its name into the path, if there is one. The one error is that an allocation
    /// failed. It reads each field up to that one.
    fn trace(
        reader: Reader,
        names: &[&'static str],
        entries: NodeEntries<'_, '_>,
        path: &mut Path,
    ) -> Result<(), AllocError>
        requires { NumbersFit (entries_view entries) };
}

impl Fields for () {
    ghost table = { no_fields };

    fn skip<'a>(names: &'a [&'static str]) -> &'a [&'static str] {
        names
    }

    fn has(_names: &[&'static str], _name: &[u8]) -> bool {
        false
    }

    fn push_fields(
        _alloc: Global,
        _names: &[&'static str],
        fields: Vec<Field>,
    ) -> Result<Vec<Field>> {
        Ok(fields)
    }

    fn from_members(
        alloc: Global,
        _names: &[&'static str],
        mut members: Vec<(String, Data)>,
    ) -> Result<()> {
        match members.pop() {
            None => Ok(()),
            Some(_) => Err(unexpected(alloc, "no further field")),
        }
    }

    #[inline(always)]
    fn from_entries(
        _reader: Reader,
        _names: &[&'static str],
        _entries: NodeEntries<'_, '_>,
    ) -> Result<()> {
        Ok(())
    }

    fn from_places(
        _reader: Reader,
        _names: &[&'static str],
        _items: &[ParsedValue<'_>],
        _count: usize,
    ) -> Result<()> {
        Ok(())
    }

    fn trace(
        _reader: Reader,
        _names: &[&'static str],
        _entries: NodeEntries<'_, '_>,
        _path: &mut Path,
    ) -> Result<(), AllocError> {
        Ok(())
    }
}

impl<F: FieldType, R: Fields> Fields for (F, R) {
    ghost table = { field F.table R.table };

    fn skip<'a>(names: &'a [&'static str]) -> &'a [&'static str] {
        let (_name, rest) = split(names);
        R::skip(rest)
    }

    fn has(names: &[&'static str], name: &[u8]) -> bool {
        let (first, rest) = split(names);
        first.as_bytes() == name || R::has(rest, name)
    }

    fn push_fields(
        alloc: Global,
        names: &[&'static str],
        mut fields: Vec<Field>,
    ) -> Result<Vec<Field>> {
        let (name, rest) = split(names);
        fields.push(F::field(alloc, name)?)?;
        R::push_fields(alloc, rest, fields)
    }

    fn from_members(
        alloc: Global,
        names: &[&'static str],
        mut members: Vec<(String, Data)>,
    ) -> Result<(F, R)> {
        let (name, rest) = split(names);
        let Some((found, datum)) = members.pop() else {
            let first = F::without_data(alloc)?;
            return Ok((first, R::from_members(alloc, rest, members)?));
        };
        if found.as_str() == name {
            let first = F::of_data(alloc, datum)?;
            Ok((first, R::from_members(alloc, rest, members)?))
        } else {
            members.push((found, datum))?;
            let first = F::without_data(alloc)?;
            Ok((first, R::from_members(alloc, rest, members)?))
        }
    }

    #[inline(always)]
    fn from_entries(
        reader: Reader,
        names: &[&'static str],
        entries: NodeEntries<'_, '_>,
    ) -> Result<(F, R)> {
        let (name, rest) = split(names);
        let first = nodes::by_name(reader, name, entries)?;
        let others = R::from_entries(reader, rest, entries)?;
        Ok((first, others))
    }

    #[inline(never)]
    fn from_places(
        reader: Reader,
        names: &[&'static str],
        items: &[ParsedValue<'_>],
        count: usize,
    ) -> Result<(F, R)> {
        let (_name, rest) = split(names);
        let first = nodes::by_place(reader, items, count)?;
        let others = R::from_places(reader, rest, nodes::after(items), count)?;
        Ok((first, others))
    }

    fn trace(
        reader: Reader,
        names: &[&'static str],
        entries: NodeEntries<'_, '_>,
        path: &mut Path,
    ) -> Result<(), AllocError> {
        let (name, rest) = split(names);
        if trace::is_unread::<F>(reader, name, entries, path)? {
            return Ok(());
        }
        R::trace(reader, rest, entries, path)
    }
}

/// Returns the first name, which is empty if there is none, and the others.
#[inline(always)]
pub(crate) fn split<'a, 'n>(names: &'a [&'n str]) -> (&'n str, &'a [&'n str])
    ensures first { result.0.now ≡ first_of (texts names.now) }
    ensures others { texts result.1.now ≡ others_of (texts names.now) }
{
    match names {
        [name, rest @ ..] => (*name, rest),
        [] => ("", names),
    }
}
