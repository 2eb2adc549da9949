//! The fields of a struct that is written, by reference.

ghost use Rattle.std.specs.Prelude.{◌≡◌, refl, ℕ, List, [], ◌∷◌, ◌++◌, map, Some, option_map, IfOk};
ghost use Rattle.qs_spec.specs.Data.{Data as Datum, Named, members_of};
ghost use Rattle.qs_tree.specs.Error.{OnlyOutOfMemory};
ghost use Rattle.qs_data.specs.data.Views.{data_of, named};
ghost use Rattle.qs_data.specs.write.Parts.{WritesPart, members_part};
ghost use Rattle.serde_qs.specs.Records.{field_data, texts};
ghost use Rattle.serde_qs.specs.internal.OwnTables.{same_item, same_member, same_some};

use super::fields::split;
use crate::parts::write_under;
use crate::traits::{RoundTrip, Serialize};
use qs_data::{Data, Result, Scalar, WriteResult, Writer};
use std::alloc::Global;

/// References to the fields of a struct that is written, as nested pairs: `(&self.x, (&self.y, ()))`.
///
/// A field that is left out if it is None is a [`SkipNone`] in place of the reference.
///
/// ```
/// struct_of(alloc, &["x", "y"], (&self.x, (SkipNone(&self.y), ())))
/// ```
pub trait References: Sized {
    // The members of the fields, by their names.
    ghost members: { List (List ℕ) → Self → List Named };

    /// Returns these members, followed by the fields' members. The one error is [`OutOfMemory`](qs_data::Error::OutOfMemory). It allocates
    /// for the data and the names, which are copied, and the time grows with them.
    fn push_members(
        self,
        alloc: Global,
        names: &[&str],
        before: Vec<(String, Data)>,
    ) -> Result<Vec<(String, Data)>>
        ensures exact { IfOk result (λ all. map (named data_of) all.items ≡ map (named data_of) before.items ++ members (texts names.now) self) }
        ensures errors { OnlyOutOfMemory result };

    /// Writes the fields under their names, where the writer is. The errors, and what was written before each, are the same as for
    /// [`Writer::data`]. It allocates for the text, and as [`write_to`](Serialize::write_to) of each field does.
    fn write_members(self, names: &[&str], writer: &mut Writer) -> WriteResult
        ensures written { WritesPart result writer.old writer.new (members_part (members_of (members (texts names.now) self))) };
}

/// A field that is left out if it is None, for a field that is [`Optional`](crate::Optional).
///
/// ```
/// out.fields(NAMES, (&self.text, (SkipNone(&self.page), ())))
/// ```
#[derive(Drop)]
pub struct SkipNone<'a, T>(pub &'a Option<T>);

impl References for () {
    ghost members = { λ _ _. [] };

    fn push_members(
        self,
        _alloc: Global,
        _names: &[&str],
        before: Vec<(String, Data)>,
    ) -> Result<Vec<(String, Data)>> {
        Ok(before)
    }

    fn write_members(self, _names: &[&str], _writer: &mut Writer) -> WriteResult {
        Ok(())
    }
}

impl<'a, T: Serialize, R: References + Drop> References for (&'a T, R) {
    ghost members = { λ names x. field_data (Some (T.datum x.0.now)) (λ ns. R.members ns x.1) names };

    fn push_members(
        self,
        alloc: Global,
        names: &[&str],
        mut before: Vec<(String, Data)>,
    ) -> Result<Vec<(String, Data)>> {
        let (field, others) = self;
        let (name, rest) = split(names);
        let datum = field.to_data(alloc)?;
        let name = String::from_str(alloc, name)?;
        before.push((name, datum))?;
        others.push_members(alloc, rest, before)
    }

    fn write_members(self, names: &[&str], writer: &mut Writer) -> WriteResult {
        let (field, others) = self;
        let (name, rest) = split(names);
        write_under(writer, Scalar::Bytes(name.as_bytes()), field)?;
        others.write_members(rest, writer)
    }
}

impl<'a, T: Serialize, R: References + Drop> References for (SkipNone<'a, T>, R) {
    ghost members = { λ names x. field_data (option_map T.datum x.0.0.now) (λ ns. R.members ns x.1) names };

    fn push_members(
        self,
        alloc: Global,
        names: &[&str],
        before: Vec<(String, Data)>,
    ) -> Result<Vec<(String, Data)>> {
        let (SkipNone(field), others) = self;
        match field {
            Some(value) => (value, others).push_members(alloc, names, before),
            None => others.push_members(alloc, split(names).1, before),
        }
    }

    fn write_members(self, names: &[&str], writer: &mut Writer) -> WriteResult {
        let (SkipNone(field), others) = self;
        match field {
            Some(value) => (value, others).write_members(names, writer),
            None => others.write_members(split(names).1, writer),
        }
    }
}

/// References to fields whose values come back, for [`Out::fields`](crate::Destination::fields).
///
/// ```
/// out.fields(NAMES, (&self.x, (&self.y, ())))
/// ```
pub trait FieldReferences: References {
    // The members of the fields, by their names, in the words of the fields' tables.
    ghost own_members: { List (List ℕ) → Self → List Named };

    // These are the members that are written.
    ghost same: { (names : List (List ℕ)) (x : Self) → Self.members names x ≡ own_members names x };
}

impl FieldReferences for () {
    ghost own_members = { λ _ _. [] };

    ghost same = { λ _ _. refl };
}

impl<'a, T: RoundTrip, R: FieldReferences + Drop> FieldReferences for (&'a T, R) {
    ghost own_members = { λ names x. field_data (Some (T.table.datum x.0.now)) (λ ns. R.own_members ns x.1) names };

    ghost same = { λ names x. same_member (same_some T.same_datum (Some x.0.now)) (λ ns. R.same ns x.1) names };
}

impl<'a, T: RoundTrip, R: FieldReferences + Drop> FieldReferences for (SkipNone<'a, T>, R) {
    ghost own_members = { λ names x. field_data (option_map T.table.datum x.0.0.now) (λ ns. R.own_members ns x.1) names };

    ghost same = { λ names x. same_member (same_some T.same_datum x.0.0.now) (λ ns. R.same ns x.1) names };
}

/// References to the items of a tuple that is written, as nested pairs: `(&self.0, (&self.1, ()))`.
///
/// ```
/// tuple_struct(alloc, (&self.0, (&self.1, ())))
/// ```
pub trait ItemReferences: Sized {
    // The data of the items.
    ghost listed: { Self → List Datum };

    /// Returns this data, followed by the items' data. The one error is [`OutOfMemory`](qs_data::Error::OutOfMemory). It allocates for the
    /// data, and the time grows with it.
    fn push_items(self, alloc: Global, before: Vec<Data>) -> Result<Vec<Data>>
        ensures exact { IfOk result (λ all. map data_of all.items ≡ map data_of before.items ++ listed self) }
        ensures errors { OnlyOutOfMemory result };
}

impl ItemReferences for () {
    ghost listed = { λ _. [] };

    fn push_items(self, _alloc: Global, before: Vec<Data>) -> Result<Vec<Data>> {
        Ok(before)
    }
}

impl<'a, T: Serialize, R: ItemReferences + Drop> ItemReferences for (&'a T, R) {
    ghost listed = { λ x. T.datum x.0.now ∷ R.listed x.1 };

    fn push_items(self, alloc: Global, mut before: Vec<Data>) -> Result<Vec<Data>> {
        let (item, others) = self;
        before.push(item.to_data(alloc)?)?;
        others.push_items(alloc, before)
    }
}

/// References to items whose values come back, for [`Out::items`](crate::Destination::items).
///
/// ```
/// out.items((&self.0, (&self.1, ())))
/// ```
pub trait ListedReferences: ItemReferences {
    // The data of the items, in the words of their tables.
    ghost own_data: { Self → List Datum };

    // This is the data that is written.
    ghost same: { (x : Self) → Self.listed x ≡ own_data x };
}

impl ListedReferences for () {
    ghost own_data = { λ _. [] };

    ghost same = { λ _. refl };
}

impl<'a, T: RoundTrip, R: ListedReferences + Drop> ListedReferences for (&'a T, R) {
    ghost own_data = { λ x. T.table.datum x.0.now ∷ R.own_data x.1 };

    ghost same = { λ x. same_item (T.same_datum x.0.now) (R.same x.1) };
}
