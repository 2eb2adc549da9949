//! The variants of an enum, one after another.

ghost use Rattle.std.specs.Prelude.{◌≡◌, ◌&&◌, ◌++◌, map, option_and_then, option_map, true, IfOk};
ghost use Rattle.std.specs.Str.{is_utf8};
ghost use Rattle.qs_spec.specs.Segment.{segment_text};
ghost use Rattle.qs_spec.specs.Shape as s;
ghost use Rattle.qs_spec.specs.Shape.{are_distinct_variants, variants_of};
ghost use Rattle.qs_tree.specs.Error.{OnlyOutOfMemory};
ghost use Rattle.qs_tree.specs.tree.Views.{segment_of_key, tree_of};
ghost use Rattle.qs_data.specs.data.Views.{data_of};
ghost use Rattle.qs_data.specs.read.Gives.{Gives};
ghost use Rattle.qs_data.specs.read.Held.{held_is_text, reads_variant};
ghost use Rattle.qs_data.specs.read.TreeText.{is_text};
ghost use Rattle.qs_data.specs.shape.Views.{variant_of};
ghost use Rattle.serde_qs.specs.Held.{variant_held};
ghost use Rattle.serde_qs.specs.Nodes.{ReadsNode};
ghost use Rattle.serde_qs.specs.PartTables.{VariantsTable, last_variant, one_variant};
ghost use Rattle.serde_qs.specs.Records.{texts};
ghost use Rattle.serde_qs.specs.Typed.{GivesValue};
ghost use Rattle.serde_qs.specs.Variants.{name_in};

use super::fields::split;
use super::payloads::Payload;
use crate::traits::unexpected;
use itoa::Buffer;
use qs_data::{Data, Reader, Result, Variant};
use qs_tree::{Key, ParsedValue};
use std::alloc::Global;

/// One of the variants of an enum: the first, or one of those after it.
///
/// ```
/// match parts {
///     First(()) => Sort::Relevance,
///     Later(Last(Newtype(name))) => Sort::By(name),
/// }
/// ```
#[derive(Debug, PartialEq, Drop)]
pub enum OneOf<V, R> {
    First(V),
    Later(R),
}

/// The last variant of an enum. An enum of one variant has it alone, as `Enum<Last<()>>`.
///
/// ```
/// type SortParts = Enum<OneOf<(), Last<Newtype<String>>>>;
/// ```
#[derive(Debug, PartialEq, Drop)]
pub struct Last<V>(pub V);

/// The variants of an enum. It is implemented for [`OneOf`] and [`Last`] alone; a user names them in an [`Enum`](crate::Enum).
///
/// ```
/// type SortParts = Enum<OneOf<(), OneOf<Newtype<String>, Last<Struct<(u32, (u32, ()))>>>>>;
/// ```
pub trait Variants: Sized {
    // How they are read and written, by their names (a variant's name precedes its fields' names), with the proofs that belong to them.
    ghost table: { VariantsTable Self };

    /// Returns these variants, followed in order by what is read for the variants of these names. The one error is
    /// [`OutOfMemory`](qs_data::Error::OutOfMemory). It allocates for the names, which are copied, and the nested shapes.
    fn push_variants(
        alloc: Global,
        names: &[&'static str],
        variants: Vec<Variant>,
    ) -> Result<Vec<Variant>>
        ensures exact { IfOk result (λ all. map variant_of all.items ≡ map variant_of variants.items ++ table.shape (texts names.now)) }
        ensures errors { OnlyOutOfMemory result };

    /// Returns the variant that data means. It returns the same errors as [`from_data`](crate::Deserialize::from_data). It allocates as
    /// `from_data` of each part does, and compares at most one name for each variant.
    fn from_variant(alloc: Global, names: &[&'static str], datum: Data) -> Result<Self>
        ensures { GivesValue table.value result (table.meaning (texts names.now) (data_of datum)) };

    /// Returns the variant of a name, read from the value that it holds. If a string alone names it, it holds none. It returns the same
    /// errors as [`from_node`](crate::Deserialize::from_node). It allocates as `from_node` of each part does, and compares at most one name
    /// for each variant.
    fn from_name(
        reader: Reader,
        names: &[&'static str],
        name: &[u8],
        held: Option<&ParsedValue<'_>>,
    ) -> Result<Self>
        requires { are_distinct_variants (variants_of (table.shape (texts names.now))) ≡ true }
        ensures { let t = option_map (λ v. tree_of v.now) held.entry in
            Gives table.value (is_utf8 name.now && held_is_text t) result
            (option_and_then (table.meaning (texts names.now)) (variant_held reader.reject_duplicates (variants_of (table.shape (texts names.now))) name.now t)) };
}

impl<V: Payload> Variants for Last<V> {
    ghost table = { last_variant V.table };

    fn push_variants(
        alloc: Global,
        names: &[&'static str],
        mut variants: Vec<Variant>,
    ) -> Result<Vec<Variant>> {
        let (name, rest) = split(names);
        let kind = V::kind(alloc, rest)?;
        let name = String::from_str(alloc, name)?;
        variants.push(Variant { name, kind })?;
        Ok(variants)
    }

    fn from_variant(alloc: Global, names: &[&'static str], datum: Data) -> Result<Last<V>> {
        let (name, rest) = split(names);
        if name_of(&datum) != name {
            return Err(unexpected(alloc, "a variant"));
        }
        Ok(Last(V::from_data(alloc, rest, datum)?))
    }

    fn from_name(
        reader: Reader,
        names: &[&'static str],
        name: &[u8],
        held: Option<&ParsedValue<'_>>,
    ) -> Result<Last<V>> {
        let (own_name, rest) = split(names);
        if own_name.as_bytes() == name {
            Ok(Last(V::from_node(reader, rest, held)?))
        } else {
            Err(reader.unknown_variant(name))
        }
    }
}

impl<V: Payload, R: Variants> Variants for OneOf<V, R> {
    ghost table = { one_variant V.table R.table };

    fn push_variants(
        alloc: Global,
        names: &[&'static str],
        variants: Vec<Variant>,
    ) -> Result<Vec<Variant>> {
        let variants = Last::<V>::push_variants(alloc, names, variants)?;
        R::push_variants(alloc, V::skip(split(names).1), variants)
    }

    fn from_variant(alloc: Global, names: &[&'static str], datum: Data) -> Result<OneOf<V, R>> {
        let (name, rest) = split(names);
        if name_of(&datum) == name {
            Ok(OneOf::First(V::from_data(alloc, rest, datum)?))
        } else {
            Ok(OneOf::Later(R::from_variant(alloc, V::skip(rest), datum)?))
        }
    }

    fn from_name(
        reader: Reader,
        names: &[&'static str],
        name: &[u8],
        held: Option<&ParsedValue<'_>>,
    ) -> Result<OneOf<V, R>> {
        let (own_name, rest) = split(names);
        if own_name.as_bytes() == name {
            Ok(OneOf::First(V::from_node(reader, rest, held)?))
        } else {
            Ok(OneOf::Later(R::from_name(reader, V::skip(rest), name, held)?))
        }
    }
}

/// Returns the variant that a node names: the smallest key of a map names the variant that holds its value, and a string names a unit
/// variant.
#[tactic(auto, unfolding(qs_spec::specs::internal::ReadFunction::reads, qs_spec::specs::internal::ReadFunction::read_enum))]
pub(crate) fn variant_of<V: Variants>(
    reader: Reader,
    names: &[&'static str],
    node: &ParsedValue<'_>,
) -> Result<V>
    requires { are_distinct_variants (variants_of (V.table.shape (texts names.now))) ≡ true }
    ensures { ReadsNode V.table.value (s.Shape.enumeration (variants_of (V.table.shape (texts names.now)))) (V.table.meaning (texts names.now)) reader.reject_duplicates (tree_of node.now) result }
{
    match node {
        ParsedValue::String(name) => V::from_name(reader, names, name.as_slice(), None),
        ParsedValue::Map(map) => match map.at(0) {
            Some((key, held)) => under_key(reader, names, key, held),
            None => Err(reader.not_an_enum(node)),
        },
        _ => Err(reader.not_an_enum(node)),
    }
}

// Returns the variant that a key names, read from the value under it.
fn under_key<V: Variants>(
    reader: Reader,
    names: &[&'static str],
    key: &Key<'_>,
    held: &ParsedValue<'_>,
) -> Result<V>
    requires { are_distinct_variants (variants_of (V.table.shape (texts names.now))) ≡ true }
    ensures { let name = segment_text (segment_of_key key.now) in let t = tree_of held.now in
        Gives V.table.value (is_utf8 name && is_text t) result
        (option_and_then (V.table.meaning (texts names.now)) (reads_variant reader.reject_duplicates (variants_of (V.table.shape (texts names.now))) name t)) }
{
    match key {
        Key::Int(number) => {
            let mut buffer = Buffer::new();
            V::from_name(reader, names, buffer.format(*number).as_bytes(), Some(held))
        }
        Key::String(text) => V::from_name(reader, names, text.as_slice(), Some(held)),
    }
}

// Returns the name of a variant, which is empty for other data.
fn name_of(datum: &Data) -> &str
    ensures { result.now ≡ name_in (data_of datum.now) }
{
    match datum {
        Data::UnitVariant(name) => name.as_str(),
        Data::NewtypeVariant(name, _) => name.as_str(),
        Data::TupleVariant(name, _) => name.as_str(),
        Data::StructVariant(name, _) => name.as_str(),
        _ => "",
    }
}
