//! Data that fits a shape.

mod scalar;

ghost use Rattle.std.specs.Prelude.{◌≡◌, ◌≤◌, Some, drop, length, IfSome};
ghost use Rattle.qs_spec.specs.Shape as s;
ghost use Rattle.qs_spec.specs.Fits.{fits, each_fits, fits_tuple, fits_pairs, fits_fields, variant_kind};
ghost use Rattle.qs_data.specs.data.Views.{data_of, values_in, pairs_in, members_in};
ghost use Rattle.qs_data.specs.shape.Views.{shape_of, key_shape_of, field_of, shapes_in, fields_in, variants_in};
ghost use Rattle.qs_data.specs.shape.Views as view;
ghost use Rattle.qs_data.specs.shape.internal.Fitting.{fits_variant, is_next, FitsField};

use crate::data::Data;
use crate::shape::fits::scalar::{
    fits_key, is_any_text, is_bool, is_bytes, is_char, is_signed, is_text, is_unit, is_unsigned,
};
use crate::shape::{Field, KeyShape, Shape, Variant, VariantKind, Width};

impl Shape {
    /// Returns whether the data fits this shape: each part is of the kind that the shape reads there.
    ///
    /// An `Unsigned` number fits the width of an unsigned shape, and a `Signed` number the width of a signed one. The shape names an
    /// enum's variant, and its shape of keys fits a map's keys. A tuple has the shape's length. The fields of a struct or a struct
    /// variant are fields of the shape, in its order, and only optional ones are missing. Nothing fits
    /// [`Any`](Shape::Any) or [`Ignored`](Shape::Ignored).
    ///
    /// If the data is also plain, and the names of the shape differ, the shape reads the data back from its written form: see
    /// [`Data::is_plain`] for the indexed format, and [`Data::is_listed`] for the others. Fitting alone isn't enough.
    ///
    /// Time grows with the size of the data and of the shape, and stack with their depth. It doesn't allocate.
    ///
    /// ```
    /// if !shape.fits(&data) {
    ///     return Err(Rejected::OtherKind);
    /// }
    /// ```
    pub fn fits(&self, datum: &Data) -> bool
        ensures { result ≡ fits (shape_of self.now) (data_of datum.now) }
    {
        fits(self, datum)
    }
}

// Returns whether data fits a shape.
#[cycle(fits)]
fn fits(shape: &Shape, datum: &Data) -> bool
    ensures { result ≡ fits (shape_of shape.now) (data_of datum.now) }
{
    match (shape, datum) {
        (Shape::Unit, _) => is_unit(datum),
        (Shape::Bool, _) => is_bool(datum),
        (Shape::U8, _) => is_unsigned(Width::Bits8, datum),
        (Shape::U16, _) => is_unsigned(Width::Bits16, datum),
        (Shape::U32, _) => is_unsigned(Width::Bits32, datum),
        (Shape::U64, _) => is_unsigned(Width::Bits64, datum),
        (Shape::I8, _) => is_signed(Width::Bits8, datum),
        (Shape::I16, _) => is_signed(Width::Bits16, datum),
        (Shape::I32, _) => is_signed(Width::Bits32, datum),
        (Shape::I64, _) => is_signed(Width::Bits64, datum),
        (Shape::Char, _) => is_char(datum),
        (Shape::Text, _) => is_text(datum),
        (Shape::Bytes, _) => is_bytes(datum),
        (Shape::Option(_), Data::None) => true,
        (Shape::Option(part), Data::Some(held)) => fits(part, held),
        (Shape::Newtype(part), Data::Newtype(held)) => fits(part, held),
        (Shape::Seq(part), Data::Seq(items)) => each_fits(part, items),
        (Shape::Tuple(parts), Data::Tuple(items)) => fits_items(parts, items),
        (Shape::Map(key, part), Data::Map(pairs)) => fits_pairs(key, part, pairs),
        (Shape::Struct(fields), _) | (Shape::StrictStruct(fields), _) => fits_struct(fields, datum),
        (Shape::Enum(variants), _) => fits_enum(variants, datum),
        _ => false,
    }
}

// Returns whether each item fits a shape.
#[cycle(fits)]
fn each_fits(part: &Shape, items: &Vec<Data>) -> bool
    ensures { result ≡ each_fits (shape_of part.now) (values_in items.now.items) }
{
    for item in items {
        if !fits(part, item) {
            return false;
        }
    }
    true
}

// Returns whether there are as many items as shapes, and each fits its shape.
#[cycle(fits)]
fn fits_items(parts: &Vec<Shape>, items: &Vec<Data>) -> bool
    ensures { result ≡ fits_tuple (shapes_in parts.now.items) (values_in items.now.items) }
{
    for (i, part) in parts.iter().enumerate() {
        let Some(item) = items.get(i) else {
            return false;
        };
        if !fits(part, item) {
            return false;
        }
    }
    items[parts.len()..].is_empty()
}

// Returns whether each key and each value fits.
#[cycle(fits)]
fn fits_pairs(key: &KeyShape, part: &Shape, pairs: &Vec<(Data, Data)>) -> bool
    ensures { result ≡ fits_pairs (key_shape_of key.now) (shape_of part.now) (pairs_in pairs.now.items) }
{
    for pair in pairs {
        if !fits_key(key, &pair.0) || !fits(part, &pair.1) {
            return false;
        }
    }
    true
}

// Returns whether data fits a struct.
#[cycle(fits)]
fn fits_struct(fields: &Vec<Field>, datum: &Data) -> bool
    ensures plain { result ≡ fits (s.Shape.struct s.UnknownKeys.ignored (fields_in fields.now.items)) (data_of datum.now) }
    ensures strict { result ≡ fits (s.Shape.struct s.UnknownKeys.rejected (fields_in fields.now.items)) (data_of datum.now) }
{
    match datum {
        Data::Struct(members) => fits_fields(fields, members),
        _ => false,
    }
}

// Returns whether the members are fields in their order, and only optional fields are missing.
#[cycle(fits)]
fn fits_fields(fields: &Vec<Field>, members: &Vec<(String, Data)>) -> bool
    ensures { result ≡ fits_fields (fields_in fields.now.items) (members_in members.now.items) }
{
    let mut at = 0;
    for field in fields {
        let Some(next) = fits_field(field, members, at) else {
            return false;
        };
        at = next;
    }
    members[at..].is_empty()
}

// Returns where the members that are left begin, if the next one fits the field or the field is optional.
#[cycle(fits)]
fn fits_field(field: &Field, members: &Vec<(String, Data)>, at: usize) -> Option<usize>
    requires { at ≤ length members.now.items }
    ensures within { IfSome result (λ next. next ≤ length members.now.items) }
    ensures fits { FitsField (field_of field.now) (members_in (drop at members.now.items)) result (λ next. members_in (drop next members.now.items)) }
{
    if !is_next(&members[at..], &field.name) {
        return if field.optional { Some(at) } else { None };
    }
    if fits(&field.shape, &members[at].1) {
        Some(at + 1)
    } else {
        None
    }
}

// Returns whether the first member has this name.
fn is_next(members: &[(String, Data)], name: &str) -> bool
    ensures { result ≡ is_next name.now (members_in members.now) }
{
    match members.first() {
        Some(member) => name == member.0.as_str(),
        None => false,
    }
}

// Returns whether data fits an enum.
#[cycle(fits)]
fn fits_enum(variants: &Vec<Variant>, datum: &Data) -> bool
    ensures { result ≡ fits (s.Shape.enumeration (variants_in variants.now.items)) (data_of datum.now) }
{
    match datum {
        Data::UnitVariant(name) => is_any_text(name) && fits_named(variants, name, datum),
        Data::NewtypeVariant(name, _) => is_any_text(name) && fits_named(variants, name, datum),
        Data::TupleVariant(name, _) => is_any_text(name) && fits_named(variants, name, datum),
        Data::StructVariant(name, _) => is_any_text(name) && fits_named(variants, name, datum),
        _ => false,
    }
}

// Returns whether the variant with a name is of the same kind as the data.
#[cycle(fits)]
fn fits_named(variants: &Vec<Variant>, name: &str, datum: &Data) -> bool
    ensures { result ≡ fits_variant (variant_kind name.now (variants_in variants.now.items)) (data_of datum.now) }
{
    for variant in variants {
        if variant.name.as_str() == name {
            return fits_kind(&variant.kind, datum);
        }
    }
    false
}

// Returns whether data is a variant of this kind, and what it holds fits.
#[cycle(fits)]
fn fits_kind(kind: &VariantKind, datum: &Data) -> bool
    ensures { result ≡ fits_variant (Some (view.kind_of kind.now)) (data_of datum.now) }
{
    match (kind, datum) {
        (VariantKind::Unit, Data::UnitVariant(_)) => true,
        (VariantKind::Newtype(part), Data::NewtypeVariant(_, held)) => fits(part, held),
        (VariantKind::Tuple(parts), Data::TupleVariant(_, items)) => fits_items(parts, items),
        (VariantKind::Struct(fields), _) | (VariantKind::StrictStruct(fields), _) => {
            fits_struct_variant(fields, datum)
        }
        _ => false,
    }
}

// Returns whether data is a variant with fields that fit.
#[cycle(fits)]
fn fits_struct_variant(fields: &Vec<Field>, datum: &Data) -> bool
    ensures plain { result ≡ fits_variant (Some (s.struct_kind s.UnknownKeys.ignored (fields_in fields.now.items))) (data_of datum.now) }
    ensures strict { result ≡ fits_variant (Some (s.struct_kind s.UnknownKeys.rejected (fields_in fields.now.items))) (data_of datum.now) }
{
    match datum {
        Data::StructVariant(_, members) => fits_fields(fields, members),
        _ => false,
    }
}
