//! Shapes whose names differ.

ghost use Rattle.std.specs.Prelude.{◌≡◌, ◌&&◌, map, string_bytes, IfOk};
ghost use Rattle.std.specs.List.{list_any};
ghost use Rattle.std.specs.Str.{bytes_eq};
ghost use Rattle.qs_spec.specs.Shape.{is_distinct, are_distinct, are_distinct_fields, are_distinct_variants, is_distinct_kind, is_distinct_key, field_names_differ, variant_names_differ, names_differ, is_field_name, is_variant_name};
ghost use Rattle.qs_data.specs.shape.Views.{shape_of, kind_of, key_shape_of, shapes_in, fields_in, variants_in};

use crate::data::add_text;
use crate::shape::{Field, KeyShape, Shape, Variant, VariantKind};
use std::alloc::{AllocError, Global};
use std::collections::BTreeSet;

/// How names of one list are compared.
#[derive(Clone, Copy)]
enum Comparing {
    /// Each with those after it.
    TwoByTwo,
    /// By a sorted set, if it can be allocated and there are more than a few.
    Sorted,
}

/// How many names of a list are always compared pairwise.
const FEW: usize = 16;

impl Shape {
    /// Returns whether the names of the fields differ in each struct and struct variant, and the names of the variants in each enum and key
    /// shape, at every depth. [`Deserializer::read`](crate::Deserializer::read) requires this.
    ///
    /// Each name is compared with those after it in its list, so the time is quadratic in the length of a list: 1,000 names take
    /// milliseconds, and 100,000 many seconds. Stack grows with the depth of the shape. It doesn't allocate.
    /// [`is_distinct_by_sorting`](Shape::is_distinct_by_sorting) returns the same, in less time for long lists.
    ///
    /// ```
    /// if !shape.is_distinct() {
    ///     return Err(Rejected::OneNameTwice);
    /// }
    /// ```
    pub fn is_distinct(&self) -> bool
        ensures { result ≡ is_distinct (shape_of self.now) }
    {
        self.has_distinct_names(Comparing::TwoByTwo)
    }

    /// Returns the same as [`is_distinct`](Shape::is_distinct).
    ///
    /// If a list has more than 16 names, they are put into a sorted set, so the time grows with the number of names and the logarithm of a
    /// list's length. The set allocates; if an allocation fails, the names are compared pairwise. Stack grows with the depth of the shape.
    ///
    /// ```
    /// if !shape.is_distinct_by_sorting() {
    ///     return Err(Rejected::OneNameTwice);
    /// }
    /// ```
    pub fn is_distinct_by_sorting(&self) -> bool
        ensures { result ≡ is_distinct (shape_of self.now) }
    {
        self.has_distinct_names(Comparing::Sorted)
    }

    // Returns whether names differ.
    #[cycle(distinct)]
    fn has_distinct_names(&self, comparing: Comparing) -> bool
        ensures { result ≡ is_distinct (shape_of self.now) }
    {
        match self {
            Shape::Option(part) | Shape::Seq(part) | Shape::Newtype(part) => {
                part.has_distinct_names(comparing)
            }
            Shape::Tuple(parts) => are_distinct(parts, comparing),
            Shape::Map(key, part) => {
                is_distinct_key(key, comparing) && part.has_distinct_names(comparing)
            }
            Shape::Struct(fields) | Shape::StrictStruct(fields) => {
                is_distinct_struct(fields, comparing)
            }
            Shape::Enum(variants) => variant_names_differ(variants, comparing)
                && are_distinct_variants(variants, comparing),
            _ => true,
        }
    }
}

// Returns whether names differ in each shape.
#[cycle(distinct)]
fn are_distinct(shapes: &Vec<Shape>, comparing: Comparing) -> bool
    ensures { result ≡ are_distinct (shapes_in shapes.now.items) }
{
    for shape in shapes {
        if !shape.has_distinct_names(comparing) {
            return false;
        }
    }
    true
}

// Returns whether the names of fields differ, and the names in the shape of each field.
#[cycle(distinct)]
fn is_distinct_struct(fields: &Vec<Field>, comparing: Comparing) -> bool
    ensures { result ≡ (field_names_differ (fields_in fields.now.items) && are_distinct_fields (fields_in fields.now.items)) }
{
    field_names_differ(fields, comparing) && are_distinct_fields(fields, comparing)
}

// Returns whether names differ in the shape of each field.
#[cycle(distinct)]
fn are_distinct_fields(fields: &Vec<Field>, comparing: Comparing) -> bool
    ensures { result ≡ are_distinct_fields (fields_in fields.now.items) }
{
    for field in fields {
        if !field.shape.has_distinct_names(comparing) {
            return false;
        }
    }
    true
}

// Returns whether names differ in what each variant holds.
#[cycle(distinct)]
fn are_distinct_variants(variants: &Vec<Variant>, comparing: Comparing) -> bool
    ensures { result ≡ are_distinct_variants (variants_in variants.now.items) }
{
    for variant in variants {
        if !is_distinct_kind(&variant.kind, comparing) {
            return false;
        }
    }
    true
}

// Returns whether names differ in what a variant holds.
#[cycle(distinct)]
fn is_distinct_kind(kind: &VariantKind, comparing: Comparing) -> bool
    ensures { result ≡ is_distinct_kind (kind_of kind.now) }
{
    match kind {
        VariantKind::Unit => true,
        VariantKind::Newtype(part) => part.has_distinct_names(comparing),
        VariantKind::Tuple(parts) => are_distinct(parts, comparing),
        VariantKind::Struct(fields) | VariantKind::StrictStruct(fields) => {
            is_distinct_struct(fields, comparing)
        }
    }
}

// Returns whether names differ in the shape of a key.
fn is_distinct_key(key: &KeyShape, comparing: Comparing) -> bool
    ensures { result ≡ is_distinct_key (key_shape_of key.now) }
{
    match key {
        KeyShape::Variants(names) => names_differ(names, comparing),
        _ => true,
    }
}

// Returns whether the names of fields differ.
fn field_names_differ(fields: &Vec<Field>, comparing: Comparing) -> bool
    ensures { result ≡ field_names_differ (fields_in fields.now.items) }
{
    if matches!(comparing, Comparing::Sorted) && fields.len() > FEW {
        if let Ok(differ) = many_field_names_differ(fields, *fields.allocator()) {
            return differ;
        }
    }
    few_field_names_differ(fields)
}

// Returns whether the names of fields differ, by a sorted set of them. Returns an error only if an allocation failed.
fn many_field_names_differ(fields: &[Field], alloc: Global) -> Result<bool, AllocError>
    ensures { IfOk result (λ differ. differ ≡ field_names_differ (fields_in fields.now)) }
{
    let mut names = BTreeSet::new(alloc);
    let mut differ = true;
    for i in (0..fields.len()).rev() {
        differ &= add_text(fields[i].name.as_bytes(), alloc, &mut names)?;
    }
    Ok(differ)
}

// Returns whether the names of fields differ, by comparing each with those after it.
fn few_field_names_differ(fields: &[Field]) -> bool
    ensures { result ≡ field_names_differ (fields_in fields.now) }
{
    for (i, field) in fields.iter().enumerate() {
        if is_field_name(&fields[i + 1..], field.name.as_bytes()) {
            return false;
        }
    }
    true
}

/// Returns whether the text of a key is one of the fields' names.
pub(crate) fn is_field_name(fields: &[Field], name: &[u8]) -> bool
    ensures { result ≡ is_field_name name.now (fields_in fields.now) }
{
    fields.iter().any(|field| field.name.as_bytes() == name)
}

// Returns whether the names of variants differ.
fn variant_names_differ(variants: &Vec<Variant>, comparing: Comparing) -> bool
    ensures { result ≡ variant_names_differ (variants_in variants.now.items) }
{
    if matches!(comparing, Comparing::Sorted) && variants.len() > FEW {
        if let Ok(differ) = many_variant_names_differ(variants, *variants.allocator()) {
            return differ;
        }
    }
    few_variant_names_differ(variants)
}

// Returns whether the names of variants differ, by a sorted set of them. Returns an error only if an allocation failed.
fn many_variant_names_differ(variants: &[Variant], alloc: Global) -> Result<bool, AllocError>
    ensures { IfOk result (λ differ. differ ≡ variant_names_differ (variants_in variants.now)) }
{
    let mut names = BTreeSet::new(alloc);
    let mut differ = true;
    for i in (0..variants.len()).rev() {
        differ &= add_text(variants[i].name.as_bytes(), alloc, &mut names)?;
    }
    Ok(differ)
}

// Returns whether the names of variants differ, by comparing each with those after it.
fn few_variant_names_differ(variants: &[Variant]) -> bool
    ensures { result ≡ variant_names_differ (variants_in variants.now) }
{
    for (i, variant) in variants.iter().enumerate() {
        if is_variant_name(&variants[i + 1..], &variant.name) {
            return false;
        }
    }
    true
}

// Returns whether one of the variants has this name.
fn is_variant_name(variants: &[Variant], name: &str) -> bool
    ensures { result ≡ is_variant_name name.now (variants_in variants.now) }
{
    variants.iter().any(|variant| variant.name.as_str() == name)
}

// Returns whether the names of a key's variants differ.
fn names_differ(names: &Vec<String>, comparing: Comparing) -> bool
    ensures { result ≡ names_differ (map string_bytes names.now.items) }
{
    if matches!(comparing, Comparing::Sorted) && names.len() > FEW {
        if let Ok(differ) = many_names_differ(names, *names.allocator()) {
            return differ;
        }
    }
    few_names_differ(names)
}

// Returns whether the names of a key's variants differ, by a sorted set of them. Returns an error only if an allocation failed.
fn many_names_differ(names: &[String], alloc: Global) -> Result<bool, AllocError>
    ensures { IfOk result (λ differ. differ ≡ names_differ (map string_bytes names.now)) }
{
    let mut texts = BTreeSet::new(alloc);
    let mut differ = true;
    for i in (0..names.len()).rev() {
        differ &= add_text(names[i].as_bytes(), alloc, &mut texts)?;
    }
    Ok(differ)
}

// Returns whether the names of a key's variants differ, by comparing each with those after it.
fn few_names_differ(names: &[String]) -> bool
    ensures { result ≡ names_differ (map string_bytes names.now) }
{
    for (i, name) in names.iter().enumerate() {
        if is_name(&names[i + 1..], name) {
            return false;
        }
    }
    true
}

/// Returns whether a name is one of these.
pub(crate) fn is_name(names: &[String], name: &str) -> bool
    ensures { result ≡ list_any (bytes_eq name.now) (map string_bytes names.now) }
{
    names.iter().any(|other| name == other.as_str())
}
