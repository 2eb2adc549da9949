//! The variants of an enum.

ghost use Rattle.std.specs.Prelude.{map};
ghost use Rattle.qs_data.specs.shape.Views.{kind_of, variant_of};
ghost use Rattle.qs_c.specs.Notation as n;
ghost use Rattle.qs_c.specs.internal.Parses.{Parses};

use super::cursor::Cursor;
use super::shapes::{fields, items, shape};
use super::stop::{Result, Stop};
use qs_data::{Variant, VariantKind};
use std::alloc::Global;

/// Parses variants, up to the parenthesis that closes them.
#[cycle(shape)]
#[tactic(auto, using(crate::proofs::Found::steps), unfolding(crate::specs::Notation::variants))]
pub(crate) fn variants(
    alloc: Global,
    cursor: &mut Cursor<'_>,
    levels: usize,
) -> Result<Vec<Variant>>
    ensures { Parses (λ variants. map variant_of variants.items) (n.variants (n.shape levels) cursor.old.rest.now) result cursor.new.rest.now }
{
    let mut variants = Vec::new(alloc);
    for at in 0..cursor.len() {
        variants.push(variant(alloc, cursor, levels)?)?;
        if !cursor.goes_on(b')', "`,` or `)` is wanted")? {
            return Ok(variants);
        }
    }
    Err(Stop::Fault("`,` or `)` is wanted"))
}

// Parses one variant: its name and what it holds.
#[cycle(shape)]
#[tactic(auto, using(crate::proofs::Found::steps), unfolding(crate::specs::Notation::variant))]
fn variant(alloc: Global, cursor: &mut Cursor<'_>, levels: usize) -> Result<Variant>
    ensures { Parses variant_of (n.variant (n.shape levels) cursor.old.rest.now) result cursor.new.rest.now }
{
    let name = cursor.name(alloc)?;
    let kind = kind(alloc, cursor, levels)?;
    Ok(Variant { name, kind })
}

// Parses what a variant holds: nothing, a value, `(shape, ..)`, `{name: shape, ..}` or `strict {name: shape, ..}`.
#[cycle(shape)]
#[tactic(auto, using(crate::proofs::Found::steps), unfolding(crate::specs::Notation::kind))]
fn kind(alloc: Global, cursor: &mut Cursor<'_>, levels: usize) -> Result<VariantKind>
    ensures { Parses kind_of (n.kind (n.shape levels) cursor.old.rest.now) result cursor.new.rest.now }
{
    if cursor.take(b'{') {
        return Ok(VariantKind::Struct(fields(alloc, cursor, levels)?));
    }
    if cursor.take_word(b"strict") {
        cursor.expect(b'{', "`{` is wanted")?;
        return Ok(VariantKind::StrictStruct(fields(alloc, cursor, levels)?));
    }
    if !cursor.take(b'(') {
        return Ok(VariantKind::Unit);
    }
    held(alloc, cursor, levels)
}

// Parses what a variant holds in parentheses: a value if there is no comma after it, or else a tuple.
#[cycle(shape)]
#[tactic(auto, using(crate::proofs::Found::steps), unfolding(crate::specs::Notation::held))]
fn held(alloc: Global, cursor: &mut Cursor<'_>, levels: usize) -> Result<VariantKind>
    ensures { Parses kind_of (n.held (n.shape levels) cursor.old.rest.now) result cursor.new.rest.now }
{
    let mut parts = Vec::new(alloc);
    if cursor.take(b')') {
        return Ok(VariantKind::Tuple(parts));
    }
    let first = shape(alloc, cursor, levels)?;
    if cursor.take(b')') {
        return Ok(VariantKind::Newtype(Box::new(alloc, first)?));
    }
    cursor.expect(b',', "`,` or `)` is wanted")?;
    parts.push(first)?;
    Ok(VariantKind::Tuple(items(alloc, cursor, levels, parts)?))
}
