//! Shapes and their parts.

ghost use Rattle.std.specs.Prelude.{map};
ghost use Rattle.qs_data.specs.shape.Views.{field_of, shape_of};
ghost use Rattle.qs_c.specs.Found.{before};
ghost use Rattle.qs_c.specs.Notation as n;
ghost use Rattle.qs_c.specs.internal.Parses.{Parses};

use super::cursor::Cursor;
use super::keys::map_key;
use super::stop::{Result, Stop};
use super::variants::variants;
use super::words::scalar;
use qs_data::{Field, Shape};
use std::alloc::Global;

/// Parses the next shape, which may nest at most `levels` deep.
#[cycle(shape)]
#[tactic(auto, using(crate::proofs::Found::steps), unfolding(crate::specs::Notation::shape))]
pub(crate) fn shape(alloc: Global, cursor: &mut Cursor<'_>, levels: usize) -> Result<Shape>
    ensures { Parses shape_of (n.shape levels cursor.old.rest.now) result cursor.new.rest.now }
{
    if levels == 0 {
        return Err(Stop::Fault("the shape nests more than 32 levels"));
    }
    let shape = base(alloc, cursor, levels - 1)?;
    options(alloc, cursor, levels - 1, shape)
}

// Takes at most `most` `?`s, and returns the shape in an option for each.
#[tactic(auto, using(crate::proofs::Found::steps), unfolding(crate::specs::Notation::options))]
fn options(alloc: Global, cursor: &mut Cursor<'_>, most: usize, shape: Shape) -> Result<Shape>
    ensures { Parses shape_of (n.options most (shape_of shape) cursor.old.rest.now) result cursor.new.rest.now }
{
    let mut shape = shape;
    for at in 0..most {
        if !cursor.take(b'?') {
            return Ok(shape);
        }
        shape = Shape::Option(Box::new(alloc, shape)?);
    }
    Ok(shape)
}

// Parses a shape, without the `?`s after it.
#[cycle(shape)]
#[tactic(auto, using(crate::proofs::Found::steps), unfolding(crate::specs::Notation::base))]
fn base(alloc: Global, cursor: &mut Cursor<'_>, levels: usize) -> Result<Shape>
    ensures { Parses shape_of (n.base (n.shape levels) cursor.old.rest.now) result cursor.new.rest.now }
{
    if cursor.take(b'[') {
        return list(alloc, cursor, levels);
    }
    if cursor.take(b'{') {
        return Ok(Shape::Struct(fields(alloc, cursor, levels)?));
    }
    if cursor.take(b'(') {
        return Ok(Shape::Tuple(items(alloc, cursor, levels, Vec::new(alloc))?));
    }
    let word = cursor.word();
    named(alloc, cursor, levels, word)
}

// Parses a list, up to the bracket that closes it.
#[cycle(shape)]
#[tactic(auto, using(crate::proofs::Found::steps), unfolding(crate::specs::Notation::list))]
fn list(alloc: Global, cursor: &mut Cursor<'_>, levels: usize) -> Result<Shape>
    ensures { Parses shape_of (n.list (n.shape levels) cursor.old.rest.now) result cursor.new.rest.now }
{
    let item = shape(alloc, cursor, levels)?;
    cursor.expect(b']', "`]` is wanted")?;
    Ok(Shape::Seq(Box::new(alloc, item)?))
}

// Parses a shape that begins with this word.
#[cycle(shape)]
#[tactic(auto, using(crate::proofs::Found::steps), unfolding(crate::specs::Notation::named))]
fn named(alloc: Global, cursor: &mut Cursor<'_>, levels: usize, word: &[u8]) -> Result<Shape>
    ensures { Parses shape_of (n.named (n.shape levels) word.now cursor.old.rest.now) result cursor.new.rest.now }
{
    if word == b"map".as_slice() {
        return map(alloc, cursor, levels);
    }
    if word == b"newtype".as_slice() {
        return newtype(alloc, cursor, levels);
    }
    if word == b"strict".as_slice() {
        cursor.expect(b'{', "`{` is wanted")?;
        return Ok(Shape::StrictStruct(fields(alloc, cursor, levels)?));
    }
    if word == b"enum".as_slice() {
        cursor.expect(b'(', "`(` is wanted")?;
        return Ok(Shape::Enum(variants(alloc, cursor, levels)?));
    }
    scalar(word).ok_or(Stop::Fault("the word before is no shape"))
}

// Parses the shape in a newtype, in parentheses.
#[cycle(shape)]
#[tactic(auto, using(crate::proofs::Found::steps), unfolding(crate::specs::Notation::newtype))]
fn newtype(alloc: Global, cursor: &mut Cursor<'_>, levels: usize) -> Result<Shape>
    ensures { Parses shape_of (n.newtype (n.shape levels) cursor.old.rest.now) result cursor.new.rest.now }
{
    cursor.expect(b'(', "`(` is wanted")?;
    let inner = shape(alloc, cursor, levels)?;
    cursor.expect(b')', "`)` is wanted")?;
    Ok(Shape::Newtype(Box::new(alloc, inner)?))
}

// Parses the shapes of a map's keys and values, in parentheses.
#[cycle(shape)]
#[tactic(auto, using(crate::proofs::Found::steps), unfolding(crate::specs::Notation::map))]
fn map(alloc: Global, cursor: &mut Cursor<'_>, levels: usize) -> Result<Shape>
    ensures { Parses shape_of (n.map (n.shape levels) cursor.old.rest.now) result cursor.new.rest.now }
{
    cursor.expect(b'(', "`(` is wanted")?;
    let key = map_key(alloc, cursor)?;
    cursor.expect(b',', "`,` is wanted")?;
    let value = shape(alloc, cursor, levels)?;
    cursor.expect(b')', "`)` is wanted")?;
    Ok(Shape::Map(key, Box::new(alloc, value)?))
}

/// Parses fields, up to the brace that closes them.
#[cycle(shape)]
#[tactic(auto, using(crate::proofs::Found::steps), unfolding(crate::specs::Notation::fields))]
pub(crate) fn fields(alloc: Global, cursor: &mut Cursor<'_>, levels: usize) -> Result<Vec<Field>>
    ensures { Parses (λ fields. map field_of fields.items) (n.fields (n.shape levels) cursor.old.rest.now) result cursor.new.rest.now }
{
    let mut fields = Vec::new(alloc);
    if cursor.take(b'}') {
        return Ok(fields);
    }
    for at in 0..cursor.len() {
        fields.push(field(alloc, cursor, levels)?)?;
        if !cursor.goes_on(b'}', "`,` or `}` is wanted")? {
            return Ok(fields);
        }
    }
    Err(Stop::Fault("`,` or `}` is wanted"))
}

// Parses a field: its name, `?` if it may be left out, and its shape.
#[cycle(shape)]
#[tactic(auto, using(crate::proofs::Found::steps), unfolding(crate::specs::Notation::field))]
fn field(alloc: Global, cursor: &mut Cursor<'_>, levels: usize) -> Result<Field>
    ensures { Parses field_of (n.field (n.shape levels) cursor.old.rest.now) result cursor.new.rest.now }
{
    let name = cursor.name(alloc)?;
    let optional = cursor.take(b'?');
    cursor.expect(b':', "`:` is wanted")?;
    let shape = shape(alloc, cursor, levels)?;
    Ok(Field {
        name,
        shape,
        optional,
    })
}

/// Parses shapes, up to the parenthesis that closes them, and appends them to `items`.
#[cycle(shape)]
#[tactic(auto, using(crate::proofs::Found::steps), unfolding(crate::specs::Notation::items))]
pub(crate) fn items(
    alloc: Global,
    cursor: &mut Cursor<'_>,
    levels: usize,
    mut items: Vec<Shape>,
) -> Result<Vec<Shape>>
    ensures { Parses (λ items. map shape_of items.items) (before (map shape_of items.items) (n.items (n.shape levels) cursor.old.rest.now)) result cursor.new.rest.now }
{
    if cursor.take(b')') {
        return Ok(items);
    }
    for at in 0..cursor.len() {
        items.push(shape(alloc, cursor, levels)?)?;
        if !cursor.goes_on(b')', "`,` or `)` is wanted")? {
            return Ok(items);
        }
    }
    Err(Stop::Fault("`,` or `)` is wanted"))
}
