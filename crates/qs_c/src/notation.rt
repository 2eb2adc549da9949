//! The notation of shapes.

mod class;
mod cursor;
mod keys;
mod shapes;
mod stop;
mod variants;
mod words;

ghost use Rattle.std.specs.Prelude.{◌≡◌, ◌⊎◌, [], true, IfOk, IfErr, OnOk};
ghost use Rattle.qs_spec.specs.Shape.{is_distinct};
ghost use Rattle.qs_data.specs.shape.Views.{shape_of};
ghost use Rattle.qs_c.specs.declared.failure.FailureKind.TheVariants as kind;
ghost use Rattle.qs_c.specs.Notation.{IsNotation, IsNoNotation, shape, whole};
ghost use Rattle.qs_c.specs.Found.{and_then};
ghost use Rattle.qs_c.specs.internal.Parses.{Parses};
ghost use Rattle.qs_c.specs.Status.{text_of, IsOutOfMemory};

use crate::failure::{Failure, FailureKind, failure_at};
use cursor::Cursor;
use qs_data::Shape;
use std::alloc::Global;
use stop::{Result, Stop};

/// How deep a shape may nest. With this limit a call needs little stack.
const MOST_LEVELS: usize = 32;

/// Parses a shape in the notation of docs/LIBRARY.md. No struct or enum in it has two fields or variants of the same name.
pub(crate) fn shape_of_text(alloc: Global, text: &[u8]) -> std::result::Result<Shape, Failure>
    ensures shape { IfOk result (λ shape. IsNotation text.now (shape_of shape)) }
    ensures distinct { IfOk result (λ shape. is_distinct (shape_of shape) ≡ true) }
    ensures none { IfErr result (λ failure. IsOutOfMemory failure ⊎ ((failure.kind ≡ kind.Shape) × IsNoNotation text.now (text_of failure) failure.position)) }
{
    let mut cursor = Cursor::new(text);
    match whole_shape(alloc, &mut cursor) {
        Ok(shape) => Ok(shape),
        Err(Stop::Fault(reason)) => {
            let position = text.len().saturating_sub(cursor.len());
            Err(failure_at(alloc, FailureKind::Shape, reason, position))
        }
        Err(Stop::OutOfMemory) => Err(Failure::out_of_memory()),
    }
}

// Parses a shape, after which the text has to end.
fn whole_shape(alloc: Global, cursor: &mut Cursor<'_>) -> Result<Shape>
    ensures shape { Parses shape_of (and_then (shape 32 cursor.old.rest.now) whole) result cursor.new.rest.now }
    ensures end { OnOk result (cursor.new.rest.now ≡ []) }
    ensures distinct { IfOk result (λ shape. is_distinct (shape_of shape) ≡ true) }
{
    let shape = shapes::shape(alloc, cursor, MOST_LEVELS)?;
    if cursor.len() > 0 {
        return Err(Stop::Fault("the shape has ended here"));
    }
    if !shape.is_distinct_by_sorting() {
        return Err(Stop::Fault("two fields or variants have the same name"));
    }
    Ok(shape)
}
