//! The keys of a map.

ghost use Rattle.std.specs.Prelude.{map, string_bytes};
ghost use Rattle.qs_data.specs.shape.Views.{key_shape_of};
ghost use Rattle.qs_c.specs.Notation.{comma_or_parenthesis, key, list_of, name};
ghost use Rattle.qs_c.specs.internal.Parses.{Parses};

use super::cursor::Cursor;
use super::stop::{Result, Stop};
use super::words::scalar_key;
use qs_data::KeyShape;
use std::alloc::Global;

/// Parses the shape of the keys.
#[tactic(auto, using(crate::proofs::Found::steps), unfolding(crate::specs::Notation::key))]
pub(crate) fn map_key(alloc: Global, cursor: &mut Cursor<'_>) -> Result<KeyShape>
    ensures { Parses key_shape_of (key cursor.old.rest.now) result cursor.new.rest.now }
{
    let word = cursor.word();
    if word == b"enum".as_slice() {
        cursor.expect(b'(', "`(` is wanted")?;
        return Ok(KeyShape::Variants(names(alloc, cursor)?));
    }
    scalar_key(word).ok_or(Stop::Fault("the word before is no shape of a key"))
}

// Parses names, up to the parenthesis that closes them.
fn names(alloc: Global, cursor: &mut Cursor<'_>) -> Result<Vec<String>>
    ensures { Parses (λ names. map string_bytes names.items) (list_of name 41 comma_or_parenthesis cursor.old.rest.now) result cursor.new.rest.now }
{
    let mut names = Vec::new(alloc);
    for at in 0..cursor.len() {
        names.push(cursor.name(alloc)?)?;
        if !cursor.goes_on(b')', "`,` or `)` is wanted")? {
            return Ok(names);
        }
    }
    Err(Stop::Fault("`,` or `)` is wanted"))
}
