//! Shapes to be read, and how much was read.

use crate::types::{Ids, Nested, Person, Record};
use qs_data::{Data, Field, Result, Shape};
use serde_qs::Deserialize;
use std::alloc::Global;
use std::collections::BTreeMap;

/// What is read, and how it is measured.
#[derive(Drop)]
pub(crate) struct Load {
    pub(crate) shape: Shape,
    /// The size of a number.
    each: usize,
}

/// Returns the load with this number, if there is one: the shapes of the types, and a text under one field.
pub(crate) fn numbered_load(alloc: Global, number: usize) -> Result<Option<Load>> {
    let shape = match number {
        0 => BTreeMap::<String, String>::shape(alloc)?,
        1 => Record::shape(alloc)?,
        2 => Ids::shape(alloc)?,
        3 => text(alloc)?,
        4 => Person::shape(alloc)?,
        5 => Nested::shape(alloc)?,
        _ => return Ok(None),
    };
    let each = if number == 2 { 1 } else { 0 };
    Ok(Some(Load { shape, each }))
}

// Returns the shape of a text under one field.
fn text(alloc: Global) -> Result<Shape> {
    let field = Field {
        name: String::from_str(alloc, "a")?,
        shape: Shape::Text,
        optional: false,
    };
    let mut fields = Vec::new(alloc);
    fields.push(field)?;
    Ok(Shape::Struct(fields))
}

impl Load {
    /// Returns the size of the data, or `None` if it doesn't fit a `usize`.
    pub(crate) fn size_of(&self, datum: &Data) -> Option<usize> {
        size_of(datum, self.each)
    }
}

// Returns the size of the data: the bytes of its texts, and the size of its numbers.
#[cycle(size)]
#[tactic(auto, using(qs_data::proofs::lemmas::data::Levels::levels))]
fn size_of(datum: &Data, each: usize) -> Option<usize> {
    match datum {
        Data::Text(text) => Some(text.len()),
        Data::Unsigned(_) => Some(each),
        Data::Seq(items) => size_of_items(items, each),
        Data::Map(pairs) => size_of_pairs(pairs, each),
        Data::Struct(members) => size_of_members(members, each),
        _ => None,
    }
}

// Returns the total size of the items.
#[cycle(size)]
fn size_of_items(items: &Vec<Data>, each: usize) -> Option<usize> {
    let mut size = 0_usize;
    for item in items {
        size = size.checked_add(size_of(item, each)?)?;
    }
    Some(size)
}

// Returns the total size of the keys and values.
#[cycle(size)]
fn size_of_pairs(pairs: &Vec<(Data, Data)>, each: usize) -> Option<usize> {
    let mut size = 0_usize;
    for pair in pairs {
        size = size.checked_add(size_of(&pair.0, each)?)?;
        size = size.checked_add(size_of(&pair.1, each)?)?;
    }
    Some(size)
}

// Returns the total size of the fields' values.
#[cycle(size)]
fn size_of_members(members: &Vec<(String, Data)>, each: usize) -> Option<usize> {
    let mut size = 0_usize;
    for member in members {
        size = size.checked_add(size_of(&member.1, each)?)?;
    }
    Some(size)
}
