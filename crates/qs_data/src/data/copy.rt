//! Copies of data.

ghost use Rattle.std.specs.Prelude.{◌≡◌, map, IfOk};
ghost use Rattle.qs_data.specs.data.Views.{data_of, named, pair_of};

use crate::data::Data;
use std::alloc::{AllocError, Global};

impl Data {
    /// Returns equal data in memory of its own.
    ///
    /// It allocates for each string, list and nested value. The only error is that an allocation failed; the part that was copied is
    /// then dropped. Time grows with the size of the data, and stack with its depth.
    ///
    /// ```
    /// let copy = data.try_clone(alloc)?; // copy == data
    /// ```
    #[cycle(copy)]
    pub fn try_clone(&self, alloc: Global) -> Result<Data, AllocError>
        ensures { IfOk result (λ copy. data_of copy ≡ data_of self.now) }
    {
        match self {
            Data::Unit => Ok(Data::Unit),
            Data::None => Ok(Data::None),
            Data::Some(part) => Ok(Data::Some(Box::new(alloc, part.try_clone(alloc)?)?)),
            Data::Bool(b) => Ok(Data::Bool(*b)),
            Data::Unsigned(n) => Ok(Data::Unsigned(*n)),
            Data::Signed(n) => Ok(Data::Signed(*n)),
            Data::Char(c) => Ok(Data::Char(*c)),
            Data::Text(text) => Ok(Data::Text(text.clone()?)),
            Data::Bytes(bytes) => Ok(Data::Bytes(Vec::from_slice(alloc, bytes)?)),
            Data::Seq(items) => Ok(Data::Seq(copy_items(alloc, items)?)),
            Data::Tuple(items) => Ok(Data::Tuple(copy_items(alloc, items)?)),
            Data::Map(pairs) => Ok(Data::Map(copy_pairs(alloc, pairs)?)),
            Data::Struct(members) => Ok(Data::Struct(copy_members(alloc, members)?)),
            Data::Newtype(part) => Ok(Data::Newtype(Box::new(alloc, part.try_clone(alloc)?)?)),
            Data::UnitVariant(name) => Ok(Data::UnitVariant(name.clone()?)),
            Data::NewtypeVariant(name, part) => {
                Ok(Data::NewtypeVariant(name.clone()?, Box::new(alloc, part.try_clone(alloc)?)?))
            }
            Data::TupleVariant(name, items) => {
                Ok(Data::TupleVariant(name.clone()?, copy_items(alloc, items)?))
            }
            Data::StructVariant(name, members) => {
                Ok(Data::StructVariant(name.clone()?, copy_members(alloc, members)?))
            }
        }
    }
}

// Copies the items of a list.
#[cycle(copy)]
fn copy_items(alloc: Global, items: &Vec<Data>) -> Result<Vec<Data>, AllocError>
    ensures { IfOk result (λ copies. map data_of copies.items ≡ map data_of items.now.items) }
{
    let mut copies = Vec::new(alloc);
    for item in items {
        let copy = item.try_clone(alloc)?;
        copies.push(copy)?;
    }
    Ok(copies)
}

// Copies the keys and values of a map.
#[cycle(copy)]
fn copy_pairs(alloc: Global, pairs: &Vec<(Data, Data)>) -> Result<Vec<(Data, Data)>, AllocError>
    ensures { IfOk result
        (λ copies. map pair_of copies.items ≡ map pair_of pairs.now.items) }
{
    let mut copies = Vec::new(alloc);
    for pair in pairs {
        let key = pair.0.try_clone(alloc)?;
        let value = pair.1.try_clone(alloc)?;
        copies.push((key, value))?;
    }
    Ok(copies)
}

// Copies the names and values of fields.
#[cycle(copy)]
fn copy_members(
    alloc: Global,
    members: &Vec<(String, Data)>,
) -> Result<Vec<(String, Data)>, AllocError>
    ensures { IfOk result
        (λ copies. map (named data_of) copies.items ≡ map (named data_of) members.now.items) }
{
    let mut copies = Vec::new(alloc);
    for member in members {
        let name = member.0.clone()?;
        let copy = member.1.try_clone(alloc)?;
        copies.push((name, copy))?;
    }
    Ok(copies)
}
