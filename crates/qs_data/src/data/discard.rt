//! Dropping data of any depth.

ghost use Rattle.std.specs.Prelude.{◌≡◌, ◌+◌, ◌≤◌, true, MatchOption};
ghost use Rattle.std.specs.List.{sum_by};
ghost use Rattle.qs_data.specs.data.internal.Weight.{weight, is_leaf, parts_weight, pair_weight, member_weight};

use crate::data::Data;
use std::alloc::Global;

/// The parts that data held.
enum Parts {
    /// One value.
    One(Box<Data>),
    /// The items of a list.
    Items(Vec<Data>),
    /// The pairs of a map.
    Pairs(Vec<(Data, Data)>),
    /// The fields of a struct or a struct variant.
    Members(Vec<(String, Data)>),
}

impl Data {
    /// Drops the data in a loop, with a stack on the heap, so the data may be nested to any depth. A plain drop calls itself once for
    /// each level.
    ///
    /// It allocates the stack, which holds lists, maps and the like, but no leaves. A value for which an allocation fails is dropped
    /// plainly. Time grows with the size of the data. There is no error.
    ///
    /// ```
    /// let data = deserializer.read(alloc, &Shape::Any)?;
    /// data.discard();
    /// ```
    pub fn discard(self) {
        let Some((alloc, parts)) = self.into_parts() else {
            return;
        };
        let mut stack = Vec::new(alloc);
        parts.put_on(&mut stack);
        while let Some(datum) = stack.pop() {
            if let Some((_, parts)) = datum.into_parts() {
                parts.put_on(&mut stack);
            }
        }
        stack.destroy_empty();
    }

    // Returns whether the data is of a kind that holds no other data.
    fn is_leaf(&self) -> bool
        ensures { result ≡ is_leaf self.now }
    {
        match self {
            Data::Unit | Data::None | Data::Bool(_) | Data::Unsigned(_) | Data::Signed(_) => true,
            Data::Char(_) | Data::Text(_) | Data::Bytes(_) | Data::UnitVariant(_) => true,
            _ => false,
        }
    }

    // Returns the parts of the data, and their allocator; None for a leaf, which is dropped.
    fn into_parts(self) -> Option<(Global, Parts)>
        ensures { MatchOption result (weight self ≡ 1) (λ p. parts_weight p.1 + 1 ≡ weight self) }
    {
        match self {
            Data::Unit | Data::None | Data::Bool(_) | Data::Unsigned(_) | Data::Signed(_) => None,
            Data::Char(_) => None,
            Data::Text(_text) => None,
            Data::Bytes(_bytes) => None,
            Data::UnitVariant(_name) => None,
            Data::Some(part) => Some((*Box::allocator(&part), Parts::One(part))),
            Data::Newtype(part) => Some((*Box::allocator(&part), Parts::One(part))),
            Data::NewtypeVariant(_name, part) => {
                Some((*Box::allocator(&part), Parts::One(part)))
            }
            Data::Seq(items) => Some((*items.allocator(), Parts::Items(items))),
            Data::Tuple(items) => Some((*items.allocator(), Parts::Items(items))),
            Data::TupleVariant(_name, items) => Some((*items.allocator(), Parts::Items(items))),
            Data::Map(pairs) => Some((*pairs.allocator(), Parts::Pairs(pairs))),
            Data::Struct(members) => Some((*members.allocator(), Parts::Members(members))),
            Data::StructVariant(_name, members) => {
                Some((*members.allocator(), Parts::Members(members)))
            }
        }
    }

    // Puts the data on the stack. A leaf is dropped at once, and so is data for which an allocation fails.
    fn put_on(self, stack: &mut Vec<Data>)
        ensures leaf { is_leaf self ≡ true → stack.new.items ≡ stack.old.items }
        ensures weight { sum_by weight stack.new.items ≤ sum_by weight stack.old.items + weight self }
    {
        if self.is_leaf() {
            drop(self);
        } else if let Err(failed) = stack.push(self) {
            drop(failed.value);
        }
    }
}

impl Parts {
    // Puts each part on the stack.
    fn put_on(self, stack: &mut Vec<Data>)
        ensures { sum_by weight stack.new.items ≤ sum_by weight stack.old.items + parts_weight self }
    {
        match self {
            Parts::One(part) => Box::into_inner(part).put_on(stack),
            Parts::Items(items) => put_items(items, stack),
            Parts::Pairs(pairs) => put_pairs(pairs, stack),
            Parts::Members(members) => put_members(members, stack),
        }
    }
}

// Puts each item on the stack.
fn put_items(mut items: Vec<Data>, stack: &mut Vec<Data>)
    ensures { sum_by weight stack.new.items ≤ sum_by weight stack.old.items + sum_by weight items.items }
{
    while let Some(item) = items.pop() {
        item.put_on(stack);
    }
    items.destroy_empty();
}

// Puts each key and each value on the stack.
fn put_pairs(mut pairs: Vec<(Data, Data)>, stack: &mut Vec<Data>)
    ensures { sum_by weight stack.new.items ≤ sum_by weight stack.old.items + sum_by pair_weight pairs.items }
{
    while let Some((key, value)) = pairs.pop() {
        key.put_on(stack);
        value.put_on(stack);
    }
    pairs.destroy_empty();
}

// Puts each field's value on the stack.
fn put_members(mut members: Vec<(String, Data)>, stack: &mut Vec<Data>)
    ensures { sum_by weight stack.new.items ≤ sum_by weight stack.old.items + sum_by member_weight members.items }
{
    while let Some((_name, value)) = members.pop() {
        value.put_on(stack);
    }
    members.destroy_empty();
}
