//! Data whose lists can be read back if no index is written.

ghost use Rattle.std.specs.Prelude.{◌≡◌, false};
ghost use Rattle.qs_spec.specs.Listed.{is_listed, are_listed, are_listed_pairs, are_listed_members, is_placed, is_list, are_scalars, is_one_empty};
ghost use Rattle.qs_data.specs.data.Views.{data_of, values_in, pairs_in, members_in};
ghost use Rattle.qs_tree.specs.Settings.{array_format_of};

use crate::data::Data;
use crate::write::Scalar;
use qs_tree::{ArrayFormat, Config};

impl Data {
    /// Returns whether the lists in the data can be read back in the array format of the configuration.
    ///
    /// In the indexed format all can. In the other two formats, all of these must hold at every depth:
    /// - each list and tuple is under a key, directly or within another value, so it isn't the whole;
    /// - lists, tuples and tuple variants hold only booleans, whole numbers, characters, strings, bytes and unit variants;
    /// - in the format without brackets, none of them holds just one empty string or byte string, which is written like an empty list.
    ///
    /// If such data is also [plain](Data::is_plain), and is written within the depth limit, each shape that it
    /// [fits](crate::Shape::fits) and whose names differ reads it back. The entries may be in any order that keeps entries with the
    /// same path in order.
    ///
    /// Time grows with the size of the data, and stack with its depth. It doesn't allocate.
    ///
    /// ```
    /// let config = Config::new().array_format(ArrayFormat::EmptyIndexed);
    /// if !(data.is_plain(config) && data.is_listed(config)) {
    ///     return Err(Rejected::NotReadBack);
    /// }
    /// ```
    pub fn is_listed(&self, config: Config) -> bool
        ensures { result ≡ is_listed config.array_format false (data_of self.now) }
    {
        is_listed(self, config.get_array_format(), false)
    }
}

// Returns whether lists can be read back; `below` says whether they are under a key.
#[cycle(listed)]
fn is_listed(datum: &Data, format: ArrayFormat, below: bool) -> bool
    ensures { result ≡ is_listed (array_format_of format) below (data_of datum.now) }
{
    match datum {
        Data::Some(part) | Data::Newtype(part) => is_listed(part, format, below),
        Data::Seq(items) | Data::Tuple(items) => {
            is_placed(format, below) && (is_list(items, format) && are_listed(items, format))
        }
        Data::Map(pairs) => are_listed_pairs(pairs, format),
        Data::Struct(members) | Data::StructVariant(_, members) => {
            are_listed_members(members, format)
        }
        Data::NewtypeVariant(_, part) => is_listed(part, format, true),
        Data::TupleVariant(_, items) => is_list(items, format) && are_listed(items, format),
        _ => true,
    }
}

// Returns whether the lists in each item can be read back.
#[cycle(listed)]
fn are_listed(items: &Vec<Data>, format: ArrayFormat) -> bool
    ensures { result ≡ are_listed (array_format_of format) (values_in items.now.items) }
{
    for item in items {
        if !is_listed(item, format, true) {
            return false;
        }
    }
    true
}

// Returns whether the lists in each value of a map can be read back.
#[cycle(listed)]
fn are_listed_pairs(pairs: &Vec<(Data, Data)>, format: ArrayFormat) -> bool
    ensures { result ≡ are_listed_pairs (array_format_of format) (pairs_in pairs.now.items) }
{
    for pair in pairs {
        if !is_listed(&pair.1, format, true) {
            return false;
        }
    }
    true
}

// Returns whether the lists in each field can be read back.
#[cycle(listed)]
fn are_listed_members(members: &Vec<(String, Data)>, format: ArrayFormat) -> bool
    ensures { result ≡ are_listed_members (array_format_of format) (members_in members.now.items) }
{
    for member in members {
        if !is_listed(&member.1, format, true) {
            return false;
        }
    }
    true
}

// Returns whether a list can be written at its position: if no index is written, it must be under a key.
fn is_placed(format: ArrayFormat, below: bool) -> bool
    ensures { result ≡ is_placed (array_format_of format) below }
{
    match format {
        ArrayFormat::Indexed => true,
        ArrayFormat::EmptyIndexed | ArrayFormat::Unindexed => below,
    }
}

// Returns whether a list of these elements is read back as these elements.
fn is_list(items: &[Data], format: ArrayFormat) -> bool
    ensures { result ≡ is_list (array_format_of format) (values_in items.now) }
{
    match format {
        ArrayFormat::Indexed => true,
        ArrayFormat::EmptyIndexed => are_scalars(items),
        ArrayFormat::Unindexed => are_scalars(items) && !is_one_empty(items),
    }
}

// Returns whether each item is written as one text.
fn are_scalars(items: &[Data]) -> bool
    ensures { result ≡ are_scalars (values_in items.now) }
{
    items.iter().all(|item| Scalar::of(item).is_some())
}

// Returns whether there is just one item, and its text is empty.
#[tactic(auto, using(crate::proofs::lemmas::data::Filled::several))]
fn is_one_empty(items: &[Data]) -> bool
    ensures { result ≡ is_one_empty (values_in items.now) }
{
    match items {
        [item] => match Scalar::of(item) {
            Some(scalar) => scalar.is_empty(),
            None => false,
        },
        _ => false,
    }
}
