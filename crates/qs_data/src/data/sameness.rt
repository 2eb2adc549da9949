//! When two values are the same.

ghost use Rattle.std.specs.Prelude.{◌≡◌};
ghost use Rattle.qs_data.specs.data.internal.Equality.{data_same, values_same, pairs_same, members_same};
ghost use Rattle.qs_data.specs.data.Views.{data_of, values_in, pairs_in, members_in};

use crate::data::Data;

/// Returns whether two values are of the same kind and hold the same.
#[cycle(sameness)]
pub(crate) fn same_data(left: &Data, right: &Data) -> bool
    ensures { result ≡ data_same (data_of left.now) (data_of right.now) }
{
    match left {
        Data::Unit => matches!(right, Data::Unit),
        Data::None => matches!(right, Data::None),
        Data::Some(left) => matches!(right, Data::Some(right) if same_data(left, right)),
        Data::Bool(left) => matches!(right, Data::Bool(right) if left == right),
        Data::Unsigned(left) => matches!(right, Data::Unsigned(right) if left == right),
        Data::Signed(left) => matches!(right, Data::Signed(right) if left == right),
        Data::Char(left) => matches!(right, Data::Char(right) if left == right),
        Data::Text(left) => matches!(right, Data::Text(right) if left == right),
        Data::Bytes(left) => matches!(right, Data::Bytes(right) if left == right),
        Data::Seq(left) => matches!(right, Data::Seq(right) if same_items(left, right)),
        Data::Tuple(left) => matches!(right, Data::Tuple(right) if same_items(left, right)),
        Data::Map(left) => matches!(right, Data::Map(right) if same_pairs(left, right)),
        Data::Struct(left) => matches!(right, Data::Struct(right) if same_members(left, right)),
        Data::Newtype(left) => matches!(right, Data::Newtype(right) if same_data(left, right)),
        Data::UnitVariant(left) => matches!(right, Data::UnitVariant(right) if left == right),
        Data::NewtypeVariant(name, left) => {
            matches!(right, Data::NewtypeVariant(other, right) if name == other && same_data(left, right))
        }
        Data::TupleVariant(name, left) => {
            matches!(right, Data::TupleVariant(other, right) if name == other && same_items(left, right))
        }
        Data::StructVariant(name, left) => {
            matches!(right, Data::StructVariant(other, right) if name == other && same_members(left, right))
        }
    }
}

// Returns whether two lists have equal items in the same order.
#[cycle(sameness)]
fn same_items(left: &[Data], right: &[Data]) -> bool
    ensures { result ≡ values_same (values_in left.now) (values_in right.now) }
{
    if left.len() != right.len() {
        return false;
    }
    for (at, item) in left.iter().enumerate() {
        let other = &right[at];
        if !same_data(item, other) {
            return false;
        }
    }
    true
}

// Returns whether two maps have equal pairs in the same order.
#[cycle(sameness)]
fn same_pairs(left: &[(Data, Data)], right: &[(Data, Data)]) -> bool
    ensures { result ≡ pairs_same (pairs_in left.now) (pairs_in right.now) }
{
    if left.len() != right.len() {
        return false;
    }
    for (at, pair) in left.iter().enumerate() {
        let other = &right[at];
        if !(same_data(&pair.0, &other.0) && same_data(&pair.1, &other.1)) {
            return false;
        }
    }
    true
}

// Returns whether two structs have equal fields in the same order.
#[cycle(sameness)]
fn same_members(left: &[(String, Data)], right: &[(String, Data)]) -> bool
    ensures { result ≡ members_same (members_in left.now) (members_in right.now) }
{
    if left.len() != right.len() {
        return false;
    }
    for (at, member) in left.iter().enumerate() {
        let other = &right[at];
        if !(member.0 == other.0 && same_data(&member.1, &other.1)) {
            return false;
        }
    }
    true
}
