//! Calls for types that are written by hand: data of structs and variants, nodes, defaults.

use crate::claims::{gives, holds, is_text};
use crate::values::{alice, list, text};
use qs_callers::Query;
use serde_qs::{
    Data, Deserialize, Error, OrDefault, Result, Serialize, newtype_struct, newtype_variant,
    struct_of, struct_variant, tuple_struct, tuple_variant, unexpected, unit_variant,
    value_comes_back,
};
use std::alloc::Global;
use std::collections::BTreeMap;
use std::process::Abort;

// Returns the data of a name and a number under it.
fn member<R: Abort>(rt: &R, alloc: Global, name: &str, number: u64) -> (String, Data) {
    (text(rt, alloc, name), Data::Unsigned(number))
}

// Returns the data in a box.
fn boxed<R: Abort>(rt: &R, alloc: Global, datum: Data) -> Box<Data> {
    Box::new(alloc, datum).expect(rt, "memory")
}

#[test]
fn data_of_structs(rt: HostRuntime) {
    let alloc = rt.alloc();
    let fields = [member(&rt, alloc, "x", 1), member(&rt, alloc, "y", 2)];
    let wanted = Data::Struct(list(&rt, alloc, fields));
    let datum = struct_of(alloc, &["x", "y"], (&1u8, (&2u16, ())));
    gives(&rt, datum, wanted);
}

#[test]
fn data_of_tuple_structs(rt: HostRuntime) {
    let alloc = rt.alloc();
    let items = list(&rt, alloc, [Data::Unsigned(1), Data::Signed(-2)]);
    let datum = tuple_struct(alloc, (&1u8, (&-2i8, ())));
    gives(&rt, datum, Data::Tuple(items));
    let part = boxed(&rt, alloc, Data::Bool(true));
    gives(&rt, newtype_struct(alloc, &true), Data::Newtype(part));
}

#[test]
fn data_of_variants(rt: HostRuntime) {
    let alloc = rt.alloc();
    let wanted = Data::UnitVariant(text(&rt, alloc, "All"));
    gives(&rt, unit_variant(alloc, "All"), wanted);
    let part = boxed(&rt, alloc, Data::Char('x'));
    let wanted = Data::NewtypeVariant(text(&rt, alloc, "By"), part);
    gives(&rt, newtype_variant(alloc, "By", &'x'), wanted);
}

#[test]
fn data_of_variants_with_parts(rt: HostRuntime) {
    let alloc = rt.alloc();
    let items = list(&rt, alloc, [Data::Unsigned(1), Data::Unsigned(2)]);
    let wanted = Data::TupleVariant(text(&rt, alloc, "At"), items);
    let datum = tuple_variant(alloc, "At", (&1u32, (&2u32, ())));
    gives(&rt, datum, wanted);
    let fields = list(&rt, alloc, [member(&rt, alloc, "from", 3)]);
    let wanted = Data::StructVariant(text(&rt, alloc, "Between"), fields);
    let datum = struct_variant(alloc, "Between", &["from"], (&3u64, ()));
    gives(&rt, datum, wanted);
}

#[test]
fn a_value_and_its_data(rt: HostRuntime) {
    let alloc = rt.alloc();
    let query = alice(&rt, alloc);
    value_comes_back(&query);
    let datum = query.to_data(alloc).expect(&rt, "memory");
    gives(&rt, Query::from_data(alloc, datum), query);
}

#[test]
fn data_of_another_type(rt: HostRuntime) {
    let alloc = rt.alloc();
    let result: Result<Query> = Query::from_data(alloc, Data::Unit);
    holds(&rt, matches!(result, Err(Error::Custom(_))), "a message");
    let message = match unexpected(alloc, "a date") {
        Error::Custom(message) => message,
        _ => String::new(alloc),
    };
    let wanted = "invalid type: data, expected a date";
    is_text(&rt, message.as_str(), wanted);
}

// Claims that this is the value of a missing field.
fn is_default<R: Abort, T: OrDefault + PartialEq + Drop>(rt: &R, alloc: Global, wanted: T) {
    assert!(rt; T::missing(alloc).expect(rt, "memory") == wanted);
}

#[test]
fn each_default(rt: HostRuntime) {
    let alloc = rt.alloc();
    is_default(&rt, alloc, false);
    is_default(&rt, alloc, String::new(alloc));
    is_default::<_, Vec<u8>>(&rt, alloc, Vec::new(alloc));
    is_default::<_, BTreeMap<String, u8>>(&rt, alloc, BTreeMap::new(alloc));
}

#[test]
fn each_default_of_unsigned_numbers(rt: HostRuntime) {
    let alloc = rt.alloc();
    is_default(&rt, alloc, 0u8);
    is_default(&rt, alloc, 0u16);
    is_default(&rt, alloc, 0u32);
    is_default(&rt, alloc, 0u64);
}

#[test]
fn each_default_of_signed_numbers(rt: HostRuntime) {
    let alloc = rt.alloc();
    is_default(&rt, alloc, 0i8);
    is_default(&rt, alloc, 0i16);
    is_default(&rt, alloc, 0i32);
    is_default(&rt, alloc, 0i64);
}
