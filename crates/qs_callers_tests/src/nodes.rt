//! Nodes of a tree, each read on its own.

use crate::claims::{fails, gives, holds, is_equal, is_not_utf8, is_text};
use crate::values::{list, text, tree};
use qs_callers::Query;
use qs_data::{
    Data, Error, Field, FieldNames, Found, NodeEntries, Reader, Result, Shape, UnknownKeys,
    find_value, read_value,
};
use qs_tree::{Config, ParsedValue};
use serde_qs::Deserialize;
use std::alloc::Global;
use std::collections::BTreeMap;
use std::process::Abort;

const INPUT: &str = "age=24&ids[]=7&ids[]=8&name=Alice&occupation=Student";

#[test]
fn by_a_type(rt: HostRuntime) {
    let alloc = rt.alloc();
    let tree = tree(&rt, alloc, INPUT);
    let reader = Reader::new(alloc, Config::new());
    let query = Query::from_node(reader, &tree).expect(&rt, "a query");
    is_text(&rt, query.name.as_str(), "Alice");
    is_equal(&rt, query.age, 24);
}

#[test]
fn without_a_node(rt: HostRuntime) {
    let reader = Reader::new(rt.alloc(), Config::new());
    let wanted = "missing field `age`";
    fails(&rt, u8::from_missing(reader, "age"), wanted);
    let none: Result<Option<u8>> = Option::from_missing(reader, "age");
    gives(&rt, none, None);
}

#[test]
fn by_its_parts(rt: HostRuntime) {
    let alloc = rt.alloc();
    let tree = tree(&rt, alloc, INPUT);
    let reader = Reader::new(alloc, Config::new());
    let wanted = Some(Data::Unsigned(8));
    gives(&rt, second_id(reader, &tree), wanted);
    let part = Box::new(alloc, Shape::U8).expect(&rt, "memory");
    holds(&rt, Shape::Option(part).is_option(), "an option");
}

// Returns the second item of `ids`.
fn second_id(reader: Reader, tree: &ParsedValue<'_>) -> Result<Option<Data>> {
    let ParsedValue::Map(map) = tree else {
        return Ok(None);
    };
    let entries = NodeEntries::Map(map);
    if entries.test().is_err() {
        return Ok(None);
    }
    let Found::One(ids) = entries.find("ids") else {
        return Ok(None);
    };
    let items = reader.items(ids)?;
    match items.get(reader, 1)? {
        Some(item) if items.len() == 2 => Ok(Some(reader.read(&Shape::U8, item)?)),
        _ => Ok(None),
    }
}

#[test]
fn by_its_entries(rt: HostRuntime) {
    let alloc = rt.alloc();
    let tree = tree(&rt, alloc, "b=2&a=1");
    let reader = Reader::new(alloc, Config::new());
    let entries = reader.entries(&tree).expect(&rt, "a map");
    is_equal(&rt, entries.len(), 2);
    let first = entries.get(reader, 0).expect(&rt, "a string");
    let (key, node) = first.expect(&rt, "an entry");
    is_text(&rt, key.as_str(), "a");
    gives(&rt, u8::from_node(reader, node), 1);
    let third = entries.get(reader, 2);
    holds(&rt, matches!(third, Ok(None)), "no third entry");
}

#[test]
fn by_a_type_of_maps(rt: HostRuntime) {
    let alloc = rt.alloc();
    let tree = tree(&rt, alloc, "b=2&a=1");
    let reader = Reader::new(alloc, Config::new());
    let map: BTreeMap<String, u8> = BTreeMap::from_node(reader, &tree).expect(&rt, "a map");
    is_equal(&rt, map.len(), 2);
    let list = ParsedValue::Sequence(Vec::new(alloc));
    let wanted = "invalid type: sequence, expected a map";
    fails(&rt, reader.entries(&list), wanted);
}

#[test]
fn by_a_name(rt: HostRuntime) {
    let alloc = rt.alloc();
    let tree = tree(&rt, alloc, "b=2&1=3&%31=4");
    let two = Some(Data::Unsigned(2));
    gives(&rt, number_of(alloc, &tree, "b"), two);
    gives(&rt, number_of(alloc, &tree, "c"), None);
    // the integer key and the string key have the same text
    gives(&rt, number_of(alloc, &tree, "1"), None);
}

#[test]
fn keys_that_are_no_text(rt: HostRuntime) {
    let alloc = rt.alloc();
    let tree = tree(&rt, alloc, "%FF=1");
    let entries = Reader::new(alloc, Config::new()).entries(&tree);
    let are_text = entries.expect(&rt, "a map").keys_are_text();
    holds(&rt, !are_text, "a key is no text");
    is_not_utf8(&rt, tested(alloc, &tree), "%FF=1");
}

// Returns the error of a map with a key that isn't UTF-8.
fn tested(alloc: Global, tree: &ParsedValue<'_>) -> Result<()> {
    let ParsedValue::Map(map) = tree else {
        return Ok(());
    };
    NodeEntries::Map(map)
        .test()
        .map_err(|key| key.into_error(alloc))
}

// Returns the number under a name, if the name has exactly one value.
fn number_of(alloc: Global, tree: &ParsedValue<'_>, name: &str) -> Result<Option<Data>> {
    let ParsedValue::Map(map) = tree else {
        return Ok(None);
    };
    let Found::One(node) = find_value(map, name) else {
        return Ok(None);
    };
    Ok(Some(read_value(alloc, Config::new(), &Shape::U8, node)?))
}

#[test]
fn unknown_keys(rt: HostRuntime) {
    let alloc = rt.alloc();
    let a = Field {
        name: text(&rt, alloc, "a"),
        shape: Shape::U8,
        optional: false,
    };
    let fields = list(&rt, alloc, [a]);
    holds(&rt, fields.has(b"a"), "`a` is known");
    holds(&rt, !fields.has(b"b"), "`b` is unknown");
    let tree = tree(&rt, alloc, "b=2&a=1");
    let reader = Reader::new(alloc, Config::new());
    let entries = reader.entries(&tree).expect(&rt, "a map");
    let ignored = UnknownKeys::Ignored.reject(reader, &fields, entries);
    gives(&rt, ignored, ());
    let rejected = UnknownKeys::Rejected.reject(reader, &fields, entries);
    fails(&rt, rejected, "unknown field `b`");
}

#[test]
fn what_a_variant_holds(rt: HostRuntime) {
    let alloc = rt.alloc();
    let reader = Reader::new(alloc, Config::new());
    let tree = tree(&rt, alloc, "0=7&1=8");
    let items = reader.tuple(2, &tree).expect(&rt, "items");
    is_equal(&rt, items.len(), 2);
    let items = reader.tuple_variant(Some(&tree)).expect(&rt, "items");
    is_equal(&rt, items.len(), 2);
}

// Claims that the node is a map.
fn is_map<R: Abort>(rt: &R, node: Result<&ParsedValue<'_>>) {
    holds(rt, matches!(node, Ok(ParsedValue::Map(_))), "a map");
}

#[test]
fn a_map_that_a_variant_holds(rt: HostRuntime) {
    let alloc = rt.alloc();
    let reader = Reader::new(alloc, Config::new());
    let tree = tree(&rt, alloc, "0=7&1=8");
    is_map(&rt, reader.newtype_variant(Some(&tree)));
    is_map(&rt, reader.struct_variant(Some(&tree)));
}

#[test]
fn a_variant_without_a_node(rt: HostRuntime) {
    let reader = Reader::new(rt.alloc(), Config::new());
    let wanted = "invalid type: unit variant, expected newtype variant";
    fails(&rt, reader.newtype_variant(None), wanted);
    let wanted = "invalid type: unit variant, expected struct variant";
    fails(&rt, reader.struct_variant(None), wanted);
    let wanted = "invalid type: unit variant, expected tuple variant";
    fails(&rt, reader.tuple_variant(None), wanted);
}

// Claims that the error is a `Custom` with this message.
fn says<R: Abort>(rt: &R, error: Error, wanted: &str) {
    fails::<R, ()>(rt, Err(error), wanted);
}

#[test]
fn errors(rt: HostRuntime) {
    let reader = Reader::new(rt.alloc(), Config::new());
    let nothing = "internal error: attempted to deserialize unitialised value";
    says(&rt, reader.nothing(), nothing);
    says(&rt, reader.missing_item(1), "invalid length 1");
    let missing = reader.missing_field("age");
    says(&rt, missing, "missing field `age`");
    let duplicate = reader.duplicate_field("age");
    says(&rt, duplicate, "duplicate field `age`");
}

#[test]
fn errors_of_a_type(rt: HostRuntime) {
    let reader = Reader::new(rt.alloc(), Config::new());
    let error = reader.not_a_struct(&ParsedValue::NoValue);
    let wanted = "invalid type: unit value, expected a struct";
    says(&rt, error, wanted);
    let error = reader.not_an_enum(&ParsedValue::NoValue);
    let wanted = "invalid type: unit value, expected an enum";
    says(&rt, error, wanted);
    let error = reader.unknown_variant(b"Fast");
    says(&rt, error, "unknown variant `Fast`");
}
