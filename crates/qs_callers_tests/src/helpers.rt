//! Lists in one text.

use crate::claims::{
    fails, gives, gives_text, is_equal, is_rejected, is_text, is_written, is_written_as_read,
};
use crate::values::{list, one, text};
use qs_callers::Values;
use serde_qs::helpers::{
    Item, comma_separated, generic_delimiter, pipe_delimited, signed_list_comes_back,
    space_delimited, unsigned_list_comes_back,
};
use serde_qs::{Config, ConfigExt, Data, Error, Result, from_str};
use std::alloc::Global;
use std::collections::BTreeMap;
use std::process::Abort;

// Returns a text as data.
fn datum<R: Abort>(rt: &R, alloc: Global, written: &str) -> Data {
    Data::Text(text(rt, alloc, written))
}

// Returns the text of data.
fn text_of(outcome: Result<Data>) -> Result<String> {
    match outcome? {
        Data::Text(text) => Ok(text),
        _ => Err(Error::Unsupported),
    }
}

// Claims that the data is this text.
fn is_datum<R: Abort>(rt: &R, outcome: Result<Data>, wanted: &str) {
    gives_text(rt, text_of(outcome), wanted);
}

// Claims that an item is printed as this text, and that the text is parsed as that item.
fn comes_back<R: Abort, T: Item + PartialEq + Drop>(rt: &R, alloc: Global, item: T, wanted: &str) {
    let mut out = text(rt, alloc, "x");
    item.print(&mut out).expect(rt, "memory");
    assert!(rt; out.as_str().strip_prefix('x') == Some(wanted), "{out}");
    let parsed = T::parse(alloc, wanted).expect(rt, "an item");
    assert!(rt; parsed == item, "{wanted}");
}

#[test]
fn items(rt: HostRuntime) {
    let alloc = rt.alloc();
    comes_back(&rt, alloc, true, "true");
    comes_back(&rt, alloc, false, "false");
    comes_back(&rt, alloc, text(&rt, alloc, "a b"), "a b");
}

#[test]
fn unsigned_items(rt: HostRuntime) {
    let alloc = rt.alloc();
    comes_back(&rt, alloc, u8::MAX, "255");
    comes_back(&rt, alloc, u16::MAX, "65535");
    comes_back(&rt, alloc, u32::MAX, "4294967295");
    comes_back(&rt, alloc, u64::MAX, "18446744073709551615");
}

#[test]
fn signed_items(rt: HostRuntime) {
    let alloc = rt.alloc();
    comes_back(&rt, alloc, i8::MIN, "-128");
    comes_back(&rt, alloc, i16::MIN, "-32768");
    comes_back(&rt, alloc, i32::MIN, "-2147483648");
    comes_back(&rt, alloc, i64::MIN, "-9223372036854775808");
}

#[test]
fn each_module_writes(rt: HostRuntime) {
    let alloc = rt.alloc();
    let numbers = [1u8, 2, 3].as_slice();
    is_datum(&rt, comma_separated::serialize(alloc, numbers), "1,2,3");
    is_datum(&rt, space_delimited::serialize(alloc, numbers), "1 2 3");
    let datum = generic_delimiter::serialize(alloc, numbers, '.');
    is_datum(&rt, datum, "1.2.3");
    let datum = pipe_delimited::serialize(alloc, [1u8, 2].as_slice());
    is_datum(&rt, datum, "1|2");
}

#[test]
fn short_lists_are_written(rt: HostRuntime) {
    let alloc = rt.alloc();
    is_datum(&rt, comma_separated::serialize::<u8>(alloc, &[]), "");
    let datum = comma_separated::serialize(alloc, [true].as_slice());
    is_datum(&rt, datum, "true");
}

// Claims that the numbers from one to three are read.
fn is_one_to_three<R: Abort>(rt: &R, alloc: Global, read: Result<Vec<u8>>) {
    gives(rt, read, list(rt, alloc, [1, 2, 3]));
}

#[test]
fn each_module_reads(rt: HostRuntime) {
    let alloc = rt.alloc();
    let read = comma_separated::deserialize(alloc, datum(&rt, alloc, "1,2,3"));
    is_one_to_three(&rt, alloc, read);
    let read = pipe_delimited::deserialize(alloc, datum(&rt, alloc, "1|2|3"));
    is_one_to_three(&rt, alloc, read);
    let read = space_delimited::deserialize(alloc, datum(&rt, alloc, "1 2 3"));
    is_one_to_three(&rt, alloc, read);
    let read = generic_delimiter::deserialize(alloc, datum(&rt, alloc, "1ä2ä3"), 'ä');
    is_one_to_three(&rt, alloc, read);
}

#[test]
fn empty_texts_are_read(rt: HostRuntime) {
    let alloc = rt.alloc();
    let read = comma_separated::deserialize::<u8>(alloc, datum(&rt, alloc, ""));
    gives(&rt, read, Vec::new(alloc));
    let words = [
        text(&rt, alloc, "foo"),
        text(&rt, alloc, ""),
        text(&rt, alloc, "bar"),
    ];
    let read = pipe_delimited::deserialize(alloc, datum(&rt, alloc, "foo||bar"));
    gives(&rt, read, list(&rt, alloc, words));
}

#[test]
fn rejected_lists(rt: HostRuntime) {
    let alloc = rt.alloc();
    let rows = [
        ("1,x,3", "invalid item `x`"),
        ("1,,3", "invalid item ``"),
        ("1,2,", "invalid item ``"),
        ("256", "invalid item `256`"),
        ("-1", "invalid item `-1`"),
    ];
    for (written, wanted) in rows {
        let read = comma_separated::deserialize::<u8>(alloc, datum(&rt, alloc, written));
        fails(&rt, read, wanted);
    }
    let read = comma_separated::deserialize::<u8>(alloc, Data::Unit);
    fails(&rt, read, "invalid type: data, expected a string");
    let read = comma_separated::deserialize::<bool>(alloc, datum(&rt, alloc, "true,no"));
    fails(&rt, read, "invalid item `no`");
}

#[test]
fn a_delimiter_that_numbers_hold(rt: HostRuntime) {
    let alloc = rt.alloc();
    unsigned_list_comes_back();
    signed_list_comes_back();
    let written = generic_delimiter::serialize(alloc, [-1i8].as_slice(), '-');
    is_datum(&rt, written, "-1");
    let read = generic_delimiter::deserialize::<i8>(alloc, datum(&rt, alloc, "-1"), '-');
    fails(&rt, read, "invalid item ``");
}

#[test]
fn a_field(rt: HostRuntime) {
    let alloc = rt.alloc();
    let rows = [("values=", 0), ("values=1", 1), ("values=1,2,3", 3)];
    for (input, count) in rows {
        let map: BTreeMap<String, Values> = is_written_as_read(&rt, alloc, input);
        let found = map.get("values").map(|values| values.0.len());
        is_equal(&rt, found, Some(count));
    }
    let wanted = "invalid item `x`";
    is_rejected::<_, BTreeMap<String, Values>>(&rt, alloc, "values=1,x", wanted);
}

#[test]
fn a_field_in_form_mode(rt: HostRuntime) {
    let alloc = rt.alloc();
    let map = one(&rt, alloc, "values", Values(list(&rt, alloc, [7, 8])));
    let config = Config::new().use_form_encoding(true);
    let wanted = "values=7%2C8";
    gives_text(&rt, config.serialize_string(alloc, &map), wanted);
    gives(&rt, config.deserialize_str(alloc, wanted), map);
}

#[test]
fn written_with_spaces(rt: HostRuntime) {
    let alloc = rt.alloc();
    let datum = space_delimited::serialize(alloc, [1u8, 2, 3].as_slice());
    let written = text_of(datum).expect(&rt, "a text");
    let map = one(&rt, alloc, "values", written);
    is_written(&rt, alloc, &map, "values=1+2+3");
    let map: BTreeMap<String, String> = from_str(alloc, "values=1%202%203").expect(&rt, "a map");
    let found = map.get("values").map_or("", |text| text.as_str());
    is_text(&rt, found, "1 2 3");
}
