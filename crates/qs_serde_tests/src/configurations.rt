//! The calls under a configuration, writers, and errors without a path.

use qs_serde::{
    ArrayFormat, Config, DuplicateKeyBehavior, Error, explain_bytes, explain_str, from_bytes,
    from_str, from_str_with, to_string, to_string_with, to_writer,
};
use serde::{Deserialize, Serialize};
use std::alloc::Global;
use std::process::Abort;

#[derive(Drop, Serialize, Deserialize)]
struct Item {
    name: String,
    ids: Vec<u8>,
}

const ITEM_TEXT: &str = "name=High+Street&ids[0]=7&ids[1]=8";

// Claims that a value is written so under a configuration, and read back: it is then written as at first.
fn is_written<R: Abort>(rt: &R, alloc: Global, config: Config, wanted: &str) {
    let item: Item = from_str(alloc, ITEM_TEXT).expect(rt, "an item");
    let text = to_string_with(alloc, config, &item).expect(rt, "its text");
    assert!(rt; text.as_str() == wanted, "{text}");
    let again: Item = from_str_with(alloc, config, text.as_str()).expect(rt, "the item");
    let again = to_string(alloc, &again).expect(rt, "its text");
    assert!(rt; again.as_str() == ITEM_TEXT, "{wanted}: {again}");
}

#[test]
fn each_format(rt: HostRuntime) {
    let alloc = rt.alloc();
    is_written(&rt, alloc, Config::new(), ITEM_TEXT);
    let pushed = Config::new().array_format(ArrayFormat::EmptyIndexed);
    is_written(&rt, alloc, pushed, "name=High+Street&ids[]=7&ids[]=8");
    let repeated = Config::new().array_format(ArrayFormat::Unindexed);
    is_written(&rt, alloc, repeated, "name=High+Street&ids=7&ids=8");
    let form = Config::new().use_form_encoding(true);
    is_written(
        &rt,
        alloc,
        form,
        "name=High%20Street&ids%5B0%5D=7&ids%5B1%5D=8",
    );
}

#[test]
fn bytes_and_writers(rt: HostRuntime) {
    let alloc = rt.alloc();
    let item: Item = from_bytes(alloc, ITEM_TEXT.as_bytes()).expect(&rt, "an item");
    let mut out = Vec::new(alloc);
    to_writer(alloc, &item, &mut out).expect(&rt, "its text");
    assert!(rt; out.as_slice() == ITEM_TEXT.as_bytes());
    let text = to_string(alloc, &item).expect(&rt, "its text");
    assert!(rt; text.as_str() == ITEM_TEXT);
}

#[test]
fn errors(rt: HostRuntime) {
    let alloc = rt.alloc();
    assert!(rt; matches!(from_str::<Item>(alloc, "a[b"), Err(Error::Parse(_, _))));
    assert!(rt; matches!(from_str::<Item>(alloc, "name=%FF&ids"), Err(Error::Utf8(_))));
    assert!(rt; matches!(from_str::<Item>(alloc, "ids"), Err(Error::Custom(_))));
    let once = Config::new().duplicate_key_behavior(DuplicateKeyBehavior::Error);
    let read = from_str_with::<Item>(alloc, once, "name=a&name=b&ids");
    assert!(rt; matches!(read, Err(Error::Custom(_))));
    let flat = Config::new().max_depth(0);
    let item: Item = from_str(alloc, ITEM_TEXT).expect(&rt, "an item");
    let written = to_string_with(alloc, flat, &item);
    assert!(rt; matches!(written, Err(Error::MaxSerializationDepthExceeded(0))));
}

#[test]
fn paths(rt: HostRuntime) {
    let alloc = rt.alloc();
    let read = explain_str::<Item>(alloc, Config::new(), "name=a&ids[0]=1&ids[1]=x");
    let error = read.err().expect(&rt, "an error");
    assert!(rt; error.path.as_str() == "ids[1]");
    assert!(rt; matches!(Error::from(error), Error::Custom(_)));
    let read = explain_bytes::<Item>(alloc, Config::new(), b"a[b");
    assert!(rt; read.err().expect(&rt, "an error").path.is_empty());
}
