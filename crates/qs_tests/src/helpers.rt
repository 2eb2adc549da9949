//! Fields that hold a list in one text, read by a shape and then split.

use crate::build::Build;
use crate::claims::{is_equal, is_text, made, present};
use crate::notation;
use crate::rows::Rows;
use crate::writing::writes;
use serde_qs::helpers::{comma_separated, pipe_delimited, space_delimited};
use serde_qs::{Config, Data, Deserializer, Shape};
use std::process::Abort;

// Reads only this field, and returns its text.
fn text_of<R: Abort>(b: &Build<'_, R>, input: &str, name: &str) -> Data {
    let shape = b.field(name, Shape::Text);
    if !shape.is_distinct() {
        b.rt.panic(input);
    }
    let deserializer = Deserializer::with_config(b.alloc, Config::new(), input.as_bytes());
    let read = made(b.rt, deserializer).read(b.alloc, &shape);
    match made(b.rt, read) {
        Data::Struct(members) => first_value(b, members),
        other => panic!(b.rt; "{other:?}"),
    }
}

// Returns the value of the only member.
fn first_value<R: Abort>(b: &Build<'_, R>, mut members: Vec<(String, Data)>) -> Data {
    present(b.rt, members.pop(), "a member").1
}

// Claims that the numbers are written as this text, and read back from it.
fn between_commas<R: Abort>(b: &Build<'_, R>, numbers: &[u8], input: &str) {
    let data = made(b.rt, comma_separated::serialize(b.alloc, numbers));
    writes(b, Config::new(), &b.one("values", data), input);
    are_read_between_commas(b, input, "values", numbers);
}

// Claims that the field has these numbers, separated by commas.
fn are_read_between_commas<R: Abort>(b: &Build<'_, R>, input: &str, name: &str, numbers: &[u8]) {
    let text = text_of(b, input, name);
    let read = made(b.rt, comma_separated::deserialize::<u8>(b.alloc, text));
    is_equal(b.rt, read.as_slice(), numbers, input);
}

#[test]
fn commas(rt: HostRuntime) {
    let b = Build::new(&rt, rt.alloc());
    between_commas(&b, &[], "values=");
    between_commas(&b, &[1, 2, 3], "values=1,2,3");
}

#[test]
fn commas_beside_a_number(rt: HostRuntime) {
    let t = Rows::new(&rt, rt.alloc());
    let b = &t.build;
    let input = "s=12&r=1,2,3";
    let shape = notation::shape(b, "Struct:r:s Text U8");
    let data = notation::data(b, "Struct:r:s Text:1%2C2%2C3 Unsigned:12");
    t.reads(input, &shape, data);
    are_read_between_commas(b, input, "r", &[1, 2, 3]);
}

const WORDS: &str = "tags=foo|bar|baz&words=hello+world";

// Claims that these words were read.
fn are_words<R: Abort>(b: &Build<'_, R>, words: &[String], wanted: &[&str]) {
    is_equal(b.rt, words.len(), wanted.len(), wanted);
    for (word, wanted) in words.iter().zip(wanted) {
        is_text(b.rt, word, wanted, WORDS);
    }
}

#[test]
fn pipes(rt: HostRuntime) {
    let b = Build::new(&rt, rt.alloc());
    let text = text_of(&b, WORDS, "tags");
    let read = made(&rt, pipe_delimited::deserialize::<String>(b.alloc, text));
    are_words(&b, &read, &["foo", "bar", "baz"]);
}

#[test]
fn words_between_spaces(rt: HostRuntime) {
    let b = Build::new(&rt, rt.alloc());
    let text = text_of(&b, WORDS, "words");
    let read = made(&rt, space_delimited::deserialize::<String>(b.alloc, text));
    are_words(&b, &read, &["hello", "world"]);
}

// Claims that the numbers are read from the input, and written as this text.
fn between_spaces<R: Abort>(b: &Build<'_, R>, input: &str, written: &str, numbers: &[u8]) {
    let text = text_of(b, input, "values");
    let read = made(b.rt, space_delimited::deserialize::<u8>(b.alloc, text));
    is_equal(b.rt, read.as_slice(), numbers, input);
    let data = made(b.rt, space_delimited::serialize(b.alloc, numbers));
    writes(b, Config::new(), &b.one("values", data), written);
}

#[test]
fn numbers_between_spaces(rt: HostRuntime) {
    let b = Build::new(&rt, rt.alloc());
    between_spaces(&b, "values=1%202%203", "values=1+2+3", &[1, 2, 3]);
    between_spaces(&b, "values=", "values=", &[]);
}
