//! What errors print, and what makers make.

ghost use Rattle.qs_data.specs.read.Errors.{IsOfReading};

use crate::claims::{fails, holds, is_text, made};
use qs_data::ReadError;
use qs_tree::Error;
use std::alloc::Global;
use std::process::Abort;
use std::{io, str};

// Returns this text as an owned string.
fn owned<R: Abort>(rt: &R, alloc: Global, text: &str) -> String {
    made(rt, String::from_str(alloc, text))
}

// Claims that the error prints this text, which isn't empty.
fn prints<R: Abort>(rt: &R, alloc: Global, error: Error, wanted: &str) {
    holds(rt, !wanted.is_empty(), "a text is wanted");
    let text = made(rt, error.to_string(alloc));
    is_text(rt, &text, wanted, "an error");
}

#[test]
fn prints_texts(rt: HostRuntime) {
    let alloc = rt.alloc();
    let missing = "missing field `a`";
    let custom = Error::Custom(owned(&rt, alloc, missing));
    prints(&rt, alloc, custom, missing);
    let depth = "Maximum serialization depth `5` exceeded";
    prints(&rt, alloc, Error::MaxSerializationDepthExceeded(5), depth);
    let parse = Error::Parse(owned(&rt, alloc, "no key"), 12);
    let text = "parsing failed with error: 'no key' at position: 12";
    prints(&rt, alloc, parse, text);
    prints_constant_texts(&rt, alloc);
}

// Claims that the errors without values print their texts.
fn prints_constant_texts<R: Abort>(rt: &R, alloc: Global) {
    let text = "unsupported type for serialization";
    prints(rt, alloc, Error::Unsupported, text);
    prints(rt, alloc, Error::OutOfMemory, "out of memory");
    prints(rt, alloc, Error::Failed, "serializer has failed");
}

// Returns the error of bytes that aren't UTF-8, and what it prints.
fn no_text<R: Abort>(rt: &R, alloc: Global) -> (str::Utf8Error, String) {
    let cause = fails(rt, str::from_utf8(b"\xFF"));
    let text = made(rt, cause.to_string(alloc));
    (cause, text)
}

// Claims that the error of reading becomes one that prints this text.
fn prints_of_reading<R: Abort>(rt: &R, alloc: Global, error: Error, wanted: &str)
    requires { IsOfReading error }
{
    prints(rt, alloc, Error::from(ReadError::of(alloc, error)), wanted);
}

#[test]
fn reading_has_three_errors(rt: HostRuntime) {
    let alloc = rt.alloc();
    let missing = "missing field `a`";
    let custom = Error::Custom(owned(&rt, alloc, missing));
    prints_of_reading(&rt, alloc, custom, missing);
    let (cause, text) = no_text(&rt, alloc);
    prints_of_reading(&rt, alloc, Error::Utf8(cause), &text);
    prints_of_reading(&rt, alloc, Error::OutOfMemory, "out of memory");
}

#[test]
fn prints_that_bytes_are_no_text(rt: HostRuntime) {
    let (cause, text) = no_text(&rt, rt.alloc());
    prints(&rt, rt.alloc(), Error::from(cause), &text);
}

#[test]
fn prints_that_a_vector_is_no_text(rt: HostRuntime) {
    let alloc = rt.alloc();
    let bytes = made(&rt, Vec::from_slice(alloc, b"\xFF"));
    let cause = fails(&rt, String::from_utf8(bytes));
    let text = made(&rt, cause.to_string(alloc));
    prints(&rt, alloc, Error::from(cause), &text);
}

#[test]
fn prints_that_a_text_is_no_number(rt: HostRuntime) {
    let alloc = rt.alloc();
    let cause = fails(&rt, "x".parse::<u8>());
    let text = made(&rt, cause.to_string(alloc));
    prints(&rt, alloc, Error::from(cause), &text);
}

#[test]
fn prints_why_a_write_failed(rt: HostRuntime) {
    let alloc = rt.alloc();
    let cause = io::Error::from(io::ErrorKind::WriteZero);
    let text = made(&rt, cause.to_string(alloc));
    prints(&rt, alloc, Error::from(cause), &text);
}

#[test]
fn makes_errors(rt: HostRuntime) {
    let alloc = rt.alloc();
    let text = "cannot deserialize primitive at the top level.Try deserializing into a struct.";
    prints(&rt, alloc, Error::top_level(alloc, "primitive"), text);
    let message = format_args!("missing index, expected: {} got {}", 1, 2);
    let text = "missing index, expected: 1 got 2";
    prints(&rt, alloc, Error::custom(alloc, message, &()), text);
    prints(&rt, alloc, Error::custom(alloc, "m", &1u8), "m");
    let text = "parsing failed with error: 'm' at position: 3";
    prints(&rt, alloc, Error::parse_err(alloc, "m", 3), text);
    let text = "parsing failed with error: 'query string ended before expected' at position: 3";
    let error = Error::parse_err(alloc, "query string ended before expected", 3);
    prints(&rt, alloc, error, text);
}
