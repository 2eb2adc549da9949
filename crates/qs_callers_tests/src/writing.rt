//! Typed calls that write.

use crate::claims::{gives_text, holds, is_written};
use crate::values::{ALICE, alice, list, one, text};
use qs_callers::{Account, Filter, Pair, Price, Search, Sort, rewritten};
use qs_tests::{Narrow, Stop};
use serde_qs::{Config, ConfigExt, Error, Result, to_string, to_writer};
use std::alloc::Global;
use std::process::Abort;

// Claims that the query is written as the text, into a string and by a writer.
fn is_written_by<R: Abort>(rt: &R, alloc: Global, config: Config) {
    let query = alice(rt, alloc);
    gives_text(rt, config.serialize_string(alloc, &query), ALICE);
    let mut out = Vec::new(alloc);
    let result = config.serialize_to_writer(alloc, &query, &mut out);
    is_put(rt, result, out, ALICE);
}

// Claims that the call succeeded and wrote this text.
fn is_put<R: Abort>(rt: &R, outcome: Result<()>, out: Vec<u8>, wanted: &str) {
    outcome.expect(rt, wanted);
    gives_text(rt, String::from_utf8(out).map_err(Error::FromUtf8), wanted);
}

// Claims that the depth limit stopped the writer.
fn is_too_deep<R: Abort, T: Drop>(rt: &R, outcome: Result<T>) {
    let is_so = matches!(outcome, Err(Error::MaxSerializationDepthExceeded(0)));
    holds(rt, is_so, "too deep");
}

#[test]
fn each_call_writes(rt: HostRuntime) {
    let alloc = rt.alloc();
    let query = alice(&rt, alloc);
    gives_text(&rt, to_string(alloc, &query), ALICE);
    let mut out = Vec::new(alloc);
    let result = to_writer(alloc, &query, &mut out);
    is_put(&rt, result, out, ALICE);
    let written = rewritten(alloc, "occupation=Student&age=24&name=Alice");
    gives_text(&rt, written, ALICE);
}

#[test]
fn each_call_of_a_configuration_writes(rt: HostRuntime) {
    is_written_by(&rt, rt.alloc(), Config::new());
}

#[test]
fn in_form_mode(rt: HostRuntime) {
    let config = Config::new().use_form_encoding(true);
    is_written_by(&rt, rt.alloc(), config);
}

#[test]
fn other_names(rt: HostRuntime) {
    let alloc = rt.alloc();
    let account = Account {
        first_name: text(&rt, alloc, "John"),
        last_name: text(&rt, alloc, "Doe"),
        id: 12345,
    };
    let wanted = "firstName=John&lastName=Doe&user-id=12345";
    is_written(&rt, alloc, &account, wanted);
}

#[test]
fn nested_values(rt: HostRuntime) {
    let alloc = rt.alloc();
    let search = Search {
        text: text(&rt, alloc, "a b"),
        page: Some(2),
        ranges: list(&rt, alloc, [list(&rt, alloc, [-1, 2])]),
        labels: one(&rt, alloc, "lang", text(&rt, alloc, "en")),
    };
    let wanted = "text=a+b&page=2&ranges[0][0]=-1&ranges[0][1]=2&labels[lang]=en";
    is_written(&rt, alloc, &search, wanted);
}

#[test]
fn variants(rt: HostRuntime) {
    let alloc = rt.alloc();
    let pair = Pair {
        a: Sort::Between { from: 2, to: 9 },
        b: Price(250),
    };
    let wanted = "a[Between][from]=2&a[Between][to]=9&b=250";
    is_written(&rt, alloc, &pair, wanted);
    let pair = Pair {
        a: Sort::Relevance,
        b: Sort::By(text(&rt, alloc, "price")),
    };
    is_written(&rt, alloc, &pair, "a=Relevance&b[By]=price");
}

#[test]
fn absent_fields_are_left_out(rt: HostRuntime) {
    let alloc = rt.alloc();
    let filter = Filter {
        text: text(&rt, alloc, "qs"),
        page: None,
        size: Some(10),
    };
    is_written(&rt, alloc, &filter, "text=qs&size=10");
}

#[test]
fn too_deep(rt: HostRuntime) {
    let alloc = rt.alloc();
    let pair = Pair {
        a: 1u8,
        b: list(&rt, alloc, [2u8]),
    };
    let config = Config::new().max_depth(0);
    is_too_deep(&rt, config.serialize_string(alloc, &pair));
    let mut out = Vec::new(alloc);
    let result = config.serialize_to_writer(alloc, &pair, &mut out);
    is_too_deep(&rt, result);
    holds(&rt, out.as_slice() == b"a=1".as_slice(), "what is written");
}

// Claims that a writer with this capacity holds as much of the query's text, and that the call failed if there was more.
fn stops_at<R: Abort>(rt: &R, alloc: Global, room: usize) {
    let mut writer = Narrow::new(alloc, 1, room, Stop::Fails).expect(rt, "a writer");
    let outcome = to_writer(alloc, &alice(rt, alloc), &mut writer);
    let is_front = ALICE.as_bytes().get(..room) == Some(writer.held.as_slice());
    holds(rt, is_front, "the front of the text");
    let is_whole = room == ALICE.len();
    holds(rt, outcome.is_ok() == is_whole, "the whole text");
    let is_of_the_writer = matches!(outcome, Ok(()) | Err(Error::Io(_)));
    holds(rt, is_of_the_writer, "the writer's error");
}

// A struct is written field by field.
#[test]
fn a_struct_stops_in_mid_stream(rt: HostRuntime) {
    for room in 0..=ALICE.len() {
        stops_at(&rt, rt.alloc(), room);
    }
}
