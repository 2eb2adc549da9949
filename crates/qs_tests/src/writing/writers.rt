//! Writers that take few bytes at a time, and writers that stop.

use crate::build::Build;
use crate::claims::{fails, holds, is_equal, made};
use crate::narrow::{Narrow, Stop};
use crate::notation;
use serde_qs::{
    ByWrite, Config, ConfigExt, Data, Error, Result, Serializer, Sink, from_str, to_writer,
};
use std::alloc::Global;
use std::collections::BTreeMap;
use std::fmt::Debug;
use std::io;
use std::process::Abort;

const WHOLE: &[u8; 10] = b"a=1&b[0]=2";

const ADDRESS: &str =
    "address[city]=Carrot+City&address[postcode]=12345&address[street]=Special-Street*+No.+11";

// Returns a struct of a number and a list of one number.
fn number_and_list<R: Abort>(b: &Build<'_, R>) -> Data {
    notation::data(b, "Struct:a:b Unsigned:1 Seq:1 Unsigned:2")
}

// Claims that a writer with this capacity holds as many bytes of the text, no write is repeated, and the serializer fails from then on.
fn stops_at<R: Abort>(rt: &R, alloc: Global, datum: &Data, room: usize, step: usize, stop: Stop) {
    let case = (stop, step, room);
    let mut writer = made(rt, Narrow::new(alloc, step, room, stop));
    let mut serializer = Serializer::new(&mut writer, Config::new());
    let first = fails(rt, serializer.serialize(alloc, datum));
    holds(rt, matches!(first, Error::Io(_)), case);
    let second = fails(rt, serializer.serialize(alloc, datum));
    holds(rt, matches!(second, Error::Failed), case);
    holds(rt, serializer.into_sink().has_failed(), case);
    is_equal(rt, Some(writer.held.as_slice()), WHOLE.get(..room), case);
}

#[test]
fn stops_in_mid_stream(rt: HostRuntime) {
    let build = Build::new(&rt, rt.alloc());
    let datum = number_and_list(&build);
    for stop in [Stop::Fails, Stop::IsInterrupted, Stop::TakesNothing] {
        for step in [1, 3, 5, 10] {
            for room in 0..WHOLE.len() {
                stops_at(&rt, rt.alloc(), &datum, room, step, stop);
            }
        }
    }
}

// Claims that the error of a writer that stops in this way is std's for this kind.
fn reports<R: Abort>(b: &Build<'_, R>, stop: Stop, kind: io::ErrorKind) {
    let datum = number_and_list(b);
    let mut writer = made(b.rt, Narrow::new(b.alloc, 1, 3, stop));
    let mut serializer = Serializer::new(&mut writer, Config::new());
    let error = fails(b.rt, serializer.serialize(b.alloc, &datum));
    is_cause(b, &error, kind, stop);
    call_reports(b, Call::Writer, stop, kind);
    call_reports(b, Call::Configured, stop, kind);
}

// Claims the same of a typed call.
fn call_reports<R: Abort>(b: &Build<'_, R>, call: Call, stop: Stop, kind: io::ErrorKind) {
    let addresses: Addresses = made(b.rt, from_str(b.alloc, ADDRESS));
    let mut writer = made(b.rt, Narrow::new(b.alloc, 1, 3, stop));
    let error = fails(b.rt, call.write(b.alloc, &addresses, &mut writer));
    is_cause(b, &error, kind, stop);
}

// Claims that an error has the text of std's of this kind.
fn is_cause<R: Abort>(b: &Build<'_, R>, error: &Error, kind: io::ErrorKind, stop: Stop) {
    let said = made(b.rt, error.to_string(b.alloc));
    let wanted = made(b.rt, io::Error::from(kind).to_string(b.alloc));
    is_equal(b.rt, said, wanted, stop);
}

// The error is the writer's own. If a write took nothing, the error is std's for that.
#[test]
fn the_cause_is_reported(rt: HostRuntime) {
    let b = Build::new(&rt, rt.alloc());
    reports(&b, Stop::Fails, io::ErrorKind::BrokenPipe);
    reports(&b, Stop::IsInterrupted, io::ErrorKind::Interrupted);
    reports(&b, Stop::TakesNothing, io::ErrorKind::WriteZero);
}

// The text of an entry is written whole, however long its key is.
#[test]
fn long_keys_are_put(rt: HostRuntime) {
    let b = Build::new(&rt, rt.alloc());
    let name = made(&rt, "n".repeat(b.alloc, 5_000));
    let datum = b.one(&name, Data::Unsigned(7));
    let mut serializer = Serializer::over(ByWrite::new(Vec::new(b.alloc)), Config::new());
    made(&rt, serializer.serialize(b.alloc, &datum));
    let written = serializer.into_sink().into_writer();
    let wanted = made(&rt, format!(in b.alloc; "{name}=7"));
    holds(&rt, written.as_slice() == wanted.as_bytes(), "a long key");
}

// Claims that a writer that takes this many bytes at a time holds the whole text.
fn takes_all<R: Abort>(b: &Build<'_, R>, datum: &Data, step: usize) {
    let narrow = Narrow::new(b.alloc, step, WHOLE.len(), Stop::Fails);
    let mut writer = made(b.rt, narrow);
    let mut serializer = Serializer::new(&mut writer, Config::new());
    made(b.rt, serializer.serialize(b.alloc, datum));
    holds(b.rt, !serializer.into_sink().has_failed(), step);
    is_equal(b.rt, writer.held.as_slice(), WHOLE.as_slice(), step);
}

#[test]
fn takes_all_in_small_steps(rt: HostRuntime) {
    let b = Build::new(&rt, rt.alloc());
    let datum = number_and_list(&b);
    for step in [1, 3, 5, 10] {
        takes_all(&b, &datum, step);
    }
}

type Addresses = BTreeMap<String, BTreeMap<String, String>>;

/// How a typed call writes to a writer.
#[derive(Clone, Copy, Debug)]
enum Call {
    Writer,
    Configured,
}

impl Call {
    // Writes the addresses by this call.
    fn write(self, alloc: Global, addresses: &Addresses, writer: &mut Narrow) -> Result<()> {
        match self {
            Call::Writer => to_writer(alloc, addresses, writer),
            Call::Configured => Config::new().serialize_to_writer(alloc, addresses, writer),
        }
    }
}

// Claims that a writer with this capacity holds as much of the text, and that the call failed if there was more.
fn holds_front<R: Abort, C: Debug + Copy + Drop>(
    rt: &R,
    held: &[u8],
    outcome: Result<()>,
    text: &str,
    room: usize,
    case: C,
) {
    is_equal(rt, Some(held), text.as_bytes().get(..room), case);
    is_equal(rt, outcome.is_ok(), room == text.len(), case);
    holds(rt, matches!(outcome, Ok(()) | Err(Error::Io(_))), case);
}

// Claims that each prefix of the line is what a writer with its length as capacity holds.
fn fronts<R: Abort>(
    rt: &R,
    alloc: Global,
    addresses: &Addresses,
    call: Call,
    step: usize,
    stop: Stop,
) {
    for room in 0..=ADDRESS.len() {
        let mut writer = made(rt, Narrow::new(alloc, step, room, stop));
        let outcome = call.write(alloc, addresses, &mut writer);
        let case = (call, stop, step, room);
        holds_front(rt, &writer.held, outcome, ADDRESS, room, case);
    }
}

#[test]
fn typed_calls_stop_in_mid_stream(rt: HostRuntime) {
    let addresses: Addresses = made(&rt, from_str(rt.alloc(), ADDRESS));
    for stop in [Stop::Fails, Stop::IsInterrupted, Stop::TakesNothing] {
        for step in [1, 7, ADDRESS.len()] {
            for call in [Call::Writer, Call::Configured] {
                fronts(&rt, rt.alloc(), &addresses, call, step, stop);
            }
        }
    }
}

// A text of more than 8,192 bytes is written in pieces.
#[test]
fn typed_calls_stop_in_a_long_text(rt: HostRuntime) {
    let alloc = rt.alloc();
    let value = made(&rt, "v".repeat(alloc, 20_000));
    let text = made(&rt, format!(in alloc; "a[b]={value}"));
    let addresses: Addresses = made(&rt, from_str(alloc, &text));
    for room in [
        0, 4, 5, 6, 1_029, 4_096, 8_191, 8_192, 8_193, 20_004, 20_005,
    ] {
        stops_in(&rt, alloc, &addresses, &text, Call::Writer, room);
        stops_in(&rt, alloc, &addresses, &text, Call::Configured, room);
    }
}

// Claims that a writer with this capacity holds as much of the text of the addresses.
fn stops_in<R: Abort>(
    rt: &R,
    alloc: Global,
    addresses: &Addresses,
    text: &str,
    call: Call,
    room: usize,
) {
    let mut writer = made(rt, Narrow::new(alloc, 3_000, room, Stop::Fails));
    let outcome = call.write(alloc, addresses, &mut writer);
    holds_front(rt, &writer.held, outcome, text, room, (call, room));
}

#[test]
fn a_second_value_continues(rt: HostRuntime) {
    let b = Build::new(&rt, rt.alloc());
    let mut serializer = Serializer::over(ByWrite::new(Vec::new(b.alloc)), Config::new());
    let first = b.one("a", Data::Unsigned(1));
    made(&rt, serializer.serialize(b.alloc, &first));
    let second = b.one("b", Data::Unsigned(2));
    made(&rt, serializer.serialize(b.alloc, &second));
    let written = serializer.into_sink().into_writer();
    is_equal(&rt, written.as_slice(), b"a=1&b=2", "two values");
}
