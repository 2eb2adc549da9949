//! What is written before an error, and which error the calls return.

use qs_serde::{Config, Error, from_str, to_string, to_writer, to_writer_with};
use serde::{Described, Deserialize, Serialize, Serializer};
use std::io;
use std::io::Write;

#[derive(Drop, Serialize, Deserialize)]
struct Person {
    name: String,
    ids: Vec<u8>,
}

// A writer that takes some bytes and then fails.
#[derive(Drop)]
struct Limited {
    held: Vec<u8>,
    room: usize,
}

impl Write for Limited {
    fn write(&mut self, bytes: &[u8]) -> io::Result<usize> {
        let count = bytes.len().min(self.room);
        if count == 0 {
            return Err(io::Error::from(io::ErrorKind::BrokenPipe));
        }
        self.held.extend_from_slice(&bytes[..count])?;
        self.room -= count;
        Ok(count)
    }

    fn flush(&mut self) -> io::Result<()> {
        Ok(())
    }
}

// A value whose code hides an error of the serializer.
struct Hidden;

impl Described for Hidden {}

impl Serialize for Hidden {
    fn serialize<S: Serializer>(&self, out: &mut S) -> Result<(), S::Error> {
        let _ = out.end_key();
        Ok(())
    }
}

#[test]
fn error_of_the_writer(rt: HostRuntime) {
    let alloc = rt.alloc();
    let person: Person = from_str(alloc, "name=Al&ids[0]=7").expect(&rt, "a person");
    let mut out = Limited {
        held: Vec::new(alloc),
        room: 9,
    };
    match to_writer(alloc, &person, &mut out) {
        Err(Error::Io(error)) => assert!(rt; error.kind() == io::ErrorKind::BrokenPipe),
        _ => assert!(rt; false, "no error of the writer"),
    }
    assert!(rt; out.held.as_slice() == b"name=Al&i".as_slice());
}

#[test]
fn entries_before_an_error(rt: HostRuntime) {
    let alloc = rt.alloc();
    let person: Person = from_str(alloc, "name=Al&ids[0]=7").expect(&rt, "a person");
    let flat = Config::new().max_depth(0);
    let mut out = Vec::new(alloc);
    let written = to_writer_with(alloc, flat, &person, &mut out);
    assert!(rt; matches!(written, Err(Error::MaxSerializationDepthExceeded(0))));
    assert!(rt; out.as_slice() == b"name=Al".as_slice());
}

#[test]
fn hidden_error(rt: HostRuntime) {
    let alloc = rt.alloc();
    assert!(rt; matches!(to_string(alloc, &Hidden), Err(Error::Failed)));
    let mut out = Vec::new(alloc);
    assert!(rt; matches!(to_writer(alloc, &Hidden, &mut out), Err(Error::Failed)));
    assert!(rt; out.is_empty());
}
