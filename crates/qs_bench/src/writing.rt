//! Writing.

use crate::samples;
use crate::text::hand_out;
use qs_data::{Config, Data, Result, Serializer};
use std::alloc::Global;

/// Makes a record of ten entries, and writes it `times` times, at least once, each time to fresh memory. Returns whether all
/// went well. If so, `len` is the text's length, and the text is at the front of `out`, if it fits there; else nothing is
/// changed.
#[unsafe(no_mangle)]
pub extern "C" fn qs_bench_write_record(
    alloc: Global,
    times: usize,
    out: &mut [u8],
    len: &mut usize,
) -> bool {
    write(alloc, times, samples::record(alloc), out, len)
}

/// Does the same for a struct of `count` fields, with their numbers in their names and texts, below `keys` keys.
#[unsafe(no_mangle)]
pub extern "C" fn qs_bench_write_fields(
    alloc: Global,
    times: usize,
    keys: usize,
    count: usize,
    out: &mut [u8],
    len: &mut usize,
) -> bool {
    let datum = samples::fields_below(alloc, keys, count);
    write(alloc, times, datum, out, len)
}

/// Does the same for a field with the list of the numbers below `count`.
#[unsafe(no_mangle)]
pub extern "C" fn qs_bench_write_numbers(
    alloc: Global,
    times: usize,
    count: usize,
    out: &mut [u8],
    len: &mut usize,
) -> bool {
    write(alloc, times, samples::numbers(alloc, count), out, len)
}

/// Does the same for a field with these bytes.
#[unsafe(no_mangle)]
pub extern "C" fn qs_bench_write_bytes(
    alloc: Global,
    times: usize,
    content: &[u8],
    out: &mut [u8],
    len: &mut usize,
) -> bool {
    write(alloc, times, samples::held(alloc, content), out, len)
}

// Writes the data `times` times, at least once, and hands out the last text. Returns whether there are data, and were written.
fn write(
    alloc: Global,
    times: usize,
    datum: Result<Data>,
    out: &mut [u8],
    len: &mut usize,
) -> bool {
    let Ok(datum) = datum else {
        return false;
    };
    let Ok(text) = last_text(alloc, times, &datum) else {
        return false;
    };
    hand_out(&text, out, len);
    true
}

// Writes the data `times` times, at least once. Returns the last text.
fn last_text(alloc: Global, times: usize, datum: &Data) -> Result<Vec<u8>> {
    for _ in 1..times {
        text_of(alloc, datum)?;
    }
    text_of(alloc, datum)
}

// Returns the text of the data, in a buffer with an initial capacity of 128 bytes.
fn text_of(alloc: Global, datum: &Data) -> Result<Vec<u8>> {
    let text = Vec::with_capacity(alloc, 128)?;
    let mut serializer = Serializer::new(text, Config::new());
    serializer.serialize(alloc, datum)?;
    Ok(serializer.into_sink().into_writer())
}
