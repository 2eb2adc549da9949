//! Reading and writing values of the same types, by serde's derives.

use crate::text::hand_out;
use crate::types::{Ids, Nested, Person, Record};
use qs_serde::{Result, from_bytes, to_string};
use serde::{Deserialize, Serialize};
use std::alloc::Global;
use std::collections::BTreeMap;

/// Reads the input as a struct of three fields `reads` times, at least once, each time from its bytes. Then writes the last value
/// `writes` times, at least once, each time to fresh memory. Returns whether all went well. If so, `len` is the text's length, and the
/// text is at the front of `out`, if it fits there; else nothing is changed.
#[unsafe(no_mangle)]
pub extern "C" fn qs_bench_derived_person(
    alloc: Global,
    reads: usize,
    writes: usize,
    input: &[u8],
    out: &mut [u8],
    len: &mut usize,
) -> bool {
    let value = last_value::<Person>(alloc, reads, input);
    hand_out_value(alloc, writes, value, out, len)
}

/// Does the same with the record of ten entries.
#[unsafe(no_mangle)]
pub extern "C" fn qs_bench_derived_record(
    alloc: Global,
    reads: usize,
    writes: usize,
    input: &[u8],
    out: &mut [u8],
    len: &mut usize,
) -> bool {
    let value = last_value::<Record>(alloc, reads, input);
    hand_out_value(alloc, writes, value, out, len)
}

/// Does the same with a list of numbers under one field.
#[unsafe(no_mangle)]
pub extern "C" fn qs_bench_derived_ids(
    alloc: Global,
    reads: usize,
    writes: usize,
    input: &[u8],
    out: &mut [u8],
    len: &mut usize,
) -> bool {
    let value = last_value::<Ids>(alloc, reads, input);
    hand_out_value(alloc, writes, value, out, len)
}

/// Does the same with a map of texts.
#[unsafe(no_mangle)]
pub extern "C" fn qs_bench_derived_map(
    alloc: Global,
    reads: usize,
    writes: usize,
    input: &[u8],
    out: &mut [u8],
    len: &mut usize,
) -> bool {
    let value = last_value::<BTreeMap<String, String>>(alloc, reads, input);
    hand_out_value(alloc, writes, value, out, len)
}

/// Does the same with a text five keys deep.
#[unsafe(no_mangle)]
pub extern "C" fn qs_bench_derived_nested(
    alloc: Global,
    reads: usize,
    writes: usize,
    input: &[u8],
    out: &mut [u8],
    len: &mut usize,
) -> bool {
    let value = last_value::<Nested>(alloc, reads, input);
    hand_out_value(alloc, writes, value, out, len)
}

// Reads a value `times` times, at least once. Returns the last one.
fn last_value<'de, T: Deserialize<'de> + Drop>(
    alloc: Global,
    times: usize,
    input: &'de [u8],
) -> Result<T> {
    for _ in 1..times {
        let _value: T = from_bytes(alloc, input)?;
    }
    from_bytes(alloc, input)
}

// Writes the value `times` times, at least once, and hands out the last text. Returns whether there is a value, and was written.
fn hand_out_value<T: Serialize + Drop>(
    alloc: Global,
    times: usize,
    value: Result<T>,
    out: &mut [u8],
    len: &mut usize,
) -> bool {
    let Ok(value) = value else {
        return false;
    };
    let Ok(text) = last_text(alloc, times, &value) else {
        return false;
    };
    hand_out(text.as_bytes(), out, len);
    true
}

// Writes the value `times` times, at least once. Returns the last text.
fn last_text<T: Serialize>(alloc: Global, times: usize, value: &T) -> Result<String> {
    for _ in 1..times {
        to_string(alloc, value)?;
    }
    to_string(alloc, value)
}
