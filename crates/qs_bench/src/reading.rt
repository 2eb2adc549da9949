//! Reading.

ghost use Rattle.std.specs.Prelude.{◌≡◌, true};
ghost use Rattle.qs_spec.specs.Shape.{is_distinct};
ghost use Rattle.qs_data.specs.shape.Views.{shape_of};

use crate::loads::numbered_load;
use qs_data::{Data, Deserializer, Result, Shape};
use std::alloc::Global;

/// Reads the input by the shape with this number (`loads.rt`) `times` times, at least once, each time from its bytes. Returns
/// whether all went well. If so, `size` is how much was read last; else nothing is changed.
#[unsafe(no_mangle)]
pub extern "C" fn qs_bench_read(
    alloc: Global,
    times: usize,
    number: usize,
    input: &[u8],
    size: &mut usize,
) -> bool {
    let Some(read) = last_size(alloc, times, number, input) else {
        return false;
    };
    *size = read;
    true
}

// Reads `times` times, at least once. Returns how much the last read returns.
fn last_size(alloc: Global, times: usize, number: usize, input: &[u8]) -> Option<usize> {
    let Ok(Some(load)) = numbered_load(alloc, number) else {
        return None;
    };
    if !load.shape.is_distinct() {
        return None;
    }
    let Ok(datum) = last_data(alloc, times, &load.shape, input) else {
        return None;
    };
    load.size_of(&datum)
}

// Reads `times` times, at least once. Returns the data of the last read.
fn last_data(alloc: Global, times: usize, shape: &Shape, input: &[u8]) -> Result<Data>
    requires { is_distinct (shape_of shape.now) ≡ true }
{
    for _ in 1..times {
        read(alloc, shape, input)?;
    }
    read(alloc, shape, input)
}

// Returns the data that is read.
fn read(alloc: Global, shape: &Shape, input: &[u8]) -> Result<Data>
    requires { is_distinct (shape_of shape.now) ≡ true }
{
    Deserializer::new(alloc, input)?.read(alloc, shape)
}
