//! Ten entries in each rotation, in reverse, and in a hundred shuffles.

use crate::build::Build;
use crate::claims::{holds, made, present};
use crate::notation;
use crate::rows::Rows;
use crate::writing::writes;
use serde_qs::Config;
use std::process::Abort;

const ENTRIES: [&str; 10] = [
    "id=42",
    "name=Acme",
    "phone=12345",
    "address[city]=Carrot+City",
    "address[street]=Special-Street*+No.+11",
    "address[postcode]=12345",
    "user_ids[0]=1",
    "user_ids[1]=2",
    "user_ids[2]=3",
    "user_ids[3]=4",
];

/// A user with an address and a list.
const SHAPE: &str =
    "Struct:id:name:phone:address:user_ids U64 Text U32 Struct:city:street:postcode Text Text Text Seq U8";

const DATA: &str =
    "Struct:id:name:phone:address:user_ids Unsigned:42 Text:Acme Unsigned:12345 Struct:city:street:postcode Text:Carrot%20City Text:Special-Street*%20No.%2011 Text:12345 Seq:4 Unsigned:1 Unsigned:2 Unsigned:3 Unsigned:4";

/// The indices of the entries, in order.
const IN_ORDER: [usize; 10] = [0, 1, 2, 3, 4, 5, 6, 7, 8, 9];

// Returns the entries at these indices, with `&` between them.
fn text<R: Abort>(b: &Build<'_, R>, indices: &[usize]) -> String {
    let mut text = String::new(b.alloc);
    for index in indices {
        if !text.is_empty() {
            made(b.rt, text.push('&'));
        }
        let entry = present(b.rt, ENTRIES.get(*index), "an entry");
        made(b.rt, text.push_str(entry));
    }
    text
}

#[test]
fn written(rt: HostRuntime) {
    let b = Build::new(&rt, rt.alloc());
    let data = notation::data(&b, DATA);
    holds(&rt, data.is_plain(Config::new()), "plain");
    holds(&rt, notation::shape(&b, SHAPE).fits(&data), "fitting");
    writes(&b, Config::new(), &data, &text(&b, &IN_ORDER));
}

// Claims that the user is read from the entries at these indices.
fn is_read<R: Abort>(b: &Build<'_, R>, indices: &[usize]) {
    let t = Rows::new(b.rt, b.alloc);
    let shape = notation::shape(b, SHAPE);
    t.reads(&text(b, indices), &shape, notation::data(b, DATA));
}

// Returns the indices with the first one last.
fn rotated_once(mut indices: [usize; 10]) -> [usize; 10] {
    indices.rotate_left(1);
    indices
}

#[test]
fn rotated(rt: HostRuntime) {
    let b = Build::new(&rt, rt.alloc());
    let mut indices = IN_ORDER;
    for _ in 0..10 {
        indices = rotated_once(indices);
        is_read(&b, &indices);
    }
}

#[test]
fn reversed(rt: HostRuntime) {
    let b = Build::new(&rt, rt.alloc());
    is_read(&b, &[9, 8, 7, 6, 5, 4, 3, 2, 1, 0]);
}

// Returns the indices in an order by pseudo-random numbers.
fn shuffle(seed: u64) -> [usize; 10] {
    let mut indices = IN_ORDER;
    let mut state = seed;
    for index in 0..indices.len() {
        state = state
            .wrapping_mul(6_364_136_223_846_793_005)
            .wrapping_add(1_442_695_040_888_963_407);
        let other = (state >> 33) as usize % indices.len();
        indices.swap(index, other);
    }
    indices
}

#[test]
fn shuffled(rt: HostRuntime) {
    let b = Build::new(&rt, rt.alloc());
    for seed in 0..100 {
        is_read(&b, &shuffle(seed));
    }
}
