//! Data that isn't plain: what is read instead.

use crate::build::Build;
use crate::claims::holds;
use crate::notation;
use crate::rows::reads_each;
use serde_qs::Config;
use std::process::Abort;

/// Shapes, and data that fits them.
const LOST: [(&str, &str); 3] = [
    ("Struct:a Option Option U8", "Struct:a Some None"),
    ("Struct:m Map:Text Text", "Struct:m Map:1 Text:01 Text:x"),
    ("Struct:s Struct", "Struct:s Struct"),
];

/// What is read from their texts.
const READ: &str = "\
Struct:a Option Option U8
    a | Struct:a None
Struct:m Map:Text Text
    m[01]=x | Struct:m Map:1 Text:1 Text:x
Struct:s Struct
     | ! missing field `s`
";

// Claims that the data fits the shape, and isn't plain.
fn is_lost<R: Abort>(b: &Build<'_, R>, shape: &str, data: &str) {
    let lost = notation::data(b, data);
    holds(b.rt, !lost.is_plain(Config::new()), data);
    holds(b.rt, notation::shape(b, shape).fits(&lost), data);
}

#[test]
fn each_case(rt: HostRuntime) {
    let b = Build::new(&rt, rt.alloc());
    for (shape, data) in &LOST {
        is_lost(&b, shape, data);
    }
    reads_each(&rt, rt.alloc(), READ, 3);
}
