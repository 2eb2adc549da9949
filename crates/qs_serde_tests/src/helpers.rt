//! Lists in one text.

use crate::claims::each;
use serde::{Deserialize, Serialize};

mod dotted {
    use qs_serde::helpers::generic_delimiter;
    use serde::{Deserializer, Format, Serializer};
    use std::alloc::Global;

    pub fn serialize<S: Serializer>(values: &[u8], out: &mut S) -> Result<(), S::Error> {
        generic_delimiter::serialize(values, '.', out)
    }

    pub fn deserialize<F: Format>(
        alloc: Global,
        from: &mut Deserializer<'_, '_, F>,
    ) -> Result<Vec<u8>, F::Error> {
        generic_delimiter::deserialize(alloc, '.', from)
    }
}

#[derive(Drop, Serialize, Deserialize)]
struct Lists {
    #[serde(with = "qs_serde::helpers::comma_separated")]
    words: Vec<String>,
    #[serde(with = "qs_serde::helpers::pipe_delimited")]
    numbers: Vec<i32>,
    #[serde(with = "qs_serde::helpers::space_delimited")]
    flags: Vec<bool>,
    #[serde(with = "dotted")]
    bytes: Vec<u8>,
}

// Of a piece that is no item the Rust crate has the text of the item's error.
const LISTS: &str = "\
    words=apple,b+c&numbers=1|-2&flags=true+false&bytes=10.20 | words=apple,b+c&numbers=1|-2&flags=true+false&bytes=10.20
    words=&numbers=&flags=&bytes= | words=&numbers=&flags=&bytes=
    words=a&numbers=1&flags=true%20false&bytes=007 | words=a&numbers=1&flags=true+false&bytes=7
    words&numbers=1&flags=yes&bytes=1 | ! flags: invalid item `yes`
    words=a&numbers=1|&flags=&bytes=1 | ! numbers: invalid item ``
    words=a&numbers=1&flags=&bytes=256 | ! bytes: invalid item `256`
    words[0]=a&numbers=&flags=&bytes= | ! words: invalid type: map, expected a string
    words=%FF&numbers=&flags=&bytes= | ! words: invalid utf-8 sequence of 1 bytes from index 0
";

#[test]
fn lists_in_one_text(rt: HostRuntime) {
    each::<_, Lists>(&rt, rt.alloc(), LISTS);
}
