//! Values that are written as one text, and values that have none.

use super::{writes, writes_each};
use crate::build::Build;
use crate::claims::made;
use serde_qs::Config;
use std::process::Abort;

const CASES: &str = "\
# texts
Struct:a Text:100%25%20a%2Bb
    a=100%25+a%2Bb
    form | a=100%25%20a%2Bb
Struct:a Text:%C3%A9
    a=%C3%A9
    form | a=%C3%A9
Struct:a Text:%2541
    a=%2541
    form | a=%2541
Struct:a Text:1%202%203
    a=1+2+3
    form | a=1%202%203
Struct:a Text:1%2C2%2C3
    a=1,2,3
    form | a=1%2C2%2C3
Struct:a Text:
    a=
    form | a=
Struct:a Text:2014-11-28T21%3A45%3A59.324310806%2B09%3A00
    a=2014-11-28T21:45:59.324310806%2B09:00
    form | a=2014-11-28T21%3A45%3A59.324310806%2B09%3A00

# bytes
Struct:bytes Bytes:hello%2C%20world%21
    bytes=hello,+world!
    form | bytes=hello%2C%20world%21

# other scalars
Struct:a Unit
    a=
Struct:a None
    a
Struct:a Bool:true
    a=true
Struct:a Bool:false
    a=false
Struct:a Unsigned:18446744073709551615
    a=18446744073709551615
Struct:a Signed:-9223372036854775808
    a=-9223372036854775808
Struct:a Signed:-129
    a=-129
Struct:a Char:%C3%A9
    a=%C3%A9
Struct:a Some None
    a
Struct:a Newtype Unsigned:1
    a=1

# at the top, where there is no key
Unit
    =
None
     |
Text:foo
    =foo
";

#[test]
fn each_case(rt: HostRuntime) {
    writes_each(&rt, rt.alloc(), CASES, 29);
}

// Asserts that a field with `count` letters and spaces is written.
fn is_written<R: Abort>(b: &Build<'_, R>, count: usize) {
    let value = made(b.rt, "\u{e9} ".repeat(b.alloc, count));
    let encoded = made(b.rt, "%C3%A9+".repeat(b.alloc, count));
    let wanted = made(b.rt, format!(in b.alloc; "a={encoded}"));
    writes(b, Config::new(), &b.one("a", b.text(&value)), &wanted);
}

// Values just below and above the length from which a value is written in pieces. A piece may end inside a character.
#[test]
fn long(rt: HostRuntime) {
    let build = Build::new(&rt, rt.alloc());
    for count in [341, 342, 1_000] {
        is_written(&build, count);
    }
}
