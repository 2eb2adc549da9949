//! Lists in the formats that write no indices, and what they lose.

use crate::build::Build;
use crate::claims::is_equal;
use crate::notation;
use crate::rows::reads_each;
use crate::writing::writes_each;
use serde_qs::{ArrayFormat, Config};
use std::process::Abort;

/// Data, and the text that it is written as.
const WRITTEN: &str = "\
# lists
Struct:empty:one:many Seq:0 Seq:1 Text:only%20one Seq:2 Unsigned:1 Unsigned:2
    empty | empty=&one[]=only+one&many[]=1&many[]=2
    unindexed | empty=&one=only+one&many=1&many=2

# structs in a list
Struct:v Seq:1 Struct:a Unsigned:1
    empty | v[][a]=1
    unindexed | v[a]=1

# at the top
Seq:2 Unsigned:1 Unsigned:2
    unindexed | =1=2

# one empty text
Struct:a Seq:1 Text:
    unindexed | a=
    empty | a[]=
Seq:1 Text:
    empty | =

# a single item
Struct:a Tuple:1 Text:
    unindexed | a=
Struct:e TupleVariant:v:1 Text:
    unindexed | e[v]=
Struct:a Seq:1 Unit
    unindexed | a=
Struct:a Seq:1 None
    unindexed | a
";

/// What is read from such texts.
const READ: &str = "\
# lists come back, also in another order
Struct:empty:one:many Seq U8 Seq Text Seq U8
    empty=&one[]=only+one&many[]=1&many[]=2 | Struct:empty:one:many Seq:0 Seq:1 Text:only%20one Seq:2 Unsigned:1 Unsigned:2
    empty=&one=only+one&many=1&many=2       | Struct:empty:one:many Seq:0 Seq:1 Text:only%20one Seq:2 Unsigned:1 Unsigned:2
    many[]=1&one[]=only+one&many[]=2&empty= | Struct:empty:one:many Seq:0 Seq:1 Text:only%20one Seq:2 Unsigned:1 Unsigned:2

# entries with one path are elements in their order
Struct:v Seq U8
    v[]=2&v[]=1   | Struct:v Seq:2 Unsigned:2 Unsigned:1
    v=2&v=1       | Struct:v Seq:2 Unsigned:2 Unsigned:1
    v[1]=2&v[0]=1 | Struct:v Seq:2 Unsigned:1 Unsigned:2

# structs in a list are lost
Struct:v Seq Struct:a U8
    v[][a]=1 | ! parsing failed with error: 'unsupported: unable to parse nested maps of unindexed sequences ' at position: 4
    v[a]=1   | ! invalid type: map, expected a sequence

# at the top
Text
    =1=2 | Text:1%3D2
Seq U8
    =1&=2 | Seq:2 Unsigned:1 Unsigned:2

# one empty text is lost
Struct:a Seq Text
    a=   | Struct:a Seq:0
    # brackets make it another than the empty list
    a[]= | Struct:a Seq:1 Text:
Seq Text
    # but not at the top, where neither has a key
    = | Seq:0

# tuples of one empty text are lost too, and so are elements that have no text
Struct:a Tuple:1 Text
    a= | ! invalid length 0
Struct:e Enum:1 tuple:v:1 Text
    e[v]= | ! invalid length 0
Struct:a Seq Unit
    a= | Struct:a Seq:0
Struct:a Seq Option Text
    a | Struct:a Seq:0
";

/// Data, and whether their lists come back with empty brackets, and with nothing after a name.
const LISTED: [(&str, bool, bool); 17] = [
    (
        "Struct:empty:one:many Seq:0 Seq:1 Text:only%20one Seq:2 Unsigned:1 Unsigned:2",
        true,
        true,
    ),
    ("Text:", true, true),
    ("Seq:0", false, false),
    ("Some Tuple:0", false, false),
    ("Struct:a Seq:0", true, true),
    ("Struct:a Some Newtype Seq:0", true, true),
    ("Struct:a Seq:1 Text:", true, false),
    ("Struct:a Seq:1 Bytes:", true, false),
    ("Struct:a Seq:2 Text: Text:", true, true),
    ("Struct:a Seq:1 Unit", false, false),
    ("Struct:a Seq:1 Seq:0", false, false),
    ("Struct:a Tuple:1 Some Bool:true", false, false),
    ("Struct:a Seq:1 Struct:b Char:c", false, false),
    ("NewtypeVariant:v Seq:1 UnitVariant:u", true, true),
    ("TupleVariant:v:1 Unsigned:1", true, true),
    ("TupleVariant:v:1 Text:", true, false),
    ("Map:1 Text:k Seq:1 None", false, false),
];

#[test]
fn written(rt: HostRuntime) {
    writes_each(&rt, rt.alloc(), WRITTEN, 12);
}

#[test]
fn read(rt: HostRuntime) {
    reads_each(&rt, rt.alloc(), READ, 17);
}

// Claims whether the lists in the data come back in this format.
fn is_listed<R: Abort>(b: &Build<'_, R>, data: &str, format: ArrayFormat, wanted: bool) {
    let config = Config::new().array_format(format);
    let is_listed = notation::data(b, data).is_listed(config);
    is_equal(b.rt, is_listed, wanted, (data, format));
}

#[test]
fn listed(rt: HostRuntime) {
    let b = Build::new(&rt, rt.alloc());
    for (data, brackets, nothing) in &LISTED {
        is_listed(&b, data, ArrayFormat::Indexed, true);
        is_listed(&b, data, ArrayFormat::EmptyIndexed, *brackets);
        is_listed(&b, data, ArrayFormat::Unindexed, *nothing);
    }
}
