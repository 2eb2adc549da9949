//! Which data is plain, and which data fits a shape. A `!` precedes data that isn't plain or doesn't fit.

use crate::build::Build;
use crate::claims::is_equal;
use crate::{notation, tables};
use std::process::Abort;

/// Data, under the words of a configuration.
const PLAIN: &str = "\
query
    # names
    Struct:a Unit
    NewtypeVariant:a Unit
    Map:1 Text:a Unit
    ! Struct: Unit
    ! NewtypeVariant: Unit
    ! Map:1 Text: Unit
    Struct:0 Unit
    NewtypeVariant:0 Unit
    Map:1 Text:0 Unit
    Map:1 Text:1 Unit
    ! Struct:00 Unit
    ! NewtypeVariant:00 Unit
    ! Map:1 Text:00 Unit
    ! Struct:07 Unit
    ! NewtypeVariant:07 Unit
    ! Map:1 Text:07 Unit
    Struct:0x Unit
    UnitVariant:07
    ! UnitVariant:
    # parts
    ! Struct
    ! StructVariant:v
    ! TupleVariant:v:0
    Seq:0
    Tuple:0
    Map:0
    ! Seq:1 Struct
    ! TupleVariant:v:1 UnitVariant:
    ! Some Newtype None
    Newtype Some Unit
    ! Struct:a:a Unit None
    # keys
    ! Map:2 Unsigned:1 Unit Text:1 Unit
    Map:2 Unsigned:1 Unit Unsigned:10 Unit
    ! Map:2 Signed:-1 Unit UnitVariant:-1 Unit
    ! Map:2 Char:%C3%A9 Unit Text:%C3%A9 Unit
    ! Map:2 Bool:true Unit UnitVariant:true Unit
    Map:2 Bool:true Unit Bool:false Unit
    ! Map:2 Bytes:a Unit Text:b Unit
    ! Map:2 Text:b Unit Unit Unit
    # brackets
    Struct:%5Bx%5D:%5D Unsigned:1 Unsigned:2
    Struct:a Map:1 Text:%5Bx%5D Unsigned:1
form
    ! Struct:%5Bx%5D:%5D Unsigned:1 Unsigned:2
    ! Struct:a Map:1 Text:%5Bx%5D Unsigned:1
";

/// Data, under a shape.
const FITS: &str = "\
# unsigned numbers
U8
    Unsigned:255
    ! Unsigned:256
    ! Signed:0
U16
    Unsigned:65535
    ! Unsigned:65536
    ! Signed:0
U32
    Unsigned:4294967295
    ! Unsigned:4294967296
    ! Signed:0
U64
    Unsigned:18446744073709551615

# signed numbers
I8
    Signed:127
    ! Signed:128
    ! Unsigned:0
    Signed:-128
    ! Signed:-129
    ! Unsigned:0
I16
    Signed:32767
    ! Signed:32768
    ! Unsigned:0
    Signed:-32768
    ! Signed:-32769
    ! Unsigned:0
I32
    Signed:2147483647
    ! Signed:2147483648
    ! Unsigned:0
    Signed:-2147483648
    ! Signed:-2147483649
    ! Unsigned:0
I64
    Signed:-9223372036854775808

# keys of maps
Map:U8 Unit
    ! Map:1 Unsigned:256 Unit
Map:I8 Unit
    Map:1 Signed:-128 Unit
Map:Variants:a:b Unit
    Map:1 UnitVariant:b Unit
    ! Map:1 UnitVariant:c Unit
    ! Map:1 Text:a Unit

# fields
Struct:a?:b:c? U8 U8 U8
    Struct:a:b:c Unsigned:1 Unsigned:1 Unsigned:1
    Struct:b Unsigned:1
    ! Struct:b:a Unsigned:1 Unsigned:1
    ! Struct:a:c Unsigned:1 Unsigned:1
    ! Struct:b:d Unsigned:1 Unsigned:1
    ! Struct:b Unit

# fields of variants
Enum:1 struct:v:a?:b:c? U8 U8 U8
    StructVariant:v:b:c Unsigned:1 Unsigned:1
    ! StructVariant:v:c:b Unsigned:1 Unsigned:1
    ! StructVariant:w:b Unsigned:1

# tuples
Tuple:2 Bool Text
    Tuple:2 Bool:true Text:x
    ! Tuple:1 Bool:true
    ! Tuple:3 Bool:true Text:x Unit
    ! Seq:2 Bool:true Text:x

# lists
Seq Char
    Seq:2 Char:a Char:b
    ! Seq:2 Char:a Unit

# options and newtypes
Option Bytes
    None
    Some Bytes:x
    ! Bytes:x
Newtype Unit
    Newtype Unit
    ! Unit

# other kinds
Any
    ! Text:x
Ignored
    ! Unit
Enum:1 unit:u
    UnitVariant:u
    ! NewtypeVariant:u Unit
";

// Returns the data of a case, and whether no `!` precedes it.
fn split(case: &str) -> (&str, bool) {
    match case.strip_prefix("! ") {
        Some(data) => (data, false),
        None => (case, true),
    }
}

// Claims whether the data is plain under the configuration of these words.
fn is_plain<R: Abort>(b: &Build<'_, R>, words: &str, data: &str, wanted: bool) {
    let config = tables::configuration(b, words);
    let is_plain = notation::data(b, data).is_plain(config);
    is_equal(b.rt, is_plain, wanted, (words, data));
}

#[test]
fn plain(rt: HostRuntime) {
    let b = Build::new(&rt, rt.alloc());
    let cases = tables::cases(&b, PLAIN, 42);
    for (words, case) in &cases {
        let (data, wanted) = split(case);
        is_plain(&b, words, data, wanted);
    }
}

// Claims whether the data fits the shape.
fn fits<R: Abort>(b: &Build<'_, R>, shape: &str, data: &str, wanted: bool) {
    let fits = notation::shape(b, shape).fits(&notation::data(b, data));
    is_equal(b.rt, fits, wanted, (shape, data));
}

#[test]
fn fitting(rt: HostRuntime) {
    let b = Build::new(&rt, rt.alloc());
    let cases = tables::cases(&b, FITS, 58);
    for (shape, case) in &cases {
        let (data, wanted) = split(case);
        fits(&b, shape, data, wanted);
    }
}
