//! The empty input, and ampersands alone.

use crate::rows::reads_each;

const CASES: &str = "\
# the empty input
Unit
     | Unit
Bool
     | Bool:true
Text
     | Text:
Bytes
     | Bytes:
Any
     | Unit
Ignored
     | Unit

# the empty input into other shapes
Option Text
     | None
Newtype Unit
     | Newtype Unit
Seq Text
     | Seq:0
Tuple:0
     | Tuple:0
Map:Text Text
     | Map:0
Struct
     | Struct
Struct:a Option Text
     | Struct:a None

# rejected for the empty input
U8
     | ! invalid type: unit value, expected u8
Char
     | ! invalid type: unit value, expected a character
Tuple:1 U8
     | ! invalid length 0
Struct:a Text
     | ! missing field `a`
Enum:1 unit:a
     | ! invalid type: unit value, expected an enum

# ampersands into scalars
Unit
    &&& | ! internal error: attempted to deserialize unitialised value
Bool
    &&& | ! internal error: attempted to deserialize unitialised value
U8
    &&& | ! internal error: attempted to deserialize unitialised value
U16
    &&& | ! internal error: attempted to deserialize unitialised value
U32
    &&& | ! internal error: attempted to deserialize unitialised value
U64
    &&& | ! internal error: attempted to deserialize unitialised value
I8
    &&& | ! internal error: attempted to deserialize unitialised value
I16
    &&& | ! internal error: attempted to deserialize unitialised value
I32
    &&& | ! internal error: attempted to deserialize unitialised value
I64
    &&& | ! internal error: attempted to deserialize unitialised value
Char
    &&& | ! internal error: attempted to deserialize unitialised value
Text
    &&& | ! internal error: attempted to deserialize unitialised value
Bytes
    &&& | ! internal error: attempted to deserialize unitialised value
Newtype U8
    &&& | ! internal error: attempted to deserialize unitialised value

# ampersands into other shapes
Option Text
    &&& | ! internal error: attempted to deserialize unitialised value
Seq Text
    &&& | ! internal error: attempted to deserialize unitialised value
Tuple:0
    &&& | ! internal error: attempted to deserialize unitialised value
Map:Text Text
    &&& | ! internal error: attempted to deserialize unitialised value
Struct
    &&& | ! internal error: attempted to deserialize unitialised value
Struct:a Text
    &&& | ! internal error: attempted to deserialize unitialised value
Enum:1 unit:a
    &&& | ! internal error: attempted to deserialize unitialised value
Any
    &&& | ! internal error: attempted to deserialize unitialised value
Ignored
    &&& | ! internal error: attempted to deserialize unitialised value
";

#[test]
fn each_case(rt: HostRuntime) {
    reads_each(&rt, rt.alloc(), CASES, 41);
}
