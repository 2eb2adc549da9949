//! Texts that aren't UTF-8, in each place where a text can be read.

use crate::rows::reads_each;

const CASES: &str = "\
# as a text
Struct:x Seq Text
    x[]=%FF | ! not UTF-8
Struct:x Tuple:1 Text
    x[0]=%FF | ! not UTF-8
Struct:x Map:Text Text
    x[k]=%FF | ! not UTF-8
    x=%FF    | ! not UTF-8
Struct:x Option Text
    x=%FF | ! not UTF-8
Struct:x Newtype Text
    x=%FF | ! not UTF-8
Struct:x Struct:u Text
    x[]=%FF | ! not UTF-8
Struct:x Enum:1 newtype:A Text
    x[A]=%FF | ! not UTF-8
Struct:x Enum:1 tuple:A:1 Text
    x[A][]=%FF | ! not UTF-8

# as bytes
Struct:x Seq Bytes
    x[]=%FF | Struct:x Seq:1 Bytes:%FF
Struct:x Tuple:1 Bytes
    x[0]=%FF | Struct:x Tuple:1 Bytes:%FF
Struct:x Map:Text Bytes
    x[k]=%FF | Struct:x Map:1 Text:k Bytes:%FF
    x=%FF    | Struct:x Map:1 Text: Bytes:%FF
Struct:x Option Bytes
    x=%FF | Struct:x Some Bytes:%FF
Struct:x Newtype Bytes
    x=%FF | Struct:x Newtype Bytes:%FF
Struct:x Struct:u Bytes
    x[]=%FF | Struct:x Struct:u Bytes:%FF
Struct:x Enum:1 newtype:A Bytes
    x[A]=%FF | Struct:x NewtypeVariant:A Bytes:%FF
Struct:x Enum:1 tuple:A:1 Bytes
    x[A][]=%FF | Struct:x TupleVariant:A:1 Bytes:%FF
";

#[test]
fn each_case(rt: HostRuntime) {
    reads_each(&rt, rt.alloc(), CASES, 18);
}
