//! Numbers.

use crate::rows::reads_each;

const CASES: &str = "\
# unsigned
Struct:x U8
    x=5     | Struct:x Unsigned:5
    x=%2B5  | Struct:x Unsigned:5
    x=00005 | Struct:x Unsigned:5
    x=-0    | ! invalid type: string, expected u8
    # this plus is a space
    x=+5    | ! invalid type: string, expected u8
    x=%2B   | ! invalid type: string, expected u8
    x=5x    | ! invalid type: string, expected u8
    x=      | ! invalid type: string, expected u8
    x       | ! invalid type: unit value, expected u8
    x[a]=5  | ! invalid type: map, expected u8

# signed
Struct:x I8
    x=5      | Struct:x Signed:5
    x=%2B5   | Struct:x Signed:5
    x=-00005 | Struct:x Signed:-5
    x=-0     | Struct:x Signed:0
    x=-      | ! invalid type: string, expected i8
    x=--5    | ! invalid type: string, expected i8
    x=       | ! invalid type: string, expected i8
    x        | ! invalid type: unit value, expected i8

# the greatest unsigned
Struct:x U8
    x=255 | Struct:x Unsigned:255
    x=256 | ! invalid type: string, expected u8
Struct:x U16
    x=65535 | Struct:x Unsigned:65535
    x=65536 | ! invalid type: string, expected u16
Struct:x U32
    x=4294967295 | Struct:x Unsigned:4294967295
    x=4294967296 | ! invalid type: string, expected u32
Struct:x U64
    x=18446744073709551615 | Struct:x Unsigned:18446744073709551615
    x=18446744073709551616 | ! invalid type: string, expected u64

# the smallest signed
Struct:x I8
    x=-128 | Struct:x Signed:-128
    x=-129 | ! invalid type: string, expected i8
Struct:x I16
    x=-32768 | Struct:x Signed:-32768
    x=-32769 | ! invalid type: string, expected i16
Struct:x I32
    x=-2147483648 | Struct:x Signed:-2147483648
    x=-2147483649 | ! invalid type: string, expected i32
Struct:x I64
    x=-9223372036854775808 | Struct:x Signed:-9223372036854775808
    x=-9223372036854775809 | ! invalid type: string, expected i64

# the greatest signed
Struct:x I8
    x=127 | Struct:x Signed:127
    x=128 | ! invalid type: string, expected i8
Struct:x I16
    x=32767 | Struct:x Signed:32767
    x=32768 | ! invalid type: string, expected i16
Struct:x I32
    x=2147483647 | Struct:x Signed:2147483647
    x=2147483648 | ! invalid type: string, expected i32
Struct:x I64
    x=9223372036854775807 | Struct:x Signed:9223372036854775807
    x=9223372036854775808 | ! invalid type: string, expected i64
";

#[test]
fn each_case(rt: HostRuntime) {
    reads_each(&rt, rt.alloc(), CASES, 42);
}
