//! Values that may be absent.

use crate::rows::reads_each;

const CASES: &str = "\
# texts
Struct:a Option Text
    b=1 | Struct:a None
    a   | Struct:a None
    a=  | Struct:a Some Text:
    a=x | Struct:a Some Text:x

# numbers
Struct:a Option U8
    a   | Struct:a None
    a=  | ! invalid type: unit value, expected u8
    a=7 | Struct:a Some Unsigned:7
    a=x | ! invalid type: string, expected u8

# lists
Struct:vec Option Seq U8
    vec               | Struct:vec None
    vec=              | Struct:vec Some Seq:0
    vec[0]=1&vec[1]=2 | Struct:vec Some Seq:2 Unsigned:1 Unsigned:2

# others
Struct:a Option Any
    a= | Struct:a Some Unit
Struct:a Option Option Text
    a   | Struct:a None
    a=  | Struct:a Some None
    a=x | Struct:a Some Some Text:x
";

#[test]
fn each_case(rt: HostRuntime) {
    reads_each(&rt, rt.alloc(), CASES, 15);
}
