//! Data with names that look like other things, in two orders and in both modes.

use super::golden::come_back;
use crate::writing::writes_each;

/// Written as the golden cases are.
const CASES: &str = "\
query\t5\tStruct:a%20b:c%26%3D%2B Text Text\tStruct:a%20b:c%26%3D%2B Text:%2541 Text:%26\tc%26%3D%2B=%26&a+b=%2541
form\t5\tStruct:a%20b:c%26%3D%2B Text Text\tStruct:a%20b:c%26%3D%2B Text:%2541 Text:%26\tc%26%3D%2B=%26&a%20b=%2541
query\t5\tStruct:%5Bx%5D:%5D U8 U8\tStruct:%5Bx%5D:%5D Unsigned:1 Unsigned:2\t%5D=2&%5Bx%5D=1
query\t5\tMap:U8 Option Text\tMap:3 Unsigned:10 Some Text:x Unsigned:9 None Unsigned:0 Some Text:\t10=x&9&0=\tMap:3 Unsigned:0 Some Text: Unsigned:9 None Unsigned:10 Some Text:x
query\t5\tMap:U8 Option Text\tMap:3 Unsigned:10 Some Text:x Unsigned:9 None Unsigned:0 Some Text:\t0=&9&10=x\tMap:3 Unsigned:0 Some Text: Unsigned:9 None Unsigned:10 Some Text:x
query\t5\tMap:U32 Text\tMap:2 Unsigned:1 Text:one Unsigned:2 Text:two\t1=one&2=two
form\t5\tMap:U32 Text\tMap:2 Unsigned:1 Text:one Unsigned:2 Text:two\t1=one&2=two
query\t5\tSeq Enum:4 unit:u newtype:0 I8 tuple:t:2 U8 Char struct:s:x:y? Bool Bytes\tSeq:4 UnitVariant:u NewtypeVariant:0 Signed:-1 TupleVariant:t:2 Unsigned:7 Char:%C3%A9 StructVariant:s:x Bool:false\t3[s][x]=false&2[t][1]=%C3%A9&2[t][0]=7&1[0]=-1&0=u
";

#[test]
fn each_case(rt: HostRuntime) {
    come_back(&rt, rt.alloc(), CASES, 8);
}

const NUMBERS_AS_KEYS: &str = "\
Map:2 Unsigned:1 Text:one Unsigned:2 Text:two
    1=one&2=two
    form | 1=one&2=two
";

#[test]
fn numbers_as_keys(rt: HostRuntime) {
    writes_each(&rt, rt.alloc(), NUMBERS_AS_KEYS, 2);
}
