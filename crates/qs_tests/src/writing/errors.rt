//! Data that is rejected, and the entries that are written before the error.

use super::writes_each;

const CASES: &str = "\
# too deep
Struct:a:b:c Unsigned:1 Seq:2 Unsigned:2 Unsigned:3 Seq:1 Seq:1 Unsigned:4
    depth 2 | a=1&b[0]=2&b[1]=3&c[0][0]=4
    depth 1 | a=1&b[0]=2&b[1]=3 | ! Maximum serialization depth `1` exceeded

# too deep at once
Struct:a Seq:2 Unsigned:1 Unsigned:2
    depth 0 |  | ! Maximum serialization depth `0` exceeded

# a key that is no scalar
Map:1 Unit Unit
    depth 0 |  | ! unsupported type for serialization
    depth 1 |  | ! unsupported type for serialization
     |  | ! unsupported type for serialization
Struct:m Map:1 Unit Unit
    depth 0 |  | ! unsupported type for serialization
    depth 1 |  | ! unsupported type for serialization
     |  | ! unsupported type for serialization
";

#[test]
fn each_case(rt: HostRuntime) {
    writes_each(&rt, rt.alloc(), CASES, 9);
}
