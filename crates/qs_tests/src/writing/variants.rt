//! Variants of an enum.

use super::writes_each;

const CASES: &str = "\
# each kind
Struct:e UnitVariant:a
    e=a
Struct:e NewtypeVariant:b Bool:true
    e[b]=true
Struct:e StructVariant:c:x:y Unsigned:2 Unsigned:3
    e[c][x]=2&e[c][y]=3
Struct:e TupleVariant:d:2 Unsigned:128 Unsigned:1
    e[d][0]=128&e[d][1]=1

# without fields
Struct:e TupleVariant:v:0
    # nothing is written, and the name needs its depth all the same
    depth 0 |  | ! Maximum serialization depth `0` exceeded
    depth 1 |
Struct:e StructVariant:v
    depth 0 |  | ! Maximum serialization depth `0` exceeded
    depth 1 |
";

#[test]
fn each_case(rt: HostRuntime) {
    writes_each(&rt, rt.alloc(), CASES, 8);
}
