//! Inputs that have no tree.

use crate::rows::reads_each;

const CASES: &str = "\
# keys that end early
Struct:a Any
    a[  | ! parsing failed with error: 'query string ended before expected' at position: 3
    a[b | ! parsing failed with error: 'unexpected end of input while parsing nested key' at position: 4

# keys that go on wrongly
Struct:a Any
    a[][b]=1         | ! parsing failed with error: 'unsupported: unable to parse nested maps of unindexed sequences ' at position: 4
    a[]x=1           | ! parsing failed with error: 'unsupported: cannot mix unindexed sequences `abc[]=...` with indexed sequences `abc[0]=...`' at position: 4
    # a key with brackets, as form mode writes it
    form | a%5B%5Bx%5D%5D=1 | ! parsing failed with error: 'unexpected character `]` while parsing nested key: expected `&`, `=` or `[`' at position: 14

# keys used for a value and more
Struct:a Any
    a=2&a[b]=1  | ! parsing failed with error: 'invalid input: the same key is used for both a value and a nested map' at position: 7
    =1&b=2      | ! parsing failed with error: 'invalid input: the same key is used for both a value and a nested map' at position: 7
    a=1&a[]=2   | ! parsing failed with error: 'invalid input: the same key is used for both a value and a sequence' at position: 7
    abc&abc[]=1 | ! parsing failed with error: 'invalid input: the same key is used for both a value and a sequence' at position: 9

# keys used for a sequence and a map
Struct:a Any
    vec[[]=1&vec[]=2                 | ! parsing failed with error: 'invalid input: the key `vec` appears in the input as both a sequence and a map (with keys \"[\")' at position: 14
    vec[foo][1][[]=1&vec[foo][1][]=2 | ! parsing failed with error: 'invalid input: the key `vec[foo][1]` appears in the input as both a sequence and a map (with keys \"[\")' at position: 30
";

#[test]
fn each_case(rt: HostRuntime) {
    reads_each(&rt, rt.alloc(), CASES, 11);
}
