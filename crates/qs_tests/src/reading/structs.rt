//! Structs: fields by their names, by their indices, and keys that aren't read.

use crate::rows::reads_each;

const CASES: &str = "\
# kinds
Struct:s Struct:a Option U8
    s   | Struct:s Struct:a None
    s=  | Struct:s Struct:a None
    s=x | ! invalid type: string, expected a struct
Struct:s Struct
    # a struct without fields is written as nothing
     | ! missing field `s`

# names of numbers
Struct:1 Text
    1=a       | Struct:1 Text:a
    01=a      | Struct:1 Text:a
    %31=b     | Struct:1 Text:b
    1=a&%31=b | ! duplicate field `1`

# names that look like numbers
Struct:01 Text
    01=x   | ! missing field `01`
    %301=x | Struct:01 Text:x
Struct:4294967295 Text
    4294967295=x | Struct:4294967295 Text:x
Struct:4294967296 Text
    4294967296=x | Struct:4294967296 Text:x

# fields in any order
Struct:a Struct:u:v:w? U8 Text U8
    a[u]=1&a[v]=x        | Struct:a Struct:u:v Unsigned:1 Text:x
    a[v]=x&a[u]=1        | Struct:a Struct:u:v Unsigned:1 Text:x
    a[v]=x&a[z]=y&a[u]=1 | Struct:a Struct:u:v Unsigned:1 Text:x
    a[v]=x&a[u]=1&a=2    | Struct:a Struct:u:v Unsigned:1 Text:x
    a[v]=x               | ! missing field `u`
    a[u]=1               | ! missing field `v`
    a[u]=x               | ! invalid type: string, expected u8

# fields by index
Struct:a Struct:u:v:w? U8 Text U8
    a[]=1&a[]=x   | Struct:a Struct:u:v Unsigned:1 Text:x
    a[]=1         | ! invalid length 1
    # a map, whose keys are no indices
    a[0]=1&a[1]=x | ! missing field `u`
Struct:p Struct:x U8
    p=1&p=2 | Struct:p Struct:x Unsigned:1

# a point
Struct:p Struct:x:y U8 U8
    p=1&p=2 | Struct:p Struct:x:y Unsigned:1 Unsigned:2

# several values for a field
Struct:name:age:note Text U8 Option Text
    depth 0 | age=1&age=2&name=a&note= | Struct:name:age:note Text:a Unsigned:2 Some Text:
    depth 0, reject duplicates | age=1&age=2&name=a&note= | ! multiple values provided for non-sequence field

# keys that are no text
Struct:a U8
    x[%FF]=%FF&a=1 | Struct:a Unsigned:1
    x=%FF&a=1      | Struct:a Unsigned:1
    %FF=1&a=1      | ! not UTF-8
    %FF=1          | ! missing field `a`
    %5B%FF=1       | ! missing field `a`

# keys that are no text and hold a bracket
Struct:a U8
    %5B%FF=1&a=1 | ! not UTF-8 + hint
    form, depth 0 | %5B%FF=1&a=1 | ! not UTF-8 + hint
Struct:a? U8
    %5B%FF=1 | ! not UTF-8 + hint
Struct:s Struct
    form | s[[%FF]=1 | ! not UTF-8 + hint

# a name with a bracket
Struct:%5Bx U8
    %5Bx=1 | Struct:%5Bx Unsigned:1
    %5Bx=y | ! invalid type: string, expected u8
    x=1    | ! missing field `[x`
";

#[test]
fn each_case(rt: HostRuntime) {
    reads_each(&rt, rt.alloc(), CASES, 38);
}
