//! Lists and tuples.

use crate::rows::reads_each;

const CASES: &str = "\
# at the root
Seq U8
    0=1&1=2   | Seq:2 Unsigned:1 Unsigned:2
    1=2&0=1   | Seq:2 Unsigned:1 Unsigned:2
    =1&=2     | Seq:2 Unsigned:1 Unsigned:2
    []=1&[]=2 | Seq:2 Unsigned:1 Unsigned:2
    =1=2      | ! invalid type: string, expected u8
Seq Text
    =1=2 | Seq:1 Text:1%3D2
    01=x | ! missing index, expected: 0 got 1

# in a field
Struct:v Seq U8
    v[0]=1&v[1]=2 | Struct:v Seq:2 Unsigned:1 Unsigned:2
    v[1]=2&v[0]=1 | Struct:v Seq:2 Unsigned:1 Unsigned:2
    v[]=1&v[]=2   | Struct:v Seq:2 Unsigned:1 Unsigned:2
    v=1&v=2       | Struct:v Seq:2 Unsigned:1 Unsigned:2
    reject duplicates | v=1&v=2 | Struct:v Seq:2 Unsigned:1 Unsigned:2
    v=5           | Struct:v Seq:1 Unsigned:5
    v=            | Struct:v Seq:0
    v             | Struct:v Seq:0

# errors of lists
Struct:v Seq U8
    v[a]=1        | ! invalid type: map, expected a sequence
    # the kind first, then item by item its index and its value
    v[1]=x&v[a]=y | ! invalid type: map, expected a sequence
    v[1]=x        | ! missing index, expected: 0 got 1
    v[0]=x&v[2]=1 | ! invalid type: string, expected u8
    v[0]=1&v[2]=2 | ! missing index, expected: 1 got 2
    v[]=1&v[]=x   | ! invalid type: string, expected u8

# tuples
Struct:v Tuple:1 U8
    v[0]=1&v[2]=2 | Struct:v Tuple:1 Unsigned:1
Struct:t Tuple:2 U8 U8
    t=1&t=2&t=3 | Struct:t Tuple:2 Unsigned:1 Unsigned:2
Struct:t Tuple:2 Text Bool
    t[]=x&t[] | Struct:t Tuple:2 Text:x Bool:true

# errors of tuples
Struct:v Tuple:1 U8
    v[1]=x&v[a]=y | ! invalid type: map, expected a tuple of size 1
    v[1]=x        | ! missing index, expected: 0 got 1
    v=            | ! invalid length 0
Struct:t Tuple:2 U8 U8
    t=1         | ! invalid length 1
    t=x         | ! invalid type: string, expected u8
    t[]=1&t[]=x | ! invalid type: string, expected u8
Struct:t Tuple:3 U8 U8 U8
    t[0]=1&t[2]=2 | ! missing index, expected: 1 got 2
    t[0]=1&t[1]=2 | ! invalid length 2

# lists in lists
Struct:c Seq Seq U8
    c[0][0]=4&c[1]= | Struct:c Seq:2 Seq:1 Unsigned:4 Seq:0
    c[0][1]=4       | ! missing index, expected: 0 got 1
";

#[test]
fn each_case(rt: HostRuntime) {
    reads_each(&rt, rt.alloc(), CASES, 34);
}
