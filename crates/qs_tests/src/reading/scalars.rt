//! Booleans, characters, texts, bytes and units.

use crate::rows::reads_each;

const CASES: &str = "\
# flags
Struct:flag Bool
    flag       | Struct:flag Bool:true
    flag=      | Struct:flag Bool:true
    flag=true  | Struct:flag Bool:true
    flag=false | Struct:flag Bool:false
    flag=1     | ! invalid type: string, expected a boolean
    flag&flag  | ! invalid type: string, expected a boolean
    flag[a]    | ! invalid type: map, expected a boolean

# characters
Struct:c Char
    c=%C3%A9 | Struct:c Char:%C3%A9
    c=+      | Struct:c Char:%20
    c=ab     | ! invalid type: string, expected a character
    c        | ! invalid type: unit value, expected a character
    c=       | ! invalid type: string, expected a character
    c[]=a    | ! invalid type: sequence, expected a character
    c[0]=a   | ! invalid type: map, expected a character
    c=%FF    | ! not UTF-8

# texts
Struct:name Text
    name=%2541     | Struct:name Text:%2541
    name=1%202%203 | Struct:name Text:1%202%203
    name=          | Struct:name Text:
    name           | Struct:name Text:
    name[a]=1      | ! invalid type: map, expected a string

# bytes
Struct:x Bytes
    x=%FF     | Struct:x Bytes:%FF
    x=a&x=%FF | Struct:x Bytes:%FF
    x=        | Struct:x Bytes:
    x         | Struct:x Bytes:
    x[a]=1    | ! invalid type: map, expected a byte array
    x[0]=1    | ! invalid type: map, expected a byte array

# units
Struct:t Unit
    t     | Struct:t Unit
    t=    | Struct:t Unit
    t=x   | ! invalid type: string, expected unit
    t[]   | ! invalid type: sequence, expected unit
    t[a]  | ! invalid type: map, expected unit
    t=%FF | ! not UTF-8

# bytes that are no text
Struct:x Bool
    x=%FF | ! not UTF-8
Struct:x U8
    x=%FF | ! not UTF-8
Struct:x I64
    x=%FF | ! not UTF-8
Struct:x Text
    x=%FF | ! not UTF-8
Struct:x Struct
    x=%FF | ! not UTF-8
Struct
    x=%FF | Struct

# alone at the root
Text
    =1=2 | Text:1%3D2
    =foo | Text:foo
Newtype U8
    =5 | Newtype Unsigned:5
";

#[test]
fn each_case(rt: HostRuntime) {
    reads_each(&rt, rt.alloc(), CASES, 41);
}
