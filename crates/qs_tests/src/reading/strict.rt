//! Structs that reject unknown keys.

use crate::build::Build;
use crate::claims::holds;
use crate::notation;
use crate::rows::reads_each;

const CASES: &str = "\
# keys of a map
StrictStruct:a:b? Text Text
    a=x     | Struct:a Text:x
    b=y&a=x | Struct:a:b Text:x Text:y
Struct:a Text
    a=x&c=y | Struct:a Text:x

# unknown keys of a map
StrictStruct:a:b? Text Text
    # as many keys as fields
    a=x&c=y         | ! unknown field `c`
    # the smallest one, integers first
    a=x&d=1&c=2     | ! unknown field `c`
    a=x&d=1&7=2&c=3 | ! unknown field `7`
    a=x&c=1&%FF=2   | ! unknown field `c`
    a=x&=v          | ! unknown field ``
    # fields come first
    c=y             | ! missing field `a`
    a[k]=x&c=y      | ! invalid type: map, expected a string
StrictStruct:1 Text
    1=a&%31=b | ! duplicate field `1`

# unknown keys that hold a bracket
StrictStruct:a:b? Text Text
    a=x&c%5Bd%5D=1 | ! unknown field `c[d]` + hint
    form, depth 0 | a=x&c%5Bd%5D=1 | ! unknown field `c[d]` + hint
    a=%FF&c=y      | ! not UTF-8
    a=x&%FF=1      | ! not UTF-8
    a=x&%5B%FF=1   | ! not UTF-8 + hint

# other nodes
Struct:a StrictStruct:u:v U8 U8
    a[]=1&a[]=2&a[]=3    | Struct:a Struct:u:v Unsigned:1 Unsigned:2
    a[u]=1&a[v]=2&a[w]=3 | ! unknown field `w`
    a=x                  | ! invalid type: string, expected a struct
Struct:t StrictStruct
    t      | Struct:t Struct
    t=     | Struct:t Struct
    t&u=1  | Struct:t Struct
    t[u]=1 | ! unknown field `u`

# variants
Struct:e Enum:2 strict:c:x? U8 strict:d: U8
    e[c][x]=7           | Struct:e StructVariant:c:x Unsigned:7
    e[c]                | Struct:e StructVariant:c
    e[c][x]=7&e[c][y]=8 | ! unknown field `y`
    # a text counts as the map from the empty key to it, and nothing reads it
    e[c]=7              | ! unknown field ``
    e[c]=%FF            | ! unknown field ``
    e[d]=7              | Struct:e StructVariant:d: Unsigned:7
";

#[test]
fn each_case(rt: HostRuntime) {
    reads_each(&rt, rt.alloc(), CASES, 29);
}

#[test]
fn names_of_fields(rt: HostRuntime) {
    let b = Build::new(&rt, rt.alloc());
    for twice in ["StrictStruct:a:a U8 Text", "Enum:1 strict:c:a:a U8 Text"] {
        holds(&rt, !notation::shape(&b, twice).is_distinct(), twice);
    }
}
