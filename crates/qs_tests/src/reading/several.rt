//! Several values for a shape that reads one.

use crate::rows::reads_each;

const CASES: &str = "\
# the last counts
Struct:a Text
    a=x&a=y   | Struct:a Text:y
    a=x&a     | Struct:a Text:
    a=x&a=%FF | ! not UTF-8
    a=%FF&a=x | Struct:a Text:x
Struct:a U8
    a=&a=5 | Struct:a Unsigned:5
    a=5&a= | ! invalid type: string, expected u8

# rejected
Struct:a Text
    reject duplicates | a[]=x | Struct:a Text:x
    reject duplicates | a=x&a=y | ! multiple values provided for non-sequence field
    reject duplicates | a=%FF&a=%FF | ! multiple values provided for non-sequence field
Struct:a Bool
    reject duplicates | a&a | ! multiple values provided for non-sequence field
Struct:a Bytes
    reject duplicates | a=1&a=2 | ! multiple values provided for non-sequence field
Struct:a U8
    reject duplicates | a=1&a=2 | ! multiple values provided for non-sequence field
Struct:a I64
    reject duplicates | a=1&a=2 | ! multiple values provided for non-sequence field
Struct:a Unit
    reject duplicates | a=1&a=2 | ! invalid type: sequence, expected unit
Struct:a Char
    reject duplicates | a=1&a=2 | ! invalid type: sequence, expected a character

# within other shapes
Struct:a Option U8
    a=1&a=2 | Struct:a Some Unsigned:2
    reject duplicates | a=1&a=2 | ! multiple values provided for non-sequence field
Struct:a Newtype U8
    a=1&a=2 | Struct:a Newtype Unsigned:2
    reject duplicates | a=1&a=2 | ! multiple values provided for non-sequence field
Struct:a Seq U8
    a[0]=1&a[0]=2 | Struct:a Seq:1 Unsigned:2
    reject duplicates | a[0]=1&a[0]=2 | ! multiple values provided for non-sequence field
Struct:a Tuple:1 U8
    a[0]=1&a[0]=2 | Struct:a Tuple:1 Unsigned:2
    reject duplicates | a[0]=1&a[0]=2 | ! multiple values provided for non-sequence field

# under keys
Struct:a Map:Text U8
    a[k]=1&a[k]=2 | Struct:a Map:1 Text:k Unsigned:2
    reject duplicates | a[k]=1&a[k]=2 | ! multiple values provided for non-sequence field
Struct:a Struct:k U8
    a[k]=1&a[k]=2 | Struct:a Struct:k Unsigned:2
    reject duplicates | a[k]=1&a[k]=2 | ! multiple values provided for non-sequence field
Struct:a Enum:1 newtype:k U8
    a[k]=1&a[k]=2 | Struct:a NewtypeVariant:k Unsigned:2
    reject duplicates | a[k]=1&a[k]=2 | ! multiple values provided for non-sequence field
";

#[test]
fn each_case(rt: HostRuntime) {
    reads_each(&rt, rt.alloc(), CASES, 29);
}
