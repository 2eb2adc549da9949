//! Maps.

use crate::rows::reads_each;

const CASES: &str = "\
# pairs in order
Struct:a Map:Text U8
    a[b]=1&a=2 | Struct:a Map:2 Text: Unsigned:2 Text:b Unsigned:1
    a          | Struct:a Map:0
    a=         | Struct:a Map:0
Struct:m Map:Text Text
    m=x     | Struct:m Map:1 Text: Text:x
    m=x&m=y | ! invalid type: sequence, expected a map

# keys that are read alike
Map:Text Text
    1=a&%31=b | Map:2 Text:1 Text:a Text:1 Text:b
Struct:m Map:U8 Unit
    m[1]&m[%2B1] | Struct:m Map:2 Unsigned:1 Unit Unsigned:1 Unit
Struct:m Map:Text Unit
    # the integer in front of the text, however each was written
    m[01]     | Struct:m Map:1 Text:1 Unit
    m[a]&m[1] | Struct:m Map:2 Text:1 Unit Text:a Unit

# numbers as keys
Struct:example Map:I32 I32
    example[123]=321&unrelated[123]=321 | Struct:example Map:1 Signed:123 Signed:321
    example[123]=321&unrelated[0][a]=1  | Struct:example Map:1 Signed:123 Signed:321

# unsigned keys
Struct:m Map:U8 Unit
    m[255] | Struct:m Map:1 Unsigned:255 Unit
    m[256] | ! invalid type: string, expected u8
Struct:m Map:U16 Unit
    m[65535] | Struct:m Map:1 Unsigned:65535 Unit
    m[65536] | ! invalid type: string, expected u16
Struct:m Map:U32 Unit
    m[4294967295] | Struct:m Map:1 Unsigned:4294967295 Unit
    m[4294967296] | ! invalid type: string, expected u32
Struct:m Map:U64 Unit
    m[4294967296] | Struct:m Map:1 Unsigned:4294967296 Unit
    m[-1]         | ! invalid type: string, expected u64

# signed keys
Struct:m Map:I8 Unit
    m[-128] | Struct:m Map:1 Signed:-128 Unit
    m[-129] | ! invalid type: string, expected i8
Struct:m Map:I16 Unit
    m[-32768] | Struct:m Map:1 Signed:-32768 Unit
    m[-32769] | ! invalid type: string, expected i16
Struct:m Map:I32 Unit
    m[2147483647] | Struct:m Map:1 Signed:2147483647 Unit
    m[2147483648] | ! invalid type: string, expected i32
Struct:m Map:I64 Unit
    m[-4294967296] | Struct:m Map:1 Signed:-4294967296 Unit
    m[x]           | ! invalid type: string, expected i64

# other keys
Struct:m Map:Bool Unit
    m[true]&m[false] | Struct:m Map:2 Bool:false Unit Bool:true Unit
    m[1]             | ! invalid type: string, expected a boolean
Struct:m Map:Char Unit
    m[%C3%A9] | Struct:m Map:1 Char:%C3%A9 Unit
    m[7]      | Struct:m Map:1 Char:7 Unit
    m[ab]     | ! invalid type: string, expected a character
Struct:m Map:Text Unit
    m[%C3%A9] | Struct:m Map:1 Text:%C3%A9 Unit
    m[%FF]    | ! not UTF-8

# names of variants
Struct:point Map:Variants:Lt:Gt I32
    point[Lt]=321&point[Gt]=123 | Struct:point Map:2 UnitVariant:Gt Signed:123 UnitVariant:Lt Signed:321
    point[Eq]=1                 | ! unknown variant `Eq`
    point[%FF]=1                | ! not UTF-8
Struct:m Map:Variants:1 Unit
    m[01] | Struct:m Map:1 UnitVariant:1 Unit

# the key before its value
Struct:m Map:U8 Bool
    m[x]=y           | ! invalid type: string, expected u8
    m[1]=y           | ! invalid type: string, expected a boolean
    # pair by pair
    m[x]=true&m[1]=y | ! invalid type: string, expected a boolean

# keys that hold a bracket
Struct:m Map:U8 Text
    m[%5Bx]=1 | ! invalid type: string, expected u8 + hint
    form | m[[x]=1 | ! invalid type: string, expected u8 + hint
Struct:m Map:Variants:x Unit
    m[%5Bx]=1 | ! unknown variant `[x` + hint
    form | m[[x]=1 | ! unknown variant `[x` + hint
Struct:m Map:Text Unit
    m[%5B%FF] | ! not UTF-8 + hint
    m[%5Bx]   | Struct:m Map:1 Text:%5Bx Unit
    # the key is read, and its value isn't
    m[%5Bx]=1 | ! invalid type: string, expected unit
";

#[test]
fn each_case(rt: HostRuntime) {
    reads_each(&rt, rt.alloc(), CASES, 48);
}
