//! Enums.

use crate::rows::reads_each;

const CASES: &str = "\
# nothing held
Struct:e Enum:4 unit:a newtype:b Bool struct:c:x:y U8 U8 tuple:d:2 U8 U8
    e=a       | Struct:e UnitVariant:a
    e[a]      | Struct:e UnitVariant:a
    e[a]=     | Struct:e UnitVariant:a
    e[a]=%FF  | Struct:e UnitVariant:a
    e[a][q]=1 | Struct:e UnitVariant:a

# a value held
Struct:e Enum:4 unit:a newtype:b Bool struct:c:x:y U8 U8 tuple:d:2 U8 U8
    e[b]=true | Struct:e NewtypeVariant:b Bool:true
    e[b]=x    | ! invalid type: string, expected a boolean

# fields held
Struct:e Enum:4 unit:a newtype:b Bool struct:c:x:y U8 U8 tuple:d:2 U8 U8
    e[c][x]=2&e[c][y]=3 | Struct:e StructVariant:c:x:y Unsigned:2 Unsigned:3
    e[c][y]=3&e[c][x]=2 | Struct:e StructVariant:c:x:y Unsigned:2 Unsigned:3
    e[c]=2&e[c]=3       | Struct:e StructVariant:c:x:y Unsigned:2 Unsigned:3
    e[c]=5              | ! missing field `x`
    e[c][x]=2           | ! missing field `y`

# a list held
Struct:e Enum:4 unit:a newtype:b Bool struct:c:x:y U8 U8 tuple:d:2 U8 U8
    e[d][0]=128&e[d][1]=1  | Struct:e TupleVariant:d:2 Unsigned:128 Unsigned:1
    e[d][]=128&e[d][]=1    | Struct:e TupleVariant:d:2 Unsigned:128 Unsigned:1
    e[d]=128&e[d]=1&e[d]=2 | Struct:e TupleVariant:d:2 Unsigned:128 Unsigned:1
    e[d]=128               | ! invalid length 1
    e[d][1]=1              | ! missing index, expected: 0 got 1

# the smallest key
Struct:e Enum:2 newtype:A Text newtype:B U8
    e[B]=1&e[A]=x   | Struct:e NewtypeVariant:A Text:x
    e[%FF]=1&e[A]=x | Struct:e NewtypeVariant:A Text:x
Struct:e Enum:1 newtype:B Text
    e[1]=a&e[B]=b | ! unknown variant `1`

# no variant
Struct:e Enum:4 unit:a newtype:b Bool struct:c:x:y U8 U8 tuple:d:2 U8 U8
    e=f         | ! unknown variant `f`
    e[f]=1      | ! unknown variant `f`
    e           | ! invalid type: unit value, expected an enum
    e=          | ! invalid type: string, expected an enum
    e=a&e=a     | ! invalid type: sequence, expected an enum
    reject duplicates | e=a&e=a | ! invalid type: sequence, expected an enum
    e=%FF       | ! not UTF-8
    e[%FF]=1    | ! not UTF-8
    # the key of an enum has no hint
    e[%5Bx]=1   | ! unknown variant `[x`
    e[%5B%FF]=1 | ! not UTF-8

# a name of another kind
Struct:e Enum:4 unit:a newtype:b Bool struct:c:x:y U8 U8 tuple:d:2 U8 U8
    e=b | ! invalid type: unit variant, expected newtype variant
    e=c | ! invalid type: unit variant, expected struct variant
    e=d | ! invalid type: unit variant, expected tuple variant

# a text for fields
Struct:e Enum:1 struct:c:x? U8
    e[c]=%FF | Struct:e StructVariant:c
Struct:e Enum:1 struct:c: U8
    e[c]=5   | Struct:e StructVariant:c: Unsigned:5
    e[c]=%FF | ! not UTF-8
";

#[test]
fn each_case(rt: HostRuntime) {
    reads_each(&rt, rt.alloc(), CASES, 36);
}
