//! Keys of maps, and names of fields.

use super::writes_each;

const CASES: &str = "\
# texts
Struct:m Map:1 Text:01 Unsigned:1
    m[01]=1
    form | m%5B01%5D=1
Struct:m Map:1 Text:K%2547 Unsigned:1
    m[K%2547]=1
    form | m%5BK%2547%5D=1
Struct:m Map:1 Text:%255Bx%255D Unsigned:1
    m[%255Bx%255D]=1
    form | m%5B%255Bx%255D%5D=1
Struct:m Map:1 Text:%5Bx%5D Unsigned:1
    m[%5Bx%5D]=1
    # this can't be read back
    form | m%5B%5Bx%5D%5D=1

# spaces
Struct:full%20name Text:John%20Doe
    full+name=John+Doe
Struct:attrs Map:2 Text:key%201%21 Text:val%201 Text:key%202%21 Text:val%202
    attrs[key+1!]=val+1&attrs[key+2!]=val+2

# other scalars
Struct:m Map:1 Bool:true Unsigned:1
    m[true]=1
Struct:m Map:1 Unsigned:7 Unsigned:1
    m[7]=1
Struct:m Map:1 Signed:-7 Unsigned:1
    m[-7]=1
Struct:m Map:1 Char:x Unsigned:1
    m[x]=1
Struct:m Map:1 Bytes:%FF Unsigned:1
    m[%FF]=1

# names of variants
Struct:point Map:2 UnitVariant:Lt Unsigned:321 UnitVariant:Gt Unsigned:123
    point[Lt]=321&point[Gt]=123
";

#[test]
fn each_case(rt: HostRuntime) {
    writes_each(&rt, rt.alloc(), CASES, 16);
}
