//! Numbers of each width: the error names it.

use crate::claims::each;
use std::collections::BTreeMap;

type Unsigned = BTreeMap<String, (u8, u16, u32, u64)>;

type Signed = BTreeMap<String, (i8, i16, i32, i64)>;

const UNSIGNED_ROWS: &str = "\
    v[0]=255&v[1]=65535&v[2]=4294967295&v[3]=18446744073709551615 | v[0]=255&v[1]=65535&v[2]=4294967295&v[3]=18446744073709551615
    v[0]=256&v[1]=1&v[2]=1&v[3]=1 | ! v[0]: invalid type: string, expected u8
    v[0]=1&v[1]=65536&v[2]=1&v[3]=1 | ! v[1]: invalid type: string, expected u16
    v[0]=1&v[1]=1&v[2]=4294967296&v[3]=1 | ! v[2]: invalid type: string, expected u32
    v[0]=1&v[1]=1&v[2]=1&v[3]=18446744073709551616 | ! v[3]: invalid type: string, expected u64
";

const SIGNED_ROWS: &str = "\
    v[0]=-128&v[1]=-32768&v[2]=-2147483648&v[3]=-9223372036854775808 | v[0]=-128&v[1]=-32768&v[2]=-2147483648&v[3]=-9223372036854775808
    v[0]=127&v[1]=32767&v[2]=2147483647&v[3]=9223372036854775807 | v[0]=127&v[1]=32767&v[2]=2147483647&v[3]=9223372036854775807
    v[0]=128&v[1]=1&v[2]=1&v[3]=1 | ! v[0]: invalid type: string, expected i8
    v[0]=1&v[1]=-32769&v[2]=1&v[3]=1 | ! v[1]: invalid type: string, expected i16
    v[0]=1&v[1]=1&v[2]=2147483648&v[3]=1 | ! v[2]: invalid type: string, expected i32
    v[0]=1&v[1]=1&v[2]=1&v[3]=9223372036854775808 | ! v[3]: invalid type: string, expected i64
";

#[test]
fn numbers(rt: HostRuntime) {
    each::<_, Unsigned>(&rt, rt.alloc(), UNSIGNED_ROWS);
    each::<_, Signed>(&rt, rt.alloc(), SIGNED_ROWS);
}
