//! Lists, in each format, and nested data.

use super::writes_each;

const CASES: &str = "\
# at the top
Seq:2 Unsigned:1 Unsigned:2
    0=1&1=2
    empty | =1&=2
    unindexed | =1=2

# in a field
Struct:a Seq:2 Unsigned:1 Unsigned:2
    depth 1 | a[0]=1&a[1]=2
    depth 1, empty | a[]=1&a[]=2
    # an element has no segment of its own, so that no depth is needed
    depth 0, unindexed | a=1&a=2
Struct:a Tuple:2 Unsigned:1 Unsigned:2
    depth 1 | a[0]=1&a[1]=2
    depth 1, empty | a[]=1&a[]=2
    depth 0, unindexed | a=1&a=2

# empty
Struct:values Seq:0
    values=
Struct:values Tuple:0
    values=
Struct:values Map:0
    values=
Struct:values Struct
     |
Struct:a Seq:1 Text:
    # without brackets the list of the empty text looks the same
    unindexed | a=

# that may be absent
Struct:vec None
    vec
Struct:vec Some Seq:2 Unsigned:1 Unsigned:2
    vec[0]=1&vec[1]=2

# beside other fields
Struct:a:b Seq:2 Unsigned:0 Unsigned:1 Text:b
    a[0]=0&a[1]=1&b=b
Struct:a:b Seq:2 Unsigned:3 Unsigned:2 Text:a
    a[0]=3&a[1]=2&b=a

# a customer
Struct:id:name:phone:address:user_ids Unsigned:42 Text:Acme Unsigned:12345 Struct:city:street:postcode Text:Carrot%20City Text:Special-Street*%20No.%2011 Text:12345 Seq:4 Unsigned:1 Unsigned:2 Unsigned:3 Unsigned:4
    id=42&name=Acme&phone=12345&address[city]=Carrot+City&address[street]=Special-Street*+No.+11&address[postcode]=12345&user_ids[0]=1&user_ids[1]=2&user_ids[2]=3&user_ids[3]=4

# structs in a list
Struct:data Seq:2 Struct:a:b Unsigned:1 Text:test%21 Struct:a:b Unsigned:2 Text:example%3A.
    form | data%5B0%5D%5Ba%5D=1&data%5B0%5D%5Bb%5D=test%21&data%5B1%5D%5Ba%5D=2&data%5B1%5D%5Bb%5D=example%3A.
";

#[test]
fn each_case(rt: HostRuntime) {
    writes_each(&rt, rt.alloc(), CASES, 20);
}
