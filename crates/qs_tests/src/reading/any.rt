//! `Any` and `Ignored`: inputs as data of any shape, and inputs that are ignored.

use crate::claims::made;
use crate::notation;
use crate::rows::{Rows, reads_each};

const CASES: &str = "\
# values
Any
    =foo            | Text:foo
    a               | Map:1 Text:a Unit
    a=              | Map:1 Text:a Text:
    abc=def         | Map:1 Text:abc Text:def
    a==1            | Map:1 Text:a Text:%3D1
    a=%zz+1         | Map:1 Text:a Text:%25zz%201
    a=%FF           | ! not UTF-8
    foo=%5BHello%5D | Map:1 Text:foo Text:%5BHello%5D
    form | foo=%5BHello%5D | Map:1 Text:foo Text:%5BHello%5D

# lists
Any
    0=a               | Seq:1 Text:a
    []=1&[]=2         | Seq:2 Text:1 Text:2
    abc[]=1&abc[]=2   | Map:1 Text:abc Seq:2 Text:1 Text:2
    abc[1]=1&abc[0]=0 | Map:1 Text:abc Seq:2 Text:0 Text:1
    a[]&a=1           | Map:1 Text:a Seq:2 Unit Text:1
    a=1&a=2&a[]=3     | Map:1 Text:a Seq:3 Text:1 Text:2 Text:3
    reject duplicates | a=1&a=2 | Map:1 Text:a Seq:2 Text:1 Text:2
    a[0]=x&a[2]=y     | ! missing index, expected: 1 got 2
    01=x              | ! missing index, expected: 0 got 1

# brackets in keys
Any
    a]=1             | Map:1 Text:a%5D Text:1
    abc%5Bdef%5D=ghi | Map:1 Text:abc%5Bdef%5D Text:ghi
    form | abc%5Bdef%5D=ghi | Map:1 Text:abc Map:1 Text:def Text:ghi
    form | abc%5bdef%5d=ghi | Map:1 Text:abc%5Bdef%5D Text:ghi
    a[b&c]=1         | Map:1 Text:a Map:1 Text:b%26c Text:1
    x[%FF]=1         | ! not UTF-8
    x[%5B%FF]=1      | ! not UTF-8 + hint

# several keys
Any
    1=a&%31=b                       | Map:2 Text:1 Text:a Text:1 Text:b
    &a=1&&b=2&                      | Map:2 Text:a Text:1 Text:b Text:2
    [a]=1&[b]=2                     | Map:2 Text:a Text:1 Text:b Text:2
    a[b]=1&a=2                      | Map:1 Text:a Map:2 Text: Text:2 Text:b Text:1
    # the greatest integer in front of the number that is a text
    a[4294967296]=p&a[4294967295]=q | Map:1 Text:a Map:2 Text:4294967295 Text:q Text:4294967296 Text:p

# below the root
Any
    a[b][c][d][e][f][g][h]=i | Map:1 Text:a Map:1 Text:b Map:1 Text:c Map:1 Text:d Map:1 Text:e Map:1 Text:f Map:1 Text:%5Bg%5D%5Bh%5D Text:i
    depth 1 | a[b][=1 | Map:1 Text:a Map:1 Text:b Map:1 Text:%5B%3D1 Unit
    depth 0 | a[b][c]=1 | Map:1 Text:a%5Bb%5D%5Bc%5D Text:1
    depth 1 | a[b][]=1&a[b][]=2 | Map:1 Text:a Map:1 Text:b Seq:2 Text:1 Text:2

# variants without their shapes
Any
    e[B]&v[V1][x]=12&v[V1][y]=300&u=12 | Map:3 Text:e Map:1 Text:B Unit Text:u Text:12 Text:v Map:1 Text:V1 Map:2 Text:x Text:12 Text:y Text:300

# passed over
Struct:a Ignored
    a               | Struct:a Unit
    a=%FF           | Struct:a Unit
    a[]=%FF&a[]=1   | Struct:a Unit
    a[%FF]=1&a[1]=2 | Struct:a Unit
";

#[test]
fn each_case(rt: HostRuntime) {
    reads_each(&rt, rt.alloc(), CASES, 39);
}

#[test]
fn a_number_with_a_thousand_zeros(rt: HostRuntime) {
    let t = Rows::new(&rt, rt.alloc());
    let b = &t.build;
    let zeros = made(&rt, "0".repeat(rt.alloc(), 1000));
    let input = made(&rt, format!(in rt.alloc(); "a[{zeros}1]=x"));
    let said = "missing index, expected: 0 got 1";
    t.says(&input, &notation::shape(b, "Any"), said);
    let shape = notation::shape(b, "Struct:a Map:Text Text");
    let wanted = notation::data(b, "Struct:a Map:1 Text:1 Text:x");
    t.reads(&input, &shape, wanted);
}
