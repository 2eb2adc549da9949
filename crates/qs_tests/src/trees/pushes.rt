//! Several values at one path, and values at a map.

use super::{Config, accept, has_tree, query};

const SEQUENCES: [(&str, &str); 10] = [
    ("abc[]=1&abc[]=2", "{'abc':['1','2']}"),
    ("a[]", "{'a':[NoValue]}"),
    ("a[]=", "{'a':[Null]}"),
    ("a=1&a=2", "{'a':['1','2']}"),
    ("a=1&a=2&a[]=3", "{'a':['1','2','3']}"),
    ("a[]&a=1", "{'a':[NoValue,'1']}"),
    ("[]=1&[]=2", "['1','2']"),
    ("=1=2", "'1=2'"),
    ("=1&=2", "['1','2']"),
    // four pairs, and four leaves
    (
        "a=1&a=2&b[]&c[d]=4",
        "{'a':['1','2'],'b':[NoValue],'c':{'d':'4'}}",
    ),
];

#[test]
fn sequences(rt: HostRuntime) {
    accept(&rt, rt.alloc(), Config::new(), &SEQUENCES);
}

#[test]
fn a_push_at_the_depth_limit(rt: HostRuntime) {
    let wanted = "{'a':{'b':['1','2']}}";
    has_tree(&rt, rt.alloc(), query(1), "a[b][]=1&a[b][]=2", wanted);
}

const A_VALUE_AT_A_MAP: [(&str, &str); 2] = [
    ("a[b]=1&a=2", "{'a':{'':'2','b':'1'}}"),
    ("a[b]=1&a=2&a=3", "{'a':{'':['2','3'],'b':'1'}}"),
];

#[test]
fn a_value_at_a_map(rt: HostRuntime) {
    accept(&rt, rt.alloc(), Config::new(), &A_VALUE_AT_A_MAP);
}
