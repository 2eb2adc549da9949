//! Integer keys, escaped keys, and how a key is kept.

use super::{Config, accept, tree};
use crate::claims::{is_text, made};

const NUMBERS_AND_TEXTS: [(&str, &str); 6] = [
    ("abc[1]=1&abc[0]=0", "{'abc':{0:'0',1:'1'}}"),
    ("0=a", "{0:'a'}"),
    ("01=x", "{1:'x'}"),
    // an escaped digit makes a string key
    ("1=a&%31=b", "{1:'a','1'*:'b'}"),
    // the greatest integer key, and one more
    (
        "a[4294967296]=p&a[4294967295]=q",
        "{'a':{4294967295:'q','4294967296':'p'}}",
    ),
    ("b=1&10=2&a=3&9=4", "{9:'4',10:'2','a':'3','b':'1'}"),
];

#[test]
fn numbers_and_texts(rt: HostRuntime) {
    accept(&rt, rt.alloc(), Config::new(), &NUMBERS_AND_TEXTS);
}

const BRACKETS_IN_KEYS: [(&str, &str); 4] = [
    ("a]=1", "{'a]':'1'}"),
    ("a[b&c]=1", "{'a':{'b&c':'1'}}"),
    ("abc%5Bdef%5D=ghi", "{'abc[def]'*:'ghi'}"),
    ("[a]=1&[b]=2", "{'a':'1','b':'2'}"),
];

#[test]
fn brackets_in_keys(rt: HostRuntime) {
    accept(&rt, rt.alloc(), Config::new(), &BRACKETS_IN_KEYS);
}

const THE_FIRST_ENCODING_IS_KEPT: [(&str, &str); 4] = [
    ("a=1&%61=2", "{'a':['1','2']}"),
    ("%61=1&a=2", "{'a'*:['1','2']}"),
    ("a[b]=1&%61[c]=2", "{'a':{'b':'1','c':'2'}}"),
    ("%61[b]=1&a[c]=2", "{'a'*:{'b':'1','c':'2'}}"),
];

// A map keeps the key of the first pair with it.
#[test]
fn the_first_encoding_is_kept(rt: HostRuntime) {
    accept(&rt, rt.alloc(), Config::new(), &THE_FIRST_ENCODING_IS_KEPT);
}

#[test]
fn a_number_with_a_thousand_zeros(rt: HostRuntime) {
    let alloc = rt.alloc();
    let zeros = made(&rt, "0".repeat(alloc, 1000));
    let input = made(&rt, format!(in alloc; "a[{zeros}1]=x"));
    let found = tree(&rt, alloc, Config::new(), input.as_bytes());
    is_text(&rt, &found, "{'a':{1:'x'}}", "a thousand zeros");
}

#[test]
fn a_thousand_nines(rt: HostRuntime) {
    let alloc = rt.alloc();
    let nines = made(&rt, "9".repeat(alloc, 1000));
    let input = made(&rt, format!(in alloc; "a[{nines}]=x&{nines}=y"));
    let wanted = format!(in alloc; "{{'{nines}':'y','a':{{'{nines}':'x'}}}}");
    let found = tree(&rt, alloc, Config::new(), input.as_bytes());
    is_text(&rt, &found, &made(&rt, wanted), "a thousand nines");
}
