//! Explanations, as they are printed.

use crate::build::Build;
use crate::claims::{holds, is_equal, is_text, made, present};
use crate::{notation, tables};
use qs_explain::{Explanation, Hint, explain, find_hint, find_pair};
use qs_tree::{Config, Error};
use serde_qs::Shape;
use std::alloc::Global;
use std::process::Abort;

/// Inputs under a shape, each with the line that explains why it isn't read, or no line if it is read.
const EXPLAINED: &str = "\
# fields
Struct:name:address Text Struct:number Option U8
    name=Alice&address[number]=7   |
    name=Alice&address[number]=300 | address[number]: expected u8, found the text \"300\"
    name=Alice&address=x           | address: expected fields, found the text \"x\"
    name=Alice                     | address: expected fields, found nothing
    address[number]=7              | name: expected a text, found nothing

# items of lists
Struct:ids Seq U8
    ids[]=1&ids[]=2            |
    ids[]=1&ids[]=x            | ids[1]: expected u8, found the text \"x\"
    ids[0]=1&ids[1]=x&ids[2]=y | ids[1]: expected u8, found the text \"x\"
    ids=x                      | ids[0]: expected u8, found the text \"x\"
    ids[0]=1&ids[2]=3          | ids[1]: expected u8, found nothing
    ids[a]=1                   | ids: expected a list, found nested keys

# items of tuples and structs
Struct:at Tuple:2 I8 I8
    at[]=1&at[]=2 |
    at[]=1        | at[1]: expected i8, found nothing
    at[]=1&at[]=x | at[1]: expected i8, found the text \"x\"
Struct:user Struct:name:age Text U8
    user[]=Alice&user[]=7 |
    user[]=Alice&user[]=x | user[1]: expected u8, found the text \"x\"

# unexpected keys
Struct:user StrictStruct:name:age Text U8
    user[name]=Alice&user[age]=7             |
    user[name]=Alice&user[age]=7&user[zip]=1 | user: unexpected key \"zip\"
Struct:names Map:U8 Text
    names[7]=a&names[8]=b |
    names[7]=a&names[x]=b | names: unexpected key \"x\"

# values of maps
Struct:prices Map:Text U8
    prices[tea]=3                |
    prices[milk]=1&prices[tea]=x | prices[tea]: expected u8, found the text \"x\"

# variants
Struct:by Enum:1 newtype:Card U8
    by[Card]=7 |
    by[Card]=x | by[Card]: expected u8, found the text \"x\"
    by[Cash]=1 | by: unexpected key \"Cash\", expected one of \"Card\"
    by=Cash    | by: expected one of \"Card\", found the text \"Cash\"
Enum:2 unit:Open unit:Closed
    =Open  |
    =Ajar  | expected one of \"Open\", \"Closed\", found the text \"Ajar\"
    Ajar=1 | unexpected key \"Ajar\", expected one of \"Open\", \"Closed\"

# tuples of variants
Struct:place Enum:2 tuple:At:2 I8 I8 unit:Nowhere
    place[At][]=1&place[At][]=2 |
    place=Nowhere               |
    place[Nowhere]=x            |
    place[At][]=1               | place[At][1]: expected i8, found nothing
    place[At][]=1&place[At][]=x | place[At][1]: expected i8, found the text \"x\"
    place[At][x]=1              | place[At]: expected a list of fixed length, found nested keys
    place=At                    | place: expected one of \"At\", \"Nowhere\", found the text \"At\"
    place                       | place: expected one of \"At\", \"Nowhere\", found no value
    other=1                     | place: expected one of \"At\", \"Nowhere\", found nothing

# fields of variants
Struct:who Enum:2 struct:Lax:name:age Text U8 strict:Strict:zip U32
    who[Lax][name]=Alice&who[Lax][age]=7&who[Lax][zip]=1 |
    who[Lax][name]=Alice&who[Lax][age]=300               | who[Lax][age]: expected u8, found the text \"300\"
    who[Lax][name]=Alice                                 | who[Lax][age]: expected u8, found nothing
    who[Strict][zip]=1&who[Strict][zap]=2                | who[Strict]: unexpected key \"zap\"
    who[Strict][]=1&who[Strict][]=2                      |
    who[Lax]=x                                           | who[Lax][name]: expected a text, found nothing

# no pairs: the empty input has none either, but its tree is read
Struct:age U8
    &   | the query has no pairs
    &&& | the query has no pairs
        | age: expected u8, found nothing
Struct:age Option U8
    &   | the query has no pairs
        |
Any
    &   | the query has no pairs

# a control character stands as its escape, and a byte that is no UTF-8 as U+FFFD
Struct:age U8
    age=3%0A%1B[0m%E2%80%A8%FF | age: expected u8, found the text \"3\\u{a}\\u{1b}[0m\\u{2028}\u{FFFD}\"
StrictStruct:age U8
    age=3&%0D%7F%C3%A9=1 | unexpected key \"\\u{d}\\u{7f}é\"
";

// Claims that an input is explained by this line under the default configuration: an empty line if it is read.
fn says<R: Abort>(b: &Build<'_, R>, shape: &Shape, input: &str, line: &str) {
    let explained = explain(b.alloc, Config::new(), shape, input.as_bytes());
    let text = match made(b.rt, explained) {
        Some(explanation) => made(b.rt, explanation.to_string(b.alloc)),
        None => String::new(b.alloc),
    };
    is_text(b.rt, &text, line, input);
}

#[test]
fn each_case(rt: HostRuntime) {
    let b = Build::new(&rt, rt.alloc());
    let cases = tables::cases(&b, EXPLAINED, 52);
    for (shape, case) in &cases {
        let (input, line) = present(&rt, case.split_once('|'), case);
        says(&b, &notation::shape(&b, shape), input.trim(), line.trim());
    }
}

#[test]
fn a_control_character_in_an_error(rt: HostRuntime) {
    let b = Build::new(&rt, rt.alloc());
    let line =
        "parsing failed with error: 'unexpected character `\\u{a}` while parsing nested key: expected `&`, `=` or `[`' at position: 5";
    says(&b, &Shape::Ignored, "a[b]\n", line);
}

#[test]
fn inputs_without_a_tree(rt: HostRuntime) {
    let input = b"name=Alice&name[x]=1";
    let explained = explain(rt.alloc(), Config::new(), &Shape::Ignored, input);
    let explained = made(&rt, explained);
    let conflict = matches!(&explained, Some(Explanation::Syntax(_)));
    holds(&rt, conflict, "a conflict");
}

#[test]
fn escaped_brackets(rt: HostRuntime) {
    let query = Config::new();
    let form = Config::new().use_form_encoding(true);
    hints(&rt, query, b"user%5Bage%5D=7", Some(Hint::Escaped(7)));
    hints(&rt, query, b"a=%5B&b%5d=1", Some(Hint::Escaped(10)));
    // in a value
    hints(&rt, query, b"q=%5Bx%5D&user[age]=7", None);
    hints(&rt, form, b"user%5bage%5d=7", Some(Hint::LowerCase(7)));
    // read as brackets
    hints(&rt, form, b"user%5Bage%5D=7", None);
}

// Claims that the input has this hint.
fn hints<R: Abort>(rt: &R, config: Config, input: &[u8], wanted: Option<Hint>) {
    is_equal(rt, find_hint(config, input), wanted, input);
}

#[test]
fn hints_as_text(rt: HostRuntime) {
    let text = made(&rt, Hint::LowerCase(7).to_string(rt.alloc()));
    let wanted =
        "the escaped bracket before position 7 is part of the key: form mode reads `%5B` and `%5D` in upper case";
    is_text(&rt, &text, wanted, "a hint");
}

/// The range of a pair: its start, the end of its key, and its end.
type Place = (usize, usize, usize);

// Claims that the pair at this position has this range.
fn has_place<R: Abort>(rt: &R, config: Config, input: &[u8], position: usize, wanted: Place) {
    let pair = find_pair(config, input, position);
    let place = (pair.start, pair.key_end, pair.end);
    is_equal(rt, place, wanted, input);
}

// Claims that the input has no tree, and that the pair with the error has this range.
fn is_wrong<R: Abort>(rt: &R, alloc: Global, config: Config, input: &[u8], wanted: Place) {
    let explained = explain(alloc, config, &Shape::Ignored, input);
    match &made(rt, explained) {
        Some(Explanation::Syntax(Error::Parse(_, position))) => {
            has_place(rt, config, input, *position, wanted);
        }
        other => panic!(rt; "no error of syntax: {other:?}"),
    }
}

/// Inputs, each with the range of its first wrong pair. The comment after a row shows that pair.
const WRONG_PAIRS: [(&[u8], Place); 6] = [
    (b"a=1&a[b]=2&c=3", (4, 8, 10)), // a[b]=2
    (b"a[b]c=1&d=2", (0, 5, 7)), // a[b]c=1
    // an `&` in brackets is a byte of the key
    (b"a=1&b[c&d=2", (4, 11, 11)), // b[c&d=2
    (b"a=[&b[c]=1&d[e&f", (11, 16, 16)), // d[e&f
    // after brackets, and at the root after the value that closes a pair
    (b"a[b]&a[]=1", (5, 8, 10)), // a[]=1
    (b"=1&a=2&b", (3, 4, 6)), // a=2
];

#[test]
fn pairs_of_errors(rt: HostRuntime) {
    for (input, wanted) in &WRONG_PAIRS {
        is_wrong(&rt, rt.alloc(), Config::new(), input, *wanted);
    }
}

/// Whether form mode is used, an input, and the range of the first wrong pair. The pair's key is at the end of the line. A `=` in
/// brackets is a byte of the key.
const WRONG_KEYS: [(bool, &[u8], Place); 14] = [
    (false, b"a[b=c]=1&a[b=c][x]=2", (9, 18, 20)), // a[b=c][x]
    (false, b"a[b]=[=]&a[b][c]==1", (9, 16, 19)), // a[b][c]
    (false, b"a[=]x=1&b", (0, 5, 7)), // a[=]x
    // brackets that aren't closed
    (false, b"a=1&b[c=2", (4, 9, 9)), // b[c=2
    (false, b"a[=1&c", (0, 6, 6)), // a[=1&c
    (false, b"a[b=][=c=1", (0, 10, 10)), // a[b=][=c=1
    // pushed
    (false, b"a=1&a[]=2", (4, 7, 9)), // a[]
    (false, b"a=1&a[]=", (4, 7, 8)), // a[]
    // form mode
    (true, b"a%5Bb=c%5D=1&a%5Bb=c%5D%5Bx%5D=2", (13, 30, 32)), // a%5Bb=c%5D%5Bx%5D
    (true, b"a%5B=1&c", (0, 8, 8)), // a%5B=1&c
    (true, b"a%5Bb=%5d=1&c", (0, 13, 13)), // a%5Bb=%5d=1&c
    (true, b"a=1&a%5B%5D=", (4, 11, 12)), // a%5B%5D
    // an escaped bracket, which query mode doesn't read as one
    (true, b"c=1&c[%5D=x", (4, 9, 11)), // c[%5D
    (false, b"c=1&c[%5D=x", (4, 11, 11)), // c[%5D=x
];

#[test]
fn keys_of_pairs_with_errors(rt: HostRuntime) {
    for (form, input, wanted) in &WRONG_KEYS {
        let config = Config::new().use_form_encoding(*form);
        is_wrong(&rt, rt.alloc(), config, input, *wanted);
    }
}

// At the depth limit the byte after the bracket of a key's last segment may be a `=`, and the next `=` ends the key.
#[test]
fn keys_at_the_depth_limit(rt: HostRuntime) {
    let alloc = rt.alloc();
    let query = Config::new().max_depth(1);
    let form = query.use_form_encoding(true);
    is_wrong(&rt, alloc, query, b"a[b]=1&a[b][=c=2", (7, 14, 16));
    is_wrong(&rt, alloc, form, b"a[b]=1&a%5Bb%5D%5B=c=2", (7, 20, 22));
}

// At the depth limit the byte after the bracket of a key's last segment may be an `&`, and the key continues after it.
#[test]
fn pairs_at_the_depth_limit(rt: HostRuntime) {
    let query = Config::new().max_depth(1);
    let form = query.use_form_encoding(true);
    has_place(&rt, query, b"a[b][&c=1&d[", 13, (10, 12, 12));
    has_place(&rt, form, b"a%5Bb%5D%5B&c=1&d%5Be&f", 24, (16, 23, 23));
    has_place(&rt, query.max_depth(0), b"a[b&=1&c=1", 7, (4, 4, 6));
}
