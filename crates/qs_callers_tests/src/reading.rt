//! Typed calls that read.

use crate::claims::{
    are_rejected, fails, gives, holds, is_equal, is_not_utf8, is_read, is_rejected, is_text,
};
use crate::values::{ALICE, alice, list, text};
use qs_callers::{Account, Filter, Pair, Price, Query, Search, Sort, asked, sorted};
use serde_qs::{
    Config, ConfigExt, Deserialize, Deserializer, Error, Result, Serialize, from_bytes, from_str,
};
use std::alloc::Global;
use std::collections::BTreeMap;
use std::process::Abort;

// Claims that the call read Alice's query.
fn is_alice<R: Abort>(rt: &R, read: Result<Query>) {
    let query = read.expect(rt, "a query");
    is_text(rt, query.name.as_str(), "Alice");
    is_equal(rt, query.age, 24);
    is_text(rt, query.occupation.as_str(), "Student");
}

// Claims that the map has one entry, this one.
fn has_alone<R: Abort>(rt: &R, read: Result<BTreeMap<String, String>>, key: &str, wanted: &str) {
    let map = read.expect(rt, "a map");
    is_equal(rt, map.len(), 1);
    has(rt, &map, key, wanted);
}

// Claims that the map has this entry.
fn has<R: Abort>(rt: &R, map: &BTreeMap<String, String>, key: &str, wanted: &str) {
    let value = map.get(key).expect(rt, key);
    is_text(rt, value.as_str(), wanted);
}

#[test]
fn each_call_reads(rt: HostRuntime) {
    let alloc = rt.alloc();
    is_alice(&rt, from_str(alloc, ALICE));
    is_alice(&rt, from_bytes(alloc, ALICE.as_bytes()));
    is_alice(&rt, asked(alloc, ALICE));
}

#[test]
fn each_call_of_a_configuration_reads(rt: HostRuntime) {
    let alloc = rt.alloc();
    let config = Config::new();
    is_alice(&rt, config.deserialize_str(alloc, ALICE));
    let bytes = ALICE.as_bytes();
    is_alice(&rt, config.deserialize_bytes(alloc, bytes));
}

#[test]
fn data_by_a_shape(rt: HostRuntime) {
    let alloc = rt.alloc();
    let shape = Query::shape(alloc).expect(&rt, "a shape");
    let deserializer = Deserializer::new(alloc, ALICE.as_bytes()).expect(&rt, "a tree");
    let query = alice(&rt, alloc);
    let wanted = query.to_data(alloc).expect(&rt, "data");
    gives(&rt, deserializer.read(alloc, &shape), wanted);
}

#[test]
fn in_form_mode(rt: HostRuntime) {
    let alloc = rt.alloc();
    let config = Config::new().use_form_encoding(true);
    is_alice(&rt, config.deserialize_str(alloc, ALICE));
    let bytes = ALICE.as_bytes();
    is_alice(&rt, config.deserialize_bytes(alloc, bytes));
    let result: Result<Query> = config.deserialize_str(alloc, "age=24&name=Alice");
    fails(&rt, result, "missing field `occupation`");
    let map = config.deserialize_str(alloc, "1=a&%31=b");
    has_alone(&rt, map, "1", "b");
}

const REJECTED: &[(&str, &str)] = &[
    ("age=24&name=Alice", "missing field `occupation`"),
    (
        "name=Alice&age=x&occupation=Student",
        "invalid type: string, expected u8",
    ),
    (
        "name[a]=Alice&age=24&occupation=Student",
        "invalid type: map, expected a string",
    ),
];

#[test]
fn rejected_queries(rt: HostRuntime) {
    let alloc = rt.alloc();
    are_rejected::<_, Query>(&rt, alloc, REJECTED);
    let result: Result<Query> = from_str(alloc, "name[a");
    holds(&rt, matches!(result, Err(Error::Parse(_, _))), "name[a");
    let input = "name=%FF&age=24&occupation=Student";
    let result: Result<Query> = from_bytes(alloc, input.as_bytes());
    is_not_utf8(&rt, result, input);
}

#[test]
fn fields_in_any_order(rt: HostRuntime) {
    let alloc = rt.alloc();
    let input = "occupation=Student&unknown=1&age=24&name=Alice";
    is_alice(&rt, from_str(alloc, input));
    let account = Account {
        first_name: text(&rt, alloc, "John"),
        last_name: text(&rt, alloc, "Doe"),
        id: 12345,
    };
    let input = "user-id=12345&lastName=Doe&firstName=John";
    is_read(&rt, alloc, input, account);
}

#[test]
fn the_later_pair_wins(rt: HostRuntime) {
    has_alone(&rt, from_str(rt.alloc(), "1=a&%31=b"), "1", "b");
}

#[test]
fn a_depth_limit(rt: HostRuntime) {
    let config = Config::new().max_depth(0);
    let map = config.deserialize_str(rt.alloc(), "a[b]=1");
    has_alone(&rt, map, "a[b]", "1");
}

#[test]
fn an_order(rt: HostRuntime) {
    let alloc = rt.alloc();
    let order = Sort::By(text(&rt, alloc, "price"));
    gives(&rt, sorted(alloc, "By=price"), order);
    let order = Sort::Between { from: 2, to: 9 };
    gives(&rt, sorted(alloc, "Between[to]=9&Between[from]=2"), order);
    let result = sorted(alloc, "Between[from]=2");
    fails(&rt, result, "missing field `to`");
}

#[test]
fn an_order_in_a_field(rt: HostRuntime) {
    let alloc = rt.alloc();
    let pair = Pair {
        a: Sort::Relevance,
        b: Price(250),
    };
    is_read(&rt, alloc, "a=Relevance&b=250", pair);
    let wanted = "unknown variant `Price`";
    is_rejected::<_, Pair<Sort, u8>>(&rt, alloc, "a=Price&b=1", wanted);
}

#[test]
fn a_search(rt: HostRuntime) {
    let alloc = rt.alloc();
    let input = "text=qs&ranges[0][0]=-1&ranges[0][1]=2&ranges[1][0]=3&labels[lang]=en";
    let search: Search = from_str(alloc, input).expect(&rt, "a search");
    is_text(&rt, search.text.as_str(), "qs");
    is_equal(&rt, search.page, None);
    has(&rt, &search.labels, "lang", "en");
    let ranges = [list(&rt, alloc, [-1, 2]), list(&rt, alloc, [3])];
    is_equal(&rt, &search.ranges, &list(&rt, alloc, ranges));
}

#[test]
fn optional_fields(rt: HostRuntime) {
    let alloc = rt.alloc();
    let filter = Filter {
        text: text(&rt, alloc, "qs"),
        page: None,
        size: None,
    };
    is_read(&rt, alloc, "text=qs", filter);
    let filter = Filter {
        text: text(&rt, alloc, "qs"),
        page: None,
        size: Some(10),
    };
    is_read(&rt, alloc, "size=10&text=qs", filter);
    let rows = [
        ("text=qs&page=", "invalid type: string, expected u32"),
        ("page=2", "missing field `text`"),
    ];
    are_rejected::<_, Filter>(&rt, alloc, &rows);
}
