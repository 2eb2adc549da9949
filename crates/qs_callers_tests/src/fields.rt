//! Fields of users' types: a list in one text, a checked value.

use crate::claims::{
    are_rejected, gives_text, holds, is_equal, is_rejected, is_written_and_read, is_written_as_read,
};
use crate::round_trips::comes_back;
use crate::values::{list, text};
use qs_callers::{
    Age, Chart, Columns, Page, Paging, Pair, PerPage, Place, Price, Profile, Sort, Span,
};
use serde_qs::{Config, ConfigExt, Delimited, from_str};
use std::alloc::Global;
use std::process::Abort;

#[test]
fn a_list_in_one_text(rt: HostRuntime) {
    let alloc = rt.alloc();
    let rows = [("title=Rain&values=1,2,3", 3), ("title=Rain&values=", 0)];
    for (input, count) in rows {
        let chart: Chart = is_written_as_read(&rt, alloc, input);
        assert!(rt; chart.values.items.len() == count, "{input}");
    }
    let rows = [
        ("title=Rain&values=1,x", "invalid item `x`"),
        (
            "title=Rain&values[a]=1",
            "invalid type: map, expected a string",
        ),
    ];
    are_rejected::<_, Chart>(&rt, alloc, &rows);
}

// Returns a chart of two values.
fn chart<R: Abort>(rt: &R, alloc: Global) -> Chart {
    Chart {
        title: text(rt, alloc, "Rain"),
        values: Delimited::new(list(rt, alloc, [7, 8])),
    }
}

#[test]
fn a_list_in_one_text_comes_back(rt: HostRuntime) {
    let alloc = rt.alloc();
    let chart = chart(&rt, alloc);
    let config = Config::new().use_form_encoding(true);
    let written = config.serialize_string(alloc, &chart);
    gives_text(&rt, written, "title=Rain&values=7%2C8");
    comes_back(&rt, alloc, chart);
}

#[test]
fn other_delimiters(rt: HostRuntime) {
    let alloc = rt.alloc();
    let columns = Columns {
        left: Delimited::new(list(&rt, alloc, [-1i8, 2])),
        right: Delimited::new(list(&rt, alloc, [3u64, 4])),
    };
    is_written_and_read(&rt, alloc, columns, "a=-1|2&b=3+4");
}

const AGES: &[(&str, &str)] = &[
    ("a=150&b=7", "invalid type: data, expected an age below 150"),
    ("a=256&b=7", "invalid type: string, expected u8"),
    ("b=7", "missing field `a`"),
];

#[test]
fn an_age_below_150(rt: HostRuntime) {
    let alloc = rt.alloc();
    let pair: Pair<Age, Price> = from_str(alloc, "a=149&b=7").expect(&rt, "a pair");
    is_equal(&rt, pair.a.years(), 149);
    comes_back(&rt, alloc, pair);
    are_rejected::<_, Pair<Age, Price>>(&rt, alloc, AGES);
}

const COUNTS: &[(&str, &str)] = &[
    (
        "a=0&b=7",
        "invalid type: data, expected how many results are on a page, which is a number from 1 to 100",
    ),
    (
        "a=101&b=7",
        "invalid type: data, expected how many results are on a page, which is a number from 1 to 100",
    ),
];

#[test]
fn results_on_a_page(rt: HostRuntime) {
    let alloc = rt.alloc();
    for (input, count) in [("a=1&b=7", 1), ("a=100&b=7", 100)] {
        let pair: Pair<PerPage, Price> = from_str(alloc, input).expect(&rt, "a pair");
        is_equal(&rt, pair.a.count(), count);
        comes_back(&rt, alloc, pair);
    }
    are_rejected::<_, Pair<PerPage, Price>>(&rt, alloc, COUNTS);
}

#[test]
fn values_without_names(rt: HostRuntime) {
    let pair = Pair {
        a: Place::At(-1, 2),
        b: Span(3, 9),
    };
    let wanted = "a[At][0]=-1&a[At][1]=2&b[0]=3&b[1]=9";
    is_written_and_read(&rt, rt.alloc(), pair, wanted);
}

#[test]
fn fields_with_a_default(rt: HostRuntime) {
    let alloc = rt.alloc();
    let rows = [
        ("text=a", 1, false, "text=a&page=1&short=false"),
        ("text=a&page=2", 2, false, "text=a&page=2&short=false"),
        ("short=true&text=a", 1, true, "text=a&page=1&short=true"),
    ];
    for (input, page, is_short, wanted) in rows {
        let paging: Paging = from_str(alloc, input).expect(&rt, "a page");
        assert!(rt;
            paging.page == Page(page) && paging.is_short == is_short,
            "{input}"
        );
        is_written_and_read(&rt, alloc, paging, wanted);
    }
    let wanted = "invalid type: string, expected u32";
    is_rejected::<_, Paging>(&rt, alloc, "text=a&page=", wanted);
}

const PROFILE: &str =
    "name=Alice&age=24&city=Ely&zip=7&langs[0]=en&langs[1]=fr&sort[By]=price&size&dark=true&news=false&visits=3";

#[test]
fn ten_fields(rt: HostRuntime) {
    let alloc = rt.alloc();
    let profile: Profile = is_written_as_read(&rt, alloc, PROFILE);
    is_equal(&rt, profile.langs.len(), 2);
    is_equal(&rt, profile.visits, 3);
    is_equal(&rt, &profile.sort, &Sort::By(text(&rt, alloc, "price")));
    holds(&rt, profile.size.is_none(), "no size");
    comes_back(&rt, alloc, profile);
    let input = "name=Alice&age=24&city=Ely&zip=7&langs=";
    is_rejected::<_, Profile>(&rt, alloc, input, "missing field `sort`");
}
