//! Types that are only read or only written, and a struct with an enum in a field.

use crate::claims::{are_rejected, is_equal, is_read, is_rejected, is_text, is_written};
use crate::round_trips::comes_back;
use crate::values::{list, one, text};
use qs_callers::{Day, Listing, Report, Sort, Values, Visit};
use serde_qs::from_str;
use std::alloc::Global;
use std::process::Abort;

#[test]
fn only_read(rt: HostRuntime) {
    let alloc = rt.alloc();
    let input = "times=2&labels[lang]=en&path=%2Fhome";
    let visit: Visit = from_str(alloc, input).expect(&rt, "a visit");
    is_text(&rt, visit.path.as_str(), "/home");
    is_equal(&rt, visit.times, 2);
    is_equal(&rt, visit.labels.len(), 1);
    let input = "times=2&labels[lang]=en";
    is_rejected::<_, Visit>(&rt, alloc, input, "missing field `path`");
}

#[test]
fn only_read_in_a_part(rt: HostRuntime) {
    let alloc = rt.alloc();
    let input = "hours=0,2&visits[0][path]=a&visits[0][times]=2&visits[0][labels][lang]=en";
    let day: Day = from_str(alloc, input).expect(&rt, "a day");
    is_equal(&rt, &day.hours.0, &list(&rt, alloc, [0, 2]));
    is_equal(&rt, day.visits.len(), 1);
    let visit = day.visits.first().expect(&rt, "a visit");
    is_text(&rt, visit.path.as_str(), "a");
    is_equal(&rt, visit.times, 2);
    let rows = [
        ("hours=0,x&visits=", "invalid item `x`"),
        ("hours=0&visits[0][path]=a", "missing field `times`"),
    ];
    are_rejected::<_, Day>(&rt, alloc, &rows);
}

#[test]
fn only_written(rt: HostRuntime) {
    let alloc = rt.alloc();
    let report = Report {
        title: text(&rt, alloc, "Rain"),
        values: Values(list(&rt, alloc, [1, 2])),
        counts: one(&rt, alloc, "north", 3),
    };
    let wanted = "title=Rain&values=1,2&counts[north]=3";
    is_written(&rt, alloc, &report, wanted);
}

// Returns a listing that is ordered by a range.
fn listing<R: Abort>(rt: &R, alloc: Global) -> Listing {
    Listing {
        text: text(rt, alloc, "lamp"),
        page: 2,
        sort: Sort::Between { from: 3, to: 9 },
        is_short: true,
    }
}

#[test]
fn an_enum_in_a_field(rt: HostRuntime) {
    let alloc = rt.alloc();
    comes_back(&rt, alloc, listing(&rt, alloc));
    let input = "text=lamp&page=2&sort[Between][from]=3&sort[Between][to]=9&short=true";
    is_read(&rt, alloc, input, listing(&rt, alloc));
    let input = "text=lamp&page=2&sort=Price&short=true";
    is_rejected::<_, Listing>(&rt, alloc, input, "unknown variant `Price`");
}
