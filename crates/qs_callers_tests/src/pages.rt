//! A search page, a posted form, links, a client with its server, and the leaves of a tree.

use crate::claims::{gives, gives_text, holds, is_equal, is_text};
use crate::round_trips::comes_back;
use crate::values::{list, text};
use qs_callers::{
    Address, Filter, Link, Order, Products, Query, exchanged, leaf_paths, next_page, ordered,
    served, target,
};
use serde_qs::{Result, from_str, to_string};
use std::alloc::Global;
use std::process::Abort;

#[test]
fn a_search_page(rt: HostRuntime) {
    let alloc = rt.alloc();
    let rows = [
        (
            "page=2&shops=3,1&price[to]=20&price[from]=10&filter[size]=4&filter[colour]=dark+red",
            "filter[colour]=dark+red&filter[size]=4&price[from]=10&price[to]=20&shops=3,1&page=3",
        ),
        ("filter&shops=", "filter=&shops=&page=2"),
    ];
    for (input, wanted) in rows {
        gives_text(&rt, next_page(alloc, input), wanted);
        let products: Products = from_str(alloc, wanted).expect(&rt, wanted);
        comes_back(&rt, alloc, products);
    }
}

// Returns the order of the form.
fn order<R: Abort>(rt: &R, alloc: Global) -> Order {
    let address = Address {
        street: text(rt, alloc, "No. 11"),
        city: text(rt, alloc, "Carrot City"),
    };
    Order {
        name: text(rt, alloc, "Acme"),
        address,
        items: list(rt, alloc, [7, 9]),
    }
}

#[test]
fn a_posted_form(rt: HostRuntime) {
    let alloc = rt.alloc();
    let body =
        b"items%5B%5D=7&address%5Bcity%5D=Carrot+City&name=Acme&items%5B%5D=9&address%5Bstreet%5D=No.+11";
    let posted = ordered(alloc, body).expect(&rt, "an order").into_inner();
    is_equal(&rt, posted, order(&rt, alloc));
    comes_back(&rt, alloc, order(&rt, alloc));
}

// Returns a link with two named parameters, in one order or the other.
fn link(alloc: Global, is_page_first: bool) -> Result<String> {
    let link = Link::to(alloc, "/found")?;
    let words = String::from_str(alloc, "red & blue")?;
    if is_page_first {
        link.with(alloc, "page", &2u32)?
            .with(alloc, "text", &words)?
            .into_text()
    } else {
        link.with(alloc, "text", &words)?
            .with(alloc, "page", &2u32)?
            .into_text()
    }
}

// Claims that this link is written, and that the server reads both parameters.
fn is_link<R: Abort>(rt: &R, alloc: Global, is_page_first: bool, wanted: &str) {
    gives_text(rt, link(alloc, is_page_first), wanted);
    let filter: Filter = served(alloc, wanted).expect(rt, wanted);
    is_text(rt, filter.text.as_str(), "red & blue");
    is_equal(rt, filter.page, Some(2));
}

#[test]
fn a_link(rt: HostRuntime) {
    let alloc = rt.alloc();
    is_link(&rt, alloc, true, "/found?page=2&text=red+%26+blue");
    is_link(&rt, alloc, false, "/found?text=red+%26+blue&page=2");
}

// Claims that the client writes this text, and that the server reads the same query from it.
fn is_served<R: Abort>(rt: &R, alloc: Global, query: Query, wanted: &str) {
    gives_text(rt, target(alloc, "/users", &query), wanted);
    let again = exchanged(alloc, &query).expect(rt, wanted);
    is_equal(rt, &again, &query);
    gives(rt, served(alloc, wanted), query);
}

#[test]
fn a_client_and_its_server(rt: HostRuntime) {
    let alloc = rt.alloc();
    let query = Query {
        name: text(&rt, alloc, "Alice [B.]"),
        age: 24,
        occupation: text(&rt, alloc, "a=b&c"),
    };
    let wanted = "/users?name=Alice+%5BB.%5D&age=24&occupation=a%3Db%26c";
    let written = to_string(alloc, &query).expect(&rt, wanted);
    holds(&rt, wanted.ends_with(written.as_str()), written.as_str());
    is_served(&rt, alloc, query, wanted);
}

#[test]
fn leaves_of_a_tree(rt: HostRuntime) {
    let alloc = rt.alloc();
    let rows = [
        (
            "user[name]=John&tag=b&user[ids][0]=7&tag=a&flag",
            "[\"flag\"]\n[\"tag\"][0]\n[\"tag\"][1]\n[\"user\"][\"ids\"][0]\n[\"user\"][\"name\"]\n",
        ),
        ("a[]=&1=x", "[1]\n[\"a\"][0]\n"),
    ];
    for (input, wanted) in rows {
        gives_text(&rt, leaf_paths(alloc, input), wanted);
    }
    holds(&rt, leaf_paths(alloc, "a[b").is_err(), "an error");
}
