//! The search page, the posted form and the client, with types that have serde's derives. The Rust crate `serde_qs` 1.1.3 reads and writes
//! the same values of the same types.

use crate::claims::{gives_text, is_equal, is_text};
use crate::values::{list, text};
use qs_callers::derived::{Address, Order, Products, next_page, ordered, served, target};
use std::alloc::Global;
use std::process::Abort;

#[test]
fn a_search_page(rt: HostRuntime) {
    let alloc = rt.alloc();
    let rows = [
        (
            "page=2&shops=3,1&price[to]=20&price[from]=10&filter[size]=4&filter[colour]=dark+red",
            "filter[colour]=dark+red&filter[size]=4&price[from]=10&price[to]=20&shops=3,1&page=3",
        ),
        ("filter&shops=", "filter=&shops=&page=2"),
    ];
    for (input, wanted) in rows {
        gives_text(&rt, next_page(alloc, input), wanted);
    }
}

// Returns the order of the form.
fn order<R: Abort>(rt: &R, alloc: Global) -> Order {
    let address = Address {
        street: text(rt, alloc, "No. 11"),
        city: text(rt, alloc, "Carrot City"),
    };
    Order {
        name: text(rt, alloc, "Acme"),
        address,
        items: list(rt, alloc, [7, 9]),
    }
}

#[test]
fn a_posted_form(rt: HostRuntime) {
    let alloc = rt.alloc();
    let body =
        b"items%5B%5D=7&address%5Bcity%5D=Carrot+City&name=Acme&items%5B%5D=9&address%5Bstreet%5D=No.+11";
    is_equal(
        &rt,
        ordered(alloc, body).expect(&rt, "an order"),
        order(&rt, alloc),
    );
    let error = ordered(
        alloc,
        b"name=Acme&address[street]=a&address[city]=b&items[]=7&items[]=x",
    )
    .expect_err(&rt, "an error");
    is_text(&rt, error.path.as_str(), "items[1]");
}

#[test]
fn a_client_and_its_server(rt: HostRuntime) {
    let alloc = rt.alloc();
    let wanted =
        "/orders?name=Acme&address[street]=No.+11&address[city]=Carrot+City&items[0]=7&items[1]=9";
    let sent = order(&rt, alloc);
    gives_text(&rt, target(alloc, "/orders", &sent), wanted);
    is_equal(&rt, served(alloc, wanted).expect(&rt, "an order"), sent);
    let none: Option<Products> = served(alloc, "/orders").ok();
    is_equal(&rt, none, None);
}
