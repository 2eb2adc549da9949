//! Callers of serde_qs: users' structs and enums, and calls with them.
#![tactic(auto)]

mod account;
mod address;
mod age;
mod calls;
mod chart;
mod client;
mod columns;
mod day;
pub mod derived;
mod filter;
mod form_page;
mod guard;
mod leaves;
mod link;
mod listing;
mod mistake;
mod order;
mod paging;
mod pair;
mod payment;
mod per_page;
mod place;
mod price;
mod products;
mod profile;
mod query;
mod range;
mod report;
mod same;
mod search;
mod sort;
mod span;
mod values;
mod visit;
mod wrappers;

pub use account::Account;
pub use address::Address;
pub use age::Age;
pub use calls::{asked, rewritten, sorted};
pub use chart::Chart;
pub use client::{exchanged, served, target};
pub use columns::Columns;
pub use day::Day;
pub use filter::Filter;
pub use form_page::{FieldError, submitted};
pub use guard::{Rejected, guarded};
pub use leaves::leaf_paths;
pub use link::Link;
pub use listing::Listing;
pub use mistake::explained;
pub use order::{Order, ordered};
pub use paging::{Page, Paging};
pub use pair::Pair;
pub use payment::{Method, Payment};
pub use per_page::PerPage;
pub use place::Place;
pub use price::Price;
pub use products::{Products, next_page};
pub use profile::Profile;
pub use query::Query;
pub use range::Range;
pub use report::Report;
pub use same::{is_same_data, is_same_key, is_same_tree, order_of_two_keys};
pub use search::Search;
pub use sort::Sort;
pub use span::Span;
pub use values::Values;
pub use visit::Visit;
pub use wrappers::{
    copied_form, copied_query, form_inside, form_text, is_same_form, is_same_query, order_of_forms,
    order_of_queries, partial_order_of_forms, partial_order_of_queries, query_inside, query_text,
    set_form, set_query,
};
