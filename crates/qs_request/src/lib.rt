//! The query and the form of a request, read as values.
//!
//! A request target, parsed by [`http_uri`], may have a query, and a body may be a form. [`query`] and [`form`] read types that
//! [`serde_qs`] reads; the functions of [`derived`] read types with serde's derives:
//!
//! ```
//! use http_uri::Uri;
//! use qs_request::{Config, QsQuery, query};
//!
//! let target = Uri::from_str(alloc, "/users?id[]=1124&id[]=88")?;
//! let users: QsQuery<Users> = query(alloc, &target, Config::new())?;
//! let count = users.id.len(); // 2
//! ```
//!
//! Check [`Limits`] first, against the text of a query or the bytes of a form:
//!
//! ```
//! let limits = Limits::new().max_length(65_536).max_pairs(1_000);
//! limits.check(body).map_err(Rejected::TooLarge)?; // an error of your own
//! let order: QsForm<Order> = derived::form(alloc, body, config).map_err(Rejected::Unread)?;
//! ```
#![tactic(auto)]

mod body;
pub mod derived;
mod target;
#[cfg(test)]
mod tests;

pub use body::form;
pub use qs_serde::PathError;
pub use serde_qs::web::{QsForm, QsQuery};
pub use serde_qs::{Config, Error, LimitError, Limits, Result};
pub use target::query;
