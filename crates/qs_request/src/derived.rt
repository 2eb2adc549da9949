//! The query and the form of a request, read as types with serde's derives.
//!
//! ```
//! use http_uri::Uri;
//! use qs_request::{Config, QsQuery, derived};
//! use serde::Deserialize;
//!
//! #[derive(Drop, Deserialize)]
//! struct Users {
//!     id: Vec<u64>,
//! }
//!
//! let target = Uri::from_str(alloc, "/users?id[]=1124&id[]=88")?;
//! let users: QsQuery<Users> = derived::query(alloc, &target, Config::new())?;
//! let count = users.id.len(); // 2
//! ```

ghost use Rattle.qs_serde.specs.Inputs.{ExplainsFrom};
ghost use Rattle.qs_request.specs.Request.{query_of};

use crate::target::query_text;
use http_uri::Uri;
use qs_serde::{Config, PathError, explain_bytes, explain_str};
use serde::Deserialize;
use serde_qs::web::{QsForm, QsQuery};
use std::alloc::Global;

/// Returns the value that is read from the query of a request target under a configuration.
///
/// It reads the same text as [`query`](crate::query): what follows the first `?`, or the empty text if there is no query. The value may
/// borrow from the target.
///
/// ```
/// match derived::query::<Filter>(alloc, &target, Config::new()) {
///     Ok(filter) => show(filter.page),
///     Err(error) => println!(rt; "{error}")?, // page: invalid type: string, expected u32
/// }
/// ```
///
/// Errors, allocations and time are as for [`explain_str`](qs_serde::explain_str). An error has the path to the part that isn't read; `?`
/// turns it into an [`Error`](crate::Error).
pub fn query<'de, T: Deserialize<'de>>(
    alloc: Global,
    uri: &'de Uri,
    config: Config,
) -> Result<QsQuery<T>, PathError>
    ensures { ExplainsFrom config (query_of uri.now) result }
{
    match explain_str(alloc, config, query_text(uri)) {
        Ok(value) => Ok(QsQuery(value)),
        Err(error) => Err(error),
    }
}

/// Returns the value that is read from a request's body under a configuration. The value may borrow from the body.
///
/// A body of the type `application/x-www-form-urlencoded` needs [`use_form_encoding`](Config::use_form_encoding), as for
/// [`form`](crate::form).
///
/// ```
/// let config = Config::new().use_form_encoding(true);
/// let order: QsForm<Order> = derived::form(alloc, b"item=7&tags%5B%5D=new", config)?;
/// ```
///
/// Errors, allocations and time are as for [`explain_bytes`](qs_serde::explain_bytes).
pub fn form<'de, T: Deserialize<'de>>(
    alloc: Global,
    body: &'de [u8],
    config: Config,
) -> Result<QsForm<T>, PathError>
    ensures { ExplainsFrom config body.now result }
{
    match explain_bytes(alloc, config, body) {
        Ok(value) => Ok(QsForm(value)),
        Err(error) => Err(error),
    }
}
