//! The query of a request target.

ghost use Rattle.std.specs.Prelude.{◌≡◌};
ghost use Rattle.serde_qs.specs.Typed.{ReturnsValue, ReturnsWritten};
ghost use Rattle.qs_request.specs.Request.{query_of};

use http_uri::Uri;
use serde_qs::web::QsQuery;
use serde_qs::{Config, ConfigExt, Deserialize, Result};
use std::alloc::Global;

/// Returns the value that is read from the query of a request target under a configuration.
///
/// The query is what follows the first `?` (RFC 3986, section 3.4). A fragment isn't part of it, and a `Uri` keeps none. If there is no
/// query, the empty querystring is read, so that a type without required fields has a value.
///
/// The default configuration reads brackets as they are. Clients that escape them need
/// [`use_form_encoding`](Config::use_form_encoding), which reads both.
///
/// ```
/// let target = Uri::from_str(alloc, "/test?page=2")?;
/// let filter: QsQuery<Filter> = query(alloc, &target, Config::new())?; // page 2
/// ```
///
/// Errors, allocations and time are as for [`from_str`](serde_qs::from_str) with this configuration.
pub fn query<T: Deserialize>(alloc: Global, uri: &Uri, config: Config) -> Result<QsQuery<T>>
    ensures exact { ReturnsValue (λ query. T.table.value query.0) config T.table.shape T.table.meaning (query_of uri.now) result }
    ensures back { ReturnsWritten (λ query. T.table.value query.0) config T.table.shape T.table.meaning (query_of uri.now) result }
{
    config.deserialize_str(alloc, query_text(uri)).map(QsQuery)
}

/// Returns the query of a request target, or the empty text if there is none.
pub(crate) fn query_text(uri: &Uri) -> &str
    ensures { result.now ≡ query_of uri.now }
{
    uri.query().unwrap_or("")
}
