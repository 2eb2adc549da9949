//! A client, and the server that reads what it wrote.

ghost use Rattle.std.specs.Prelude.{◌≡◌, IfOk, string_bytes};
ghost use Rattle.qs_spec.specs.Config.{default};
ghost use Rattle.serde_qs.specs.Typed.{IsPlainWithin, ReturnsValue};
ghost use Rattle.serde_qs.specs.WrittenText.{text_of};
ghost use Rattle.qs_callers.specs.Client.{IsValue, query_behind, target_with};

use serde_qs::{Result, RoundTrip, from_str, to_string};
use std::alloc::Global;

/// Returns the request target for a value, as a client sends it.
pub fn target<T: RoundTrip>(alloc: Global, path: &str, value: &T) -> Result<String>
    ensures { IfOk result (λ target. string_bytes target ≡ target_with path.now (text_of default (T.datum value.now))) }
{
    let query = to_string(alloc, value)?;
    Ok(format!(in alloc; "{path}?{query}")?)
}

/// Returns what a server reads from the query of a request target, or from the empty query if there is none.
pub fn served<T: RoundTrip>(alloc: Global, target: &str) -> Result<T>
    ensures { ReturnsValue T.table.value default T.table.shape T.table.meaning (query_behind target.now) result }
{
    let (_path, query) = target.split_once('?').unwrap_or((target, ""));
    from_str(alloc, query)
}

/// Returns what the server reads from the client's query. If the value's data is plain and within the depth limit, that is the client's
/// value, and the only error is that an allocation failed.
pub fn exchanged<T: RoundTrip>(alloc: Global, value: &T) -> Result<T>
    ensures { IsPlainWithin default (T.datum value.now) → IsValue T.table.value (T.table.value value.now) result }
{
    let query = to_string(alloc, value)?;
    from_str(alloc, query.as_str())
}
