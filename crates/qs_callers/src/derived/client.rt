//! A client, and the server that reads what it wrote.

ghost use Rattle.std.specs.Prelude.{◌≡◌, ℕ, List, IfOk, string_bytes};
ghost use Rattle.qs_spec.specs.Config.{default};
ghost use Rattle.qs_serde.specs.Inputs.{ReturnsFrom};
ghost use Rattle.qs_callers.specs.Client.{query_behind, target_with};

use qs_serde::{Result, from_str, to_string};
use serde::{Deserialize, Serialize};
use std::alloc::Global;

/// Returns the request target for a value, as a client sends it.
pub fn target<T: Serialize>(alloc: Global, path: &str, value: &T) -> Result<String>
    ensures { IfOk result (λ target. (query : List ℕ) × (string_bytes target ≡ target_with path.now query)) }
{
    let query = to_string(alloc, value)?;
    Ok(format!(in alloc; "{path}?{query}")?)
}

/// Returns what a server reads from the query of a request target, or from the empty query if there is none.
pub fn served<'de, T: Deserialize<'de>>(alloc: Global, target: &'de str) -> Result<T>
    ensures { ReturnsFrom default (query_behind target.now) result }
{
    match target.split_once('?') {
        Some((_path, query)) => from_str(alloc, query),
        None => from_str(alloc, ""),
    }
}
