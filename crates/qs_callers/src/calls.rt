//! Calls that a program makes.

ghost use Rattle.std.specs.Prelude.{◌≡◌, IfOk, string_bytes};
ghost use Rattle.qs_spec.specs.Config.{default};
ghost use Rattle.qs_callers.specs.declared.query.Query.{Query};
ghost use Rattle.serde_qs.specs.Typed.{IsRead, ReturnsValue};
ghost use Rattle.serde_qs.specs.WrittenText.{text_of};
ghost use Rattle.qs_callers.specs.Query.{query_form, query_in, query_value};

use crate::query::Query;
use crate::sort::Sort;
use serde_qs::{Compound, Result, Serialize, from_str, to_string};
use std::alloc::Global;

/// Returns the query that is read from a querystring.
pub fn asked(alloc: Global, input: &str) -> Result<Query>
    ensures { ReturnsValue query_value default query_form query_in input.now result }
{
    from_str(alloc, input)
}

/// Returns the order that is read from a querystring.
pub fn sorted(alloc: Global, input: &str) -> Result<Sort>
    ensures { ReturnsValue ⟦<Sort as Compound>⟧.table.value default ⟦<Sort as Compound>⟧.table.shape ⟦<Sort as Compound>⟧.table.meaning input.now result }
{
    from_str(alloc, input)
}

/// Returns the querystring of a query, with its fields in their order.
pub fn rewritten(alloc: Global, input: &str) -> Result<String>
    ensures { IfOk result (λ text. (found : Query) × IsRead default query_form query_in input.now (query_value found)
        × (string_bytes text ≡ text_of default (⟦<Query as Serialize>⟧.datum found))) }
{
    let query: Query = from_str(alloc, input)?;
    to_string(alloc, &query)
}
