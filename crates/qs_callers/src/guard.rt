//! Limits that are checked before a typed call.

ghost use Rattle.qs_callers.specs.Guard.{Guards};

use crate::query::Query;
use serde_qs::{Error, LimitError, Limits, from_bytes};
use std::alloc::Global;

/// Why a service rejects a query.
#[derive(Debug, Drop)]
pub enum Rejected {
    /// The input is too large, and wasn't parsed.
    TooLarge(LimitError),
    /// The input isn't a query.
    Unread(Error),
}

/// Returns the query that is read from a querystring within the limits.
pub fn guarded(alloc: Global, limits: Limits, input: &[u8]) -> Result<Query, Rejected>
    ensures { Guards limits input.now result }
{
    limits.check(input).map_err(Rejected::TooLarge)?;
    from_bytes(alloc, input).map_err(Rejected::Unread)
}
