//! An order, as a form posts it.

ghost use Rattle.std.specs.Prelude.{true};
ghost use Rattle.qs_spec.specs.Config.{default};
ghost use Rattle.qs_serde.specs.Inputs.{ExplainsFrom};

use qs_serde::{Config, PathError, explain_bytes};
use serde::{Deserialize, Serialize};
use std::alloc::Global;

/// An order, with the address that it goes to.
#[derive(Debug, PartialEq, Drop, Serialize, Deserialize)]
pub struct Order {
    pub name: String,
    pub address: Address,
    pub items: Vec<u32>,
}

/// A postal address.
#[derive(Debug, PartialEq, Drop, Serialize, Deserialize)]
pub struct Address {
    pub street: String,
    pub city: String,
}

/// Returns the order in a body of the type `application/x-www-form-urlencoded`, or an error that names the field.
pub fn ordered(alloc: Global, body: &[u8]) -> Result<Order, PathError>
    ensures { ExplainsFrom (record default { is_form = true }) body.now result }
{
    explain_bytes(alloc, Config::new().use_form_encoding(true), body)
}
