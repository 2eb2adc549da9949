//! An order, as a form posts it.

ghost use Rattle.qs_callers.specs.declared.order.TheConstants.{NAMES};
ghost use Rattle.std.specs.Prelude.{true};
ghost use Rattle.qs_spec.specs.Config.{default};
ghost use Rattle.serde_qs.specs.PartTables.{made_of};
ghost use Rattle.serde_qs.specs.Typed.{ReturnsValue};

use crate::address::Address;
use serde_qs::web::QsForm;
use serde_qs::{
    Compound, Config, ConfigExt, Deserialize, Out, Parts, Result, Shape, Source, Struct,
    WriteResult,
};
use std::alloc::Global;

/// An order, with the address that it goes to.
#[derive(Debug, PartialEq, Drop)]
pub struct Order {
    pub name: String,
    pub address: Address,
    pub items: Vec<u32>,
}

type OrderParts = Struct<(String, (Address, (Vec<u32>, ())))>;

const NAMES: &[&str] = &["name", "address", "items"];

impl Compound for Order {
    ghost table = { made_of ⟦<OrderParts as Parts>⟧.table NAMES.now (λ order. record { 0 = (order.name, (order.address, (order.items, tt))) }) _ };

    fn parts_shape(alloc: Global) -> Result<Shape> {
        OrderParts::shape(alloc, NAMES)
    }

    fn read(source: Source) -> Result<Order> {
        let Struct((name, (address, (items, ())))) = OrderParts::read(source, NAMES)?;
        Ok(Order {
            name,
            address,
            items,
        })
    }

    fn write_parts(&self, out: Out) -> WriteResult {
        out.fields(NAMES, (&self.name, (&self.address, (&self.items, ()))))
    }
}

/// Returns the order in a body of the type `application/x-www-form-urlencoded`.
pub fn ordered(alloc: Global, body: &[u8]) -> Result<QsForm<Order>>
    ensures { ReturnsValue (λ form. ⟦<Order as Deserialize>⟧.table.value form.0) (record default { is_form = true }) ⟦<Order as Deserialize>⟧.table.shape ⟦<Order as Deserialize>⟧.table.meaning body.now result }
{
    let config = Config::new().use_form_encoding(true);
    Ok(QsForm(config.deserialize_bytes(alloc, body)?))
}
