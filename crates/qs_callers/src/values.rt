//! Numbers in one text: a field such as `values=1,2,3`.

ghost use Rattle.std.specs.Prelude.{map, decimal, refl};
ghost use Rattle.qs_spec.specs.Data as d;
ghost use Rattle.qs_spec.specs.Scalar.{unsigned_number};
ghost use Rattle.qs_spec.specs.Shape as s;
ghost use Rattle.serde_qs.specs.Items.{joined, list_in};
ghost use Rattle.serde_qs.specs.Tables.{only_read};

use serde_qs::helpers::comma_separated;
use serde_qs::{Data, Deserialize, ParsedValue, Reader, Result, Serialize, Shape};
use std::alloc::Global;

/// Numbers that are read from one text, with commas between them, and written so.
#[derive(Debug, PartialEq, Drop)]
pub struct Values(pub Vec<u32>);

impl Serialize for Values {
    ghost datum = { λ values. d.text (joined 44 (map decimal values.0.items)) };

    fn to_data(&self, alloc: Global) -> Result<Data> {
        comma_separated::serialize(alloc, &self.0)
    }
}

impl Deserialize for Values {
    ghost table = { only_read (λ values. map (λ n. n) values.0.items) s.Shape.text (λ x. list_in (unsigned_number 32) 44 x) refl };

    fn shape(_alloc: Global) -> Result<Shape> {
        Ok(Shape::Text)
    }

    fn from_data(alloc: Global, datum: Data) -> Result<Values> {
        Ok(Values(comma_separated::deserialize(alloc, datum)?))
    }

    #[tactic(auto, unfolding(qs_spec::specs::internal::ReadFunction::reads))]
    fn from_node(reader: Reader, node: &ParsedValue<'_>) -> Result<Values> {
        Values::from_data(reader.alloc, reader.text(node)?)
    }
}
