//! How many results are on a page: a type that allows the numbers of a range.

ghost use Rattle.std.specs.Prelude.{◌≡◌, refl, true};
ghost use Rattle.qs_spec.specs.Data as d;
ghost use Rattle.qs_spec.specs.Shape as s;
ghost use Rattle.qs_data.specs.read.Errors.{IsCustomOrOutOfMemory};
ghost use Rattle.serde_qs.specs.Tables.{table_of};
ghost use Rattle.qs_callers.specs.PerPage.{is_allowed_count, per_page_back, per_page_in};

use serde_qs::{Compound, Deserialize, Error, Out, Result, Shape, Source, WriteResult, unexpected};
use std::alloc::Global;

/// How many results are on a page, from 1 to 100.
#[derive(Debug, PartialEq, Drop)]
pub struct PerPage {
    count: u8,
    ghost is_allowed: { is_allowed_count count ≡ true },
}

impl PerPage {
    /// Returns the number.
    pub fn count(&self) -> u8
        ensures { result ≡ self.now.count }
    {
        self.count
    }
}

impl Compound for PerPage {
    ghost table = { table_of (λ page. page.count) (λ page. d.unsigned page.count) (s.Shape.unsigned 8) per_page_in refl (λ page e _ p. per_page_back page.count e page.is_allowed p) };

    fn parts_shape(alloc: Global) -> Result<Shape> {
        u8::shape(alloc)
    }

    fn read(source: Source) -> Result<PerPage> {
        let alloc = source.alloc();
        let count: u8 = source.value()?;
        if 1 <= count && count <= 100 {
            Ok(PerPage { count })
        } else {
            Err(out_of_range(alloc))
        }
    }

    fn write_parts(&self, out: Out) -> WriteResult {
        out.value(&self.count)
    }
}

// Returns the error of another number. In a function of its own the message may be long: in `read` the prover gives up at 20 characters.
fn out_of_range(alloc: Global) -> Error
    ensures { IsCustomOrOutOfMemory result }
{
    unexpected(
        alloc,
        "how many results are on a page, which is a number from 1 to 100",
    )
}
