//! A report, which is only written: a struct without reading and without a round trip.

ghost use Rattle.std.specs.Prelude.{◌∷◌, [], codes};
ghost use Rattle.qs_spec.specs.Data.{members_of};
ghost use Rattle.qs_spec.specs.Data as d;

use crate::values::Values;
use serde_qs::{Data, Result, Serialize, struct_of};
use std::alloc::Global;
use std::collections::BTreeMap;

/// Numbers with a title, and how often each name occurred.
#[derive(Debug, PartialEq, Drop)]
pub struct Report {
    pub title: String,
    pub values: Values,
    pub counts: BTreeMap<String, u32>,
}

impl Serialize for Report {
    ghost datum = { λ report. d.struct (members_of ((codes "title", ⟦<String as Serialize>⟧.datum report.title) ∷ (codes "values", ⟦<Values as Serialize>⟧.datum report.values) ∷ (codes "counts", ⟦<BTreeMap<String, u32> as Serialize>⟧.datum report.counts) ∷ [])) };

    fn to_data(&self, alloc: Global) -> Result<Data> {
        struct_of(
            alloc,
            &["title", "values", "counts"],
            (&self.title, (&self.values, (&self.counts, ()))),
        )
    }
}
