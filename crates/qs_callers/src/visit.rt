//! A visit, which is only read: a struct without writing and without a round trip.

ghost use Rattle.qs_callers.specs.declared.visit.TheConstants.{NAMES};
ghost use Rattle.serde_qs.specs.PartTables.{made_of};

use serde_qs::{Data, Deserialize, Parts, Result, Shape, Struct};
use std::alloc::Global;
use std::collections::BTreeMap;

/// Which page was visited, how often, and with which labels.
#[derive(Debug, PartialEq, Drop)]
pub struct Visit {
    pub path: String,
    pub times: u32,
    pub labels: BTreeMap<String, String>,
}

type VisitParts = Struct<(String, (u32, (BTreeMap<String, String>, ())))>;

const NAMES: &[&str] = &["path", "times", "labels"];

impl Deserialize for Visit {
    ghost table = { made_of ⟦<VisitParts as Parts>⟧.table NAMES.now (λ visit. record { 0 = (visit.path, (visit.times, (visit.labels, tt))) }) _ };

    fn shape(alloc: Global) -> Result<Shape> {
        VisitParts::shape(alloc, NAMES)
    }

    fn from_data(alloc: Global, datum: Data) -> Result<Visit> {
        let Struct((path, (times, (labels, ())))) = VisitParts::from_data(alloc, NAMES, datum)?;
        Ok(Visit {
            path,
            times,
            labels,
        })
    }
}
