//! The visits of a day: a struct that is only read, as are its fields.

ghost use Rattle.qs_callers.specs.declared.day.TheConstants.{NAMES};
ghost use Rattle.serde_qs.specs.PartTables.{made_of};

use crate::values::Values;
use crate::visit::Visit;
use serde_qs::{Data, Deserialize, Parts, Result, Shape, Struct};
use std::alloc::Global;

/// The visits of a day, and how many there were in each hour.
#[derive(Debug, PartialEq, Drop)]
pub struct Day {
    pub visits: Vec<Visit>,
    pub hours: Values,
}

type DayParts = Struct<(Vec<Visit>, (Values, ()))>;

const NAMES: &[&str] = &["visits", "hours"];

impl Deserialize for Day {
    ghost table = { made_of ⟦<DayParts as Parts>⟧.table NAMES.now (λ day. record { 0 = (day.visits, (day.hours, tt)) }) _ };

    fn shape(alloc: Global) -> Result<Shape> {
        DayParts::shape(alloc, NAMES)
    }

    fn from_data(alloc: Global, datum: Data) -> Result<Day> {
        let Struct((visits, (hours, ()))) = DayParts::from_data(alloc, NAMES, datum)?;
        Ok(Day { visits, hours })
    }
}
