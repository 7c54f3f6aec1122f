//! The report of a run.

ghost use Rattle.std.specs.Prelude.{◌≡◌};

use crate::end::End;
use std::marker::Model;

/// How the flights of a run ended. In contracts it is the list of their ends, in the order of the
/// flights.
#[derive(Drop)]
pub struct Report {
    pub(crate) ends: Vec<End>,
}

impl Model for Report {
    ghost use Rattle.std.specs.Prelude.{List};
    ghost use Rattle.router_workers.specs.declared.end.End.{End as EndValue};

    ghost Value = { List EndValue };

    ghost view = { λ r. r.ends.items };
}

impl Report {
    /// The end of each flight, in the order of the flights.
    pub fn ends(&self) -> &[End]
        ensures { result.now ≡ self.now }
    {
        &self.ends
    }
}
