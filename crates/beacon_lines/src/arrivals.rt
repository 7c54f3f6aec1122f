//! The beacons of one origin that were ended, and how many of them in each AS.

ghost use Rattle.std.specs.Prelude.{◌≡◌, ◌+◌, ◌^◌, ◌<◌, ◌∷◌, ◌++◌, [], count_by, IsSome, OnOk, slice_get};
ghost use Rattle.beacon_lines.specs.inner.Spreading.{is_at};

use isd_as::IsdAs;
use std::alloc::{AllocError, Global};
use std::collections::BTreeMap;
use std::marker::Model;

/// A beacon that has reached an AS and was ended there.
#[derive(Clone, Copy)]
pub(crate) struct Arrival {
    /// The AS.
    pub(crate) ia: IsdAs,
    /// The number of the beacon.
    pub(crate) beacon: u32,
    /// The number of entries of its segment.
    pub(crate) entries: usize,
}

/// Beacons of one origin that were ended, in the order in which they were. An invariant says that
/// they are counted by their ASes.
#[derive(Drop)]
pub(crate) struct Arrivals {
    list: Vec<Arrival>,
    counts: BTreeMap<IsdAs, usize>,
}

impl Model for Arrivals {
    ghost use Rattle.std.specs.Prelude.{List};
    ghost use Rattle.beacon_lines.specs.declared.arrivals.Arrival.{Arrival};
    ghost use Rattle.beacon_lines.specs.inner.Spreading.{AreCounted};

    ghost Value = { List Arrival };

    ghost view = { λ a. a.list.items };

    ghost invariant = { λ a. AreCounted a.list.items a.counts };
}

impl Arrivals {
    /// No arrival.
    pub(crate) fn new(alloc: Global) -> Arrivals
        ensures { result ≡ [] }
    {
        Arrivals {
            list: Vec::new(alloc),
            counts: BTreeMap::new(alloc),
        }
    }

    /// The arrival of this number.
    pub(crate) fn get(&self, number: usize) -> Option<Arrival>
        ensures value { result ≡ slice_get self.now number }
        ensures bound { IsSome result → number + 1 < 2 ^ 64 }
    {
        self.list.get(number).copied()
    }

    /// How many of them are in this AS.
    pub(crate) fn count(&self, ia: IsdAs) -> usize
        ensures { result ≡ count_by (is_at ia) self.now }
    {
        self.counts.get(&ia).copied().unwrap_or(0)
    }

    /// Adds an arrival.
    pub(crate) fn add(&mut self, arrival: Arrival) -> Result<(), AllocError>
        ensures { OnOk result (self.new ≡ self.old ++ arrival ∷ []) }
    {
        self.list.try_reserve(1)?;
        let count = self.count(arrival.ia);
        self.counts.insert(arrival.ia, count + 1)?;
        let _ = self.list.push(arrival);
        Ok(())
    }
}
