//! Beacons from one origin, each passed on by the first ASes that it reaches.

ghost use Rattle.std.specs.Prelude.{◌≡◌, ◌+◌, ◌^◌, ◌<◌, ◌&&◌, not, ℕ, IfOk, IsTrue, OnOk};
ghost use Rattle.beacon_lines.specs.declared.event.BeaconEvent.TheVariants as events;
ghost use Rattle.beacon_lines.specs.inner.Events.{has_passed};
ghost use Rattle.beacon_lines.specs.inner.Spreading.{Sends, SendsIf, wants};
ghost use Rattle.beacon_lines.specs.inner.Search.{core_at, IsGraphOf, Serves, ServesAll, ServesBoth, ways_for};

use crate::arrivals::{Arrival, Arrivals};
use crate::event::{BeaconEvent, Effect};
use crate::options::{BeaconingOptions, MAX_PER_PAIR};
use crate::run::BeaconRun;
use crate::ways::{WayOut, WaysOut};
use isd_as::IsdAs;
use path_segment::{MAX_SEGMENT_LEN, SegKind};
use scion_topology::{LinkClass, Topology};
use std::alloc::{AllocError, Global};

/// Which segments an origin is to have: of which kind, how many to each AS, and of how many entries
/// at most.
#[derive(Clone, Copy)]
struct Wanted {
    kind: SegKind,
    per_pair: usize,
    entries: usize,
}

/// The beacons of one origin.
#[derive(Drop)]
struct Spread {
    wanted: Wanted,
    arrivals: Arrivals,
}

impl Spread {
    /// Whether one more beacon is to go by this way, after this number of entries.
    fn wants(&self, way: &WayOut, entries: usize) -> bool
        ensures value { result ≡ wants self.now.wanted way.now entries self.now.arrivals }
        ensures bound { IsTrue result → entries + 1 < 2 ^ 64 }
    {
        entries < self.wanted.entries && self.arrivals.count(way.far) < self.wanted.per_pair
    }

    /// Does an event that sends a beacon by this way, and ends the beacon at the far end, where it
    /// may be passed on later. Its segment has this number of entries.
    fn send(
        &mut self,
        alloc: Global,
        run: &mut BeaconRun,
        event: &BeaconEvent,
        way: &WayOut,
        entries: usize,
    ) -> Result<(), AllocError>
        ensures second { run.new.second ≡ run.old.second }
        ensures wanted { self.new.wanted ≡ self.old.wanted }
        ensures sends { OnOk result (Sends event.now way.now entries run.old.net self.old.arrivals
            run.new.net self.new.arrivals) }
    {
        let Effect::Begun(beacon) = run.attempt(alloc, event)? else {
            return Ok(());
        };
        let ia = way.far;
        let effect = run.attempt(alloc, &BeaconEvent::Terminate { beacon, ia })?;
        if effect.is_stored() {
            self.arrivals.add(Arrival {
                ia,
                beacon,
                entries,
            })?;
        }
        Ok(())
    }

    /// Begins a beacon by this way out of the origin.
    fn begin(&mut self, alloc: Global, run: &mut BeaconRun, way: &WayOut) -> Result<(), AllocError>
        ensures second { run.new.second ≡ run.old.second }
        ensures wanted { self.new.wanted ≡ self.old.wanted }
        ensures sends { OnOk result ((beta0 : ℕ)
            × SendsIf (wants self.old.wanted way.now 1 self.old.arrivals)
            (events.Originate way.now.near way.now.egress beta0) way.now 2
            run.old.net self.old.arrivals run.new.net self.new.arrivals) }
    {
        if !self.wants(way, 1) {
            return Ok(());
        }
        let beta0 = (run.events().len() % 65_536) as u16;
        let (ia, egress) = (way.near, way.egress);
        let event = BeaconEvent::Originate { ia, egress, beta0 };
        self.send(alloc, run, &event, way, 2)
    }

    /// Passes on the beacon of this arrival by this way.
    fn pass_on(
        &mut self,
        alloc: Global,
        run: &mut BeaconRun,
        from: &Arrival,
        way: &WayOut,
    ) -> Result<(), AllocError>
        ensures second { run.new.second ≡ run.old.second }
        ensures wanted { self.new.wanted ≡ self.old.wanted }
        ensures sends { OnOk result
            (SendsIf (wants self.old.wanted way.now from.now.entries self.old.arrivals
            && not (has_passed run.old.net from.now.beacon way.now.far))
            (events.Extend from.now.beacon way.now.near way.now.egress) way.now
            (from.now.entries + 1) run.old.net self.old.arrivals run.new.net self.new.arrivals) }
    {
        if !self.wants(way, from.entries) || run.has_passed(from.beacon, way.far) {
            return Ok(());
        }
        let (beacon, ia, egress) = (from.beacon, way.near, way.egress);
        let event = BeaconEvent::Extend { beacon, ia, egress };
        self.send(alloc, run, &event, way, from.entries + 1)
    }
}

/// The ways out of the ASes of a topology.
#[derive(Drop)]
pub(crate) struct SearchGraph {
    /// The ways by child links.
    down: WaysOut,
    /// The ways by core links.
    core: WaysOut,
}

/// The address of the AS at this place, if it is a core AS.
fn core_at(topology: &Topology, place: usize) -> Option<IsdAs>
    ensures { result ≡ core_at topology.now.ases place }
{
    match topology.ases().get(place) {
        Some(one) if one.core => Some(one.ia),
        _ => None,
    }
}

impl SearchGraph {
    /// The graph of a topology.
    pub(crate) fn of(alloc: Global, topology: &Topology) -> Result<SearchGraph, AllocError>
        ensures { IfOk result (λ graph. IsGraphOf topology.now graph) }
    {
        Ok(SearchGraph {
            down: WaysOut::of(alloc, topology, LinkClass::Child)?,
            core: WaysOut::of(alloc, topology, LinkClass::Core)?,
        })
    }

    /// The ways of segments of this kind.
    fn ways(&self, kind: SegKind) -> &WaysOut
        ensures { result.now.ways.items ≡ ways_for self.now kind }
    {
        match kind {
            SegKind::Core => &self.core,
            SegKind::Intra => &self.down,
        }
    }

    /// Has an AS begin beacons, and each AS pass on and end the first that reach it.
    ///
    /// A beacon reaches an AS before another if it has fewer entries, or as many and comes first by
    /// its interfaces. No beacon passes an AS twice.
    fn serve(
        &self,
        alloc: Global,
        run: &mut BeaconRun,
        origin: IsdAs,
        wanted: Wanted,
    ) -> Result<(), AllocError>
        ensures second { run.new.second ≡ run.old.second }
        ensures served { OnOk result
            (Serves wanted origin (ways_for self.now wanted.kind) run.old.net run.new.net) }
    {
        let ways = self.ways(wanted.kind);
        let arrivals = Arrivals::new(alloc);
        let mut spread = Spread { wanted, arrivals };
        for way in ways.out_of(origin) {
            spread.begin(alloc, run, way)?;
        }
        let mut number = 0;
        while let Some(from) = spread.arrivals.get(number) {
            for way in ways.out_of(from.ia) {
                spread.pass_on(alloc, run, &from, way)?;
            }
            number += 1;
        }
        Ok(())
    }

    /// Has a core AS begin beacons over its links: down child links, and over core links.
    fn serve_both(
        &self,
        alloc: Global,
        run: &mut BeaconRun,
        origin: IsdAs,
        options: &BeaconingOptions,
    ) -> Result<(), AllocError>
        ensures second { run.new.second ≡ run.old.second }
        ensures served { OnOk result
            (ServesBoth options.entry.now self.now origin run.old.net run.new.net) }
    {
        let per_pair = options.per_pair.min(MAX_PER_PAIR);
        let long = Wanted {
            kind: SegKind::Intra,
            per_pair,
            entries: MAX_SEGMENT_LEN,
        };
        let short = Wanted {
            kind: SegKind::Core,
            per_pair,
            entries: options.core_len.min(MAX_SEGMENT_LEN),
        };
        self.serve(alloc, run, origin, long)?;
        self.serve(alloc, run, origin, short)
    }

    /// Has each core AS begin beacons over its links.
    pub(crate) fn spread(
        &self,
        alloc: Global,
        run: &mut BeaconRun,
        options: &BeaconingOptions,
    ) -> Result<(), AllocError>
        ensures second { run.new.second ≡ run.old.second }
        ensures served { OnOk result
            (ServesAll options.entry.now self.now run.old.net run.new.net) }
    {
        for place in 0..run.topology().ases().len() {
            if let Some(origin) = core_at(run.topology(), place) {
                self.serve_both(alloc, run, origin, options)?;
            }
        }
        Ok(())
    }
}
