//! Events of beaconing: beacons begin, are passed on, and end as registered segments.

ghost use Rattle.std.specs.Prelude.{◌≡◌, IsOk, Result};
ghost use Rattle.refusal.specs.Refusal.{Fails, Gives};
ghost use Rattle.path_segment.specs.Chain.{Chain};
ghost use Rattle.beaconing.specs.declared.fault.BeaconFault.{BeaconFault};
ghost use Rattle.network_core.specs.declared.fault.EventFault.TheVariants as faults;
ghost use Rattle.network_core.specs.inner.Doing.{DoesOrFails, error_as, with_made};
ghost use Rattle.network_core.specs.Step.{beacon_at, new_segment, originates, extends, terminates, with_beacon, with_segment};

use crate::fault::EventFault;
use crate::limits::MAX_OBJECTS;
use crate::net::{EventError, Net};
use crate::reply::Reply;
use beaconing::{BeaconError, extend, originate, terminate};
use isd_as::{IfId, IsdAs};
use path_segment::{Beacon, Segment};
use path_server::StoreError;
use refusal::OrMemory;
use std::alloc::Global;

impl Net {
    /// An AS begins a beacon.
    pub(crate) fn originate(
        &mut self,
        alloc: Global,
        ia: IsdAs,
        egress: IfId,
        beta0: u16,
    ) -> Result<Reply, EventError>
        ensures { DoesOrFails (originates self.old ia egress beta0)
            (IsOk (originates self.old ia egress beta0)) self.old self.new result }
    {
        match originate(alloc, &self.topology, ia, egress, self.moment, beta0) {
            Ok(beacon) => self.keep_beacon(beacon),
            Err(error) => Err(self.beacon_error(error)),
        }
    }

    /// An AS passes a beacon on.
    pub(crate) fn extend(
        &mut self,
        alloc: Global,
        beacon: u32,
        ia: IsdAs,
        egress: IfId,
    ) -> Result<Reply, EventError>
        ensures { DoesOrFails (extends self.old beacon ia egress)
            (IsOk (extends self.old beacon ia egress)) self.old self.new result }
    {
        let old = self.beacon(beacon)?;
        match extend(alloc, &self.topology, old, ia, egress) {
            Ok(passed_on) => self.keep_beacon(passed_on),
            Err(error) => Err(self.beacon_error(error)),
        }
    }

    /// An AS ends a beacon, and the segment is registered.
    pub(crate) fn terminate(
        &mut self,
        alloc: Global,
        beacon: u32,
        ia: IsdAs,
    ) -> Result<Reply, EventError>
        ensures { DoesOrFails (terminates self.old beacon ia)
            (IsOk (new_segment self.old beacon ia)) self.old self.new result }
    {
        let old = self.beacon(beacon)?;
        let segment = terminate(alloc, &self.topology, old, ia);
        self.register(segment.map_err(of_beacon)?)
    }

    /// The beacon of a number.
    fn beacon(&self, beacon: u32) -> Result<&Beacon, EventFault>
        ensures { Gives (λ b. b.now) result (beacon_at self.now beacon) }
    {
        self.beacons
            .get(beacon as usize)
            .ok_or(EventFault::NoBeacon)
    }
}

impl Net {
    /// The error of an event for which beaconing has this error. If memory ran out there and the
    /// network has no room for a beacon, the event is refused as TooMany.
    fn beacon_error(&self, error: BeaconError) -> EventError
        ensures { (made : Result Chain BeaconFault) → Fails error made
            → Fails result (with_made self.now made) }
    {
        if self.beacons.len() < MAX_OBJECTS {
            return of_beacon(error);
        }
        match error {
            OrMemory::Memory => OrMemory::Refused(EventFault::TooMany),
            OrMemory::Refused(fault) => OrMemory::Refused(EventFault::Beacon(fault)),
        }
    }

    /// Adds a beacon to the network. Memory can run out only if there is room.
    fn keep_beacon(&mut self, beacon: Beacon) -> Result<Reply, EventError>
        ensures { DoesOrFails (with_beacon self.old beacon) (IsOk (with_beacon self.old beacon))
            self.old self.new result }
    {
        let number = self.beacons.len();
        if number >= MAX_OBJECTS {
            return Err(OrMemory::Refused(EventFault::TooMany));
        }
        self.beacons.push(beacon)?;
        Ok(Reply::Begun(number))
    }

    /// Registers a segment at the current second.
    fn register(&mut self, segment: Segment) -> Result<Reply, EventError>
        ensures { DoesOrFails (with_segment self.old segment) (Unit {0}) self.old self.new result }
    {
        match self.store.register(segment, self.moment) {
            Ok(is_new) => Ok(Reply::Registered(is_new)),
            Err((_, error)) => Err(of_store(error)),
        }
    }
}

/// The error of beaconing as that of an event.
fn of_beacon(error: BeaconError) -> EventError
    ensures { result ≡ error_as faults.Beacon error }
{
    match error {
        OrMemory::Memory => OrMemory::Memory,
        OrMemory::Refused(fault) => OrMemory::Refused(EventFault::Beacon(fault)),
    }
}

/// The error of the path store as that of an event.
fn of_store(error: StoreError) -> EventError
    ensures { result ≡ error_as faults.Store error }
{
    match error {
        OrMemory::Memory => OrMemory::Memory,
        OrMemory::Refused(fault) => OrMemory::Refused(EventFault::Store(fault)),
    }
}
