#![tactic(auto, unfolding(crate::specs::Calls::extended_beacon, crate::specs::Calls::originated_beacon, crate::specs::Calls::terminated_beacon, path_segment::specs::Rules::first_fault, path_segment::specs::Rules::last_fault, path_segment::specs::Rules::next_fault,))]

ghost use Rattle.std.specs.Prelude.{◌≡◌, ◌∷◌, [], None, IfOk};
ghost use Rattle.path_segment.specs.Chain.{Chain, with_last};
ghost use Rattle.path_segment.specs.Rules.{first_fault, next_fault, last_fault};
ghost use Rattle.beaconing.specs.Calls.{originated_beacon, extended_beacon, terminated_beacon};
ghost use Rattle.refusal.specs.Refusal.{Answers, Gives};

use crate::fault::{BeaconError, BeaconFault};
use crate::here::{added_by, come_to, entry_by, goes_on, is_new, kind_over, way_out};
use isd_as::{IfId, IsdAs};
use path_segment::{Beacon, Entry, SegKind, Segment};
use refusal::OrMemory;
use scion_topology::Topology;
use std::alloc::Global;

/// The beacon that a core AS begins over one of its links, whose kind gives the beacon's.
/// `timestamp` is in seconds; `beta0` is the accumulator under which the entry is authenticated.
///
/// The first of these refusals is returned: [`BeaconFault::NotCore`] if the topology has no such
/// core AS, [`BeaconFault::NoInterface`] if the AS has no such interface, [`BeaconFault::LinkDown`]
/// if its link is down. Memory can run out only if none of them is due.
pub fn originate(
    alloc: Global,
    topology: &Topology,
    ia: IsdAs,
    egress: IfId,
    timestamp: u32,
    beta0: u16,
) -> Result<Beacon, BeaconError>
    ensures { Answers (λ made. made) result
        (originated_beacon topology.now ia egress timestamp beta0) }
{
    let (kind, entry) = first_entry(topology, ia, egress, timestamp, beta0).map_err(
        OrMemory::Refused,
    )?;
    // The entry was judged when it was made, so only memory can be missing.
    Beacon::first(alloc, kind, timestamp, beta0, entry).map_err(|_| OrMemory::Memory)
}

/// The beacon after the AS in which it arrived has passed it on over one of its links.
///
/// The first of these refusals is returned: [`BeaconFault::NotHere`] if the last way out does not
/// lead to this AS; [`BeaconFault::LinkDown`] if that link is down; [`BeaconFault::Loop`] if the
/// beacon already has an entry of this AS; [`BeaconFault::TooLong`] if it has 62 entries;
/// [`BeaconFault::NoInterface`] if the AS has no such interface; [`BeaconFault::WrongKind`] if a
/// beacon of this kind does not go over that link; [`BeaconFault::LinkDown`] if that link is down.
/// Memory can run out only if none of them is due.
pub fn extend(
    alloc: Global,
    topology: &Topology,
    beacon: &Beacon,
    ia: IsdAs,
    egress: IfId,
) -> Result<Beacon, BeaconError>
    ensures { Answers (λ made. made) result (extended_beacon topology.now beacon.now ia egress) }
{
    let entry = next_entry(topology, beacon, ia, egress).map_err(OrMemory::Refused)?;
    // As in `originate`, the entry was judged.
    beacon
        .with_entry(alloc, entry)
        .map_err(|_| OrMemory::Memory)
}

/// The segment that a beacon becomes if it ends in the AS in which it arrived.
///
/// The first of these refusals is returned: [`BeaconFault::NotHere`] if the last way out does not
/// lead to this AS, [`BeaconFault::LinkDown`] if that link is down, [`BeaconFault::Loop`] if the
/// beacon already has an entry of this AS. Memory can run out only if none of them is due.
pub fn terminate(
    alloc: Global,
    topology: &Topology,
    beacon: &Beacon,
    ia: IsdAs,
) -> Result<Segment, BeaconError>
    ensures { Answers (λ made. made) result (terminated_beacon topology.now beacon.now ia) }
{
    let entry = last_entry(topology, beacon, ia).map_err(OrMemory::Refused)?;
    // As in `originate`, the entry was judged.
    beacon.finish(alloc, entry).map_err(|_| OrMemory::Memory)
}

/// The kind of a new beacon, and its first entry.
fn first_entry(
    topology: &Topology,
    ia: IsdAs,
    egress: IfId,
    timestamp: u32,
    beta0: u16,
) -> Result<(SegKind, Entry), BeaconFault>
    ensures value { Gives
        (λ x. record {
          kind = x.0;
          timestamp = timestamp;
          beta0 = beta0;
          entries = x.1 ∷ [];
        }) result
        (originated_beacon topology.now ia egress timestamp beta0) }
    ensures fits { IfOk result (λ x. first_fault x.1 ≡ None) }
{
    let Ok(one) = topology.as_entry(ia) else {
        return Err(BeaconFault::NotCore);
    };
    if !one.core {
        return Err(BeaconFault::NotCore);
    }
    let out = way_out(topology, ia, egress)?;
    if !out.up {
        return Err(BeaconFault::LinkDown);
    }
    let entry = entry_by(one, timestamp, beta0, IfId::NONE, egress);
    Ok((kind_over(out.kind), entry))
}

/// The entry by which an AS passes a beacon on.
fn next_entry(
    topology: &Topology,
    beacon: &Beacon,
    ia: IsdAs,
    egress: IfId,
) -> Result<Entry, BeaconFault>
    ensures value { Gives (λ entry. with_last beacon.now entry) result
        (extended_beacon topology.now beacon.now ia egress) }
    ensures fits { IfOk result (λ entry. next_fault beacon.now.entries entry ≡ None) }
{
    let Ok(one) = topology.as_entry(ia) else {
        return Err(BeaconFault::NotHere);
    };
    let ingress = come_to(topology, beacon, ia)?;
    if !is_new(beacon, one.ia) {
        return Err(BeaconFault::Loop);
    }
    if beacon.is_full() {
        return Err(BeaconFault::TooLong);
    }
    let out = way_out(topology, ia, egress)?;
    if !goes_on(beacon.kind(), out.kind) {
        return Err(BeaconFault::WrongKind);
    }
    if !out.up {
        return Err(BeaconFault::LinkDown);
    }
    Ok(added_by(one, beacon, ingress, egress))
}

/// The entry by which an AS ends a beacon.
fn last_entry(topology: &Topology, beacon: &Beacon, ia: IsdAs) -> Result<Entry, BeaconFault>
    ensures value { Gives (λ entry. with_last beacon.now entry) result
        (terminated_beacon topology.now beacon.now ia) }
    ensures fits { IfOk result (λ entry. last_fault beacon.now.entries entry ≡ None) }
{
    let Ok(one) = topology.as_entry(ia) else {
        return Err(BeaconFault::NotHere);
    };
    let ingress = come_to(topology, beacon, ia)?;
    if !is_new(beacon, one.ia) {
        return Err(BeaconFault::Loop);
    }
    Ok(added_by(one, beacon, ingress, IfId::NONE))
}
