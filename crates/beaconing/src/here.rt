//! The parts of a call: the entry that an AS makes, and the beacon's way in and way out.
#![tactic(auto, unfolding(crate::specs::Calls::come_to, crate::specs::Calls::is_new))]

ghost use Rattle.std.specs.Prelude.{◌≡◌, ◌≢◌, ◌==◌, false, IfOk, IsTrue};
ghost use Rattle.std.specs.List.{list_any};
ghost use Rattle.scion_topology.specs.Topology.{interface_at};
ghost use Rattle.beaconing.specs.Entry.{entry_by, added_by, kind_over, goes_on};
ghost use Rattle.beaconing.specs.Calls.{come_to, is_new};
ghost use Rattle.refusal.specs.Refusal.{Gives, or_else};

use crate::fault::BeaconFault;
use hop_mac::HopInput;
use isd_as::{IfId, IsdAs};
use path_segment::{Beacon, Entry, SegKind};
use scion_topology::{AsEntry, IfEntry, LinkKind, Topology};

/// The entry of an AS between two of its interfaces.
pub(crate) fn entry_by(
    one: &AsEntry,
    timestamp: u32,
    beta: u16,
    cons_ingress: IfId,
    cons_egress: IfId,
) -> Entry
    ensures { result ≡ entry_by one.now timestamp beta cons_ingress cons_egress }
{
    let input = HopInput {
        beta,
        timestamp,
        exp_time: one.exp_time,
        cons_ingress: cons_ingress.number(),
        cons_egress: cons_egress.number(),
    };
    Entry {
        ia: one.ia,
        cons_ingress,
        cons_egress,
        exp_time: one.exp_time,
        mac: one.keys.in_use().hop_mac(&input),
    }
}

/// The entry that an AS adds to a beacon.
pub(crate) fn added_by(
    one: &AsEntry,
    beacon: &Beacon,
    cons_ingress: IfId,
    cons_egress: IfId,
) -> Entry
    ensures { result ≡ added_by one.now beacon.now cons_ingress cons_egress }
{
    let beta = beacon.beta_at(beacon.entries().len());
    entry_by(one, beacon.timestamp(), beta, cons_ingress, cons_egress)
}

/// The kind of a beacon that begins over a link of this kind.
pub(crate) fn kind_over(kind: LinkKind) -> SegKind
    ensures { result ≡ kind_over kind }
{
    match kind {
        LinkKind::Core => SegKind::Core,
        LinkKind::Parent | LinkKind::Child => SegKind::Intra,
    }
}

/// Whether a beacon of this kind may be sent on over a link of this kind.
pub(crate) fn goes_on(kind: SegKind, link: LinkKind) -> bool
    ensures { result ≡ goes_on kind link }
{
    match kind {
        SegKind::Core => link == LinkKind::Core,
        SegKind::Intra => link == LinkKind::Child,
    }
}

/// The interface by which a beacon is to go out.
pub(crate) fn way_out(topology: &Topology, ia: IsdAs, number: IfId) -> Result<&IfEntry, BeaconFault>
    ensures value { Gives (λ out. out.now) result
        (or_else BeaconFault.NoInterface (interface_at topology.now ia number)) }
    ensures above { IfOk result (λ _. number ≢ 0) }
{
    topology.known();
    scion_topology::laws::no_interface_is_zero();
    topology
        .interface(ia, number)
        .map_err(|_| BeaconFault::NoInterface)
}

/// The interface by which a beacon arrives in an AS.
pub(crate) fn come_to(topology: &Topology, beacon: &Beacon, ia: IsdAs) -> Result<IfId, BeaconFault>
    ensures value { result ≡ come_to topology.now beacon.now ia }
    ensures above { IfOk result (λ ingress. ingress ≢ 0) }
{
    topology.known();
    scion_topology::laws::no_interface_is_zero();
    let last = beacon.entries().last().ok_or(BeaconFault::NotHere)?;
    let Ok((far, ingress)) = topology.far_end(last.ia, last.cons_egress) else {
        return Err(BeaconFault::NotHere);
    };
    if far != ia {
        return Err(BeaconFault::NotHere);
    }
    let Ok(into) = topology.interface(ia, ingress) else {
        return Err(BeaconFault::NotHere);
    };
    if !into.up {
        return Err(BeaconFault::LinkDown);
    }
    Ok(ingress)
}

/// Whether a beacon has no entry of this AS.
pub(crate) fn is_new(beacon: &Beacon, ia: IsdAs) -> bool
    ensures value { result ≡ is_new beacon.now ia }
    ensures clear { IsTrue result → list_any (λ entry. entry.ia == ia) beacon.now.entries ≡ false }
{
    !stands_in(beacon.entries(), ia)
}

/// Whether one of these entries is of this AS.
fn stands_in(entries: &[Entry], ia: IsdAs) -> bool
    ensures { result ≡ list_any (λ entry. entry.ia == ia) entries.now }
{
    entries.iter().any(|entry| entry.ia == ia)
}
