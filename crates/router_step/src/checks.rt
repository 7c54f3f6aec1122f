//! The checks of a router, one function for each.
//!
//! [`step`](crate::step) makes them in their order; a display of a packet calls them one by one.

#![tactic(auto, unfolding(crate::specs::Step::passes))]

ghost use Rattle.std.specs.Prelude.{◌≡◌};
ghost use Rattle.router_step.specs.Place.{is_over_link};
ghost use Rattle.router_step.specs.Checks.{has_no_single, is_start_right, is_owned, way_in_fits, is_hop_live, is_mac_right, source_fits, destination_fits, may_follow, kinds_fit};
ghost use Rattle.router_step.specs.Step.{passes};

use crate::arrival::Arrival;
use crate::fault::Refusal;
use crate::place::way_in;
use hop_mac::{HopInput, hop_is_live};
use isd_as::{IfId, IsdAs};
use path_header::{HopField, InfoField, SegLens};
use scion_topology::{LinkKind, RouterView};

/// Whether no segment has a single hop field.
pub fn has_no_single(lens: SegLens) -> bool
    ensures { result ≡ has_no_single lens }
{
    lens.first != 1 && lens.second != 1 && lens.third != 1
}

/// Whether a packet that came in this way may be at this hop field: from a host, only at the first.
pub fn is_start_right(arrival: &Arrival, hop: usize) -> bool
    ensures { result ≡ is_start_right arrival.now hop }
{
    match *arrival {
        Arrival::FromHost => hop == 0,
        Arrival::Inside | Arrival::Link(_) => true,
    }
}

/// Whether the packet came over a link.
pub fn is_over_link(arrival: &Arrival) -> bool
    ensures { result ≡ is_over_link arrival.now }
{
    match *arrival {
        Arrival::FromHost | Arrival::Inside => false,
        Arrival::Link(_) => true,
    }
}

/// Whether the interface belongs to the view's router.
// Inlined, as all of a step: `step_in_parts` says why.
#[inline(always)]
pub(crate) fn is_owned(view: &RouterView<'_>, interface: IfId) -> bool
    ensures { result ≡ is_owned view.now interface }
{
    match view.entry(interface) {
        Some(entry) => entry.router == view.router(),
        None => false,
    }
}

/// Whether a packet that came over a link came by an interface of this router, the hop's way in.
// Inlined, as `is_owned`.
#[inline(always)]
pub fn way_in_fits(
    view: &RouterView<'_>,
    arrival: &Arrival,
    info: &InfoField,
    hop: &HopField,
) -> bool
    ensures { result ≡ way_in_fits view.now arrival.now info.now hop.now }
{
    match *arrival {
        Arrival::FromHost | Arrival::Inside => true,
        Arrival::Link(interface) => is_owned(view, interface) && interface == way_in(info, hop),
    }
}

/// Whether the hop is live.
pub fn is_hop_live(now: u32, info: &InfoField, hop: &HopField) -> bool
    ensures { result ≡ is_hop_live now info.now hop.now }
{
    hop_is_live(info.timestamp, hop.exp_time, now)
}

/// Whether the hop's authenticator is right under the info field's accumulator and an accepted key.
// Inlined, as all between it and the key: a router's turn then keeps the hop in registers.
#[inline(always)]
pub fn is_mac_right(view: &RouterView<'_>, info: &InfoField, hop: &HopField) -> bool
    ensures { result ≡ is_mac_right view.now info.now hop.now }
{
    let input = HopInput {
        beta: info.seg_id,
        timestamp: info.timestamp,
        exp_time: hop.exp_time,
        cons_ingress: hop.cons_ingress.number(),
        cons_egress: hop.cons_egress.number(),
    };
    view.authenticates(&hop.mac, &input)
}

/// Checks that the hop is live and that its authenticator is right.
// Inlined, as `is_mac_right`.
#[inline(always)]
pub(crate) fn pass(
    view: &RouterView<'_>,
    now: u32,
    info: &InfoField,
    hop: &HopField,
) -> Result<(), Refusal>
    ensures { result ≡ passes view.now now info.now hop.now }
{
    if !is_hop_live(now, info, hop) {
        return Err(Refusal::Expired);
    }
    if !is_mac_right(view, info, hop) {
        return Err(Refusal::BadMac);
    }
    Ok(())
}

/// Whether the packet's source fits how the packet came.
pub fn source_fits(view: &RouterView<'_>, arrival: &Arrival, source: IsdAs) -> bool
    ensures { result ≡ source_fits view.now arrival.now source }
{
    match *arrival {
        Arrival::FromHost => source == view.ia(),
        Arrival::Inside => true,
        Arrival::Link(_) => source != view.ia(),
    }
}

/// Whether the packet is for this AS if and only if its path ends here.
pub fn destination_fits(view: &RouterView<'_>, destination: IsdAs, last: bool) -> bool
    ensures { result ≡ destination_fits view.now destination last }
{
    (destination == view.ia()) == last
}

/// Whether a path may come in by a link of one kind and leave by one of the other, with or without
/// a switch to another segment in between.
pub(crate) fn are_joined(switched: bool, from: LinkKind, to: LinkKind) -> bool
    ensures { result ≡ may_follow switched from to }
{
    match (switched, from, to) {
        (false, LinkKind::Core, LinkKind::Core)
        | (false, LinkKind::Child, LinkKind::Parent)
        | (false, LinkKind::Parent, LinkKind::Child)
        | (true, LinkKind::Child, LinkKind::Core)
        | (true, LinkKind::Core, LinkKind::Child)
        | (true, LinkKind::Child, LinkKind::Child) => true,
        _ => false,
    }
}

/// Whether the links by which the packet comes in and leaves may be joined.
// Inlined, as `is_owned`.
#[inline(always)]
pub fn kinds_fit(view: &RouterView<'_>, arrival: &Arrival, switched: bool, out: LinkKind) -> bool
    ensures { result ≡ kinds_fit view.now arrival.now switched out }
{
    match *arrival {
        Arrival::FromHost | Arrival::Inside => true,
        Arrival::Link(interface) => match view.entry(interface) {
            Some(entry) => are_joined(switched, entry.kind, out),
            None => false,
        },
    }
}
