#![tactic(auto, unfolding(crate::specs::Turn::turn_of, crate::specs::Turn::turn_under))]

ghost use Rattle.std.specs.Prelude.{◌≡◌, ℕ, ◌<◌, ◌≤◌, List, length, vec_capacity, None, IfOk, IfErr};
ghost use Rattle.std.specs.Option.{option_map_or};
ghost use Rattle.policy_expr.specs.declared.hop.WalkHop.{WalkHop};
ghost use Rattle.scion_topology.specs.Topology.{far_end_in};
ghost use Rattle.forwarding.specs.declared.location.RouterStop.{RouterStop};
ghost use Rattle.forwarding.specs.declared.location.PacketLocation.TheVariants.{AtRouter};
ghost use Rattle.forwarding.specs.Turn.{Packet, packet_with, with_passed_hop, with_hop_of_turn, altered_packet, hop_by, lost_packet, put_at, over_link, after_outcome, turn_under, turn_of};

use crate::location::{PacketLocation, RouterStop};
use crate::reply::TurnReply;
use isd_as::{IfId, IsdAs};
use path_header::MAX_HOPS;
use policy_expr::WalkHop;
use router_step::{Arrival, Outcome, Refusal, step};
use scion_topology::{RouterView, Topology};
use std::alloc::{AllocError, Global};
use std::marker::Model;

/// A packet in a network: its bytes, its place, and the hops that it has passed, at most 64. The
/// room for them is taken when the packet is made, so that no turn calls the allocator.
#[derive(Debug, Drop)]
pub struct PacketInFlight {
    bytes: Vec<u8>,
    place: PacketLocation,
    passed: Vec<WalkHop>,
}

impl Model for PacketInFlight {
    ghost use Rattle.std.specs.Prelude.{◌≡◌, ◌≤◌, length, vec_capacity};
    ghost use Rattle.forwarding.specs.declared.location.RouterStop.{RouterStop};
    ghost use Rattle.forwarding.specs.declared.location.PacketLocation.TheVariants.{AtRouter};
    ghost use Rattle.forwarding.specs.Turn.{Packet};

    ghost Value = { Packet };

    ghost view = { λ t. record {
      bytes = t.bytes.items;
      place = t.place;
      passed = t.passed.items;
    } };

    ghost invariant = { λ t. (length t.passed.items ≤ 64)
        × ((stop : RouterStop) → t.place ≡ AtRouter stop → 64 ≤ vec_capacity t.passed) };
}

impl PacketInFlight {
    /// A packet of these bytes that a host sends, at this router of the host's AS, unless memory
    /// runs out for the hops that it will pass. It allocates once.
    pub fn at_router(
        alloc: Global,
        bytes: Vec<u8>,
        ia: IsdAs,
        router: u8,
    ) -> Result<PacketInFlight, AllocError>
        ensures { IfOk result (λ packet. packet ≡ put_at bytes.items ia router) }
    {
        let passed = Vec::with_capacity(alloc, MAX_HOPS)?;
        Ok(PacketInFlight {
            bytes,
            place: PacketLocation::AtRouter(RouterStop::of_host(ia, router)),
            passed,
        })
    }

    /// Its bytes.
    pub fn bytes(&self) -> &[u8]
        ensures { result.now ≡ self.now.bytes }
    {
        &self.bytes
    }

    /// Where it is.
    pub fn place(&self) -> PacketLocation
        ensures { result ≡ self.now.place }
    {
        self.place
    }

    /// The hops that it has passed, in order; only the first 64 are kept.
    pub fn passed(&self) -> &[WalkHop]
        ensures value { result.now ≡ self.now.passed }
        ensures few { length result.now ≤ 64 }
    {
        &self.passed
    }

    /// One turn at the second `now`: the router that has the packet makes its step on the packet's
    /// own bytes. After it the packet is at the router to which that led, or delivered, or refused.
    /// The hop is added to the passed hops when the packet leaves an AS. A packet that is at no
    /// router of the network stays as it is.
    ///
    /// It takes no memory, and costs the router's step and three lookups.
    pub fn turn(&mut self, topology: &Topology, now: u32) -> TurnReply
        ensures reply { result ≡ (turn_of topology.now now self.old).0 }
        ensures packet { self.new ≡ (turn_of topology.now now self.old).1 }
    {
        match self.place {
            PacketLocation::AtRouter(stop) => match topology.view(stop.ia, stop.router) {
                Ok(view) => self.turn_under(topology, &view, now),
                Err(_) => TurnReply::Still,
            },
            _ => TurnReply::Still,
        }
    }

    /// A turn with a router's view that the caller already has. With the view of the router that
    /// has the packet, this is [`PacketInFlight::turn`].
    pub fn turn_under(&mut self, topology: &Topology, view: &RouterView<'_>, now: u32) -> TurnReply
        ensures reply { result ≡ (turn_under topology.now view.now now self.old).0 }
        ensures packet { self.new ≡ (turn_under topology.now view.now now self.old).1 }
    {
        let PacketInFlight {
            bytes,
            place,
            passed,
        } = self;
        match place {
            PacketLocation::AtRouter(_) => {
                let (reply, hop) = turn_in_place(topology, view, now, bytes, place);
                add_hop(passed, hop);
                reply
            }
            _ => TurnReply::Still,
        }
    }

    /// Loses the packet: from now on it has no turns.
    pub fn lose(&mut self)
        ensures { self.new ≡ lost_packet self.old }
    {
        self.place = PacketLocation::Lost;
    }

    /// Gives back the room for hops that are not passed any more, if the packet is at no router. It
    /// calls the allocator; if that fails, the packet keeps its room.
    pub fn shrink_to_fit(&mut self)
        ensures { self.new ≡ self.old }
    {
        match self.place {
            PacketLocation::AtRouter(_) => {}
            _ => self.passed.shrink_to_fit(),
        }
    }

    /// Changes the byte at this place by exclusive or.
    pub fn alter(&mut self, at: usize, change: u8)
        requires { at < length self.old.bytes }
        ensures { self.new ≡ altered_packet self.old at change }
    {
        self.bytes[at] ^= change;
    }
}

/// Adds the hop that a packet passed in a turn, if there is one, to those that it has passed, if
/// they are fewer than 64. There must be room for it then, so that no memory is taken.
pub fn add_hop(passed: &mut Vec<WalkHop>, hop: Option<WalkHop>)
    requires { length passed.old.items < 64 → length passed.old.items < vec_capacity passed.old }
    ensures hops { passed.new.items ≡ with_hop_of_turn passed.old.items hop }
    ensures room { vec_capacity passed.new ≡ vec_capacity passed.old }
{
    match hop {
        Some(hop) if passed.len() < MAX_HOPS => passed.push_reserved(hop),
        _ => {}
    }
}

/// A turn, as [`PacketInFlight::turn_under`] makes it, of a packet of these bytes that is there.
/// Returns its reply, and the hop that the packet passed in it, for whoever keeps the passed hops.
pub fn turn_in_place(
    topology: &Topology,
    view: &RouterView<'_>,
    now: u32,
    bytes: &mut [u8],
    place: &mut PacketLocation,
) -> (TurnReply, Option<WalkHop>)
    ensures reply { (passed : List WalkHop) → result.0 ≡ (turn_under topology.now view.now now
        (packet_with bytes.old place.old passed)).0 }
    ensures packet { (passed : List WalkHop)
        → packet_with bytes.new place.new (with_hop_of_turn passed result.1)
        ≡ (turn_under topology.now view.now now (packet_with bytes.old place.old passed)).1 }
    ensures len { length bytes.new ≡ length bytes.old }
{
    match *place {
        PacketLocation::AtRouter(stop) => {
            let stepped = step(view, now, stop.arrival, bytes);
            answer(topology, stop, stepped, place)
        }
        _ => (TurnReply::Still, None),
    }
}

/// Puts a packet where the result of a router's step says. Returns the reply of the turn, and the
/// hop that the packet passed.
fn answer(
    topology: &Topology,
    stop: RouterStop,
    stepped: Result<Outcome, Refusal>,
    place: &mut PacketLocation,
) -> (TurnReply, Option<WalkHop>)
    ensures went { IfOk stepped (λ outcome. (result.0 ≡ TurnReply.Went outcome)
        × ((bytes : List ℕ) (passed : List WalkHop)
        → packet_with bytes place.new (with_hop_of_turn passed result.1)
        ≡ after_outcome topology.now (packet_with bytes place.old passed) stop outcome)) }
    ensures refused { IfErr stepped (λ refusal. (result.0 ≡ TurnReply.Refused refusal)
        × (place.new ≡ PacketLocation.Refused stop.ia stop.router refusal)
        × (result.1 ≡ None)) }
{
    match &stepped {
        Ok(outcome) => {
            let hop = put(topology, stop, *outcome, place);
            (TurnReply::Went(*outcome), hop)
        }
        Err(refusal) => {
            *place = PacketLocation::Refused(stop.ia, stop.router, *refusal);
            (TurnReply::Refused(*refusal), None)
        }
    }
}

/// Puts a packet where the outcome of a router's step leads. Returns the hop that it passed.
fn put(
    topology: &Topology,
    stop: RouterStop,
    outcome: Outcome,
    place: &mut PacketLocation,
) -> Option<WalkHop>
    ensures { (bytes : List ℕ) (passed : List WalkHop)
        → packet_with bytes place.new (with_hop_of_turn passed result)
        ≡ after_outcome topology.now (packet_with bytes place.old passed) stop outcome }
{
    match outcome {
        Outcome::ToLink(out) => {
            let next = stop_behind(topology, stop.ia, out)?;
            *place = PacketLocation::AtRouter(next);
            Some(hop_by(stop, out))
        }
        Outcome::ToRouter(router) => {
            *place = PacketLocation::AtRouter(RouterStop {
                router,
                arrival: Arrival::Inside,
                ..stop
            });
            None
        }
        Outcome::Deliver => {
            *place = PacketLocation::Delivered;
            Some(hop_by(stop, IfId::NONE))
        }
    }
}

/// The stop at the router that owns the far end of a link, if there is one.
fn stop_behind(topology: &Topology, ia: IsdAs, out: IfId) -> Option<RouterStop>
    ensures { (packet : Packet) (stop : RouterStop)
        → over_link topology.now packet stop out (far_end_in topology.now ia out)
        ≡ option_map_or (λ next. record packet {
          place = AtRouter next;
          passed = with_passed_hop packet.passed (hop_by stop out);
        }) result packet }
{
    let Ok((far, number)) = topology.far_end(ia, out) else {
        return None;
    };
    let Ok(router) = topology.owner(far, number) else {
        return None;
    };
    Some(RouterStop {
        ia: far,
        router,
        arrival: Arrival::Link(number),
        came_in_by: number,
    })
}

/// The hop of the AS in which the packet is, left by this interface.
fn hop_by(stop: RouterStop, out: IfId) -> WalkHop
    ensures { result ≡ hop_by stop out }
{
    WalkHop {
        ia: stop.ia,
        ingress: stop.came_in_by,
        egress: out,
    }
}
