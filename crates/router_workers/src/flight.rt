ghost use Rattle.std.specs.Prelude.{◌≡◌, ◌≤◌, ◌<◌, None, IfOk, IfSome, length};
ghost use Rattle.refusal.specs.Refusal.{Answers};
ghost use Rattle.forwarding.specs.Turn.{IsAtNoRouter};
ghost use Rattle.router_workers.specs.Flight.{FlightValue, packet_at_source, sent_packet_of, flight_at_start, advanced_flight, IsViewAt, IsFlight};

use forwarding::{PacketLocation, RouterStop, add_hop, frame, turn_in_place};
use network_core::Sent;
use policy_expr::WalkHop;
use refusal::OrMemory;
use scion_topology::{RouterView, Topology, TopologyFault};
use std::alloc::Global;
use std::marker::Model;

/// A packet that is carried through a network, and the number of its turns.
///
/// An invariant of the type: what was sent, put at the start of its walk, becomes this packet, with
/// its place and the hops that it has passed, by one turn at each of some list of seconds. That
/// list is as long as the number of turns, which is at most 128. Another one: at a router it has
/// room for a hop for each hop field of its header, which are all that it may pass.
#[derive(Drop)]
pub struct Flight<'a> {
    fabric: &'a Topology,
    sent: &'a Sent,
    turns: u32,
    bytes: Vec<u8>,
    place: PacketLocation,
    passed: Vec<WalkHop>,
}

impl<'a> Model for Flight<'a> {
    ghost use Rattle.std.specs.Prelude.{◌≤◌, length, vec_capacity};
    ghost use Rattle.forwarding.specs.Turn.{packet_with};
    ghost use Rattle.network_core.specs.Delivery.{IsAtRouter};
    ghost use Rattle.router_workers.specs.Flight.{FlightValue, IsFlight, flight_with, sent_packet_of};

    ghost Value = { FlightValue };

    ghost view = { λ f. flight_with f.fabric.now (sent_packet_of f.sent.now) f.turns
        (packet_with f.bytes.items f.place f.passed.items) };

    ghost invariant = { λ f. IsFlight (flight_with f.fabric.now (sent_packet_of f.sent.now) f.turns
        (packet_with f.bytes.items f.place f.passed.items))
        × (length f.passed.items ≤ 64)
        × (IsAtRouter f.place
        → length f.sent.now.way.header.hops ≤ vec_capacity f.passed) };
}

impl<'a> Flight<'a> {
    /// The flight of what was sent in this network, at the router that owns the first way out of
    /// its walk, without any turns. [`TopologyFault::UnknownAs`] if the network has no such AS, and
    /// [`TopologyFault::NoLink`] if the AS has no such interface. It allocates twice: for the
    /// packet's bytes, and for the hops that it will pass.
    pub fn new(
        alloc: Global,
        fabric: &'a Topology,
        sent: &'a Sent,
    ) -> Result<Flight<'a>, OrMemory<TopologyFault>>
        ensures departs { Answers (λ flight. flight.packet) result
            (packet_at_source fabric.now (sent_packet_of sent.now)) }
        ensures grounded { IfOk result (λ flight.
            flight ≡ flight_at_start fabric.now (sent_packet_of sent.now) flight.packet) }
    {
        fabric.known();
        sent.known();
        sent.header().known();
        let router = fabric.owner(sent.source(), sent.way_out())?;
        let bytes = frame(
            alloc,
            sent.source(),
            sent.destination(),
            sent.header(),
            sent.payload(),
        )?;
        let passed = Vec::with_capacity(alloc, sent.header().hop_count())?;
        Ok(Flight {
            fabric,
            sent,
            turns: 0,
            bytes,
            place: PacketLocation::AtRouter(RouterStop::of_host(sent.source(), router)),
            passed,
        })
    }

    /// One turn at the second `now`, with the view of the router that has the flight: the router
    /// makes its step on the flight's own bytes. After it the flight is at the next router,
    /// delivered, or refused. It takes no memory.
    pub fn advance(self, view: &RouterView<'_>, now: u32) -> Flight<'a>
        requires { IsViewAt self.fabric self.packet.place view.now }
        ensures { result ≡ advanced_flight now self.entry }
    {
        let mut flight = self;
        flight.turn_by(view, now);
        flight
    }

    /// One turn in place, with this view of the router that has the flight.
    fn turn_by(&mut self, view: &RouterView<'_>, now: u32)
        requires { IsViewAt self.old.fabric self.old.packet.place view.now }
        ensures { self.new ≡ advanced_flight now self.old }
    {
        let Flight {
            fabric,
            turns,
            bytes,
            place,
            passed,
            ..
        } = self;
        let (_, hop) = turn_in_place(fabric, view, now, bytes, place);
        add_hop(passed, hop);
        *turns += 1;
    }

    /// The network's view of the router that has the flight; none if it is at no router.
    pub fn view(&self) -> Option<RouterView<'a>>
        ensures at { IfSome result (λ view. IsViewAt self.now.fabric self.now.packet.place view) }
        ensures none { result ≡ None → IsAtNoRouter self.now.packet }
    {
        self.known();
        match self.place() {
            // It is at a router of its network.
            PacketLocation::AtRouter(stop) => {
                Some(self.fabric.view(stop.ia, stop.router).unwrap())
            }
            _ => None,
        }
    }

    /// The network through which it is carried.
    pub fn fabric(&self) -> &'a Topology
        ensures { result.now ≡ self.now.fabric }
    {
        self.fabric
    }

    /// The bytes of its packet.
    pub(crate) fn bytes(&self) -> &[u8]
        ensures { result.now ≡ self.now.packet.bytes }
    {
        &self.bytes
    }

    /// Where it is.
    pub fn place(&self) -> PacketLocation
        ensures { result ≡ self.now.packet.place }
    {
        self.place
    }

    /// The number of its turns, at most 128.
    pub fn turns(&self) -> u32
        ensures value { result ≡ self.now.turns }
        ensures few { result ≤ 128 }
    {
        self.turns
    }

    /// The hops that it has passed, in order; only the first 64 are kept.
    pub fn passed(&self) -> &[WalkHop]
        ensures value { result.now ≡ self.now.packet.passed }
        ensures few { length result.now ≤ 64 }
    {
        &self.passed
    }

    /// Does nothing; its contract tells the caller the rules of every flight.
    pub fn known(&self)
        ensures { IsFlight self.now }
    {
        // Reading a field makes the type's invariants known here.
        let _ = &self.fabric;
    }
}
