//! Flights that are carried in a run, and their ends.

ghost use Rattle.std.specs.Prelude.{◌≡◌, ◌+◌, ◌<◌, [], Some, IfErr, length, slice_get};
ghost use Rattle.forwarding.specs.Turn.{packet_with, turned_packet};
ghost use Rattle.network_core.specs.Delivery.{IsAtRouter};
ghost use Rattle.router_workers.specs.inner.Run.{without_hops, carried_packet, IsEndOfFlight};

use crate::end::End;
use crate::flight::Flight;
use forwarding::{PacketLocation, turn_in_place};
use scion_topology::Topology;
use std::alloc::{AllocError, Global};
use std::marker::{Brand, Model, PhantomData};

/// The constants of a run: the flights as they were given, the network, the second, the number of
/// workers, and the places of an inbox. No value has this type; it occurs as a parameter of the
/// types of carried flights and of workers.
pub(crate) trait RunFacts {
    ghost use Rattle.std.specs.Prelude.{List, ℕ};
    ghost use Rattle.scion_topology.specs.Network.{Network};
    ghost use Rattle.router_workers.specs.Flight.{FlightValue};

    ghost flights: { List FlightValue };

    ghost network: { Network };

    ghost now: { ℕ };

    ghost workers: { ℕ };

    ghost slots: { ℕ };
}

impl RunFacts for Brand {
    ghost use Rattle.std.specs.Prelude.{[]};

    ghost flights = { [] };

    ghost network = { record { ases = []; links = [] } };

    ghost now = { 0 };

    ghost workers = { 0 };

    ghost slots = { 0 };
}

/// What moves from inbox to inbox: the number of a flight, that of its turns in the run so far,
/// that of the worker in whose inbox it is, if it is in one, and a copy of the bytes of its packet,
/// with the packet's place.
#[derive(Drop)]
pub(crate) struct Job {
    pub(crate) number: usize,
    pub(crate) turns: u32,
    pub(crate) worker: usize,
    pub(crate) bytes: Vec<u8>,
    pub(crate) place: PacketLocation,
}

/// A carried flight: the given flight of its number after its turns in the run so far. Invariants
/// of the type say this of its packet, and that the flight was at a router before each turn. The
/// hops that the packet passes are not kept, since a run tells none; so in contracts it is the
/// packet without them.
///
/// The job stays in its memory, so that only one word moves from inbox to inbox.
#[derive(Drop)]
pub(crate) struct CarriedFlight<J: RunFacts> {
    pub(crate) job: Box<Job>,
    pub(crate) of: PhantomData<J>,
}

impl<J: RunFacts> Model for CarriedFlight<J> {
    ghost use Rattle.forwarding.specs.Turn.{Packet};
    ghost use Rattle.router_workers.specs.inner.Run.{carried_packet, IsCarried};

    ghost Value = { Packet };

    ghost view = { λ c. carried_packet c.job.value };

    ghost invariant = { λ c. IsCarried J.flights J.network J.now c.job.value.number
        c.job.value.turns (carried_packet c.job.value) };
}

/// The end of a flight of a run, with the flight's number. An invariant of the type says that the
/// end is that of this flight.
#[derive(Drop)]
pub(crate) struct FlightEnd<J: RunFacts> {
    number: usize,
    end: End,
    of: PhantomData<J>,
}

impl<J: RunFacts> Model for FlightEnd<J> {
    ghost use Rattle.std.specs.Prelude.{ℕ};
    ghost use Rattle.router_workers.specs.inner.Run.{IsEndOfFlight};
    ghost use Rattle.router_workers.specs.declared.end.End.{End};

    ghost Value = { ℕ × End };

    ghost view = { λ d. (d.number, d.end) };

    ghost invariant = { λ d. IsEndOfFlight J.flights J.now J.slots d.number d.end };
}

impl Job {
    /// One turn of the router that has the packet.
    fn turn(&mut self, topology: &Topology, now: u32)
        requires { self.old.turns < 128 }
        ensures number { self.new.number ≡ self.old.number }
        ensures turns { self.new.turns ≡ self.old.turns + 1 }
        ensures worker { self.new.worker ≡ self.old.worker }
        ensures packet { carried_packet self.new
            ≡ without_hops (turned_packet topology.now now (carried_packet self.old)) }
    {
        turn(topology, now, &mut self.bytes, &mut self.place);
        self.turns += 1;
    }
}

/// One turn of the router that has the packet of these bytes. A packet that is at no router of the
/// network stays as it is. A run tells no hops, so the one that the packet passes is left.
#[tactic(auto, unfolding(forwarding::specs::Turn::turn_of, forwarding::specs::Turn::turn_under))]
fn turn(topology: &Topology, now: u32, bytes: &mut [u8], place: &mut PacketLocation)
    ensures { packet_with bytes.new place.new []
        ≡ without_hops (turned_packet topology.now now (packet_with bytes.old place.old [])) }
{
    if let PacketLocation::AtRouter(stop) = *place {
        if let Ok(view) = topology.view(stop.ia, stop.router) {
            let _ = turn_in_place(topology, &view, now, bytes, place);
        }
    }
}

impl<J: RunFacts> CarriedFlight<J> {
    /// A given flight, without any turn in the run, unless memory runs out for a copy of its
    /// packet's bytes.
    pub(crate) fn new(
        alloc: Global,
        number: usize,
        flight: &Flight<'_>,
    ) -> Result<CarriedFlight<J>, AllocError>
        requires there { slice_get J.flights number ≡ Some flight.now }
        requires network { flight.now.fabric ≡ J.network }
    {
        flight.known();
        let given = flight.bytes();
        let mut bytes = Vec::with_capacity(alloc, given.len())?;
        bytes.extend_from_slice(given)?;
        let job = Job {
            number,
            turns: 0,
            worker: 0,
            bytes,
            place: flight.place(),
        };
        Ok(CarriedFlight {
            job: Box::new(alloc, job)?,
            of: PhantomData,
        })
    }

    /// Its end if the flight is at no router, else the flight itself.
    pub(crate) fn into_end(self) -> Result<FlightEnd<J>, CarriedFlight<J>>
        ensures { IfErr result (λ carried. IsAtRouter carried.place) }
    {
        let job: &Job = &self.job;
        let end = match job.place {
            PacketLocation::AtRouter(_) => return Err(self),
            PacketLocation::Delivered => End::Delivered(job.turns),
            PacketLocation::Refused(_, _, refusal) => End::Refused(refusal, job.turns),
            // Routers lose no packet; but links do, and a packet's place is of one type for both.
            PacketLocation::Lost => unreachable!(),
        };
        Ok(FlightEnd {
            number: job.number,
            end,
            of: PhantomData,
        })
    }

    /// The end of a flight for which there was no room.
    pub(crate) fn into_dropped(self) -> FlightEnd<J>
        requires under_way { IsAtRouter self.place }
        requires crowded { J.slots < length J.flights }
    {
        FlightEnd {
            number: self.job.number,
            end: End::Dropped(self.job.turns),
            of: PhantomData,
        }
    }

    /// One turn of the router that has the flight.
    pub(crate) fn advance(self, topology: &Topology, now: u32) -> CarriedFlight<J>
        requires network { topology.now ≡ J.network }
        requires now { now ≡ J.now }
        requires under_way { IsAtRouter self.place }
    {
        let CarriedFlight { mut job, of } = self;
        job.turn(topology, now);
        CarriedFlight { job, of }
    }

    /// The place of the flight.
    pub(crate) fn place(&self) -> PacketLocation
        ensures { result ≡ self.now.place }
    {
        self.job.place
    }
}

impl<J: RunFacts> FlightEnd<J> {
    /// The number of the flight.
    pub(crate) fn number(&self) -> usize
        ensures { result ≡ self.now.0 }
    {
        self.number
    }

    /// The end of its flight.
    pub(crate) fn end(&self) -> End
        ensures { IsEndOfFlight J.flights J.now J.slots self.now.0 result }
    {
        self.end
    }
}
