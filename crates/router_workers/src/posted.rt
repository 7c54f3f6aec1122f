//! Flights in the inboxes of a run.

ghost use Rattle.std.specs.Prelude.{◌≡◌, ◌<◌, length};
ghost use Rattle.router_workers.specs.inner.PassPairs.{IsPosted};

use crate::carried::{CarriedFlight, FlightEnd, Job, RunFacts};
use std::marker::{Model, PhantomData};

/// A carried flight at a router, and the number of the worker for that router, in whose inbox it
/// is. An invariant of the type says this.
#[derive(Drop)]
pub(crate) struct PostedFlight<J: RunFacts> {
    job: Box<Job>,
    of: PhantomData<J>,
}

impl<J: RunFacts> Model for PostedFlight<J> {
    ghost use Rattle.std.specs.Prelude.{ℕ};
    ghost use Rattle.forwarding.specs.Turn.{Packet};
    ghost use Rattle.router_workers.specs.inner.PassPairs.{IsPosted};
    ghost use Rattle.router_workers.specs.inner.Run.{carried_packet, IsCarried};

    ghost Value = { ℕ × Packet };

    ghost view = { λ p. (p.job.value.worker, carried_packet p.job.value) };

    ghost invariant = { λ p. IsPosted J.network J.workers p.job.value.worker
        (carried_packet p.job.value)
        × IsCarried J.flights J.network J.now p.job.value.number p.job.value.turns
        (carried_packet p.job.value) };
}

impl<J: RunFacts> PostedFlight<J> {
    /// A flight for the inbox of this worker.
    pub(crate) fn new(carried: CarriedFlight<J>, worker: usize) -> PostedFlight<J>
        requires { IsPosted J.network J.workers worker carried }
    {
        let CarriedFlight { mut job, of } = carried;
        job.worker = worker;
        PostedFlight { job, of }
    }

    /// The number of its worker.
    pub(crate) fn worker(&self) -> usize
        ensures value { result ≡ self.now.0 }
        ensures within { result < J.workers }
    {
        self.job.worker
    }

    /// The flight.
    pub(crate) fn into_carried(self) -> CarriedFlight<J>
        ensures { IsPosted J.network J.workers self.0 result }
    {
        let PostedFlight { job, of } = self;
        CarriedFlight { job, of }
    }

    /// The end of a flight for which there was no room.
    pub(crate) fn into_dropped(self) -> FlightEnd<J>
        requires { J.slots < length J.flights }
    {
        let carried = self.into_carried();
        carried.into_dropped()
    }
}
