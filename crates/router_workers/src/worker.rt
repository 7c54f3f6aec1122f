//! A worker: it takes flights from its inbox, makes the turn of each, and passes it on.

ghost use Rattle.std.specs.Prelude.{◌≡◌, ◌↔◌, ◌<◌, ◌≤◌, ◌%◌, ◌+◌, true, length, vec_capacity};
ghost use Rattle.std.specs.Prelude.{slice_get, [], ◌∷◌, ◌++◌};
ghost use Rattle.std.specs.Prelude.{IfOk, IfSome, IsOk, Some, None, MatchResult};
ghost use Rattle.scion_topology.specs.Topology.{info_in};
ghost use Rattle.network_core.specs.Delivery.{IsAtRouter};
ghost use Rattle.router_workers.specs.inner.PassPairs.{AreInboxes, inboxes_of};
ghost use Rattle.router_workers.specs.inner.PassPairs.{IsNext, put_in, IsPutIn, IsPassedTo};

use crate::carried::{CarriedFlight, FlightEnd, RunFacts};
use crate::posted::PostedFlight;
use forwarding::PacketLocation;
use inbox::{Receiver, Sender};
use isd_as::IsdAs;
use scion_topology::Topology;
use std::marker::PhantomData;
use std::sync::Wait;
use std::sync::atomic::{AtomicBool, AtomicUsize, Ordering};
use std::{hint, thread};

/// Called before and after each turn of a run, with the number of the worker, from 0.
pub trait Gate: Sync {
    /// Called right before a turn.
    fn enter(&self, worker: usize);

    /// Called right after a turn.
    fn leave(&self, worker: usize);
}

/// The gate that does nothing.
#[derive(Clone, Copy, Debug)]
pub struct OpenGate;

impl Gate for OpenGate {
    fn enter(&self, _worker: usize) {}

    fn leave(&self, _worker: usize) {}
}

/// How often a worker whose inbox is empty spins for each flight that was in it.
const SPINS_PER_FLIGHT: usize = 8;

/// The largest number of these spins.
const MOST_SPINS: usize = 512;

/// What the workers of a run share.
#[derive(Drop)]
pub(crate) struct RunState<'d, J: RunFacts, G> {
    /// The number of flights that have not ended. No clause depends on it: it ends the workers'
    /// loops.
    pub(crate) left: &'d AtomicUsize,
    /// Whether the workers may begin.
    pub(crate) begun: &'d AtomicBool,
    pub(crate) gate: &'d G,
    pub(crate) topology: &'d Topology,
    pub(crate) now: u32,
    /// Whether more flights were given than an inbox has places, so that an inbox may be full.
    pub(crate) crowded: bool,
    pub(crate) of: PhantomData<J>,
    ghost network: { topology.now ≡ J.network },
    ghost now_is: { now ≡ J.now },
    ghost crowd: { crowded ≡ true ↔ (J.slots < length J.flights) },
}

/// A worker: its number, its inbox, the ways into all inboxes, by the numbers of their workers, and
/// the ends that it has found, with room for those of all flights. There are as many inboxes as the
/// run has workers, with as many places as it was asked for.
#[derive(Drop)]
pub(crate) struct Worker<'a, J: RunFacts> {
    pub(crate) number: usize,
    pub(crate) receiver: Receiver<'a, PostedFlight<J>>,
    pub(crate) senders: Vec<Sender<'a, PostedFlight<J>>>,
    pub(crate) ends: Vec<FlightEnd<J>>,
    ghost inboxes: { AreInboxes J.workers J.slots (inboxes_of senders.items) },
    ghost own: { slice_get (inboxes_of senders.items) number ≡ Some receiver.of },
}

/// The worker for flights at this router: the place of its AS in the topology plus the router's
/// number, modulo the number of workers.
pub fn worker_of(topology: &Topology, ia: IsdAs, router: u8, workers: usize) -> usize
    requires listed { IsOk (info_in topology.now ia) }
    requires some { 0 < workers }
    ensures value { IfOk (info_in topology.now ia) (λ info.
        result ≡ (info.position + router) % workers) }
    ensures within { result < workers }
{
    carrier(topology, ia, router, workers).unwrap()
}

/// As `worker_of`, or nothing if the topology does not list the AS. It looks the AS up once.
fn carrier(topology: &Topology, ia: IsdAs, router: u8, workers: usize) -> Option<usize>
    requires { 0 < workers }
    ensures value { MatchResult (info_in topology.now ia)
        (λ info. result ≡ Some ((info.position + router) % workers)) (λ _. result ≡ None) }
    ensures within { IfSome result (λ worker. worker < workers) }
{
    topology.known();
    match topology.as_info(ia) {
        Ok(info) => Some((info.position + router as usize) % workers),
        Err(_) => None,
    }
}

/// Records the end of a flight, for which there is room in each list of ends.
pub(crate) fn settle<J: RunFacts, G: Gate>(
    state: &RunState<'_, J, G>,
    ends: &mut Vec<FlightEnd<J>>,
    done: FlightEnd<J>,
)
    ensures { length ends.old.items < vec_capacity ends.old
        → ends.new.items ≡ ends.old.items ++ done ∷ [] }
{
    if ends.len() < ends.capacity() {
        ends.push_reserved(done);
    }
    state.left.fetch_sub(1, Ordering::SeqCst);
}

/// Passes a flight on to the inbox of its worker. If more flights were given than an inbox has
/// places, and that inbox is full, the flight is dropped. No other inbox is used.
fn pass_on<J: RunFacts, R: Wait, G: Gate>(
    rt: &R,
    state: &RunState<'_, J, G>,
    senders: &mut [Sender<'_, PostedFlight<J>>],
    ends: &mut Vec<FlightEnd<J>>,
    posted: PostedFlight<J>,
)
    requires { AreInboxes J.workers J.slots (inboxes_of senders.old) }
    ensures passed { IsPassedTo state.entry.now.crowded posted posted.0
        senders.old senders.new }
    ensures inboxes { inboxes_of senders.new ≡ inboxes_of senders.old }
{
    let worker = posted.worker();
    push_or_drop(rt, state, &mut senders[worker], ends, posted);
}

/// Puts a flight into an inbox by this way. If more flights were given than an inbox has places,
/// and the inbox is full, the flight is dropped.
fn push_or_drop<J: RunFacts, R: Wait, G: Gate>(
    rt: &R,
    state: &RunState<'_, J, G>,
    sender: &mut Sender<'_, PostedFlight<J>>,
    ends: &mut Vec<FlightEnd<J>>,
    posted: PostedFlight<J>,
)
    requires { sender.old.of.slots ≡ J.slots }
    ensures { IsPutIn state.entry.now.crowded posted sender.old sender.new }
{
    if !state.crowded {
        push(rt, sender, posted);
    } else if let Err(back) = sender.push(rt, posted) {
        settle(state, ends, back.into_dropped());
    }
}

/// Puts a flight into an inbox that has a place for every flight of the run. While the inbox seems
/// full, another thread is about to take a flight out, so it tries again.
fn push<J: RunFacts, R: Wait>(
    rt: &R,
    sender: &mut Sender<'_, PostedFlight<J>>,
    posted: PostedFlight<J>,
)
    requires { length J.flights ≤ sender.old.of.slots }
    ensures { sender.new ≡ put_in posted sender.old }
{
    let mut posted = posted;
    for _ in rt.forever() {
        match sender.push(rt, posted) {
            Ok(()) => return,
            Err(back) => posted = back,
        }
        thread::yield_now();
    }
}

/// The worker for the router that has a flight.
fn next_worker(topology: &Topology, place: PacketLocation, workers: usize) -> usize
    requires { 0 < workers }
    ensures value { IsNext topology.now workers place result }
    ensures within { result < workers }
{
    match place {
        PacketLocation::AtRouter(stop) => match carrier(topology, stop.ia, stop.router, workers) {
            Some(worker) => worker,
            None => 0,
        },
        _ => 0,
    }
}

/// Records the end of a flight that has ended, and passes any other flight on.
pub(crate) fn send_on<J: RunFacts, R: Wait, G: Gate>(
    rt: &R,
    state: &RunState<'_, J, G>,
    senders: &mut [Sender<'_, PostedFlight<J>>],
    ends: &mut Vec<FlightEnd<J>>,
    carried: CarriedFlight<J>,
)
    requires { AreInboxes J.workers J.slots (inboxes_of senders.old) }
    ensures { inboxes_of senders.new ≡ inboxes_of senders.old }
{
    match carried.into_end() {
        Ok(done) => settle(state, ends, done),
        Err(carried) => {
            let worker = next_worker(state.topology, carried.place(), senders.len());
            pass_on(rt, state, senders, ends, PostedFlight::new(carried, worker));
        }
    }
}

/// Takes flights until all flights have ended, and returns the ends that it has found.
pub(crate) fn work<J: RunFacts, R: Wait, G: Gate>(
    rt: &R,
    state: &RunState<'_, J, G>,
    worker: Worker<'_, J>,
) -> Vec<FlightEnd<J>> {
    let Worker {
        number,
        mut receiver,
        mut senders,
        mut ends,
    } = worker;
    wait_for_beginning(rt, state.begun);
    for _ in rt.forever() {
        if state.left.load(Ordering::SeqCst) == 0 {
            return ends;
        }
        let taken = empty_inbox(rt, state, number, &mut receiver, &mut senders, &mut ends);
        pause(taken);
    }
    // `forever` does not end; but it is an iterator, so its loop has an end for the type.
    unreachable!()
}

/// Takes flights until the inbox is empty, and returns how many it took. It does not read the
/// number of flights left: each end of a flight changes it, and each read would wait for that.
fn empty_inbox<J: RunFacts, R: Wait, G: Gate>(
    rt: &R,
    state: &RunState<'_, J, G>,
    number: usize,
    receiver: &mut Receiver<'_, PostedFlight<J>>,
    senders: &mut [Sender<'_, PostedFlight<J>>],
    ends: &mut Vec<FlightEnd<J>>,
) -> usize
    requires { AreInboxes J.workers J.slots (inboxes_of senders.old) }
    ensures { inboxes_of senders.new ≡ inboxes_of senders.old }
{
    let mut taken = 0usize;
    for _ in rt.forever() {
        match receiver.pop(rt) {
            Some(posted) => carry(rt, state, number, senders, ends, posted),
            None => return taken,
        }
        taken = taken.saturating_add(1);
    }
    // `forever` does not end; but it is an iterator, so its loop has an end for the type.
    unreachable!()
}

/// Waits, the longer the more flights the inbox just had, and lets other threads go on. So several
/// flights are in it when the worker asks again. While it takes these out, others are put into
/// places that it does not touch.
///
/// It yields only once: on a machine with other work, each time may cost a whole slice of that
/// work's time.
fn pause(taken: usize) {
    for _ in 0..taken.saturating_mul(SPINS_PER_FLIGHT).min(MOST_SPINS) {
        hint::spin_loop();
    }
    thread::yield_now();
}

/// Waits until the workers may begin.
fn wait_for_beginning<R: Wait>(rt: &R, begun: &AtomicBool) {
    for _ in rt.forever() {
        if begun.load(Ordering::SeqCst) {
            return;
        }
        thread::yield_now();
    }
}

/// Carries a flight that a worker took from its inbox: it has one turn, and is then recorded or
/// passed on, possibly to this worker's own inbox. A flight of another worker, which no inbox but
/// that worker's is given, is passed on at once.
fn carry<J: RunFacts, R: Wait, G: Gate>(
    rt: &R,
    state: &RunState<'_, J, G>,
    number: usize,
    senders: &mut [Sender<'_, PostedFlight<J>>],
    ends: &mut Vec<FlightEnd<J>>,
    posted: PostedFlight<J>,
)
    requires { AreInboxes J.workers J.slots (inboxes_of senders.old) }
    ensures { inboxes_of senders.new ≡ inboxes_of senders.old }
{
    if posted.worker() != number {
        pass_on(rt, state, senders, ends, posted);
    } else {
        let turned = turn(state, number, posted.into_carried());
        send_on(rt, state, senders, ends, turned);
    }
}

/// One turn of a flight, through the gate, by the worker for the flight's router.
fn turn<J: RunFacts, G: Gate>(
    state: &RunState<'_, J, G>,
    number: usize,
    carried: CarriedFlight<J>,
) -> CarriedFlight<J>
    requires under_way { IsAtRouter carried.place }
    requires own { IsNext J.network J.workers carried.place number }
{
    state.gate.enter(number);
    let turned = carried.advance(state.topology, state.now);
    state.gate.leave(number);
    turned
}
