//! A run of flights on 1 to 8 workers.

ghost use Rattle.std.specs.Prelude.{◌≡◌, ◌↔◌, ◌<◌, ◌≤◌, false, IsTrue, IfOk, IfErr, All, length, map, vec_capacity};
ghost use Rattle.std.specs.List.{range_with_len};
ghost use Rattle.router_workers.specs.Run.{IsReport, is_number_of_workers};
ghost use Rattle.router_workers.specs.inner.PassPairs.{AreInboxes, inboxes_of};
ghost use Rattle.router_workers.specs.inner.Run.{IsEndOfFlight, AreEnds};

use crate::carried::{CarriedFlight, FlightEnd, RunFacts};
use crate::end::End;
use crate::fault::RunFault;
use crate::flight::Flight;
use crate::pass_pairs::{ends_of, inboxes_of, workers_of};
use crate::posted::PostedFlight;
use crate::report::Report;
use crate::worker::{Gate, RunState, Worker, send_on, work};
use inbox::Sender;
use scion_topology::Topology;
use std::alloc::{AllocError, Global};
use std::marker::{Brand, PhantomData};
use std::sync::Wait;
use std::sync::atomic::{AtomicBool, AtomicUsize, Ordering};
use std::thread;
use std::thread::Threads;

/// The largest number of workers of a run.
pub const MAX_WORKERS: usize = 8;

/// Whether a run may have this number of workers: 1 to 8.
pub fn is_number_of_workers(workers: usize) -> bool
    ensures value { result ≡ is_number_of_workers workers }
    ensures some { IsTrue result → 0 < workers }
{
    (1..=MAX_WORKERS).contains(&workers)
}

/// What a run is given beside its flights: the network, the second, the number of workers, and the
/// number of places of each inbox.
#[derive(Clone, Copy)]
struct RunSetup<'t> {
    topology: &'t Topology,
    moment: u32,
    workers: usize,
    slots: usize,
}

/// Carries flights at the second `now` through the network of `topology`, on `workers` workers.
/// Each worker is a thread with an inbox of `slots` places. The report says for each flight, in
/// their order, how it ended. It was delivered, or refused by a router, after exactly the number of
/// turns that the network's routers need at that second. Or it was dropped because its next inbox
/// was full. A flight that has ended before has no turn. The given flights are borrowed, and stay
/// as they are.
///
/// [`RunFault::Workers`] if there are not 1 to 8 workers; [`RunFault::Memory`] if memory runs out
/// or a thread can't be started. No worker has taken a flight then: everything that may fail comes
/// before.
pub fn run_workers<R: Threads + Wait + Sync, G: Gate>(
    rt: &R,
    alloc: Global,
    topology: &Topology,
    now: u32,
    workers: usize,
    slots: usize,
    flights: &[Flight<'_>],
    gate: &G,
) -> Result<Report, RunFault>
    requires fabric { All (λ flight. flight.fabric ≡ topology.now) flights.now }
    requires some { 0 < slots }
    requires few { slots ≤ 4096 }
    ensures report { IfOk result (λ report. IsReport flights.now now slots report) }
    ensures workers { IfOk result (λ _. IsTrue (is_number_of_workers workers)) }
    ensures refused { IfErr result (λ fault.
        (fault ≡ RunFault.Workers) ↔ (is_number_of_workers workers ≡ false)) }
{
    if !is_number_of_workers(workers) {
        return Err(RunFault::Workers);
    }
    let setup = RunSetup {
        topology,
        moment: now,
        workers,
        slots,
    };
    match run_with::<Brand, R, G>(rt, alloc, &setup, flights, gate) {
        Ok(report) => Ok(report),
        Err(AllocError) => Err(RunFault::Memory),
    }
}

/// The run of these facts, or nothing if memory runs out or a thread can't be started.
fn run_with<J: RunFacts + Send + Sync, R: Threads + Wait + Sync, G: Gate>(
    rt: &R,
    alloc: Global,
    setup: &RunSetup<'_>,
    flights: &[Flight<'_>],
    gate: &G,
) -> Result<Report, AllocError>
    requires some_workers { 0 < setup.now.workers }
    requires some { 0 < setup.now.slots }
    requires few { setup.now.slots ≤ 4096 }
    requires flights { flights.now ≡ J.flights }
    requires fabric { All (λ flight. flight.fabric ≡ J.network) flights.now }
    requires network { setup.now.topology.now ≡ J.network }
    requires now { setup.now.moment ≡ J.now }
    requires workers { setup.now.workers ≡ J.workers }
    requires slots { setup.now.slots ≡ J.slots }
    ensures { IfOk result (λ report. IsReport flights.now setup.now.moment setup.now.slots report) }
{
    let left = AtomicUsize::new(flights.len());
    let begun = AtomicBool::new(false);
    let (inboxes, pairs) = inboxes_of::<PostedFlight<J>>(alloc, setup.workers, setup.slots)?;
    let state = RunState {
        left: &left,
        begun: &begun,
        gate,
        topology: setup.topology,
        now: setup.moment,
        crowded: flights.len() > setup.slots,
        of: PhantomData,
    };
    let (mut first_senders, receivers) = ends_of(alloc, &inboxes, pairs)?;
    let mut row = empty_row::<J>(alloc, flights.len())?;
    fill(rt, alloc, &state, &mut first_senders, flights, &mut row)?;
    let worker_list = workers_of(alloc, first_senders, receivers, flights.len())?;
    let ends = Vec::with_capacity(alloc, flights.len())?;
    let row = start(rt, alloc, &state, worker_list, row)?;
    Ok(Report {
        ends: collect(rt, &row, flights.len(), ends),
    })
}

/// An empty place for the end of each flight, unless memory runs out.
fn empty_row<J: RunFacts>(
    alloc: Global,
    count: usize,
) -> Result<Vec<Option<FlightEnd<J>>>, AllocError> {
    let mut row = Vec::with_capacity(alloc, count)?;
    for _ in 0..count {
        row.push(None)?;
    }
    Ok(row)
}

/// Puts each end into the place of its flight, if that is still empty.
fn arrange<J: RunFacts>(row: &mut [Option<FlightEnd<J>>], ends: Vec<FlightEnd<J>>) {
    for end in ends {
        if let Some(place) = row.get_mut(end.number()) {
            if place.is_none() {
                *place = Some(end);
            }
        }
    }
}

/// Records the ends of flights that have ended, and of those for which there is no room, and puts
/// the others into the inboxes of their workers, in their order, unless memory runs out.
fn fill<J: RunFacts, R: Wait, G: Gate>(
    rt: &R,
    alloc: Global,
    state: &RunState<'_, J, G>,
    first_senders: &mut Vec<Sender<'_, PostedFlight<J>>>,
    flights: &[Flight<'_>],
    row: &mut [Option<FlightEnd<J>>],
) -> Result<(), AllocError>
    requires inboxes { AreInboxes J.workers J.slots (inboxes_of first_senders.old.items) }
    requires flights { flights.now ≡ J.flights }
    requires fabric { All (λ flight. flight.fabric ≡ J.network) flights.now }
    ensures { inboxes_of first_senders.new.items ≡ inboxes_of first_senders.old.items }
{
    let mut ends = Vec::with_capacity(alloc, flights.len())?;
    for (number, flight) in flights.iter().enumerate() {
        let carried = CarriedFlight::new(alloc, number, flight)?;
        send_on(rt, state, first_senders, &mut ends, carried);
    }
    arrange(row, ends);
    Ok(())
}

/// Starts a thread for each worker, and waits until all of them have ended. The ends that they
/// return are in the places of their flights then. The workers begin when all threads have started;
/// if one can't be started, none begins.
fn start<J: RunFacts + Send + Sync, R: Threads + Wait + Sync, G: Gate>(
    rt: &R,
    alloc: Global,
    state: &RunState<'_, J, G>,
    worker_list: Vec<Worker<'_, J>>,
    row: Vec<Option<FlightEnd<J>>>,
) -> Result<Vec<Option<FlightEnd<J>>>, AllocError>
    requires { map (λ worker. worker.number) worker_list.items ≡ range_with_len 0 J.workers }
{
    let handles = Vec::with_capacity(alloc, worker_list.len())?;
    thread::scope(
        thread::scope_env(),
        rt,
        move |scope| -> Result<Vec<Option<FlightEnd<J>>>, AllocError> {
            let mut handles = handles;
            for worker in worker_list {
                let started = match scope.spawn(move || work(rt, state, worker)) {
                    Ok(handle) => handles.push(handle).is_ok(),
                    Err(_) => false,
                };
                if !started {
                    state.left.store(0, Ordering::SeqCst);
                    state.begun.store(true, Ordering::SeqCst);
                    return Err(AllocError);
                }
            }
            state.begun.store(true, Ordering::SeqCst);
            let mut row = row;
            for handle in handles {
                arrange(&mut row, handle.join(rt));
            }
            Ok(row)
        },
    )
}

/// The ends of this many flights, in their order. The room for them was taken before, so nothing
/// can fail here.
fn collect<J: RunFacts, R: Wait>(
    rt: &R,
    row: &[Option<FlightEnd<J>>],
    count: usize,
    ends: Vec<End>,
) -> Vec<End>
    requires empty { length ends.items ≡ 0 }
    requires room { count ≤ vec_capacity ends }
    ensures all { length result.items ≡ count }
    ensures each { AreEnds J.flights J.now J.slots result.items }
{
    let mut ends = ends;
    for number in 0..count {
        ends.push_reserved(end_of(rt, row, number));
    }
    ends
}

/// The end of the flight of this number. No clause says that what comes out of an inbox is what
/// went into it: if a flight had no end, the run would wait for ever.
fn end_of<J: RunFacts, R: Wait>(rt: &R, row: &[Option<FlightEnd<J>>], number: usize) -> End
    ensures { IsEndOfFlight J.flights J.now J.slots number result }
{
    if let Some(Some(end)) = row.get(number) {
        if end.number() == number {
            return end.end();
        }
    }
    for _ in rt.forever() {
        thread::yield_now();
    }
    // `forever` does not end; but it is an iterator, so its loop has an end for the type.
    unreachable!()
}
