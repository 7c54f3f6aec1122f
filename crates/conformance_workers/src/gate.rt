//! Runs whose gate notes the turns of workers, and may hold them: workers that run at the same
//! time, a flight that is dropped while they run, and as many flights as an inbox may have places.

ghost use Rattle.std.specs.Prelude.{◌<◌, ◌≤◌};

use crate::network::{crowded_network, first, last, long_network, middle, network};
use crate::runs::flights_of;
use network_core::Net;
use refusing::Shortage;
use router_workers::{End, Gate, Report, run_workers};
use std::alloc::{AllocError, Global};
use std::process::Abort;
use std::sync::Wait;
use std::sync::atomic::{AtomicUsize, Ordering};
use std::test::Fail;
use std::thread;
use std::thread::Threads;

/// For each of three workers, which others it waits for at its first turn, and how many turns these
/// must have begun.
type Awaited = [&'static [(usize, usize)]; 3];

static NOBODY: Awaited = [&[], &[], &[]];

/// Counts each worker's turns, and what goes wrong: a turn that begins before the worker's last has
/// ended, one that ends and was not begun, any of a worker of another number, and a wait without an
/// end. A worker may be held at its first turn until others have begun theirs.
#[derive(Drop)]
pub(crate) struct Turns {
    begun: [AtomicUsize; 8],
    is_inside: [AtomicUsize; 8],
    wrong: AtomicUsize,
    awaited: &'static Awaited,
}

impl Turns {
    /// Holds no worker.
    pub(crate) fn new() -> Turns {
        Turns::holding(&NOBODY)
    }

    /// Holds each worker until those that it waits for have begun their turns.
    fn holding(awaited: &'static Awaited) -> Turns {
        Turns {
            begun: [0; 8].map(AtomicUsize::new),
            is_inside: [0; 8].map(AtomicUsize::new),
            wrong: AtomicUsize::new(0),
            awaited,
        }
    }

    /// Notes that a worker is inside a turn, or no longer.
    fn note(&self, worker: usize, is_inside: usize) {
        let before = match self.is_inside.get(worker) {
            Some(place) => place.swap(is_inside, Ordering::SeqCst),
            None => is_inside,
        };
        if before == is_inside {
            self.wrong.fetch_add(1, Ordering::SeqCst);
        }
    }

    /// Waits until this worker has begun so many turns, but not without an end.
    fn wait_for(&self, worker: usize, turns: usize) {
        for _ in 0..1_000_000 {
            match self.begun.get(worker) {
                Some(begun) if begun.load(Ordering::SeqCst) < turns => thread::yield_now(),
                _ => return,
            }
        }
        self.wrong.fetch_add(1, Ordering::SeqCst);
    }

    /// The turns that each worker has begun.
    pub(crate) fn of_workers(&self) -> [usize; 8] {
        let mut turns = [0; 8];
        for (count, begun) in turns.iter_mut().zip(&self.begun) {
            *count = begun.load(Ordering::SeqCst);
        }
        turns
    }

    /// Whether all turns have ended, and nothing went wrong.
    fn are_paired(&self) -> bool {
        let mut faults = self.wrong.load(Ordering::SeqCst);
        for place in &self.is_inside {
            faults = faults.saturating_add(place.load(Ordering::SeqCst));
        }
        faults == 0
    }
}

impl Gate for Turns {
    fn enter(&self, worker: usize) {
        self.note(worker, 1);
        let before = match self.begun.get(worker) {
            Some(begun) => begun.fetch_add(1, Ordering::SeqCst),
            None => 1,
        };
        let all = self.awaited;
        let Some(awaited) = all.get(worker) else {
            return;
        };
        if before != 0 {
            return;
        }
        for (other, turns) in *awaited {
            self.wait_for(*other, *turns);
        }
    }

    fn leave(&self, worker: usize) {
        self.note(worker, 0);
    }
}

/// The report of a run over a network's packets, where memory does not run out.
fn report_of<R: Threads + Wait + Sync>(
    rt: &R,
    alloc: Global,
    net: &Net,
    workers: usize,
    slots: usize,
    turns: &Turns,
) -> Result<Report, Fail>
    requires some { 0 < slots }
    requires few { slots ≤ 4096 }
{
    let flights = flights_of(alloc, net, usize::MAX, &Shortage::none()).ok_or(AllocError)?;
    Ok(run_workers(
        rt,
        alloc,
        net.topology(),
        1000,
        workers,
        slots,
        &flights,
        turns,
    )?)
}

/// Asserts that two flights are delivered on this number of workers, of which two wait at their
/// first turn for each other, and which turns each worker has. One flight goes from the row's last
/// AS to its first, the other from the middle AS to the last.
fn expect_meeting<R: Threads + Wait + Sync + Abort>(
    rt: &R,
    alloc: Global,
    workers: usize,
    awaited: &'static Awaited,
    turns_of_workers: [usize; 8],
) -> Result<(), Fail> {
    let ways = [(last(), first()), (middle(), last())];
    let net = network(alloc, &ways, &Shortage::none()).ok_or(AllocError)?;
    let turns = Turns::holding(awaited);
    let report = report_of(rt, alloc, &net, workers, 4, &turns)?;
    let ends = [End::Delivered(3), End::Delivered(2)];
    assert_eq!(rt; report.ends(), ends.as_slice());
    assert_eq!(rt; turns.of_workers(), turns_of_workers);
    assert!(rt; turns.are_paired());
    Ok(())
}

static FIRST_TWO: Awaited = [&[(1, 1)], &[(0, 1)], &[]];

#[test]
fn two_workers_run_at_once(rt: HostRuntime) -> Result<(), Fail> {
    expect_meeting(&rt, rt.alloc(), 2, &FIRST_TWO, [3, 2, 0, 0, 0, 0, 0, 0])
}

static LAST_TWO: Awaited = [&[], &[(2, 1)], &[(1, 1)]];

#[test]
fn two_of_three_workers_run_at_once(rt: HostRuntime) -> Result<(), Fail> {
    expect_meeting(&rt, rt.alloc(), 3, &LAST_TWO, [1, 2, 2, 0, 0, 0, 0, 0])
}

static CROWD: Awaited = [&[(1, 1)], &[(0, 3), (2, 3)], &[(1, 1)]];

/// Three flights of either end come to the worker of the middle AS, whose inbox has three places.
/// It is held at its first turn until both other workers have begun three, and so have passed on
/// what they had from the first two; they wait at their first until it has begun its own, and so
/// has taken it out of its inbox. While it is held, it is passed four, so that one to three of all
/// are dropped.
#[test]
fn a_flight_is_dropped_while_workers_run(rt: HostRuntime) -> Result<(), Fail> {
    let ways = [
        (middle(), last()),
        (last(), first()),
        (last(), first()),
        (last(), first()),
        (first(), last()),
        (first(), last()),
        (first(), last()),
    ];
    let net = network(rt.alloc(), &ways, &Shortage::none()).ok_or(AllocError)?;
    let turns = Turns::holding(&CROWD);
    let report = report_of(&rt, rt.alloc(), &net, 3, 3, &turns)?;
    let dropped = report
        .ends()
        .iter()
        .filter(|end| **end == End::Dropped(1))
        .count();
    assert!(rt; 1 <= dropped && dropped <= 3);
    assert!(rt; turns.are_paired());
    Ok(())
}

/// The turns of each worker where one flight has one in each of eight ASes, whose routers are dealt
/// out to the workers in turn.
static TURNS: [(usize, [usize; 8]); 8] = [
    (1, [8, 0, 0, 0, 0, 0, 0, 0]),
    (2, [4, 4, 0, 0, 0, 0, 0, 0]),
    (3, [3, 3, 2, 0, 0, 0, 0, 0]),
    (4, [2, 2, 2, 2, 0, 0, 0, 0]),
    (5, [2, 2, 2, 1, 1, 0, 0, 0]),
    (6, [2, 2, 1, 1, 1, 1, 0, 0]),
    (7, [2, 1, 1, 1, 1, 1, 1, 0]),
    (8, [1, 1, 1, 1, 1, 1, 1, 1]),
];

#[test]
fn each_of_one_to_eight_workers_has_its_turns(rt: HostRuntime) -> Result<(), Fail> {
    let net = long_network(rt.alloc())?;
    for (workers, turns_of_workers) in &TURNS {
        let turns = Turns::new();
        let report = report_of(&rt, rt.alloc(), &net, *workers, 4096, &turns)?;
        assert_eq!(rt; report.ends(), [End::Delivered(8)].as_slice());
        assert_eq!(rt; turns.of_workers(), *turns_of_workers);
        assert!(rt; turns.are_paired());
    }
    Ok(())
}

/// One flight more than an inbox may have places is dropped, and no other.
#[test]
fn the_fullest_inbox_is_carried(rt: HostRuntime) -> Result<(), Fail> {
    for packets in [4096, 4097] {
        let net = crowded_network(rt.alloc(), packets)?;
        let turns = Turns::new();
        let report = report_of(&rt, rt.alloc(), &net, 8, 4096, &turns)?;
        let (carried, dropped) = report.ends().split_at(report.ends().len().min(4096));
        assert!(rt; carried.iter().all(|end| *end == End::Delivered(3)));
        assert!(rt; dropped.iter().all(|end| *end == End::Dropped(0)));
        assert_eq!(rt; turns.of_workers(), [4096, 4096, 4096, 0, 0, 0, 0, 0]);
        assert!(rt; turns.are_paired());
    }
    Ok(())
}
