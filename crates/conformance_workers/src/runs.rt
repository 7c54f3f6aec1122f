//! Runs of flights, and their reports.
//!
//! Each call may run out of memory once, and is then repeated; a run in which memory ran out has
//! made no turn.

ghost use Rattle.std.specs.Prelude.{◌≡◌, ◌<◌, ◌≤◌, All, IfOk, IfSome};

use crate::flights::after_turn;
use crate::gate::Turns;
use crate::network::{first, last, network};
use isd_as::IsdAs;
use network_core::Net;
use refusal::OrMemory;
use refusing::Shortage;
use router_workers::{End, Flight, Report, RunFault, run_workers};
use scion_topology::TopologyFault;
use std::alloc::{AllocError, Global};
use std::io::Print;
use std::process::Abort;
use std::sync::Wait;
use std::test::Fail;
use std::thread::Threads;

/// A run over the row's network, with a flight between each of these pairs of ASes, on this many
/// workers with this many places in an inbox. The first flights have had no turn, and the others
/// all three turns of the row.
#[derive(Clone, Copy)]
struct Case<'w> {
    ways: &'w [(IsdAs, IsdAs)],
    departing: usize,
    workers: usize,
    slots: usize,
}

/// The flight as it is, or after the three turns of the row.
fn after_turns<'n>(flight: Flight<'n>, has_flown: bool) -> Flight<'n>
    ensures { result.fabric ≡ flight.entry.fabric }
{
    if has_flown {
        return after_turn(after_turn(after_turn(flight)));
    }
    flight
}

/// The flights of a network's packets, in their order; this many have had no turn.
fn flights_once<'n>(
    alloc: Global,
    net: &'n Net,
    departing: usize,
) -> Result<Vec<Flight<'n>>, OrMemory<TopologyFault>>
    ensures { IfOk result (λ flights.
        All (λ flight. flight.fabric ≡ net.now.network) flights.items) }
{
    let mut flights = Vec::new(alloc);
    for packet in net.packets() {
        let flight = Flight::new(alloc, net.topology(), packet.sent())?;
        let has_flown = departing <= flights.len();
        flights.push(after_turns(flight, has_flown))?;
    }
    Ok(flights)
}

/// The same, repeated if that may be.
pub(crate) fn flights_of<'n>(
    alloc: Global,
    net: &'n Net,
    departing: usize,
    shortage: &Shortage,
) -> Option<Vec<Flight<'n>>>
    ensures { IfSome result (λ flights.
        All (λ flight. flight.fabric ≡ net.now.network) flights.items) }
{
    match flights_once(alloc, net, departing) {
        Ok(flights) => Some(flights),
        Err(OrMemory::Refused(_)) => None,
        Err(OrMemory::Memory) => {
            if shortage.may_want() {
                return flights_once(alloc, net, departing).ok();
            }
            None
        }
    }
}

/// The report of a run. One that runs out of memory has made no turn, and is repeated.
fn report_of<R: Threads + Wait + Sync>(
    rt: &R,
    alloc: Global,
    case: Case<'_>,
    shortage: &Shortage,
) -> Option<Result<Report, RunFault>>
    requires some { 0 < case.slots }
    requires few { case.slots ≤ 4096 }
{
    let net = network(alloc, case.ways, shortage)?;
    let flights = flights_of(alloc, &net, case.departing, shortage)?;
    let (workers, slots) = (case.workers, case.slots);
    let turns = Turns::new();
    let run = net.topology();
    let first = run_workers(rt, alloc, run, 1000, workers, slots, &flights, &turns);
    let Err(RunFault::Memory) = first else {
        return Some(first);
    };
    if turns.of_workers() != [0; 8] || !shortage.may_want() {
        return None;
    }
    Some(run_workers(rt, alloc, run, 1000, workers, slots, &flights, &turns))
}

/// Asserts the ends in the report of a run.
fn expect_ends<R: Threads + Wait + Sync + Abort + Print>(
    rt: &R,
    alloc: Global,
    case: Case<'_>,
    ends: &[End],
) -> Result<(), Fail>
    requires some { 0 < case.slots }
    requires few { case.slots ≤ 4096 }
{
    let shortage = Shortage::new();
    let report = report_of(rt, alloc, case, &shortage).ok_or(AllocError)??;
    shortage.tell(rt);
    assert_eq!(rt; report.ends(), ends);
    Ok(())
}

/// A run of two flights from the row's last AS to its first.
fn case_of_two(ways: &[(IsdAs, IsdAs)], workers: usize, slots: usize) -> Case<'_>
    ensures { result.slots ≡ slots }
{
    Case {
        ways,
        departing: 2,
        workers,
        slots,
    }
}

#[test]
fn the_second_of_two_flights_finds_no_place(rt: HostRuntime) -> Result<(), Fail> {
    let two = [(last(), first()); 2];
    for workers in [1, 2, 3, 8] {
        let ends = [End::Delivered(3), End::Dropped(0)];
        expect_ends(&rt, rt.alloc(), case_of_two(&two, workers, 1), &ends)?;
    }
    Ok(())
}

#[test]
fn a_run_has_one_to_eight_workers(rt: HostRuntime) -> Result<(), Fail> {
    let two = [(last(), first()); 2];
    for workers in [0, 9] {
        let shortage = Shortage::new();
        let case = case_of_two(&two, workers, 2);
        let report = report_of(&rt, rt.alloc(), case, &shortage).ok_or(AllocError)?;
        shortage.tell(&rt);
        assert_eq!(rt; report.err(), Some(RunFault::Workers));
    }
    Ok(())
}

/// There are more flights than places, but no inbox is ever full, since three of the flights have
/// ended.
#[test]
fn no_flight_is_dropped_where_there_is_room(rt: HostRuntime) -> Result<(), Fail> {
    let mut ends = [End::Delivered(0); 5];
    ends[0] = End::Delivered(3);
    ends[1] = End::Delivered(3);
    for workers in [1, 2, 3, 8] {
        let case = Case {
            ways: &[(last(), first()); 5],
            departing: 2,
            workers,
            slots: 4,
        };
        expect_ends(&rt, rt.alloc(), case, &ends)?;
    }
    Ok(())
}

#[test]
fn no_flight_is_no_end(rt: HostRuntime) -> Result<(), Fail> {
    let case = Case {
        ways: &[],
        departing: 0,
        workers: 2,
        slots: 1,
    };
    expect_ends(&rt, rt.alloc(), case, &[])
}
