//! Flights over two core ASes and their children, in both directions, of eight hop fields and ten
//! turns each; and flights over 64 hop fields in the largest network.

ghost use Rattle.std.specs.Prelude.{◌≡◌, ◌<◌, ◌≤◌, All, IfOk};

use crate::carried;
use anyhow::{Context, Result};
use event_lines::{AcceptedLines, listen};
use network_core::Net;
use router_workers::{End, Flight, OpenGate, Report, run_workers};
use scion_topology::Topology;
use std::alloc::Global;
use std::sync::Wait;
use std::thread::Threads;
use streams::{Reader, Writer};
use worked::pair;

/// The number of flights of a run; every second one goes back.
const FLIGHTS: u32 = 1000;

/// The lines after the topology, up to a packet from one end to the other and one back.
static LINES: &str = r#"
{"do":"tick","now":1000}
{"do":"originate","ia":"1-ff00:0:110","egress":1,"beta0":1}
{"do":"extend","beacon":0,"ia":"1-ff00:0:111","egress":2}
{"do":"terminate","beacon":1,"ia":"1-ff00:0:112"}
{"do":"originate","ia":"1-ff00:0:110","egress":2,"beta0":2}
{"do":"terminate","beacon":2,"ia":"2-ff00:0:210"}
{"do":"originate","ia":"2-ff00:0:210","egress":2,"beta0":3}
{"do":"extend","beacon":3,"ia":"2-ff00:0:211","egress":2}
{"do":"terminate","beacon":4,"ia":"2-ff00:0:212"}
{"do":"ask","src":"1-ff00:0:112","dst":"2-ff00:0:212","limit":8}
{"do":"send","ask":0,"path":0,"payload":""}
{"do":"ask","src":"2-ff00:0:212","dst":"1-ff00:0:112","limit":8}
{"do":"send","ask":1,"path":0,"payload":""}
"#;

/// The network in which both packets were sent.
fn network(alloc: Global) -> Result<Net> {
    let text = format!(in alloc; "{}{LINES}", pair())?;
    let mut source = Reader::new(text.as_bytes());
    let mut sink = Writer::new(Vec::new(alloc));
    Ok(listen(alloc, AcceptedLines::Preparing, &mut source, &mut sink)?)
}

/// The flights of the packets of these numbers in turn.
fn flights_of(alloc: Global, net: &Net, there: usize, back: usize) -> Result<Vec<Flight<'_>>>
    ensures { IfOk result (λ flights.
        All (λ flight. flight.fabric ≡ net.now.network) flights.items) }
{
    let there = net.packet(there).context("the packet was not sent")?;
    let back = net.packet(back).context("no packet was sent back")?;
    let mut flights = Vec::new(alloc);
    for number in 0..FLIGHTS {
        let packet = if number % 2 == 0 { there } else { back };
        flights.push(Flight::new(alloc, net.topology(), packet.sent())?)?;
    }
    Ok(flights)
}

/// The number of turns of a flight, if it was delivered.
fn worth(end: End) -> u64 {
    match end {
        End::Delivered(turns) => u64::from(turns),
        End::Refused(_, _) | End::Dropped(_) => 0,
    }
}

/// Sums the turns of the flights of a report.
fn turns_in(report: &Report) -> u64 {
    let mut sum = 0u64;
    for end in report.ends() {
        sum = sum.wrapping_add(worth(*end));
    }
    sum
}

/// Carries flights on several workers, `count` times, and sums their turns. A run leaves the
/// flights as they are.
fn turns_of<R: Threads + Wait + Sync>(
    rt: &R,
    alloc: Global,
    topology: &Topology,
    flights: &[Flight<'_>],
    workers: usize,
    count: u32,
) -> Result<u64>
    requires { All (λ flight. flight.fabric ≡ topology.now) flights.now }
{
    let mut sum = 0u64;
    for _ in 0..count {
        let report = run_workers(rt, alloc, topology, 1000, workers, 1024, flights, &OpenGate)?;
        sum = sum.wrapping_add(turns_in(&report));
    }
    Ok(sum)
}

/// Carries a thousand flights of ten turns on several workers, `count` times, and sums their turns.
pub(crate) fn flights<R: Threads + Wait + Sync>(
    rt: &R,
    alloc: Global,
    workers: usize,
    count: u32,
) -> Result<u64> {
    let net = network(alloc)?;
    let flights = flights_of(alloc, &net, 0, 1)?;
    turns_of(rt, alloc, net.topology(), &flights, workers, count)
}

/// The same with a thousand flights of 63 turns, each at the next AS of the network's list, so that
/// up to eight workers have the same number of turns each, or one more. A turn makes one
/// authenticator, and two where the path goes over to its second segment. Of 2, 4 or 8 workers this
/// falls to the one with a turn less than the others, so that all make the same number.
pub(crate) fn even_flights<R: Threads + Wait + Sync>(
    rt: &R,
    alloc: Global,
    workers: usize,
    count: u32,
) -> Result<u64> {
    let net = carried::network_with_packet(alloc)?;
    let flights = flights_of(alloc, &net, 0, 0)?;
    turns_of(rt, alloc, net.topology(), &flights, workers, count)
}
