//! Single flights, and the sentences of refused runs.

ghost use Rattle.std.specs.Prelude.{◌≡◌, ◌<◌};

use crate::network::{first, last, middle, network};
use forwarding::PacketLocation;
use inbox::Inbox;
use isd_as::IsdAs;
use network_core::{EventFault, Net};
use refusal::OrMemory;
use refusing::Shortage;
use router_workers::{Flight, RunFault, worker_of};
use scion_topology::{Topology, TopologyFault};
use std::alloc::{AllocError, Global};
use std::test::Fail;
use worked::{line, row};

/// The flight after one more turn with the view of its router; as it is if there is no view.
pub(crate) fn after_turn<'a>(flight: Flight<'a>) -> Flight<'a>
    ensures { result.fabric ≡ flight.entry.fabric }
{
    match flight.view() {
        Some(view) => flight.advance(&view, 1000),
        None => flight,
    }
}

/// The network with a packet from the row's last AS to its first.
fn network_with_packet(alloc: Global) -> Result<Net, Fail> {
    let net = network(alloc, &[(last(), first())], &Shortage::none());
    Ok(net.ok_or(AllocError)?)
}

/// The refusal of the first packet of a network as a flight over this topology.
fn refusal(alloc: Global, net: &Net, topology: &str) -> Result<Option<TopologyFault>, Fail> {
    let fabric = Topology::from_json(alloc, topology.as_bytes())?;
    let packet = net.packet(0).ok_or(EventFault::NoPacket)?;
    match Flight::new(alloc, &fabric, packet.sent()) {
        Err(OrMemory::Refused(fault)) => Ok(Some(fault)),
        _ => Ok(None),
    }
}

#[test]
fn three_turns_deliver(rt: HostRuntime) -> Result<(), Fail> {
    let net = network_with_packet(rt.alloc())?;
    let packet = net.packet(0).ok_or(EventFault::NoPacket)?;
    let flight = Flight::new(rt.alloc(), net.topology(), packet.sent())?;
    let flight = after_turn(after_turn(after_turn(flight)));
    assert_eq!(rt; flight.place(), PacketLocation::Delivered);
    assert_eq!(rt; flight.turns(), 3);
    assert_eq!(rt; flight.passed().len(), 3);
    Ok(())
}

/// Over a network without that AS, and over the row with another number for the interface.
#[test]
fn a_flight_needs_its_first_as_and_interface(rt: HostRuntime) -> Result<(), Fail> {
    let net = network_with_packet(rt.alloc())?;
    let elsewhere = line(rt.alloc(), 1)?;
    let renumbered = row().replace(rt.alloc(), r#"112","if":1"#, r#"112","if":9"#)?;
    let rows = [
        (elsewhere, TopologyFault::UnknownAs),
        (renumbered, TopologyFault::NoLink),
    ];
    for (topology, fault) in &rows {
        assert_eq!(rt; refusal(rt.alloc(), &net, topology.as_str())?, Some(*fault));
    }
    Ok(())
}

#[test]
fn an_inbox_of_one_place_hands_the_second_flight_back(rt: HostRuntime) -> Result<(), Fail> {
    let net = network_with_packet(rt.alloc())?;
    let packet = net.packet(0).ok_or(EventFault::NoPacket)?;
    let first = Flight::new(rt.alloc(), net.topology(), packet.sent())?;
    let second = after_turn(Flight::new(rt.alloc(), net.topology(), packet.sent())?);
    let (inbox, mut sender, mut receiver) = Inbox::new(rt.alloc(), 1)?;
    assert!(rt; inbox.push(&rt, &mut sender, first).is_ok());
    let back = inbox.push(&rt, &mut sender, second).err();
    assert_eq!(rt; back.map(|flight| flight.turns()), Some(1));
    let out = inbox.pop(&rt, &mut receiver);
    assert_eq!(rt; out.map(|flight| flight.turns()), Some(0));
    assert!(rt; inbox.pop(&rt, &mut receiver).is_none());
    Ok(())
}

/// The number of the worker for a router, if the topology lists its AS.
fn worker_number(topology: &Topology, ia: IsdAs, router: u8, workers: usize) -> Option<usize>
    requires { 0 < workers }
{
    match topology.as_info(ia) {
        Ok(_) => Some(worker_of(topology, ia, router, workers)),
        Err(_) => None,
    }
}

/// The place of the AS in the list, plus the router, modulo the workers.
#[test]
fn routers_of_an_as_have_workers_in_a_row(rt: HostRuntime) -> Result<(), Fail> {
    let topology = Topology::from_json(rt.alloc(), row().as_bytes())?;
    let rows = [
        (first(), 0, 0),
        (middle(), 0, 1),
        (middle(), 1, 2),
        (last(), 0, 2),
        (last(), 1, 0),
    ];
    for (ia, router, worker) in rows {
        assert_eq!(rt; worker_number(&topology, ia, router, 3), Some(worker));
    }
    Ok(())
}

#[test]
fn refusals_of_runs_have_sentences(rt: HostRuntime) -> Result<(), Fail> {
    let (workers, memory) = (RunFault::Workers, RunFault::Memory);
    let text = format!(in rt.alloc(); "{workers}; {memory}")?;
    assert_eq!(rt;
        text.as_str(),
        "a run has 1 to 8 workers; there is no memory for the run"
    );
    Ok(())
}
