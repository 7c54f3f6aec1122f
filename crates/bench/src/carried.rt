//! Packets on a path of 64 hop fields, carried by the largest network: up one line of children to
//! their core AS, and down another.

use crate::network;
use anyhow::Result;
use event_lines::{AcceptedLines, listen};
use forwarding::TurnReply;
use network_core::{Event, Net, Reply};
use router_step::Outcome;
use std::alloc::{AllocError, Global};
use streams::{Reader, Writer};

/// Adds the events of a segment from AS 1 over its interface of this number, down the line of
/// children whose numbers follow. `count` beacons were made before.
fn push_segment(text: &mut String, before: u32, first: u32) -> Result<(), AllocError> {
    writeln!(
        text,
        r#"{{"do":"originate","ia":"1-1","egress":{first},"beta0":1}}"#
    )?;
    for step in 0..network::LINE - 2 {
        let beacon = before.wrapping_add(step);
        let child = first.wrapping_add(step).wrapping_add(1);
        writeln!(
            text,
            r#"{{"do":"extend","beacon":{beacon},"ia":"1-{child}","egress":{child}}}"#
        )?;
    }
    let beacon = before.wrapping_add(network::LINE - 2);
    let last = first.wrapping_add(network::LINE - 1);
    writeln!(
        text,
        r#"{{"do":"terminate","beacon":{beacon},"ia":"1-{last}"}}"#
    )
}

/// The network, with the answer of one path from the end of the one line to that of the other.
fn network(alloc: Global) -> Result<Net> {
    let mut text = network::lines(alloc)?;
    text.push_str("\n{\"do\":\"tick\",\"now\":1000}\n")?;
    push_segment(&mut text, 0, 1)?;
    push_segment(&mut text, network::LINE - 1, network::FIRST_END)?;
    let (src, dst) = (network::FIRST_END, network::SECOND_END);
    writeln!(
        text,
        r#"{{"do":"ask","src":"1-{src}","dst":"1-{dst}","limit":1}}"#
    )?;
    let mut source = Reader::new(text.as_bytes());
    let mut sink = Writer::new(Vec::new(alloc));
    Ok(listen(alloc, AcceptedLines::Preparing, &mut source, &mut sink)?)
}

/// The event that sends a packet by the answer's path.
fn sending<'x>() -> Option<Event<'x>> {
    Some(Event::Send {
        ask: 0,
        path: 0,
        payload: &[],
    })
}

/// The event of one step of the router that has the packet.
fn turning<'x>(packet: u32) -> Option<Event<'x>> {
    Some(Event::Turn { packet })
}

/// Whether a packet was delivered.
fn is_delivery(outcome: Outcome) -> bool {
    outcome == Outcome::Deliver
}

/// Does an event; its reply counts 1 if a packet is delivered.
fn worth(alloc: Global, net: &mut Net, event: &Event<'_>) -> Result<u64, AllocError> {
    let reply = net.step(alloc, event)?;
    if let Reply::Turned(TurnReply::Went(outcome)) = reply {
        return Ok(u64::from(is_delivery(outcome)));
    }
    Ok(0)
}

/// Sends a packet.
fn send(alloc: Global, net: &mut Net) -> Result<u64, AllocError> {
    match sending() {
        Some(event) => worth(alloc, net, &event),
        None => Ok(0),
    }
}

/// One turn of a packet.
fn turn(alloc: Global, net: &mut Net, packet: u32) -> Result<u64, AllocError> {
    match turning(packet) {
        Some(event) => worth(alloc, net, &event),
        None => Ok(0),
    }
}

/// The network in which one packet was sent.
pub(crate) fn network_with_packet(alloc: Global) -> Result<Net> {
    let mut net = network(alloc)?;
    send(alloc, &mut net)?;
    Ok(net)
}

/// Sends the packet of this number and makes several turns of it; counts 1 if it is delivered.
fn carry(alloc: Global, net: &mut Net, turns: u32, packet: u32) -> Result<u64, AllocError> {
    let mut sum = send(alloc, net)?;
    for _ in 0..turns {
        sum = sum.wrapping_add(turn(alloc, net, packet)?);
    }
    Ok(sum)
}

/// Sends `count` packets, makes several turns of each, and counts those that are delivered.
pub(crate) fn carry_all(alloc: Global, turns: u32, count: u32) -> Result<u64> {
    let mut net = network(alloc)?;
    let mut sum = 0u64;
    for packet in 0..count {
        sum = sum.wrapping_add(carry(alloc, &mut net, turns, packet)?);
    }
    Ok(sum)
}
