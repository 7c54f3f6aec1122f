//! Packets: authenticators, headers that are read, and turns of routers.

use crate::input::Input;
use anyhow::{Context, Result, bail};
use hop_mac::{HopInput, MacKey, hop_mac};
use path_header::decode;
use router_step::{Arrival, Outcome, step};
use scion_packet::{HostAddress, PacketInfo, read, turn};
use scion_topology::{RouterView, Topology};
use std::alloc::Global;
use wire_packets::wrap;

/// The key under which authenticators are made.
const KEY: [u8; 16] = *b"0123456789abcdef";

/// The place in a packet of the second byte of a path's accumulator: after the addresses, the meta
/// field and three more bytes.
const ACCUMULATOR: usize = 23;

/// The place in a packet over one segment of the first authenticator.
const AUTHENTICATOR: usize = 34;

/// The place in a whole packet of a byte without a meaning.
const RESERVED: usize = 10;

/// The flaw of a packet.
#[derive(Clone, Copy)]
pub(crate) enum Flaw {
    /// Its first authenticator is wrong, on a path of one segment.
    Authenticator,
    /// It ends within the header.
    Cut,
}

/// Makes `count` authenticators under the same key, each from the one before.
pub(crate) fn macs(count: u32) -> u64 {
    let key = MacKey::new(&KEY);
    let mut beta = 0u16;
    let mut sum = 0u64;
    for _ in 0..count {
        let mac = key.hop_mac(&HopInput {
            beta,
            timestamp: 1000,
            exp_time: 63,
            cons_ingress: 1,
            cons_egress: 2,
        });
        beta = u16::from_be_bytes([mac[0], mac[1]]);
        sum = sum.wrapping_add(u64::from(mac[5]));
    }
    sum
}

/// The same, each under another key.
pub(crate) fn macs_of_keys(count: u32) -> u64 {
    let mut key = KEY;
    let mut beta = 0u16;
    let mut sum = 0u64;
    for _ in 0..count {
        let mac = hop_mac(&key, beta, 1000, 63, 1, 2);
        beta = u16::from_be_bytes([mac[0], mac[1]]);
        key[0] = mac[2];
        sum = sum.wrapping_add(u64::from(mac[5]));
    }
    sum
}

/// Reads a packet's header `count` times, with another accumulator each time.
pub(crate) fn decodes(input: &Input, count: u32) -> Result<u64> {
    let mut bytes = input.packet.clone()?;
    let mut sum = 0u64;
    for turn in 0..count {
        if bytes.len() <= ACCUMULATOR {
            bail!("the packet has no path");
        }
        bytes[ACCUMULATOR] = (turn % 256) as u8;
        if let Ok((header, len)) = decode(&bytes[16..]) {
            let last = header.hop_count() - 1;
            sum = sum
                .wrapping_add(len as u64)
                .wrapping_add(u64::from(header.info(0).seg_id))
                .wrapping_add(u64::from(header.hop(last).mac[5]));
        }
    }
    Ok(sum)
}

/// The value that an answer adds to the sum.
fn worth<T: Drop>(answer: &Result<Outcome, T>) -> u64 {
    match answer {
        Ok(Outcome::ToLink(number)) => u64::from(number.number()),
        Ok(Outcome::ToRouter(router)) => 100 + u64::from(*router),
        Ok(Outcome::Deliver) => 1000,
        Err(_) => 1_000_000,
    }
}

/// The views of the first few routers on the way of the packet, and how it comes to them.
fn first_views<'t>(
    alloc: Global,
    topology: &'t Topology,
    input: &Input,
    most: usize,
) -> Result<Vec<(RouterView<'t>, Arrival)>> {
    let mut views = Vec::new(alloc);
    for (ia, router, arrival) in input.stops.iter().take(most) {
        views.push((topology.view(*ia, *router)?, *arrival))?;
    }
    Ok(views)
}

/// Lets a packet pass the first few routers on its way, `count` times and each time from its start,
/// and sums their answers.
pub(crate) fn ways(alloc: Global, input: &Input, most: usize, count: u32) -> Result<u64> {
    let topology = Topology::from_json(alloc, input.topology.as_bytes())?;
    let views = first_views(alloc, &topology, input, most)?;
    let mut packet = input.packet.clone()?;
    let mut sum = 0u64;
    for _ in 0..count {
        if packet.len() == input.packet.len() {
            packet.copy_from_slice(&input.packet);
        }
        for (view, arrival) in views.iter() {
            sum = sum.wrapping_add(worth(&step(view, input.now, *arrival, &mut packet)));
        }
    }
    Ok(sum)
}

/// The packet with the headers that it has on the wire, between two hosts with addresses of IPv4.
fn whole(alloc: Global, input: &Input) -> Result<Vec<u8>> {
    let host = HostAddress::ipv4([10, 0, 0, 100]);
    let info = PacketInfo::new(0, 1, 17, host.clone()?, host)?;
    Ok(wrap(alloc, &info, &input.packet)?)
}

/// As [`ways`], with the packet as it is on the wire.
pub(crate) fn whole_ways(alloc: Global, input: &Input, most: usize, count: u32) -> Result<u64> {
    let topology = Topology::from_json(alloc, input.topology.as_bytes())?;
    let views = first_views(alloc, &topology, input, most)?;
    let start = whole(alloc, input)?;
    let mut packet = start.clone()?;
    let mut sum = 0u64;
    for _ in 0..count {
        if packet.len() == start.len() {
            packet.copy_from_slice(&start);
        }
        for (view, arrival) in views.iter() {
            sum = sum.wrapping_add(worth(&turn(view, input.now, *arrival, &mut packet)));
        }
    }
    Ok(sum)
}

/// Reads the packet as it is on the wire `count` times, each time with another reserved byte.
pub(crate) fn reads(alloc: Global, input: &Input, count: u32) -> Result<u64> {
    let mut bytes = whole(alloc, input)?;
    let mut sum = 0u64;
    for number in 0..count {
        if bytes.len() <= RESERVED {
            bail!("the packet has no headers");
        }
        bytes[RESERVED] = (number % 256) as u8;
        if let Ok(packet) = read(&bytes) {
            let last = packet.header.hop_count() - 1;
            sum = sum
                .wrapping_add(u64::from(packet.info.reserved()))
                .wrapping_add(u64::from(packet.header.info(0).seg_id))
                .wrapping_add(u64::from(packet.header.hop(last).mac[5]));
        }
    }
    Ok(sum)
}

/// Gives a packet with a flaw to its first router `count` times, with another accumulator each
/// time, and counts the refusals.
pub(crate) fn step_flawed(alloc: Global, input: &Input, flaw: Flaw, count: u32) -> Result<u64> {
    let topology = Topology::from_json(alloc, input.topology.as_bytes())?;
    let (ia, router, arrival) = input.stops.first().context("the packet has no way")?;
    let view = topology.view(*ia, *router)?;
    let mut packet = input.packet.clone()?;
    match flaw {
        Flaw::Authenticator if packet.len() > AUTHENTICATOR => packet[AUTHENTICATOR] ^= 1,
        Flaw::Authenticator => {}
        Flaw::Cut => packet.truncate(30),
    }
    let mut sum = 0u64;
    for turn in 0..count {
        if packet.len() > ACCUMULATOR {
            packet[ACCUMULATOR] = (turn % 256) as u8;
        }
        if step(&view, input.now, *arrival, &mut packet).is_err() {
            sum = sum.wrapping_add(1);
        }
    }
    Ok(sum)
}
