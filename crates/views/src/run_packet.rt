//! A packet of the network after some lines, and what the next router makes of it.
#![tactic(auto, unfolding(crate::specs::RunPacket::router_name, crate::specs::RunPacket::place_line, crate::specs::RunPacket::passed_line))]

ghost use Rattle.std.specs.Prelude.{◌≡◌, ◌||◌, ◌++◌, IfOk, OnOk, option_map, slice_get};
ghost use Rattle.std.specs.String.{string_bytes};
ghost use Rattle.event_lines.specs.Run.{is_read_fault};
ghost use Rattle.views.specs.Reached.{Shows, said_of};
ghost use Rattle.wire_packets.specs.Wrapped.{wrapped};
ghost use Rattle.views.specs.RunPacket.{next_lines, packet_state, passed_line, place_line, router_name, whole_next_lines, whole_state, wrapped_lines};

use crate::network_after::{Said, network_after};
use event_lines::{RunFault, hops_text};
use forwarding::PacketLocation;
use isd_as::IsdAs;
use network_core::{EventFault, Net, Packet};
use packet_view::{
    fields_text, packet_fault_line, turn_lines, whole_fields_text, whole_turn_lines,
};
use policy_expr::WalkHop;
use refusal::OrMemory;
use scion_packet::PacketInfo;
use std::alloc::{AllocError, Global};
use std::fmt::Write;
use streams::{Sink, Source};
use wire_packets::wrap;

/// Adds a router by its number and its AS.
fn add_router(text: &mut String, ia: IsdAs, router: u8) -> Result<(), AllocError>
    ensures { OnOk result (string_bytes text.new
        ≡ string_bytes text.old ++ router_name ia router) }
{
    write!(text, "router {router} of {ia}")
}

/// Adds the line about where a packet is.
fn add_place(text: &mut String, place: &PacketLocation) -> Result<(), AllocError>
    ensures { OnOk result (string_bytes text.new ≡ string_bytes text.old ++ place_line place.now) }
{
    match *place {
        PacketLocation::AtRouter(stop) => {
            text.push_str("at ")?;
            add_router(text, stop.ia, stop.router)?;
        }
        PacketLocation::Delivered => text.push_str("delivered")?,
        PacketLocation::Refused(ia, router, refusal) => {
            text.push_str("refused by ")?;
            add_router(text, ia, router)?;
            text.push_str(": ")?;
            refusal.push_to(text)?;
        }
        PacketLocation::Lost => text.push_str("lost")?,
    }
    text.push_str("\n")
}

/// Adds the line of the hops that a packet has passed.
fn add_passed(alloc: Global, text: &mut String, passed: &[WalkHop]) -> Result<(), AllocError>
    ensures { OnOk result (string_bytes text.new ≡ string_bytes text.old ++ passed_line passed.now) }
{
    if passed.is_empty() {
        return text.push_str("passed no hop\n");
    }
    let hops = hops_text(alloc, passed)?;
    text.push_str("passed ")?;
    text.push_str(hops.as_str())?;
    text.push_str("\n")
}

/// What the next router makes of a packet: its fields, the checks and the outcome; the fields alone
/// if the packet is at no router.
fn next_lines(alloc: Global, net: &Net, packet: &Packet) -> Result<String, AllocError>
    ensures { IfOk result (λ text. string_bytes text ≡ next_lines net.now.network net.now.moment
        packet.now.packet.bytes packet.now.packet.place) }
{
    let PacketLocation::AtRouter(stop) = packet.place() else {
        return fields_text(alloc, packet.bytes());
    };
    match net.topology().view(stop.ia, stop.router) {
        Ok(view) => turn_lines(alloc, view, net.now(), stop.arrival, packet.bytes()),
        Err(_) => fields_text(alloc, packet.bytes()),
    }
}

/// The state of a packet of the network, if there is one.
fn packet_state(alloc: Global, net: &Net, packet: Option<&Packet>) -> Result<Said, AllocError>
    ensures { IfOk result (λ said. said_of said
        ≡ packet_state net.now (option_map (λ p. p.now) packet.entry)) }
{
    let Some(packet) = packet else {
        return Ok(Err(EventFault::NoPacket));
    };
    let mut text = String::new(alloc);
    add_place(&mut text, &packet.place())?;
    add_passed(alloc, &mut text, packet.passed())?;
    text.push_str(next_lines(alloc, net, packet)?.as_str())?;
    Ok(Ok(text))
}

/// What the next router makes of a whole packet in this place: as [`next_lines`] has it of a
/// packet.
fn whole_next_lines(
    alloc: Global,
    net: &Net,
    place: &PacketLocation,
    packet: &[u8],
) -> Result<String, AllocError>
    ensures { IfOk result (λ text. string_bytes text ≡ whole_next_lines net.now.network
        net.now.moment packet.now place.now) }
{
    let PacketLocation::AtRouter(stop) = *place else {
        return whole_fields_text(alloc, packet);
    };
    match net.topology().view(stop.ia, stop.router) {
        Ok(view) => whole_turn_lines(alloc, view, net.now(), stop.arrival, packet),
        Err(_) => whole_fields_text(alloc, packet),
    }
}

/// The same of the whole packet of a packet, or the line that it has no path header.
#[tactic(auto, using(crate::proofs::Wrapping::lines_shown, crate::proofs::Wrapping::fault_shown))]
fn wrapped_lines(
    alloc: Global,
    info: &PacketInfo,
    net: &Net,
    packet: &Packet,
) -> Result<String, AllocError>
    ensures { IfOk result (λ text. string_bytes text ≡ wrapped_lines net.now.network
        net.now.moment packet.now.packet.place (wrapped info.now packet.now.packet.bytes)) }
{
    match wrap(alloc, info, packet.bytes()) {
        Ok(bytes) => whole_next_lines(alloc, net, &packet.place(), &bytes),
        Err(OrMemory::Refused(fault)) => {
            let mut line = packet_fault_line(alloc, fault)?;
            line.push_str("\n")?;
            Ok(line)
        }
        Err(OrMemory::Memory) => Err(AllocError),
    }
}

/// The state of a packet of the network, if there is one, as a whole packet.
fn whole_state(
    alloc: Global,
    info: &PacketInfo,
    net: &Net,
    packet: Option<&Packet>,
) -> Result<Said, AllocError>
    ensures { IfOk result (λ said. said_of said
        ≡ whole_state info.now net.now (option_map (λ p. p.now) packet.entry)) }
{
    let Some(packet) = packet else {
        return Ok(Err(EventFault::NoPacket));
    };
    let mut text = String::new(alloc);
    add_place(&mut text, &packet.place())?;
    add_passed(alloc, &mut text, packet.passed())?;
    text.push_str(wrapped_lines(alloc, info, net, packet)?.as_str())?;
    Ok(Ok(text))
}

/// The packet of this number in the network after the lines of a source: where it is, the hops that
/// it has passed, its fields, and the checks and the outcome of its next turn, at the second of the
/// network; [`EventFault::NoPacket`] if there is no such packet.
///
/// The faults are those of [`network_after`]; [`RunFault::Memory`] also if memory runs out for the
/// text.
pub(crate) fn run_packet<S: Source, R: Sink>(
    alloc: Global,
    source: &mut S,
    replies: &mut R,
    number: u32,
) -> Result<Said, RunFault>
    ensures shows { Shows (λ net said. said ≡ packet_state net (slice_get net.packets number)) result
        (S.left source.old) (S.left source.new) (R.held replies.old) (R.held replies.new) }
    ensures flag { S.failed source.new ≡ (S.failed source.old || is_read_fault result) }
{
    let said = {
        let net = network_after(alloc, source, replies)?;
        packet_state(alloc, &net, net.packet(number as usize))
    };
    Ok(said?)
}

/// The same as a whole packet that says besides what `info` says.
pub(crate) fn whole_run_packet<S: Source, R: Sink>(
    alloc: Global,
    source: &mut S,
    replies: &mut R,
    info: &PacketInfo,
    number: u32,
) -> Result<Said, RunFault>
    ensures shows { Shows (λ net said. said
        ≡ whole_state info.now net (slice_get net.packets number)) result
        (S.left source.old) (S.left source.new) (R.held replies.old) (R.held replies.new) }
    ensures flag { S.failed source.new ≡ (S.failed source.old || is_read_fault result) }
{
    let said = {
        let net = network_after(alloc, source, replies)?;
        whole_state(alloc, info, &net, net.packet(number as usize))
    };
    Ok(said?)
}
