//! Packets that a router refuses: the check that fails, and what of the lines before made it fail.

use crate::found::push_found;
use crate::history::{History, number_at};
use crate::place::{Place, push_place};
use crate::refused::{Context, push_link};
use crate::said::Said;
use forwarding::{PacketLocation, RouterStop};
use isd_as::{IfId, IsdAs};
use network_core::{Net, Packet};
use packet_view::failed_check;
use path_header::Header;
use router_step::{Refusal, read_header, way_out};
use serde_json::Value;
use std::alloc::{AllocError, Global};
use std::fmt::Write;

/// Where the packet of an event is, if it is at a router.
pub(crate) fn stop_of(net: &Net, event: &Value) -> Option<RouterStop> {
    match net.packet(number_at(event, "packet")?)?.place() {
        PacketLocation::AtRouter(stop) => Some(stop),
        _ => None,
    }
}

/// Adds why a router refused the packet of a `turn`.
pub(crate) fn push_refused_turn(
    alloc: Global,
    why: &mut Said,
    line: Place<'_>,
    context: &Context<'_>,
    event: &Value,
) -> Result<(), AllocError> {
    let (Some(net), Some(stop)) = (context.net, context.stop) else {
        return Ok(());
    };
    let Some(number) = number_at(event, "packet") else {
        return Ok(());
    };
    let Some(packet) = net.packet(number) else {
        return Ok(());
    };
    let PacketLocation::Refused(_, _, refusal) = packet.place() else {
        return Ok(());
    };
    push_place(why, line, "packet")?;
    push_found(why, line, event.get("packet"))?;
    write!(
        why.text,
        ": {refusal}; router {} of {}",
        stop.router, stop.ia
    )?;
    push_check(alloc, why, net, stop, packet)?;
    push_cause(why, net, context.history, stop.ia, refusal, packet)?;
    match context.history.alteration(number) {
        Some(made) => {
            let (line, byte) = (made.line, made.byte);
            write!(why.text, "; line {line} altered byte {byte} of the packet")
        }
        None => Ok(()),
    }
}

/// Adds the check of the router that fails, with both its sides.
fn push_check(
    alloc: Global,
    why: &mut Said,
    net: &Net,
    stop: RouterStop,
    packet: &Packet,
) -> Result<(), AllocError> {
    let Ok(view) = net.topology().view(stop.ia, stop.router) else {
        return Ok(());
    };
    match failed_check(alloc, view, net.now(), stop.arrival, packet.bytes())? {
        Some(sides) => write!(why.text, ", check {sides}"),
        None => Ok(()),
    }
}

/// The interface by which a packet with this header is to leave its AS. Where its path goes on in
/// another segment, that is said by the first hop field there.
fn way_out_of(header: &Header) -> IfId {
    header.known();
    let segment = header.curr_inf();
    let next = header.curr_hf() + 1;
    if next < header.hop_count()
        && header.segment_of(next) != segment
        && segment + 1 < header.info_count()
    {
        return way_out(&header.info(segment + 1), &header.hop(next));
    }
    way_out(&header.current_info(), &header.current_hop())
}

/// Adds which link is down, or by which lines the key was changed.
fn push_cause(
    why: &mut Said,
    net: &Net,
    history: &History,
    ia: IsdAs,
    refusal: Refusal,
    packet: &Packet,
) -> Result<(), AllocError> {
    match refusal {
        Refusal::LinkDown => match read_header(packet.bytes()) {
            Ok((header, _)) => push_link(&mut why.text, net, history, ia, way_out_of(&header)),
            Err(_) => Ok(()),
        },
        Refusal::BadMac => push_key_changes(why, history, ia),
        _ => Ok(()),
    }
}

/// Adds the lines that changed the key of an AS.
fn push_key_changes(why: &mut Said, history: &History, ia: IsdAs) -> Result<(), AllocError> {
    let Some(changes) = history.key_changes(ia) else {
        return Ok(());
    };
    let last = changes.last;
    match changes.before {
        Some(before) => write!(
            why.text,
            "; lines {before} and {last} changed the key of {ia}"
        ),
        None => write!(why.text, "; line {last} changed the key of {ia}"),
    }
}
