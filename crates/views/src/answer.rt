//! A path of an answer of the network after some lines, as text.

ghost use Rattle.std.specs.Prelude.{◌≡◌, ◌||◌};
ghost use Rattle.event_lines.specs.Run.{is_read_fault};

use crate::network::path_at;
use crate::network_after::{Said, network_after};
use crate::path::verified_text;
use combinator::Path;
use event_lines::RunFault;
use forwarding::frame;
use hop_mac::{expiry, hop_is_live};
use network_core::{EventFault, Given, Net};
use packet_view::fields_text;
use path_segment::Entry;
use path_verifier::{Piece, Pieces, VerifiedPath, VerifyFault, lend_all, verify};
use policy_expr::{Policy, WalkHop};
use refusal::NumberedFault;
use scion_topology::Topology;
use std::alloc::{AllocError, Global};
use std::fmt::Write;
use streams::{Sink, Source};

/// The first hop of a piece, in order of travel, that is not live at this second.
fn expired_hop<'s>(piece: &Piece<'s>, now: u32) -> Option<&'s Entry> {
    let segment = piece.segment;
    let timestamp = segment.timestamp();
    let hops = segment.entries().get(piece.from..=piece.to)?;
    let has_expired = |hop: &&Entry| !hop_is_live(timestamp, hop.exp_time, now);
    if piece.along {
        hops.iter().find(has_expired)
    } else {
        hops.iter().rev().find(has_expired)
    }
}

/// The first hop of the pieces that is not live at this second, and until when it was.
fn expired_text(alloc: Global, pieces: &Pieces<'_>, now: u32) -> Result<String, AllocError> {
    for number in 0..pieces.len() {
        let Some(piece) = pieces.get(number) else {
            continue;
        };
        if let Some(hop) = expired_hop(piece, now) {
            let ia = hop.ia;
            let last = expiry(piece.segment.timestamp(), hop.exp_time) / 2;
            return format!(in alloc; ": {ia} in piece {number} was live up to second {last}");
        }
    }
    Ok(String::new(alloc))
}

/// Whether the link by which a hop leaves its AS is down.
fn is_down(topology: &Topology, hop: &WalkHop) -> bool {
    let Some(place) = topology.link_place(hop.ia, hop.egress) else {
        return false;
    };
    match topology.links().get(place) {
        Some(link) => !link.up,
        None => false,
    }
}

/// The links of a path that are down, each by the end at which a packet comes to it: the router
/// there would refuse it.
fn down_text(alloc: Global, topology: &Topology, walk: &[WalkHop]) -> Result<String, AllocError> {
    let mut text = String::new(alloc);
    for hop in walk {
        if is_down(topology, hop) {
            let (ia, number) = (hop.ia, hop.egress);
            write!(text, "; link {ia}#{number} is down")?;
        }
    }
    Ok(text)
}

/// Whether a packet may be sent at this second on a path of these pieces: the verifier's answer,
/// of an expired path also the hop, and of one that is accepted the links that are down.
fn sending_text(
    alloc: Global,
    verified: Result<VerifiedPath<'_, '_, Global>, VerifyFault>,
    topology: &Topology,
    pieces: &Pieces<'_>,
    now: u32,
) -> Result<String, AllocError> {
    let fault = match verified {
        Ok(path) => {
            let down = down_text(alloc, topology, path.walk())?;
            return format!(in alloc; "send: ok{}\n", down.as_str());
        }
        Err(fault) => fault,
    };
    let (code, name) = (fault.code(), fault.name());
    let hop = match fault {
        VerifyFault::Expired => expired_text(alloc, pieces, now)?,
        _ => String::new(alloc),
    };
    format!(in alloc; "send: no {code} {name}: {fault}{}\n", hop.as_str())
}

/// What is said of a way whatever the second: its pieces, its kind, its walk, and until when it is
/// live.
fn known_text(alloc: Global, way: &Given<'_>) -> Result<String, AllocError> {
    match verdict_at(way, 0) {
        Ok(path) => verified_text(alloc, &path),
        Err(_) => Ok(String::new(alloc)),
    }
}

/// The verifier's answer for a way at this second.
fn verdict_at<'a>(way: &Given<'a>, now: u32) -> Result<VerifiedPath<'a, 'a, Global>, VerifyFault> {
    verify(
        way.pieces,
        way.header,
        way.source,
        way.destination,
        now,
        way.policy,
    )
}

/// The fields of a packet without payload on a way.
fn packet_fields(alloc: Global, way: &Given<'_>) -> Result<String, AllocError> {
    let packet = frame(alloc, way.source, way.destination, way.header, &[])?;
    fields_text(alloc, &packet)
}

/// What is said of a way in a network at this second.
fn report_text(
    alloc: Global,
    topology: &Topology,
    way: &Given<'_>,
    now: u32,
) -> Result<String, AllocError> {
    let mut text = known_text(alloc, way)?;
    let sending = sending_text(alloc, verdict_at(way, now), topology, way.pieces, now)?;
    text.push_str(sending.as_str())?;
    let fields = packet_fields(alloc, way)?;
    text.push_str(fields.as_str())?;
    Ok(text)
}

/// What is said of a path of an answer in a network at this second. Its policy was that of the
/// answer's option, so here it is verified without one.
fn path_report(
    alloc: Global,
    topology: &Topology,
    path: &Path,
    now: u32,
) -> Result<Said, AllocError> {
    let [first, .., last] = path.walk() else {
        return Ok(Err(EventFault::NoAnswer));
    };
    let pieces = lend_all(path.pieces());
    let policy = Policy::any();
    let way = Given {
        source: first.ia,
        destination: last.ia,
        pieces: &pieces,
        header: path.header(),
        policy: &policy,
    };
    Ok(Ok(report_text(alloc, topology, &way, now)?))
}

/// What is said of a path in the network, if there is one.
fn answer_text(alloc: Global, net: &Net, path: Option<&Path>) -> Result<Said, AllocError> {
    match path {
        Some(path) => path_report(alloc, net.topology(), path, net.now()),
        None => Ok(Err(EventFault::NoAnswer)),
    }
}

/// What is said of the path of this number in the answer of this number, in the network after the
/// lines of a source; whether a packet may be sent on it then, and if not, the rule that is broken,
/// or else its links that are down; and the fields of such a packet, without payload.
/// [`EventFault::NoAnswer`] if there is no such path.
///
/// The faults are those of [`network_after`]; [`RunFault::Memory`] also if memory runs out for the
/// text.
pub(crate) fn answer_path<S: Source, R: Sink>(
    alloc: Global,
    source: &mut S,
    replies: &mut R,
    answer: u32,
    path: u32,
) -> Result<Said, RunFault>
    ensures { S.failed source.new ≡ (S.failed source.old || is_read_fault result) }
{
    let said = {
        let net = network_after(alloc, source, replies)?;
        answer_text(alloc, &net, path_at(&net, answer, path))
    };
    Ok(said?)
}
