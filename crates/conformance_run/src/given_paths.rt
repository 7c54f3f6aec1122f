//! Packets that are sent by a given way: over a segment that the network issued, and over one that
//! nobody issued.

use crate::row::authenticators;
use forwarding::TurnReply;
use network_core::{Event, Given, Net, Reply};
use path_header::Header;
use path_segment::{SegKind, Segment};
use path_verifier::Pieces;
use policy_expr::Policy;
use refusal::NumberedFault;
use router_step::Outcome;
use scion_topology::Topology;
use std::alloc::{AllocError, Global};
use std::test::Fail;
use worked::{at, entry, header_of, pieces_of, row};

/// A segment of the row, made at second 1000 with accumulator 4660 and these authenticators.
fn segment(alloc: Global, macs: [[u8; 6]; 3]) -> Result<Segment, Fail> {
    let entries = vec![in alloc;
        entry(at(1, 0x110), 0, 1, macs[0]),
        entry(at(1, 0x111), 1, 2, macs[1]),
        entry(at(1, 0x112), 1, 0, macs[2]),
    ]?;
    Ok(Segment::new(SegKind::Intra, 1000, 4660, entries)?)
}

/// The segment that the row's ASes issue at second 1000 with accumulator 4660.
fn issued_segment(alloc: Global) -> Result<Segment, Fail> {
    segment(alloc, authenticators())
}

/// The event that sends a packet from 1-ff00:0:112 to 1-ff00:0:110 by this way.
fn sending<'x>(
    pieces: &'x Pieces<'x>,
    header: &'x Header,
    policy: &'x Policy<Global>,
    payload: &'x [u8],
) -> Option<Event<'x>> {
    let way = Given {
        source: at(1, 0x112),
        destination: at(1, 0x110),
        pieces,
        header,
        policy,
    };
    Some(Event::SendGiven { way, payload })
}

/// The code of a router's outcome: 1,000 more than the interface if it is over a link.
fn code_of_outcome(outcome: Outcome) -> u16 {
    match outcome {
        Outcome::ToLink(way_out) => way_out.0.saturating_add(1000),
        Outcome::ToRouter(_) => 2,
        Outcome::Deliver => 3,
    }
}

/// The code of a reply: 0 if the event was done or sent a packet, 4 if the packet was at no router,
/// or the code of the refusal, by the event or by a router.
fn code_of(reply: Reply) -> u16 {
    match reply {
        Reply::Refused(fault) => fault.code(),
        Reply::Turned(TurnReply::Refused(refusal)) => refusal.code(),
        Reply::Turned(_) => 4,
        _ => 0,
    }
}

/// Does an event and returns the code of its reply: 1,000 more than the interface if the packet
/// went over a link, 2 if it went to a router of its AS, 3 if it was delivered; else that of
/// [`code_of`].
pub(crate) fn step(alloc: Global, net: &mut Net, event: &Event<'_>) -> Result<u16, AllocError> {
    let reply = net.step(alloc, event)?;
    if let Reply::Turned(TurnReply::Went(outcome)) = reply {
        return Ok(code_of_outcome(outcome));
    }
    Ok(code_of(reply))
}

/// Sets the accumulator of the first info field.
fn set_first(header: &mut Header, seg_id: u16) {
    if header.info_count() > 0 {
        header.set_seg_id(0, seg_id);
    }
}

/// The codes of the replies to sending a packet over this segment and to its three turns; the
/// header has this accumulator in place of its own, if one is given.
fn answers(alloc: Global, segment: &Segment, other: Option<u16>) -> Result<[u16; 4], Fail> {
    let topology = Topology::from_json(alloc, row().as_bytes())?;
    let mut net = Net::new(alloc, topology);
    step(alloc, &mut net, &Event::Tick { now: 1000 })?;
    let pieces = pieces_of(&[(segment, 0, false)])?;
    let mut header = header_of(alloc, [3, 0, 0], &[(segment, 0, false)])?;
    if let Some(seg_id) = other {
        set_first(&mut header, seg_id);
    }
    let policy = Policy::any();
    let sent = match sending(&pieces, &header, &policy, b"hi") {
        Some(event) => step(alloc, &mut net, &event)?,
        None => u16::MAX,
    };
    let turn = Event::Turn { packet: 0 };
    Ok([
        sent,
        step(alloc, &mut net, &turn)?,
        step(alloc, &mut net, &turn)?,
        step(alloc, &mut net, &turn)?,
    ])
}

#[test]
fn what_was_issued_arrives(rt: HostRuntime) -> Result<(), Fail> {
    let issued = issued_segment(rt.alloc())?;
    assert_eq!(rt; answers(rt.alloc(), &issued, None)?, [0, 1001, 1001, 3]);
    Ok(())
}

#[test]
fn another_accumulator_is_refused(rt: HostRuntime) -> Result<(), Fail> {
    let issued = issued_segment(rt.alloc())?;
    assert_eq!(rt;
        answers(rt.alloc(), &issued, Some(0x1234))?,
        [80, 130, 130, 130]
    );
    Ok(())
}

#[test]
fn what_nobody_issued_does_not_arrive(rt: HostRuntime) -> Result<(), Fail> {
    let made_up = segment(rt.alloc(), [[1; 6], [2; 6], [3; 6]])?;
    assert_eq!(rt; answers(rt.alloc(), &made_up, None)?, [0, 94, 131, 131]);
    Ok(())
}
