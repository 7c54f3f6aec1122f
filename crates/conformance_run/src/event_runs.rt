//! A run of events over three ASes in a row: a packet goes from the last to the first.

use crate::given_paths::step;
use forwarding::PacketLocation;
use isd_as::IfId;
use network_core::{Event, Net, Packet, Sent, Stopped, run};
use policy_expr::{OptionText, WalkHop};
use refusal::OrMemory;
use refusing::Shortage;
use scion_topology::Topology;
use std::alloc::{AllocError, Global};
use std::process::Abort;
use std::test::Fail;
use worked::{at, hop, option_text, row};

/// The events: a segment is made and registered, a path is asked for, and a packet is sent by it.
/// It has its three turns, and a fourth turn finds it delivered.
fn events<'x>(options: &'x [OptionText<'x>]) -> [Event<'x>; 10] {
    [
        Event::Tick { now: 1000 },
        Event::Originate {
            ia: at(1, 0x110),
            egress: IfId(1),
            beta0: 4660,
        },
        Event::Extend {
            beacon: 0,
            ia: at(1, 0x111),
            egress: IfId(2),
        },
        Event::Terminate {
            beacon: 1,
            ia: at(1, 0x112),
        },
        Event::Ask {
            src: at(1, 0x112),
            dst: at(1, 0x110),
            options,
            limit: 4,
        },
        Event::Send {
            ask: 0,
            path: 0,
            payload: b"hi",
        },
        Event::Turn { packet: 0 },
        Event::Turn { packet: 0 },
        Event::Turn { packet: 0 },
        Event::Turn { packet: 0 },
    ]
}

/// The topology of the row.
fn topology(alloc: Global, shortage: &Shortage) -> Option<Topology> {
    match Topology::from_json(alloc, row().as_bytes()) {
        Ok(topology) => Some(topology),
        Err(OrMemory::Refused(_)) => None,
        Err(OrMemory::Memory) => {
            if shortage.may_want() {
                return Topology::from_json(alloc, row().as_bytes()).ok();
            }
            None
        }
    }
}

/// The network after the events. If memory runs out at one of them, that event and all later ones
/// are done again in the network that was returned.
pub(crate) fn network(alloc: Global, shortage: &Shortage) -> Option<Net> {
    let any = [option_text(None, None, 0)];
    let events = events(&any);
    let Stopped { mut net, done } = match run(alloc, topology(alloc, shortage)?, &events) {
        Ok(net) => return Some(net),
        Err(stopped) => stopped,
    };
    if !shortage.may_want() {
        return None;
    }
    for event in events.iter().skip(done) {
        step(alloc, &mut net, event).ok()?;
    }
    Some(net)
}

/// The hops from the last AS to the first.
fn walk() -> [WalkHop; 3] {
    [
        hop(at(1, 0x112), 0, 1),
        hop(at(1, 0x111), 2, 1),
        hop(at(1, 0x110), 1, 0),
    ]
}

/// Asserts that the packet was delivered over these hops.
pub(crate) fn expect_delivered(rt: &impl Abort, packet: &Packet) {
    assert_eq!(rt; packet.place(), PacketLocation::Delivered);
    assert_eq!(rt; packet.passed(), walk().as_slice());
}

/// Asserts that this was sent from the last AS to the first.
fn expect_sent(rt: &impl Abort, sent: &Sent) {
    assert_eq!(rt; sent.source(), at(1, 0x112));
    assert_eq!(rt; sent.destination(), at(1, 0x110));
    assert_eq!(rt; sent.pieces().len(), 1);
    assert_eq!(rt; sent.header().hop_count(), 3);
    assert_eq!(rt; sent.payload(), b"hi".as_slice());
}

#[test]
fn a_run_delivers_its_packet(rt: HostRuntime) -> Result<(), Fail> {
    let shortage = Shortage::new();
    let net = network(rt.alloc(), &shortage).ok_or(AllocError)?;
    shortage.tell(&rt);
    assert!(rt; net.now() == 1000);
    assert!(rt; net.packets().len() == 1);
    expect_delivered(&rt, net.packet(0).ok_or(AllocError)?);
    Ok(())
}

#[test]
fn what_was_sent_is_kept(rt: HostRuntime) -> Result<(), Fail> {
    let shortage = Shortage::new();
    let net = network(rt.alloc(), &shortage).ok_or(AllocError)?;
    shortage.tell(&rt);
    expect_sent(&rt, net.sent(0).ok_or(AllocError)?);
    assert!(rt; net.sent(1).is_none());
    Ok(())
}
