ghost use Rattle.std.specs.Prelude.{◌≡◌, IfOk, OnErr, option_map, slice_get};
ghost use Rattle.network_core.specs.Delivery.{IsFramed};
ghost use Rattle.network_core.specs.inner.Doing.{DoesEvent, KeepsPacket};
ghost use Rattle.network_core.specs.Event.{event_value};
ghost use Rattle.network_core.specs.Step.{Step, TakesMemory};
ghost use Rattle.network_core.specs.Value.{new_net};

use crate::answer::Answer;
use crate::event::Event;
use crate::fault::EventFault;
use crate::packet::Packet;
use crate::reply::Reply;
use crate::sent::Sent;
use combinator::PathList;
use path_segment::Beacon;
use path_server::PathStore;
use refusal::OrMemory;
use scion_topology::Topology;
use std::alloc::{AllocError, Global};
use std::marker::Model;
use std::sync::Arc;

/// A network of one process: its topology, the current second, the beacons that were made in it,
/// its path store, the answers that were given in it, and the packets that were sent.
#[derive(Drop)]
pub struct Net {
    pub(crate) topology: Topology,
    pub(crate) moment: u32,
    pub(crate) beacons: Vec<Beacon>,
    pub(crate) store: PathStore,
    pub(crate) answers: Vec<Arc<Answer>>,
    pub(crate) packets: Vec<Packet>,
}

impl Model for Net {
    ghost use Rattle.std.specs.Prelude.{map};
    ghost use Rattle.std.specs.Arc.{arc_value};
    ghost use Rattle.policy_expr.specs.Code.{policy_codes};
    ghost use Rattle.network_core.specs.Value.{NetValue};

    ghost Value = { NetValue };

    ghost coded = { Prim.hlevel policy_codes };

    ghost view = { λ n. record {
      network = n.topology;
      moment = n.moment;
      beacons = n.beacons.items;
      segments = n.store;
      answers = map arc_value n.answers.items;
      packets = n.packets.items;
    } };
}

/// Why an event was not done: memory ran out, or it is refused.
pub(crate) type EventError = OrMemory<EventFault>;

impl Net {
    /// The network of a topology at second 0, with nothing in it.
    pub fn new(alloc: Global, topology: Topology) -> Net
        ensures { result ≡ new_net topology }
    {
        Net {
            topology,
            moment: 0,
            beacons: Vec::new(alloc),
            store: PathStore::new(alloc),
            answers: Vec::new(alloc),
            packets: Vec::new(alloc),
        }
    }

    /// The topology.
    pub fn topology(&self) -> &Topology
        ensures { result.now ≡ self.now.network }
    {
        &self.topology
    }

    /// The current second.
    pub fn now(&self) -> u32
        ensures { result ≡ self.now.moment }
    {
        self.moment
    }

    /// The beacons, by their numbers.
    pub fn beacons(&self) -> &[Beacon]
        ensures { result.now ≡ self.now.beacons }
    {
        &self.beacons
    }

    /// The path store.
    pub fn store(&self) -> &PathStore
        ensures { result.now ≡ self.now.segments }
    {
        &self.store
    }

    /// The answer of this number, if there is one: its paths, and the option that was used.
    pub fn answer(&self, number: usize) -> Option<&PathList>
        ensures { option_map (λ list. list.now) result
            ≡ option_map (λ one. one.answer) (slice_get self.now.answers number) }
    {
        match self.answers.get(number) {
            None => None,
            Some(answer) => Some(&answer.paths),
        }
    }

    /// The packets, by their numbers.
    pub fn packets(&self) -> &[Packet]
        ensures { result.now ≡ self.now.packets }
    {
        &self.packets
    }

    /// The packet of this number, if there is one: its shipment, and where it is.
    pub fn packet(&self, number: usize) -> Option<&Packet>
        ensures { option_map (λ p. p.now) result ≡ slice_get self.now.packets number }
    {
        self.packets.get(number)
    }

    /// The shipment of the packet of this number, if there is one.
    pub fn sent(&self, number: usize) -> Option<&Sent>
        ensures { option_map (λ sent. sent.now) result
            ≡ option_map (λ p. p.sent) (slice_get self.now.packets number) }
    {
        match self.packets.get(number) {
            None => None,
            Some(packet) => Some(packet.sent()),
        }
    }

    /// Does one event, and returns its reply. An event that is refused changes nothing. Running out
    /// of memory changes nothing either, and is possible only if the event makes a beacon, an
    /// answer or a packet and is not refused, or makes a segment, which the store may still refuse.
    ///
    /// The time grows with the entries of the beacon that the event names, with the stored segments
    /// if one is registered or the store is swept, and with the bytes of the packet that it names.
    /// A request for paths takes the time of [`combinator::combine`] over the segments that may
    /// lead there.
    pub fn step(&mut self, alloc: Global, event: &Event<'_>) -> Result<Reply, AllocError>
        ensures step { IfOk result (λ reply. Step self.old (event_value event.now) reply self.new) }
        // Both addresses of what the event sent, and the numbers of the header, fit into their
        // bits.
        ensures framed { IfOk result (λ reply. IsFramed (event_value event.now) reply self.new) }
        ensures short { OnErr result (TakesMemory self.old (event_value event.now)) }
        ensures kept { OnErr result (self.new ≡ self.old) }
    {
        match self.attempt(alloc, event) {
            Ok(reply) => Ok(reply),
            Err(OrMemory::Refused(fault)) => Ok(Reply::Refused(fault)),
            Err(OrMemory::Memory) => Err(AllocError),
        }
    }

    /// Does an event, or returns why it was not done.
    fn attempt(&mut self, alloc: Global, event: &Event<'_>) -> Result<Reply, EventError>
        ensures { DoesEvent self.old (event_value event.now) self.new result }
    {
        match event {
            Event::Tick { now } => Ok(self.tick(*now)?),
            Event::Originate { ia, egress, beta0 } => self.originate(alloc, *ia, *egress, *beta0),
            Event::Extend { beacon, ia, egress } => self.extend(alloc, *beacon, *ia, *egress),
            Event::Terminate { beacon, ia } => self.terminate(alloc, *beacon, *ia),
            Event::Sweep => Ok(self.sweep()),
            Event::Ask {
                src,
                dst,
                options,
                limit,
            } => self.ask(alloc, *src, *dst, options, *limit),
            Event::Send { ask, path, payload } => self.send(alloc, *ask, *path, payload),
            Event::SendGiven { way, payload } => self.send_over(alloc, way, payload),
            Event::Turn { packet } => Ok(self.turn(*packet)?),
            Event::Lose { packet } => Ok(self.lose(*packet)?),
            Event::Alter { packet, at, xor } => Ok(self.alter(*packet, *at, *xor)?),
            Event::Back { packet, payload } => self.back(alloc, *packet, payload),
            Event::CutLink { ia, interface } => Ok(self.cut_link(*ia, *interface)?),
            Event::MendLink { ia, interface } => Ok(self.mend_link(*ia, *interface)?),
            Event::RotateKey { ia, key } => Ok(self.rotate_key(*ia, key)?),
        }
    }
}

impl Net {
    /// Adds a packet that is ready to be sent.
    pub(crate) fn keep_packet(&mut self, packet: Packet) -> Result<Reply, EventError>
        ensures { KeepsPacket packet self.old self.new result }
    {
        let number = self.packets.len();
        self.packets.push(packet)?;
        Ok(Reply::Sent(number))
    }
}
