//! Events of packets: turns, losses and changes.

ghost use Rattle.std.specs.Prelude.{◌<◌, IfOk, length};
ghost use Rattle.refusal.specs.Refusal.{Gives};
ghost use Rattle.network_core.specs.inner.Doing.{Does, Flies};
ghost use Rattle.network_core.specs.Step.{packet_at, turns, loses, alters};

use crate::fault::EventFault;
use crate::net::Net;
use crate::packet::Packet;
use crate::reply::Reply;
use forwarding::PacketLocation;

impl Net {
    /// The router that has the packet makes one step.
    pub(crate) fn turn(&mut self, packet: u32) -> Result<Reply, EventFault>
        ensures { Does (turns self.old packet) self.old self.new result }
    {
        let place = self.place_in_flight(packet)?;
        let turned = self.packets[place]
            .transit
            .turn(&self.topology, self.moment);
        Ok(Reply::Turned(turned))
    }

    /// A packet is lost.
    pub(crate) fn lose(&mut self, packet: u32) -> Result<Reply, EventFault>
        ensures { Does (loses self.old packet) self.old self.new result }
    {
        let place = self.place_in_flight(packet)?;
        self.packets[place].transit.lose();
        Ok(Reply::Done)
    }

    /// A byte of a packet is changed.
    pub(crate) fn alter(&mut self, packet: u32, at: u32, xor: u8) -> Result<Reply, EventFault>
        ensures { Does (alters self.old packet at xor) self.old self.new result }
    {
        let place = self.place_in_flight(packet)?;
        let at = at as usize;
        if at >= self.packets[place].bytes().len() {
            return Err(EventFault::BadOffset);
        }
        self.packets[place].transit.alter(at, xor);
        Ok(Reply::Done)
    }

    /// The packet of a number.
    pub(crate) fn packet_numbered(&self, packet: u32) -> Result<&Packet, EventFault>
        ensures { Gives (λ p. p.now) result (packet_at self.now packet) }
    {
        self.packets
            .get(packet as usize)
            .ok_or(EventFault::NoPacket)
    }

    /// The place in the list of a packet that is in flight.
    fn place_in_flight(&self, packet: u32) -> Result<usize, EventFault>
        ensures judged { Flies self.now packet result }
        ensures place { IfOk result (λ place. place < length self.now.packets) }
    {
        let one = self.packet_numbered(packet)?;
        match one.place() {
            PacketLocation::AtRouter(_) => Ok(packet as usize),
            _ => Err(EventFault::NotInFlight),
        }
    }
}
