//! The datagrams of a line of a run.

ghost use Rattle.std.specs.Prelude.{◌≡◌, ◌++◌, flat_map, length, option_map, slice_get, OnOk};
ghost use Rattle.wire_packets.specs.Datagram.{hop_between, hosts_station, router_station, sent_as};
ghost use Rattle.wire_packets.specs.File.{datagram_record};
ghost use Rattle.run_capture.specs.Lines.{departed, departed_to, moved, moved_to};
ghost use Rattle.wire_packets.specs.Wrapped.{wrapped};

use forwarding::{PacketLocation, RouterStop};
use network_core::{Net, Packet};
use scion_packet::PacketInfo;
use std::alloc::{AllocError, Global};
use wire_packets::{Hop, Station, push_datagram};

/// How datagrams are written: what their packets say besides, and the network after the line.
#[derive(Clone, Copy)]
pub(crate) struct Hops<'a> {
    pub(crate) alloc: Global,
    pub(crate) info: &'a PacketInfo,
    pub(crate) net: &'a Net,
}

impl<'a> Hops<'a> {
    /// Adds the datagram of a frame on this way, if it has a path header.
    fn push_sent(
        &self,
        file: &mut Vec<u8>,
        from: Station,
        to: Station,
        frame: &[u8],
    ) -> Result<(), AllocError>
        ensures { OnOk result (file.new.items ≡ file.old.items ++ flat_map datagram_record
            (sent_as (hop_between self.now.net.now.moment from to)
            (wrapped self.now.info.now frame.now))) }
    {
        let hop = Hop {
            moment: self.net.now(),
            from,
            to,
        };
        push_datagram(self.alloc, file, hop, self.info, frame)
    }

    /// Adds the datagram of a packet that a host has just sent, if there is one.
    pub(crate) fn push_departed(
        &self,
        file: &mut Vec<u8>,
        packet: Option<&Packet>,
    ) -> Result<(), AllocError>
        ensures { OnOk result (file.new.items ≡ file.old.items ++ flat_map datagram_record
            (departed self.now.info.now self.now.net.now (option_map (λ p. p.now) packet.entry))) }
    {
        let Some(packet) = packet else {
            return Ok(());
        };
        let topology = self.net.topology();
        match packet.place() {
            PacketLocation::AtRouter(to) => {
                let from = Station::hosts(topology, to.ia);
                let to = Station::router(topology, to.ia, to.router);
                self.push_sent(file, from, to, packet.bytes())
            }
            _ => Ok(()),
        }
    }

    /// Adds the datagram from a router to where its packet is now.
    fn push_moved_to(
        &self,
        file: &mut Vec<u8>,
        from: RouterStop,
        packet: &Packet,
    ) -> Result<(), AllocError>
        ensures { OnOk result (file.new.items ≡ file.old.items ++ flat_map datagram_record
            (moved_to self.now.info.now self.now.net.now from packet.now.packet
            packet.now.packet.place)) }
    {
        let topology = self.net.topology();
        let router = Station::router(topology, from.ia, from.router);
        match packet.place() {
            PacketLocation::AtRouter(to) => {
                let next = Station::router(topology, to.ia, to.router);
                self.push_sent(file, router, next, packet.bytes())
            }
            PacketLocation::Delivered => {
                let hosts = Station::hosts(topology, from.ia);
                self.push_sent(file, router, hosts, packet.bytes())
            }
            _ => Ok(()),
        }
    }

    /// Adds the datagram of a packet that was there before its turn.
    pub(crate) fn push_moved(
        &self,
        file: &mut Vec<u8>,
        before: Option<PacketLocation>,
        packet: Option<&Packet>,
    ) -> Result<(), AllocError>
        ensures { OnOk result (file.new.items ≡ file.old.items ++ flat_map datagram_record
            (moved self.now.info.now self.now.net.now before
            (option_map (λ p. p.now) packet.entry))) }
    {
        match (before, packet) {
            (Some(PacketLocation::AtRouter(from)), Some(packet)) => {
                self.push_moved_to(file, from, packet)
            }
            _ => Ok(()),
        }
    }
}
