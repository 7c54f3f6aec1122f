ghost use Rattle.std.specs.Prelude.{◌≡◌};

use crate::fault::PacketFault;
use crate::host::HostAddress;
use crate::layout::FLOW_BITS;
use isd_as::IsdAs;
use path_header::Header;
use std::marker::Model;

/// What a packet says besides the addresses of its ASes, its path header and its payload.
#[derive(Clone, Debug, Drop, PartialEq, Eq)]
pub struct PacketInfo {
    traffic_class: u8,
    flow_id: u32,
    next_header: u8,
    reserved: u16,
    destination_host: HostAddress,
    source_host: HostAddress,
}

impl Model for PacketInfo {
    ghost use Rattle.std.specs.Prelude.{◌^◌, ◌<◌};
    ghost use Rattle.scion_packet.specs.Value.{HostAddressValue, PacketInfoValue};

    ghost Value = { PacketInfoValue };

    ghost view = { λ p. record {
      traffic_class = p.traffic_class;
      flow_id = p.flow_id;
      next_header = p.next_header;
      reserved = p.reserved;
      destination_host = p.destination_host;
      source_host = p.source_host;
    } };

    ghost invariant = { λ p. p.flow_id < 2 ^ 20 };

    ghost inverse = { λ v. record {
      traffic_class = v.traffic_class;
      flow_id = v.flow_id;
      next_header = v.next_header;
      reserved = v.reserved;
      destination_host = v.destination_host;
      source_host = v.source_host;
    } };
}

impl PacketInfo {
    ghost use Rattle.std.specs.Prelude.{◌≡◌, ◌^◌, ◌<◌, ◌↔◌, IsOk, IfOk, IfErr};
    ghost use Rattle.scion_packet.specs.Reply.{reply_info};
    ghost use Rattle.scion_packet.specs.Spelling.{FitsInfo};

    /// The information of these values, with reserved bytes of 0: [`PacketFault::BadField`] if the
    /// flow is not below 2^20.
    pub fn new(
        traffic_class: u8,
        flow_id: u32,
        next_header: u8,
        destination_host: HostAddress,
        source_host: HostAddress,
    ) -> Result<PacketInfo, PacketFault>
        ensures fits { IsOk result ↔ (flow_id < 2 ^ 20) }
        ensures value { IfOk result (λ info. info ≡ record {
          traffic_class = traffic_class;
          flow_id = flow_id;
          next_header = next_header;
          reserved = 0;
          destination_host = destination_host;
          source_host = source_host;
        }) }
        ensures err { IfErr result (λ fault. fault ≡ PacketFault.BadField) }
    {
        if flow_id >> FLOW_BITS > 0 {
            return Err(PacketFault::BadField);
        }
        Ok(PacketInfo::of(
            traffic_class,
            flow_id,
            next_header,
            0,
            destination_host,
            source_host,
        ))
    }

    /// The information of these values.
    pub(crate) fn of(
        traffic_class: u8,
        flow_id: u32,
        next_header: u8,
        reserved: u16,
        destination_host: HostAddress,
        source_host: HostAddress,
    ) -> PacketInfo
        requires { flow_id < 2 ^ 20 }
        ensures { result ≡ record {
          traffic_class = traffic_class;
          flow_id = flow_id;
          next_header = next_header;
          reserved = reserved;
          destination_host = destination_host;
          source_host = source_host;
        } }
    {
        PacketInfo {
            traffic_class,
            flow_id,
            next_header,
            reserved,
            destination_host,
            source_host,
        }
    }

    /// The same with these two reserved bytes, as a number.
    pub fn with_reserved(self, reserved: u16) -> PacketInfo
        ensures { result ≡ record self { reserved = reserved } }
    {
        PacketInfo { reserved, ..self }
    }

    /// The information of a reply: the same with both hosts exchanged.
    pub fn into_reply(self) -> PacketInfo
        ensures { result ≡ reply_info self }
    {
        PacketInfo {
            destination_host: self.source_host,
            source_host: self.destination_host,
            ..self
        }
    }

    /// The traffic class.
    pub fn traffic_class(&self) -> u8
        ensures { result ≡ self.now.traffic_class }
    {
        self.traffic_class
    }

    /// The flow, below 2^20.
    pub fn flow_id(&self) -> u32
        ensures value { result ≡ self.now.flow_id }
        ensures bound { result < 2 ^ 20 }
    {
        self.flow_id
    }

    /// The number of the protocol with which the payload begins.
    pub fn next_header(&self) -> u8
        ensures { result ≡ self.now.next_header }
    {
        self.next_header
    }

    /// Two bytes without a meaning, as a number; they are kept.
    pub fn reserved(&self) -> u16
        ensures { result ≡ self.now.reserved }
    {
        self.reserved
    }

    /// The address of the destination host.
    pub fn destination_host(&self) -> &HostAddress
        ensures { result.now ≡ self.now.destination_host }
    {
        &self.destination_host
    }

    /// The address of the source host.
    pub fn source_host(&self) -> &HostAddress
        ensures { result.now ≡ self.now.source_host }
    {
        &self.source_host
    }

    /// Does nothing; its contract tells the caller that the numbers fit into their bits.
    pub fn known(&self)
        ensures { FitsInfo self.now }
    {
        let _class = self.traffic_class;
        let _flow = self.flow_id;
        let _next = self.next_header;
        let _reserved = self.reserved;
        let _destination = self.destination_host.bytes();
        let _source = self.source_host.bytes();
    }
}

/// A whole packet.
#[derive(Drop)]
pub struct WholePacket<'a> {
    /// What it says besides.
    pub info: PacketInfo,
    /// The address of the destination AS.
    pub destination: IsdAs,
    /// The address of the source AS.
    pub source: IsdAs,
    /// The path header.
    pub header: Header,
    /// The payload, with the headers of extensions and of upper layers.
    pub payload: &'a [u8],
}

impl<'a> Model for WholePacket<'a> {
    ghost use Rattle.scion_packet.specs.Value.{PacketInfoValue, WholePacketValue};

    ghost Value = { WholePacketValue };

    ghost view = { λ p. record {
      info = p.info;
      destination = p.destination;
      source = p.source;
      header = p.header;
      payload = p.payload.now;
    } };
}
