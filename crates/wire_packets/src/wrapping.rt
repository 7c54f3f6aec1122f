//! A packet of a network as a whole packet.
#![tactic(auto, unfolding(crate::specs::Wrapped::parts_in))]

ghost use Rattle.std.specs.Prelude.{◌≡◌, ◌^◌, ◌<◌, ◌≤◌, length, IfOk, OnOk};
ghost use Rattle.refusal.specs.Refusal.{Gives};
ghost use Rattle.router_step.specs.Packet.{destination_of, source_of};
ghost use Rattle.scion_packet.specs.Value.{packet_len};
ghost use Rattle.scion_packet.specs.Spelling.{SpellsPacket};
ghost use Rattle.wire_packets.specs.Wrapped.{Wraps, parts_in, wrapped};

use path_header::{Header, HeaderFault, decode};
use refusal::OrMemory;
use router_step::{ADDRESSES_LEN, destination_in, source_in};
use scion_packet::{PacketFault, PacketInfo, WholePacket, write};
use std::alloc::{AllocError, Global};

/// The largest payload of a whole packet.
const MAX_PAYLOAD: usize = 65_535;

/// The path header and the payload of this frame.
pub(crate) fn parts_in(frame: &[u8]) -> Result<(Header, &[u8]), PacketFault>
    ensures value { Gives (λ parts. (parts.0, parts.1.now)) result (parts_in frame.now) }
    ensures addresses { OnOk result (16 ≤ length frame.now) }
    ensures payload { IfOk result (λ parts. length parts.1.now ≤ 65535) }
{
    if frame.len() < ADDRESSES_LEN {
        return Err(PacketFault::BadHeader(HeaderFault::Short));
    }
    let (_, rest) = frame.split_at(ADDRESSES_LEN);
    let (header, len) = match decode(rest) {
        Ok(front) => front,
        Err(fault) => return Err(PacketFault::BadHeader(fault)),
    };
    let (_, payload) = frame.split_at(ADDRESSES_LEN + len);
    if payload.len() > MAX_PAYLOAD {
        return Err(PacketFault::PayloadTooLarge);
    }
    Ok((header, payload))
}

/// The bytes of the whole packet of this frame with these parts.
pub(crate) fn spelled(
    alloc: Global,
    info: &PacketInfo,
    frame: &[u8],
    header: Header,
    payload: &[u8],
) -> Result<Vec<u8>, AllocError>
    requires addresses { 16 ≤ length frame.now }
    requires payload { length payload.now ≤ 65535 }
    ensures spells { IfOk result (λ bytes. SpellsPacket bytes.items (record {
      info = info.now;
      destination = destination_of frame.now;
      source = source_of frame.now;
      header = header;
      payload = payload.now;
    })) }
    ensures bound { IfOk result (λ bytes. length bytes.items < 2 ^ 17) }
{
    let packet = WholePacket {
        info: info.clone()?,
        destination: destination_in(frame),
        source: source_in(frame),
        header,
        payload,
    };
    spell(alloc, &packet)
}

/// The length of a whole packet.
fn packet_len(packet: &WholePacket<'_>) -> usize
    ensures value { result ≡ packet_len packet.now }
    ensures bound { length packet.now.payload ≤ 65535 → result < 2 ^ 17 }
{
    let destination = packet.info.destination_host().bytes();
    let source = packet.info.source_host().bytes();
    let front = 28 + destination.len() + source.len();
    front + packet.header.encoded_len() + packet.payload.len()
}

/// The bytes of a whole packet.
fn spell(alloc: Global, packet: &WholePacket<'_>) -> Result<Vec<u8>, AllocError>
    requires { length packet.now.payload ≤ 65535 }
    ensures spells { IfOk result (λ bytes. SpellsPacket bytes.items packet.now) }
    ensures bound { IfOk result (λ bytes. length bytes.items < 2 ^ 17) }
{
    let len = packet_len(packet);
    let mut bytes = vec![in alloc; 0; len]?;
    let _len = write(packet, &mut bytes).unwrap();
    Ok(bytes)
}

/// The bytes of the whole packet with the addresses, the path header and the payload of this frame,
/// which says besides what `info` says.
///
/// [`PacketFault::BadHeader`] if the frame has no path header, [`PacketFault::PayloadTooLarge`] if
/// its payload has more than 65,535 bytes. Memory runs out only for a frame that is not refused.
pub fn wrap(
    alloc: Global,
    info: &PacketInfo,
    frame: &[u8],
) -> Result<Vec<u8>, OrMemory<PacketFault>>
    ensures { Wraps result (wrapped info.now frame.now) }
{
    let (header, payload) = match parts_in(frame) {
        Ok(parts) => parts,
        Err(fault) => return Err(OrMemory::Refused(fault)),
    };
    Ok(spelled(alloc, info, frame, header, payload)?)
}
