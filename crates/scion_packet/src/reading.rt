//! Reading a whole packet.

ghost use Rattle.std.specs.Prelude.{◌≡◌, ◌<◌, ◌≤◌, length, slice_index, Ok, IfOk, OnOk};
ghost use Rattle.scion_packet.specs.Value.{WholePacketValue};
ghost use Rattle.scion_packet.specs.Spelling.{SpellsPacket};
ghost use Rattle.scion_packet.specs.Layout.{path_place};
ghost use Rattle.scion_packet.specs.Reading.{packet_info_in, whole_packet_at};

use crate::checking::{check_headers, host_lens};
use crate::fault::PacketFault;
use crate::host::HostAddress;
use crate::layout::{COMMON_LEN, FLOW_BITS, HOST_TYPES, HOSTS_START, NEXT_HEADER, RESERVED};
use crate::packet::{PacketInfo, WholePacket};
use path_header::Header;
use router_step::{destination_in, source_in};

/// The whole packet that these bytes are, whose payload stays borrowed.
///
/// The first refusal of these: [`PacketFault::ShortPacket`] for fewer than 12 bytes,
/// [`PacketFault::BadVersion`], [`PacketFault::BadPathType`], [`PacketFault::ShortPacket`] if the
/// addresses don't fit, [`PacketFault::BadHeader`] with the refusal of [`path_header::decode`],
/// [`PacketFault::BadHeaderLength`], [`PacketFault::BadPayloadLength`].
pub fn read(packet: &[u8]) -> Result<WholePacket<'_>, PacketFault>
    // The bytes are the spelling of the packet that is returned.
    ensures found { IfOk result (λ p. SpellsPacket packet.now p) }
    // If the bytes are the spelling of a packet, it is returned.
    ensures only { (v : WholePacketValue) → SpellsPacket packet.now v → result ≡ Ok v }
    // The exact result, with its refusal.
    ensures exact { result ≡ whole_packet_at packet.now }
    // The path header begins within the bytes.
    ensures place { OnOk result (path_place packet.now ≤ length packet.now) }
{
    let place = check_headers(packet)?;
    // This comes before the path header, so that LLVM moves the header only once.
    let info = info_in(packet);
    let (_, rest) = packet.split_at(place);
    let header = Header::checked(rest);
    let (_, payload) = rest.split_at(header.encoded_len());
    let (_, addresses) = packet.split_at(COMMON_LEN);
    Ok(WholePacket {
        info,
        destination: destination_in(addresses),
        source: source_in(addresses),
        header,
        payload,
    })
}

/// What the packet says besides both ASes, the path header and the payload.
fn info_in(packet: &[u8]) -> PacketInfo
    requires place { path_place packet.now ≤ length packet.now }
    requires version { slice_index packet.now 0 < 16 }
    ensures { result ≡ packet_info_in packet.now }
{
    let word = u32::from_be_bytes([packet[0], packet[1], packet[2], packet[3]]);
    let types = packet[HOST_TYPES];
    let (destination_len, source_len) = host_lens(packet);
    let (_, hosts) = packet.split_at(HOSTS_START);
    let (destination, _) = hosts.split_at(destination_len);
    let (_, behind) = packet.split_at(HOSTS_START + destination_len);
    let (source, _) = behind.split_at(source_len);
    PacketInfo::of(
        (word >> FLOW_BITS) as u8,
        word % (1 << FLOW_BITS),
        packet[NEXT_HEADER],
        u16::from_be_bytes([packet[RESERVED], packet[RESERVED + 1]]),
        HostAddress::of(types / 64, destination),
        HostAddress::of(types / 4 % 4, source),
    )
}
