//! Writing a whole packet.

ghost use Rattle.std.specs.Prelude.{◌≡◌, ◌+◌, ◌^◌, ◌<◌, ◌≤◌, ◌++◌, length, take, drop, IfOk, OnErr};
ghost use Rattle.path_header.specs.Value.{header_len};
ghost use Rattle.path_header.specs.Spelling.{SpellsHeader};
ghost use Rattle.scion_packet.specs.Value.{headers_len, packet_len};
ghost use Rattle.scion_packet.specs.Spelling.{host_bits, front_of, FitsInfo, SpellsPacket};
ghost use Rattle.scion_packet.specs.Writing.{written_len};

use crate::fault::PacketFault;
use crate::host::HostAddress;
use crate::layout::{COMMON_LEN, FLOW_BITS, HOSTS_START, LENGTH_UNIT, MAX_PAYLOAD, SCION_PATH};
use crate::packet::WholePacket;
use path_header::{Header, encode};

/// Writes the bytes of this packet to the front of the room, and returns their number.
///
/// The bytes behind them stay as they were. [`PacketFault::PayloadTooLarge`] if the payload has
/// more than 65,535 bytes, then [`PacketFault::RoomTooSmall`] if the packet does not fit; the room
/// stays as it was then.
pub fn write(packet: &WholePacket<'_>, room: &mut [u8]) -> Result<usize, PacketFault>
    // The exact length, or the refusal.
    ensures exact { result ≡ written_len packet.now (length room.old) }
    // The bytes up to the returned length are the spelling of the packet.
    ensures spelled { IfOk result (λ n. SpellsPacket (take n room.new) packet.now) }
    ensures rest { IfOk result (λ n. drop n room.new ≡ drop n room.old) }
    ensures err { OnErr result (room.new ≡ room.old) }
{
    if packet.payload.len() > MAX_PAYLOAD {
        return Err(PacketFault::PayloadTooLarge);
    }
    let place = path_place(packet);
    let end = place + packet.header.encoded_len();
    let len = end + packet.payload.len();
    if room.len() < len {
        return Err(PacketFault::RoomTooSmall);
    }
    let (written, _) = room.split_at_mut(len);
    put_packet(packet, written);
    Ok(len)
}

/// Where the path header begins.
fn path_place(packet: &WholePacket<'_>) -> usize
    ensures place { result + header_len packet.now.header ≡ headers_len packet.now }
    ensures small { result ≤ 60 }
{
    let destination = packet.info.destination_host().bytes();
    let source = packet.info.source_host().bytes();
    HOSTS_START + destination.len() + source.len()
}

/// Writes a whole packet to a room of its length.
fn put_packet(packet: &WholePacket<'_>, room: &mut [u8])
    requires payload { length packet.now.payload < 2 ^ 16 }
    requires room { length room.old ≡ packet_len packet.now }
    ensures { SpellsPacket room.new packet.now }
{
    let len = path_place(packet) + packet.header.encoded_len();
    let (headers, payload) = room.split_at_mut(len);
    put_headers(packet, headers);
    payload.copy_from_slice(packet.payload);
}

/// Writes all headers of a packet to a room of their length.
pub(crate) fn put_headers(packet: &WholePacket<'_>, room: &mut [u8])
    requires payload { length packet.now.payload < 2 ^ 16 }
    requires room { length room.old ≡ headers_len packet.now }
    ensures { SpellsPacket (room.new ++ packet.now.payload) packet.now }
{
    known(packet);
    let (front, header) = room.split_at_mut(path_place(packet));
    put_front(packet, front);
    put_header(&packet.header, header);
}

/// Does nothing; its contract tells that the numbers of the packet fit into their bits.
fn known(packet: &WholePacket<'_>)
    requires { length packet.now.payload < 2 ^ 16 }
    ensures info { FitsInfo packet.now.info }
    ensures destination { packet.now.destination < 2 ^ 64 }
    ensures source { packet.now.source < 2 ^ 64 }
{
    packet.info.known();
    let _number = packet.destination.number();
    let _number = packet.source.number();
}

/// Writes what stands in front of the path header.
fn put_front(packet: &WholePacket<'_>, front: &mut [u8])
    requires room { length front.old + header_len packet.now.header ≡ headers_len packet.now }
    requires payload { length packet.now.payload < 2 ^ 16 }
    ensures { front.new ≡ front_of packet.now }
{
    let info = &packet.info;
    let units = (front.len() + packet.header.encoded_len()) / LENGTH_UNIT;
    let word = (u32::from(info.traffic_class()) << FLOW_BITS) + info.flow_id();
    let word = word.to_be_bytes();
    let payload = (packet.payload.len() as u16).to_be_bytes();
    let reserved = info.reserved().to_be_bytes();
    let types = 16 * host_bits(info.destination_host()) + host_bits(info.source_host());
    let common = [
        word[0],
        word[1],
        word[2],
        word[3],
        info.next_header(),
        units as u8,
        payload[0],
        payload[1],
        SCION_PATH,
        types,
        reserved[0],
        reserved[1],
    ];
    let destination = info.destination_host().bytes();
    let (first, rest) = front.split_at_mut(COMMON_LEN);
    first.copy_from_slice(&common);
    let (ases, hosts) = rest.split_at_mut(HOSTS_START - COMMON_LEN);
    let (one, other) = ases.split_at_mut(8);
    one.copy_from_slice(&packet.destination.to_bytes());
    other.copy_from_slice(&packet.source.to_bytes());
    let (one, other) = hosts.split_at_mut(destination.len());
    one.copy_from_slice(destination);
    other.copy_from_slice(info.source_host().bytes());
}

/// The type and the length of a host's address, in four bits.
fn host_bits(host: &HostAddress) -> u8
    ensures value { result ≡ host_bits host.now }
    ensures small { result < 16 }
{
    let bytes = host.bytes();
    4 * host.kind() + (bytes.len() / LENGTH_UNIT - 1) as u8
}

/// Writes a path header to a room of its length.
fn put_header(header: &Header, room: &mut [u8])
    requires { length room.old ≡ header_len header.now }
    ensures { SpellsHeader room.new header.now }
{
    encode(header, room).unwrap();
}
