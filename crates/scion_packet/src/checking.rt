//! Whether bytes are a whole packet, and where its parts stand.

#![tactic(auto, unfolding(crate::specs::Reading::path_place_in, crate::specs::Reading::path_header_in))]

ghost use Rattle.std.specs.Prelude.{◌≡◌, ◌+◌, ◌<◌, ◌≤◌, true, length, take, drop, slice_index, OnOk, IfOk};
ghost use Rattle.path_header.specs.Spelling.{SpellsHeader};
ghost use Rattle.path_header.specs.Value.{header_len};
ghost use Rattle.path_header.specs.Shown.{has_header, header_at_front};
ghost use Rattle.refusal.specs.Refusal.{Gives};
ghost use Rattle.scion_packet.specs.Layout.{destination_host_len, source_host_len, path_place, announced_len, announced_payload};
ghost use Rattle.scion_packet.specs.Reading.{path_place_in, check_lengths, path_header_in};

use crate::fault::PacketFault;
use crate::layout::{
    COMMON_LEN, HEADER_LENGTH, HOST_TYPES, HOSTS_START, LENGTH_UNIT, PATH_TYPE, PAYLOAD_LENGTH,
    SCION_PATH,
};
use path_header::HeaderMut;

/// The lengths of the addresses of the destination host and of the source host.
pub(crate) fn host_lens(packet: &[u8]) -> (usize, usize)
    requires { 12 ≤ length packet.now }
    ensures destination { result.0 ≡ destination_host_len packet.now }
    ensures source { result.1 ≡ source_host_len packet.now }
{
    let types = packet[HOST_TYPES];
    let destination = LENGTH_UNIT * (1 + usize::from(types / 16 % 4));
    let source = LENGTH_UNIT * (1 + usize::from(types % 4));
    (destination, source)
}

/// Where the path header begins, or the first refusal of the common and the address header.
pub(crate) fn path_place(packet: &[u8]) -> Result<usize, PacketFault>
    ensures exact { result ≡ path_place_in packet.now }
    ensures place { IfOk result (λ place. place ≡ path_place packet.now) }
    ensures within { IfOk result (λ place. place ≤ length packet.now) }
    ensures version { OnOk result (slice_index packet.now 0 < 16) }
    ensures path_type { OnOk result (slice_index packet.now 8 ≡ 1) }
{
    if packet.len() < COMMON_LEN {
        return Err(PacketFault::ShortPacket);
    }
    if packet[0] > 15 {
        return Err(PacketFault::BadVersion);
    }
    if packet[PATH_TYPE] != SCION_PATH {
        return Err(PacketFault::BadPathType);
    }
    let (destination, source) = host_lens(packet);
    let place = HOSTS_START + destination + source;
    if packet.len() < place {
        return Err(PacketFault::ShortPacket);
    }
    Ok(place)
}

/// Checks all headers of a packet, and returns where its path header begins.
pub(crate) fn check_headers(packet: &[u8]) -> Result<usize, PacketFault>
    ensures exact { Gives (λ place. header_at_front (drop place packet.now)) result
        (path_header_in packet.now) }
    ensures place { IfOk result (λ place. place ≡ path_place packet.now) }
    ensures within { IfOk result (λ place. place ≤ length packet.now) }
    ensures begins { IfOk result (λ place. has_header (drop place packet.now) ≡ true) }
    ensures version { OnOk result (slice_index packet.now 0 < 16) }
    ensures path_type { OnOk result (slice_index packet.now 8 ≡ 1) }
    ensures headers { IfOk result (λ place. announced_len packet.now
        ≡ place + header_len (header_at_front (drop place packet.now))) }
    ensures rest { IfOk result (λ place. announced_len packet.now + announced_payload packet.now
        ≡ length packet.now) }
{
    let place = path_place(packet)?;
    let (_, rest) = packet.split_at(place);
    let len = match HeaderMut::check_len(rest) {
        Ok(len) => len,
        Err(fault) => return Err(PacketFault::BadHeader(fault)),
    };
    check_lengths(packet, place + len)?;
    Ok(place)
}

/// Checks the announced lengths of a packet whose headers end here.
pub(crate) fn check_lengths(packet: &[u8], end: usize) -> Result<(), PacketFault>
    requires common { 12 ≤ length packet.now }
    requires end { end ≤ length packet.now }
    ensures exact { result ≡ check_lengths packet.now end }
    ensures headers { OnOk result (announced_len packet.now ≡ end) }
    ensures rest { OnOk result (end + announced_payload packet.now ≡ length packet.now) }
{
    if LENGTH_UNIT * usize::from(packet[HEADER_LENGTH]) != end {
        return Err(PacketFault::BadHeaderLength);
    }
    let payload = u16::from_be_bytes([packet[PAYLOAD_LENGTH], packet[PAYLOAD_LENGTH + 1]]);
    if end + usize::from(payload) != packet.len() {
        return Err(PacketFault::BadPayloadLength);
    }
    Ok(())
}
