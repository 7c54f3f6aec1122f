//! The bytes of a capture.

ghost use Rattle.std.specs.Prelude.{◌≡◌, ◌%◌, ◌≤◌, ◌^◌, ◌<◌, ◌++◌, flat_map, length, IfOk, OnOk};
ghost use Rattle.std.specs.Int.{w16, to_be_bytes};
ghost use Rattle.wire_packets.specs.Datagram.{ethernet_frame, ethernet_header, header_checksum, ip_packet, ipv4_ends, ipv4_front, sent_as, udp_header};
ghost use Rattle.wire_packets.specs.File.{datagram_record, file_head, file_record, file_time, record_head};
ghost use Rattle.wire_packets.specs.Wrapped.{wrapped};

use crate::station::Station;
use crate::wrapping::{parts_in, spelled};
use scion_packet::PacketInfo;
use std::alloc::{AllocError, Global};

/// The head of a file.
const FILE_HEAD: [u8; 24] = [
    0xa1, 0xb2, 0xc3, 0xd4, 0, 2, 0, 4, 0, 0, 0, 0, 0, 0, 0, 0, 0, 0, 255, 255, 0, 0, 0, 1,
];

/// The lengths of the headers of IPv4 and of UDP.
const IPV4_LEN: usize = 20;

const UDP_LEN: usize = 8;

/// The length of the headers of a frame: of Ethernet, IPv4 and UDP.
const HEADERS_LEN: usize = 42;

/// When a datagram is sent, by whom, and to whom.
#[derive(Clone, Copy)]
pub struct Hop {
    /// The second.
    pub moment: u32,
    /// The sender.
    pub from: Station,
    /// The receiver.
    pub to: Station,
}

/// The file of no datagrams. `AllocError` if memory runs out.
pub fn empty_file(alloc: Global) -> Result<Vec<u8>, AllocError>
    ensures { IfOk result (λ file. file.items ≡ file_head) }
{
    let mut file = Vec::new(alloc);
    file.extend_from_slice(&FILE_HEAD)?;
    Ok(file)
}

/// The checksum of a header of IPv4 for so many bytes of UDP.
fn header_checksum(from: Station, to: Station, len: usize) -> u16
    requires { len ≤ 2 ^ 20 }
    ensures { result ≡ header_checksum from to len }
{
    let total = ((IPV4_LEN + len) % 65536) as u32;
    let sum = 17664 + total + 16384 + 16401 + from.address_sum() + to.address_sum();
    ((65535 - sum % 65535) % 65535) as u16
}

/// The length of so many bytes, in 16 bits.
fn short_len(len: usize) -> [u8; 2]
    ensures { result ≡ to_be_bytes w16 (len % 65536) }
{
    ((len % 65536) as u16).to_be_bytes()
}

/// Adds the front of a header of IPv4 for so many bytes of UDP.
#[tactic(auto, unfolding(crate::specs::Datagram::ipv4_front))]
fn push_ipv4_front(file: &mut Vec<u8>, len: usize) -> Result<(), AllocError>
    requires { len ≤ 2 ^ 20 }
    ensures { OnOk result (file.new.items ≡ file.old.items ++ ipv4_front len) }
{
    file.extend_from_slice(&[69, 0])?;
    file.extend_from_slice(&short_len(IPV4_LEN + len))?;
    file.extend_from_slice(&[0, 0, 64, 0, 64, 17])?;
    Ok(())
}

/// Adds the checksum and the addresses of a header of IPv4 for so many bytes of UDP.
#[tactic(auto, unfolding(crate::specs::Datagram::ipv4_ends))]
fn push_ipv4_ends(
    file: &mut Vec<u8>,
    from: Station,
    to: Station,
    len: usize,
) -> Result<(), AllocError>
    requires { len ≤ 2 ^ 20 }
    ensures { OnOk result (file.new.items ≡ file.old.items ++ ipv4_ends from to len) }
{
    file.extend_from_slice(&header_checksum(from, to, len).to_be_bytes())?;
    file.extend_from_slice(&from.ip_address())?;
    file.extend_from_slice(&to.ip_address())?;
    Ok(())
}

/// Adds a header of IPv4 for so many bytes of UDP.
fn push_ipv4_header(
    file: &mut Vec<u8>,
    from: Station,
    to: Station,
    len: usize,
) -> Result<(), AllocError>
    requires { len ≤ 2 ^ 20 }
    ensures { OnOk result
        (file.new.items ≡ file.old.items ++ (ipv4_front len ++ ipv4_ends from to len)) }
{
    push_ipv4_front(file, len)?;
    push_ipv4_ends(file, from, to, len)
}

/// Adds a header of UDP for so many bytes.
#[tactic(auto, unfolding(crate::specs::Datagram::udp_header))]
fn push_udp_header(file: &mut Vec<u8>, len: usize) -> Result<(), AllocError>
    ensures { OnOk result (file.new.items ≡ file.old.items ++ udp_header len) }
{
    file.extend_from_slice(&[195, 80, 195, 80])?;
    file.extend_from_slice(&short_len(len))?;
    file.extend_from_slice(&[0, 0])?;
    Ok(())
}

/// Adds a packet of IPv4 with these bytes in a datagram.
#[tactic(auto, unfolding(crate::specs::Datagram::ip_packet))]
fn push_ip_packet(
    file: &mut Vec<u8>,
    from: Station,
    to: Station,
    packet: &[u8],
) -> Result<(), AllocError>
    requires { length packet.now < 2 ^ 17 }
    ensures { OnOk result (file.new.items ≡ file.old.items ++ ip_packet from to packet.now) }
{
    let len = UDP_LEN + packet.len();
    push_ipv4_header(file, from, to, len)?;
    push_udp_header(file, len)?;
    file.extend_from_slice(packet)?;
    Ok(())
}

/// Adds the header of a frame of Ethernet.
#[tactic(auto, unfolding(crate::specs::Datagram::ethernet_header))]
fn push_ethernet_header(file: &mut Vec<u8>, from: Station, to: Station) -> Result<(), AllocError>
    ensures { OnOk result (file.new.items ≡ file.old.items ++ ethernet_header from to) }
{
    file.extend_from_slice(&to.mac_address())?;
    file.extend_from_slice(&from.mac_address())?;
    file.extend_from_slice(&[8, 0])?;
    Ok(())
}

/// Adds a frame of Ethernet with these bytes in a datagram.
#[tactic(auto, unfolding(crate::specs::Datagram::ethernet_frame))]
fn push_frame(
    file: &mut Vec<u8>,
    from: Station,
    to: Station,
    packet: &[u8],
) -> Result<(), AllocError>
    requires { length packet.now < 2 ^ 17 }
    ensures { OnOk result
        (file.new.items ≡ file.old.items ++ ethernet_frame from to packet.now) }
{
    push_ethernet_header(file, from, to)?;
    push_ip_packet(file, from, to, packet)
}

/// Adds the second, and microsecond 0.
#[tactic(auto, unfolding(crate::specs::File::file_time))]
fn push_time(file: &mut Vec<u8>, moment: u32) -> Result<(), AllocError>
    ensures { OnOk result (file.new.items ≡ file.old.items ++ file_time moment) }
{
    file.extend_from_slice(&moment.to_be_bytes())?;
    file.extend_from_slice(&[0, 0, 0, 0])?;
    Ok(())
}

/// Adds when a frame was seen, and twice its length.
#[tactic(auto, unfolding(crate::specs::File::record_head))]
fn push_record_head(file: &mut Vec<u8>, moment: u32, len: u32) -> Result<(), AllocError>
    ensures { OnOk result (file.new.items ≡ file.old.items ++ record_head moment len) }
{
    let len = len.to_be_bytes();
    push_time(file, moment)?;
    file.extend_from_slice(&len)?;
    file.extend_from_slice(&len)?;
    Ok(())
}

/// Adds the record of a frame with these bytes in a datagram.
#[tactic(auto, unfolding(crate::specs::File::file_record))]
fn push_record(file: &mut Vec<u8>, hop: Hop, packet: &[u8]) -> Result<(), AllocError>
    requires { length packet.now < 2 ^ 17 }
    ensures { OnOk result (file.new.items ≡ file.old.items ++ file_record hop packet.now) }
{
    push_record_head(file, hop.moment, (HEADERS_LEN + packet.len()) as u32)?;
    push_frame(file, hop.from, hop.to, packet)
}

/// Adds a datagram with the whole packet of this frame, which says besides what `info` says; none
/// if the frame is refused, as [`wrap`](crate::wrap) refuses it. `AllocError` if memory runs out;
/// the file may have a beginning of the datagram then.
#[tactic(auto, using(crate::proofs::Records::sent_record))]
pub fn push_datagram(
    alloc: Global,
    file: &mut Vec<u8>,
    hop: Hop,
    info: &PacketInfo,
    frame: &[u8],
) -> Result<(), AllocError>
    ensures { OnOk result (file.new.items ≡ file.old.items
        ++ flat_map datagram_record (sent_as hop (wrapped info.now frame.now))) }
{
    let Ok((header, payload)) = parts_in(frame) else {
        return Ok(());
    };
    let bytes = spelled(alloc, info, frame, header, payload)?;
    push_record(file, hop, &bytes)?;
    Ok(())
}
