//! Whole packets in the host's memory: a router's turn on one, what one says, and the reply to it.

ghost use Rattle.std.specs.Prelude.{◌≡◌, ◌≤◌};
ghost use Rattle.scion_topology.specs.View.{View};
ghost use Rattle.scion_packet.specs.Value.{front_len, headers_len};
ghost use Rattle.scion_packet.specs.Reading.{whole_packet_at};
ghost use Rattle.scion_ffi.specs.Answer.{answer};
ghost use Rattle.scion_ffi.specs.Step.{IsStepAnswered};
ghost use Rattle.scion_ffi.specs.Whole.{packet_answer, turn_answer, whole_step_at, whole_step_told, host_record, info_record, host_told, info_told, packet_told, IsPacketRead, IsPacketWritten, IsReplyAnswered};

use crate::answer::{DONE, ScionAnswer, bad_call, outcome_answer, plain, refusal_answer};
use crate::packet_records::{ScionHost, ScionPacketInfo};
use crate::parts::{arrival_of, room, view};
use crate::records::ScionRouter;
use isd_as::IsdAs;
use path_header::decode;
use refusal::NumberedFault;
use scion_packet::{
    HostAddress, PacketFault, PacketInfo, TurnRefusal, WholePacket, read, reply, turn, write,
};
use scion_topology::RouterView;

/// The answer about bytes that are no whole packet, or about one that was not written.
fn packet_answer(fault: PacketFault) -> ScionAnswer
    ensures { result ≡ packet_answer fault }
{
    match fault {
        PacketFault::BadHeader(header) => ScionAnswer {
            code: fault.code(),
            number: header.code(),
        },
        _ => plain(fault.code()),
    }
}

/// The answer about a whole packet that a router refuses.
fn turn_answer(refusal: TurnRefusal) -> ScionAnswer
    ensures { result ≡ turn_answer refusal }
{
    match refusal {
        TurnRefusal::Packet(fault) => packet_answer(fault),
        TurnRefusal::Step(refusal) => refusal_answer(refusal),
    }
}

/// The answer about a packet that was read or written: the length of all headers.
fn headers_answer(packet: &WholePacket<'_>) -> ScionAnswer
    ensures { result ≡ answer 0 (headers_len packet.now) }
{
    packet.header.known();
    let len = front_len(packet) + packet.header.encoded_len();
    ScionAnswer {
        code: DONE,
        number: len as u16,
    }
}

/// The length of what stands in front of the path header.
fn front_len(packet: &WholePacket<'_>) -> usize
    ensures value { result ≡ front_len packet.now }
    ensures few { result ≤ 60 }
{
    let destination = packet.info.destination_host().bytes();
    let source = packet.info.source_host().bytes();
    28 + destination.len() + source.len()
}

/// The record of a host's address.
fn host_record(host: &HostAddress) -> ScionHost
    ensures { result ≡ host_record host.now }
{
    let address = host.bytes();
    let mut bytes = [0; 16];
    let (front, _) = bytes.split_at_mut(address.len());
    front.copy_from_slice(address);
    ScionHost {
        kind: host.kind(),
        len: address.len() as u8,
        bytes,
    }
}

/// The record of what a packet says.
fn info_record(packet: &WholePacket<'_>) -> ScionPacketInfo
    ensures { result ≡ info_record packet.now }
{
    let info = &packet.info;
    ScionPacketInfo {
        destination: packet.destination.number(),
        source: packet.source.number(),
        flow_id: info.flow_id(),
        reserved: info.reserved(),
        path_start: front_len(packet) as u16,
        traffic_class: info.traffic_class(),
        next_header: info.next_header(),
        destination_host: host_record(info.destination_host()),
        source_host: host_record(info.source_host()),
    }
}

/// The address of a host from its record.
fn host_of(host: &ScionHost) -> Result<HostAddress, PacketFault>
    ensures { result ≡ host_told host.now }
{
    let len = usize::from(host.len);
    if len > host.bytes.len() {
        return Err(PacketFault::BadField);
    }
    HostAddress::new(host.kind, &host.bytes[..len])
}

/// What a packet says besides, from its record.
fn info_of(info: &ScionPacketInfo) -> Result<PacketInfo, PacketFault>
    ensures { result ≡ info_told info.now }
{
    let destination_host = host_of(&info.destination_host)?;
    let source_host = host_of(&info.source_host)?;
    let told = PacketInfo::new(
        info.traffic_class,
        info.flow_id,
        info.next_header,
        destination_host,
        source_host,
    )?;
    Ok(told.with_reserved(info.reserved))
}

/// The packet of a record, of bytes that begin with a path header, and of a payload.
fn packet_of<'a>(
    info: &ScionPacketInfo,
    path: &[u8],
    payload: &'a [u8],
) -> Result<WholePacket<'a>, PacketFault>
    ensures { result ≡ packet_told info.now path.now payload.now }
{
    let told = info_of(info)?;
    let header = match decode(path) {
        Ok((header, _)) => header,
        Err(fault) => return Err(PacketFault::BadHeader(fault)),
    };
    Ok(WholePacket {
        info: told,
        destination: IsdAs::from_number(info.destination),
        source: IsdAs::from_number(info.source),
        header,
        payload,
    })
}

/// One turn of the router with this view on a whole packet that came in this way.
// Never inlined: where it is, LLVM copies the view with both keys out of the answer that has it.
#[inline(never)]
fn turn_packet(
    view: &RouterView<'_>,
    now: u32,
    arrival: u8,
    interface: u16,
    packet: &mut [u8],
) -> ScionAnswer
    ensures { IsStepAnswered (whole_step_at view.now now arrival interface packet.old)
        packet.old packet.new result }
{
    let Some(arrival) = arrival_of(arrival, interface) else {
        return bad_call();
    };
    match turn(view, now, arrival, packet) {
        Ok(outcome) => outcome_answer(outcome),
        Err(refusal) => turn_answer(refusal),
    }
}

/// One turn of this router at the second `now` on a whole packet, in place.
///
/// It is for whole packets what [`crate::scion_step`] is for frames, and refuses a router and a way
/// in as that does. Then come the refusals of [`scion_packet::read`] (160 to 164, and 90 between
/// 162 and 163), and those of the router (91 to 100).
#[unsafe(no_mangle)]
pub extern "C" fn scion_whole_packet_step(
    router: &ScionRouter<'_>,
    now: u32,
    arrival: u8,
    interface: u16,
    packet: &mut [u8],
) -> ScionAnswer
    ensures { IsStepAnswered (whole_step_told router.now now arrival interface packet.old)
        packet.old packet.new result }
{
    let mut room = room();
    match view(&mut room, router) {
        Ok(view) => turn_packet(&view, now, arrival, interface, packet),
        Err(refusal) => refusal,
    }
}

/// Writes what a whole packet says to `info`.
///
/// `number` is the length of all its headers, behind which the payload begins, and the path header
/// stands between `info.path_start` and there. If the bytes are no whole packet, `code` is the
/// first refusal of [`scion_packet::read`] (160 to 164, or 90), and `info` is as before.
#[unsafe(no_mangle)]
pub extern "C" fn scion_whole_packet_read(packet: &[u8], info: &mut ScionPacketInfo) -> ScionAnswer
    ensures { IsPacketRead (whole_packet_at packet.now) info.old info.new result }
{
    match read(packet) {
        Ok(read) => {
            *info = info_record(&read);
            headers_answer(&read)
        }
        Err(fault) => packet_answer(fault),
    }
}

/// Writes a whole packet to the front of the room: what `info` says, the path header with which
/// `path` begins, and a payload.
///
/// `number` is the length of all headers, so that the packet has this length and that of its
/// payload. Else `code` is the first of these refusals, and the room is as before: a host's address
/// or the flow does not fit (11); `path` does not begin with a path header (90); the payload has
/// more than 65,535 bytes (165); the room is too short (27).
#[unsafe(no_mangle)]
pub extern "C" fn scion_whole_packet_write(
    info: &ScionPacketInfo,
    path: &[u8],
    payload: &[u8],
    room: &mut [u8],
) -> ScionAnswer
    ensures { IsPacketWritten (packet_told info.now path.now payload.now)
        room.old room.new result }
{
    let packet = match packet_of(info, path, payload) {
        Ok(packet) => packet,
        Err(fault) => return packet_answer(fault),
    };
    match write(&packet, room) {
        Ok(_) => headers_answer(&packet),
        Err(fault) => packet_answer(fault),
    }
}

/// Replaces a whole packet by the reply to it, as [`scion_packet::reply`] does: hosts and ASes are
/// exchanged, the path is that of the way back, and the payload stays. The length stays, too.
///
/// If the bytes are no whole packet, `code` is the first refusal of [`scion_packet::read`] (160 to
/// 164, or 90), and every byte is as before.
#[unsafe(no_mangle)]
pub extern "C" fn scion_whole_packet_reply(packet: &mut [u8]) -> ScionAnswer
    ensures { IsReplyAnswered (whole_packet_at packet.old) packet.old packet.new result }
{
    match reply(packet) {
        Ok(()) => plain(DONE),
        Err(fault) => packet_answer(fault),
    }
}
