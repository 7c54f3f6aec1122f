//! The reply to a whole packet.

ghost use Rattle.scion_packet.specs.Reading.{whole_packet_at};
ghost use Rattle.scion_packet.specs.Reply.{IsReplied};

use crate::fault::PacketFault;
use crate::packet::WholePacket;
use crate::reading::read;
use crate::writing::put_headers;

/// Replaces a packet by the reply to it, of the same length: hosts and ASes are exchanged, the path
/// is that of the way back ([`path_header::Header::reverse`]), and all else stays, the payload too.
///
/// It has the refusals of [`read`], in their order; after a refusal every byte is as before.
pub fn reply(packet: &mut [u8]) -> Result<(), PacketFault>
    // The exact reply, which the bytes spell, or the refusal.
    ensures exact { IsReplied (whole_packet_at packet.old) packet.old packet.new result }
{
    let received = match read(packet) {
        Ok(received) => received,
        Err(fault) => return Err(fault),
    };
    let end = packet.len() - received.payload.len();
    let mut header = received.header;
    header.reverse();
    let (info, destination, source) = (received.info, received.source, received.destination);
    let (headers, payload) = packet.split_at_mut(end);
    let reply = WholePacket {
        info: info.into_reply(),
        destination,
        source,
        header,
        payload,
    };
    put_headers(&reply, headers);
    Ok(())
}
