//! One whole packet by hand, written, read and answered; what is expected is said by the layout.

use isd_as::IsdAs;
use path_header::decode;
use scion_packet::{HostAddress, PacketInfo, WholePacket, read, reply, write};
use std::process::Abort;
use std::test::Fail;

/// A path header of one segment of two hop fields, at its first hop.
const PATH: [u8; 36] = [
    0x00, 0x00, 0x20, 0x00, 0x00, 0x00, 0xb3, 0x96, 0x00, 0x00, 0x00, 0x64, 0x00, 0x3f, 0x00, 0x02,
    0x00, 0x00, 0x11, 0x0e, 0x4c, 0x1d, 0x3d, 0xad, 0x00, 0x3f, 0x00, 0x00, 0x00, 0x01, 0xa1, 0xa2,
    0xa3, 0xa4, 0xa5, 0xa6,
];

/// The packet with this path header, from 10.0.0.1 to a service, whose payload is `hi`.
const PACKET: [u8; 74] = [
    0x0b, 0x8a, 0xbc, 0xde, 0x11, 0x12, 0x00, 0x02, 0x01, 0x40, 0x12, 0x34, 0x00, 0x01, 0xff, 0x00,
    0x00, 0x00, 0x01, 0x10, 0x00, 0x01, 0xff, 0x00, 0x00, 0x00, 0x01, 0x11, 0x00, 0x02, 0x00, 0x00,
    0x0a, 0x00, 0x00, 0x01, 0x00, 0x00, 0x20, 0x00, 0x00, 0x00, 0xb3, 0x96, 0x00, 0x00, 0x00, 0x64,
    0x00, 0x3f, 0x00, 0x02, 0x00, 0x00, 0x11, 0x0e, 0x4c, 0x1d, 0x3d, 0xad, 0x00, 0x3f, 0x00, 0x00,
    0x00, 0x01, 0xa1, 0xa2, 0xa3, 0xa4, 0xa5, 0xa6, 0x68, 0x69,
];

/// The packet of these bytes by its values.
fn by_hand<R: Abort>(rt: &R) -> WholePacket<'static> {
    let (header, _) = decode(&PATH).expect(rt, "a path header");
    let hosts = (HostAddress::service(2), HostAddress::ipv4([10, 0, 0, 1]));
    let info = PacketInfo::new(0xb8, 0xabcde, 17, hosts.0, hosts.1).expect(rt, "a flow");
    WholePacket {
        info: info.with_reserved(0x1234),
        destination: IsdAs::from_number(0x0001_ff00_0000_0110),
        source: IsdAs::from_number(0x0001_ff00_0000_0111),
        header,
        payload: b"hi",
    }
}

#[test]
fn is_a_packet_written_read_and_answered(rt: HostRuntime) -> Result<(), Fail> {
    let packet = by_hand(&rt);
    let mut room = [0; 74];
    assert_eq!(rt; write(&packet, &mut room), Ok(74));
    assert_eq!(rt; room, PACKET);
    let received = read(&PACKET)?;
    assert_eq!(rt; received.info.flow_id(), 0xabcde);
    assert_eq!(rt; received.info.destination_host().kind(), 1);
    assert_eq!(rt; received.payload, &b"hi"[..]);
    assert_eq!(rt; reply(&mut room), Ok(()));
    let answer = read(&room)?;
    assert_eq!(rt; answer.destination, packet.source);
    assert_eq!(rt; answer.info.source_host(), packet.info.destination_host());
    assert_eq!(rt; answer.header.curr_hf(), 1);
    Ok(())
}
