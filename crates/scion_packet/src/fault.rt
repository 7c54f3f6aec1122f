ghost use Rattle.std.specs.Prelude.{◌≡◌};
ghost use Rattle.scion_packet.specs.Fault as faults;

use path_header::HeaderFault;
use refusal::NumberedFault;
use router_step::Refusal;
use thiserror::Error;

/// Why bytes are no whole packet, or why a packet was not made or written.
///
/// Bytes are judged in the order of the variants, but that the addresses of the hosts have to be
/// there comes behind the type of the path.
#[derive(Clone, Copy, Debug, PartialEq, Eq, Error)]
pub enum PacketFault {
    /// There are fewer than 12 bytes, or fewer than the addresses of ASes and hosts need.
    #[error("the packet is shorter than its common header and its addresses")]
    ShortPacket,
    /// The version is not 0.
    #[error("the version of the packet is not 0")]
    BadVersion,
    /// The type of the path is not that of a SCION path.
    #[error("the packet has no SCION path")]
    BadPathType,
    /// What begins behind the addresses is no path header.
    #[error("the packet has no path header: {0}")]
    BadHeader(HeaderFault),
    /// The headers don't have the length that the packet announces.
    #[error("the headers of the packet are not as long as it says")]
    BadHeaderLength,
    /// The payload does not have the length that the packet announces.
    #[error("the payload of the packet is not as long as it says")]
    BadPayloadLength,
    /// A flow is not below 2^20; or a host's address has a type above 3, or not 4, 8, 12 or 16
    /// bytes.
    #[error("a field of the packet is out of its range")]
    BadField,
    /// A payload that was to be written has more than 65,535 bytes.
    #[error("the payload is too large for a packet")]
    PayloadTooLarge,
    /// The room is shorter than the packet that was to be written.
    #[error("the packet does not fit into its room")]
    RoomTooSmall,
}

impl NumberedFault for PacketFault {
    ghost code_and_name = { faults.code_and_name };

    fn code_and_name(self) -> (u16, &'static str) {
        match self {
            Self::ShortPacket => (160, "ShortPacket"),
            Self::BadVersion => (161, "BadVersion"),
            Self::BadPathType => (162, "BadPathType"),
            Self::BadHeader(_) => (90, "BadHeader"),
            Self::BadHeaderLength => (163, "BadHeaderLength"),
            Self::BadPayloadLength => (164, "BadPayloadLength"),
            Self::BadField => (11, "BadField"),
            Self::PayloadTooLarge => (165, "PayloadTooLarge"),
            Self::RoomTooSmall => (27, "RoomTooSmall"),
        }
    }
}

/// Why a router refuses a whole packet: the first check that fails, of the packet and then of the
/// router.
#[derive(Clone, Copy, Debug, PartialEq, Eq, Error)]
pub enum TurnRefusal {
    /// The bytes are no whole packet.
    #[error("{0}")]
    Packet(PacketFault),
    /// A check of the router fails; it is never [`Refusal::BadHeader`].
    #[error("{0}")]
    Step(Refusal),
}
