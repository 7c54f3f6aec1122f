ghost use Rattle.path_header.specs.Fault as faults;

use refusal::NumberedFault;
use thiserror::Error;

/// Why bytes or fields are no path header, or why a header was not written.
///
/// Each call that refuses gives the order of its checks.
#[derive(Clone, Copy, Debug, PartialEq, Eq, Error)]
pub enum HeaderFault {
    /// The bytes end before the header does, or the numbers of fields are not those of the lengths.
    #[error("the header is cut off")]
    Short,
    /// A reserved bit is set.
    #[error("a reserved bit is set")]
    Reserved,
    /// An info field has the flag P, of a peering link, which this network does not have.
    #[error("an info field has the peering flag")]
    PeerFlag,
    /// A hop field has a router alert flag, I or E, which this network does not have.
    #[error("a hop field has a router alert flag")]
    AlertFlag,
    /// The first segment is empty, a segment follows an empty one, or a length has over six bits.
    #[error("the segment lengths are not those of a path")]
    SegLens,
    /// The segments have more than 64 hop fields together.
    #[error("a path has at most 64 hop fields")]
    TooManyHops,
    /// The index of the current info field or hop field is not below the number of fields.
    #[error("an index points behind the last field")]
    BadIndex,
    /// The room is shorter than the header that was to be written.
    #[error("the room is shorter than the header")]
    RoomTooSmall,
}

impl NumberedFault for HeaderFault {
    ghost code_and_name = { faults.code_and_name };

    fn code_and_name(self) -> (u16, &'static str) {
        match self {
            Self::Short => (20, "Short"),
            Self::Reserved => (21, "Reserved"),
            Self::PeerFlag => (22, "PeerFlag"),
            Self::AlertFlag => (23, "AlertFlag"),
            Self::SegLens => (24, "SegLens"),
            Self::TooManyHops => (25, "TooManyHops"),
            Self::BadIndex => (26, "BadIndex"),
            Self::RoomTooSmall => (27, "RoomTooSmall"),
        }
    }
}
