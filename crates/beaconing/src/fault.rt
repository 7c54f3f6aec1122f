ghost use Rattle.beaconing.specs.Fault as faults;

use path_segment::SegmentFault;
use refusal::{NumberedFault, OrMemory};
use thiserror::Error;

/// Why an AS does not begin a beacon, pass it on, or end it.
#[derive(Clone, Copy, Debug, PartialEq, Eq, Error)]
pub enum BeaconFault {
    /// The beacon has 62 entries.
    #[error("a beacon has at most 62 entries")]
    TooLong,
    /// The beacon already has an entry of the AS.
    #[error("the AS stands in the beacon already")]
    Loop,
    /// The AS is no core AS of the topology.
    #[error("the AS is no core AS of the topology")]
    NotCore,
    /// The AS has no interface of this number.
    #[error("the AS has no interface of this number")]
    NoInterface,
    /// The link by which the beacon comes in, or the one by which it would go out, is down.
    #[error("the link is down")]
    LinkDown,
    /// A beacon of this kind does not go over that link.
    #[error("a beacon of this kind does not follow this link")]
    WrongKind,
    /// The beacon's last way out does not lead to this AS.
    #[error("the beacon does not come to this AS")]
    NotHere,
}

impl NumberedFault for BeaconFault {
    ghost code_and_name = { faults.code_and_name };

    fn code_and_name(self) -> (u16, &'static str) {
        match self {
            Self::TooLong => SegmentFault::TooLong.code_and_name(),
            Self::Loop => SegmentFault::Loop.code_and_name(),
            Self::NotCore => (40, "NotCore"),
            Self::NoInterface => (41, "NoInterface"),
            Self::LinkDown => (42, "LinkDown"),
            Self::WrongKind => (43, "WrongKind"),
            Self::NotHere => (44, "NotHere"),
        }
    }
}

/// Why a call returned no beacon or segment: memory ran out, or a refusal.
pub type BeaconError = OrMemory<BeaconFault>;
