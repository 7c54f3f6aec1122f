ghost use Rattle.network_core.specs.Fault as faults;

use beaconing::BeaconFault;
use combinator::{BAD_LIMIT, CombineFault};
use path_server::StoreFault;
use path_verifier::VerifyFault;
use policy_expr::OptionFault;
use refusal::NumberedFault;
use scion_topology::TopologyFault;
use thiserror::Error;

/// Why an event is refused.
#[derive(Clone, Copy, Debug, PartialEq, Eq, Error)]
pub enum EventFault {
    /// The AS can't begin the beacon, pass it on, or end it.
    #[error("{0}")]
    Beacon(BeaconFault),
    /// The path store refuses the segment.
    #[error("{0}")]
    Store(StoreFault),
    /// The policy options of a request can't be read.
    #[error("{0}")]
    Policy(OptionFault),
    /// The request for paths is refused.
    #[error("{0}")]
    Combination(CombineFault),
    /// The verifier does not accept the path.
    #[error("{0}")]
    Path(VerifyFault),
    /// The topology refuses the change, or lacks the AS or the first way out of a packet's path.
    #[error("{0}")]
    Topology(TopologyFault),
    /// There is no packet of this number.
    #[error("there is no packet of this number")]
    NoPacket,
    /// The packet is at no router: it was delivered, refused or lost.
    #[error("the packet was delivered, refused or lost")]
    NotInFlight,
    /// There is no beacon of this number.
    #[error("there is no beacon of this number")]
    NoBeacon,
    /// There is no answer of this number, or it has no path of this number.
    #[error("there is no such answer, or it has no such path")]
    NoAnswer,
    /// The new time is before the current second.
    #[error("the moment lies before the one that is reached")]
    TimeBack,
    /// The payload has more than 1,024 bytes.
    #[error("a payload has at most 1024 bytes")]
    PayloadTooLong,
    /// The packet has no byte at this place.
    #[error("the packet has no byte at this place")]
    BadOffset,
    /// The limit of a request is not 1 to 64.
    #[error("a request is for 1 to 64 paths")]
    BadLimit,
    /// There are already a million beacons, a million answers, or a million packets.
    #[error("there are a million already")]
    TooMany,
    /// The packet was not delivered.
    #[error("the packet was not delivered")]
    NotDelivered,
}

/// The refusals that are an event's own, and not passed on from a crate below; each with the member
/// of the event's line that it is about, which is its word `do` where it is about no other.
pub static OWN_FAULTS: [(EventFault, &str); 10] = [
    (EventFault::NoPacket, "packet"),
    (EventFault::NotInFlight, "packet"),
    (EventFault::NoBeacon, "beacon"),
    (EventFault::NoAnswer, "ask"),
    (EventFault::TimeBack, "now"),
    (EventFault::PayloadTooLong, "payload"),
    (EventFault::BadOffset, "at"),
    (EventFault::BadLimit, "limit"),
    (EventFault::TooMany, "do"),
    (EventFault::NotDelivered, "packet"),
];

impl NumberedFault for EventFault {
    ghost code_and_name = { faults.code_and_name };

    fn code_and_name(self) -> (u16, &'static str) {
        match self {
            Self::Beacon(fault) => fault.code_and_name(),
            Self::Store(fault) => fault.code_and_name(),
            Self::Policy(fault) => fault.code_and_name(),
            Self::Combination(fault) => fault.code_and_name(),
            Self::Path(fault) => fault.code_and_name(),
            Self::Topology(fault) => fault.code_and_name(),
            Self::NoPacket => (130, "NoPacket"),
            Self::NotInFlight => (131, "NotInFlight"),
            Self::NoBeacon => (132, "NoBeacon"),
            Self::NoAnswer => (133, "NoAnswer"),
            Self::TimeBack => (134, "TimeBack"),
            Self::PayloadTooLong => (135, "PayloadTooLong"),
            Self::BadOffset => (136, "BadOffset"),
            Self::BadLimit => BAD_LIMIT,
            Self::TooMany => (138, "TooMany"),
            Self::NotDelivered => (139, "NotDelivered"),
        }
    }
}
