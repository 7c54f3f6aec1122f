ghost use Rattle.scion_topology.specs.Fault as faults;

use refusal::{NumberedFault, OrMemory};
use thiserror::Error;

/// Why a topology was not read, answered or changed, or why a view was not built.
#[derive(Clone, Copy, Debug, PartialEq, Eq, Error)]
pub enum TopologyFault {
    /// The text is not JSON.
    #[error("the text is not JSON")]
    NotJson,
    /// A field is missing, has the wrong type or is out of its range; an address is a wildcard; or
    /// a key does not have 1 to 64 bytes.
    #[error("a field is missing, of another type or out of its range")]
    BadField,
    /// Two ASes of the list have one address.
    #[error("an AS is listed twice")]
    DuplicateAs,
    /// Two links end at one interface.
    #[error("an interface stands at two ends of links")]
    DuplicateIf,
    /// The list has no AS of this address.
    #[error("an AS is not listed")]
    UnknownAs,
    /// A link joins ASes that a link of its kind may not join.
    #[error("a link joins ASes that its kind does not join")]
    BadKind,
    /// An AS has no router of this number.
    #[error("an AS has no router of this number")]
    NoRouter,
    /// An AS has no interface of this number.
    #[error("an AS has no interface of this number")]
    NoLink,
    /// The list has no AS or more than 1,024, or there are more than 4,096 links.
    #[error("there are 1 to 1024 ASes and at most 4096 links")]
    TooMany,
}

impl NumberedFault for TopologyFault {
    ghost code_and_name = { faults.code_and_name };

    fn code_and_name(self) -> (u16, &'static str) {
        match self {
            Self::NotJson => (10, "NotJson"),
            Self::BadField => (11, "BadField"),
            Self::DuplicateAs => (12, "DuplicateAs"),
            Self::DuplicateIf => (13, "DuplicateIf"),
            Self::UnknownAs => (14, "UnknownAs"),
            Self::BadKind => (15, "BadKind"),
            Self::NoRouter => (16, "NoRouter"),
            Self::NoLink => (17, "NoLink"),
            Self::TooMany => (18, "TooMany"),
        }
    }
}

/// Why a topology was not read: memory ran out, or the text is no topology.
pub type ReadError = OrMemory<TopologyFault>;
