ghost use Rattle.isd_as.specs.Fault as faults;

use refusal::NumberedFault;
use thiserror::Error;

/// Why a text is no address: the first of these refusals, in the order that [`IsdAs::parse`] gives.
///
/// [`IsdAs::parse`]: crate::IsdAs::parse
#[derive(Clone, Copy, Debug, PartialEq, Eq, Error)]
pub enum AddrFault {
    /// No `-` separates an ISD from an AS number.
    #[error("an address has a '-' between its ISD and its AS number")]
    NoDash,
    /// A number is empty, or has a character that is no digit of its base.
    #[error("a number is empty or has a character that is no digit of it")]
    BadDigit,
    /// The ISD is above 65535.
    #[error("an ISD is at most 65535")]
    IsdRange,
    /// The AS number is written in decimal and is above 4294967295.
    #[error("an AS number in decimal is at most 4294967295")]
    AsRange,
    /// The AS number has a `:` and is not three groups of 1 to 4 characters each.
    #[error("an AS number in groups is three groups of 1 to 4 characters")]
    BadGroups,
}

impl NumberedFault for AddrFault {
    ghost code_and_name = { faults.code_and_name };

    fn code_and_name(self) -> (u16, &'static str) {
        match self {
            Self::NoDash => (1, "NoDash"),
            Self::BadDigit => (2, "BadDigit"),
            Self::IsdRange => (3, "IsdRange"),
            Self::AsRange => (4, "AsRange"),
            Self::BadGroups => (5, "BadGroups"),
        }
    }
}
