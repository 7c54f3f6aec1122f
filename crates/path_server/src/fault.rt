ghost use Rattle.path_server.specs.Fault as faults;

use refusal::{NumberedFault, OrMemory};
use thiserror::Error;

/// Why a path store refuses a segment.
#[derive(Clone, Copy, Debug, PartialEq, Eq, Error)]
pub enum StoreFault {
    /// The store has 32 segments of this kind, first AS and last AS.
    #[error("the store has 32 segments of this kind between these ASes")]
    Full,
    /// The segment is not live.
    #[error("the segment has expired")]
    Expired,
}

impl NumberedFault for StoreFault {
    ghost code_and_name = { faults.code_and_name };

    fn code_and_name(self) -> (u16, &'static str) {
        match self {
            Self::Full => (50, "Full"),
            Self::Expired => (51, "Expired"),
        }
    }
}

/// Why a path store did not take a segment: memory ran out, or a refusal.
pub type StoreError = OrMemory<StoreFault>;
