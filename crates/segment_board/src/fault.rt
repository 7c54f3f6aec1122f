ghost use Rattle.segment_board.specs.Fault as faults;

use refusal::{NumberedFault, OrMemory};
use thiserror::Error;

/// Why a board gave no reader, or a reader no segments.
#[derive(Clone, Copy, Debug, PartialEq, Eq, Error)]
pub enum BoardFault {
    /// No place for a reader is free.
    #[error("no place for a reader is free on the board")]
    NoPlace,
    /// The reader could not enter the board.
    #[error("the reader could not enter the board")]
    NoEntry,
}

impl NumberedFault for BoardFault {
    ghost code_and_name = { faults.code_and_name };

    fn code_and_name(self) -> (u16, &'static str) {
        match self {
            Self::NoPlace => (110, "NoPlace"),
            Self::NoEntry => (111, "NoEntry"),
        }
    }
}

/// Why a lookup returned nothing: memory ran out, or a refusal.
pub type LookupError = OrMemory<BoardFault>;
