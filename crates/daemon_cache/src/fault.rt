ghost use Rattle.daemon_cache.specs.Fault as faults;

use combinator::{BAD_LIMIT, CombineFault};
use policy_expr::OptionFault;
use refusal::{NumberedFault, OrMemory};
use segment_board::BoardFault;
use thiserror::Error;

/// Why a daemon returned no answer.
#[derive(Clone, Copy, Debug, PartialEq, Eq, Error)]
pub enum AskFault {
    /// The limit is not 1 to 64.
    #[error("the limit is not 1 to 64")]
    BadLimit,
    /// The options can't be read.
    #[error("{0}")]
    Options(OptionFault),
    /// The source and the destination are the same AS.
    #[error("the source and the destination are one AS")]
    SameAs,
    /// The reader could not enter the board.
    #[error("the reader could not enter the board")]
    NoEntry,
}

impl NumberedFault for AskFault {
    ghost code_and_name = { faults.code_and_name };

    fn code_and_name(self) -> (u16, &'static str) {
        match self {
            Self::BadLimit => BAD_LIMIT,
            Self::Options(fault) => fault.code_and_name(),
            Self::SameAs => CombineFault::SameAs.code_and_name(),
            Self::NoEntry => BoardFault::NoEntry.code_and_name(),
        }
    }
}

/// Why a daemon returned no answer: memory ran out, or a refusal.
pub type AskError = OrMemory<AskFault>;
