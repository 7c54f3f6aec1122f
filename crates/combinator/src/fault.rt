ghost use Rattle.combinator.specs.Fault as faults;

use refusal::{NumberedFault, OrMemory};
use thiserror::Error;

/// Why a request for paths is refused.
#[derive(Clone, Copy, Debug, PartialEq, Eq, Error)]
pub enum CombineFault {
    /// The source and the destination are the same AS.
    #[error("the source and the destination are one AS")]
    SameAs,
}

impl NumberedFault for CombineFault {
    ghost code_and_name = { faults.code_and_name };

    fn code_and_name(self) -> (u16, &'static str) {
        match self {
            Self::SameAs => (85, "SameAs"),
        }
    }
}

/// Why no paths were returned: memory ran out, or a refusal.
pub type CombineError = OrMemory<CombineFault>;
