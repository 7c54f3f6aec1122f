ghost use Rattle.std.specs.Prelude.{◌≡◌};
ghost use Rattle.event_lines.specs.declared.fault.RunFault.TheVariants.{Memory};

use std::alloc::AllocError;
use thiserror::Error;

/// Why a run ended before its input did.
#[derive(Clone, Copy, Debug, PartialEq, Eq, Error)]
pub enum RunFault {
    /// The topology on the first line was refused.
    #[error("topology refused")]
    Topology,
    /// A read failed.
    #[error("read failed")]
    Read,
    /// A write failed, or wrote no byte.
    #[error("write failed")]
    Write,
    /// Memory ran out.
    #[error("out of memory")]
    Memory,
    /// The input has more than 67,108,864 bytes.
    #[error("input too long")]
    InputTooLong,
}

impl From<AllocError> for RunFault {
    ghost from_gives = { λ _ e. e ≡ Memory };

    fn from(_error: AllocError) -> RunFault {
        RunFault::Memory
    }
}
