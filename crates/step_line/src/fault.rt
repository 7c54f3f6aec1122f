ghost use Rattle.std.specs.Prelude.{◌≡◌};
ghost use Rattle.step_line.specs.declared.fault.TurnFault.TheVariants.{Memory};

use std::alloc::AllocError;
use thiserror::Error;

/// Why a turn returned no line.
#[derive(Clone, Copy, Debug, PartialEq, Eq, Error)]
pub enum TurnFault {
    /// The packet's text is not hexadecimal digits, two for each byte.
    #[error("bad packet text")]
    PacketText,
    /// Memory ran out.
    #[error("out of memory")]
    Memory,
}

impl From<AllocError> for TurnFault {
    ghost from_gives = { λ _ e. e ≡ Memory };

    fn from(_error: AllocError) -> TurnFault {
        TurnFault::Memory
    }
}
