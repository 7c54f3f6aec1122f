ghost use Rattle.std.specs.Prelude.{◌≡◌};
ghost use Rattle.commands.specs.Fault.{step_of_turn, step_of_words};

use crate::fault::WordsFault;
use step_line::TurnFault;
use thiserror::Error;

/// Why [`crate::step_line`] returned no line.
#[derive(Debug, Drop, Error)]
pub enum StepFault {
    /// The words are refused, or ask for help. It holds the text that the program prints.
    #[error("{0}")]
    Usage(String),
    /// The words are no UTF-8, or `clap` accepts them and they are no turn.
    #[error("usage")]
    NoCommand,
    /// The packet's text is not hexadecimal digits, two for each byte.
    #[error("bad packet text")]
    PacketText,
    /// Memory ran out.
    #[error("out of memory")]
    Memory,
}

impl From<WordsFault> for StepFault {
    ghost from_gives = { λ fault e. e ≡ step_of_words fault };

    fn from(fault: WordsFault) -> StepFault {
        match fault {
            WordsFault::Usage(text) => StepFault::Usage(text),
            WordsFault::NoCommand => StepFault::NoCommand,
            WordsFault::Memory => StepFault::Memory,
        }
    }
}

impl From<TurnFault> for StepFault {
    ghost from_gives = { λ fault e. e ≡ step_of_turn fault };

    fn from(fault: TurnFault) -> StepFault {
        match fault {
            TurnFault::PacketText => StepFault::PacketText,
            TurnFault::Memory => StepFault::Memory,
        }
    }
}
