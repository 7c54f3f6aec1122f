ghost use Rattle.std.specs.Prelude.{◌≡◌, ◌↔◌};
ghost use Rattle.std.specs.IoError.{error_kind};
ghost use Rattle.commands.specs.Fault.{IsOwnWordsFault, of_input, of_run, of_turn, of_words, of_work, status_of, text_of_fault};
ghost use Rattle.commands.specs.declared.fault.CommandFault.TheVariants as command;
ghost use Rattle.commands.specs.declared.fault.WordsFault.TheVariants as words;

use crate::status::Status;
use event_lines::RunFault;
use std::alloc::AllocError;
use std::io;
use std::io::ErrorKind;
use step_line::TurnFault;
use streams::{InputFault, WriteFailed};
use thiserror::Error;
use work_lines::WorkFault;

/// Why words are no command.
#[derive(Debug, Drop, Error)]
pub enum WordsFault {
    /// The words are refused, or ask for help. It holds the text that the program prints.
    #[error("{0}")]
    Usage(String),
    /// The words are no UTF-8, or `clap` accepts them and they are no command.
    #[error("usage")]
    NoCommand,
    /// Memory ran out.
    #[error("out of memory")]
    Memory,
}

impl WordsFault {
    /// The fault of words that can't be read: [`WordsFault::Memory`] if the system says that memory
    /// ran out, and else [`WordsFault::NoCommand`], since the words are no UTF-8. Takes no memory.
    pub fn unreadable(error: &io::Error) -> WordsFault
        ensures own { IsOwnWordsFault result }
        ensures memory { (result ≡ words.Memory)
            ↔ (error_kind error.now ≡ ErrorKind.OutOfMemory) }
    {
        match error.kind() {
            ErrorKind::OutOfMemory => WordsFault::Memory,
            _ => WordsFault::NoCommand,
        }
    }
}

impl From<AllocError> for WordsFault {
    ghost from_gives = { λ _ e. e ≡ words.Memory };

    fn from(_error: AllocError) -> WordsFault {
        WordsFault::Memory
    }
}

/// Why a command was not carried out to its end.
#[derive(Debug, Drop, Error)]
pub enum CommandFault {
    /// The words are refused, or ask for help. It holds the text that the program prints.
    #[error("{0}")]
    Usage(String),
    /// The words are no UTF-8, or `clap` accepts them and they are no command.
    #[error("usage")]
    NoCommand,
    /// The packet's text is not hexadecimal digits, two for each byte.
    #[error("bad packet text")]
    PacketText,
    /// The first line of standard input is no topology.
    #[error("topology refused")]
    Topology,
    /// There are not 1 to 8 workers.
    #[error("workers refused")]
    Workers,
    /// A read of standard input failed.
    #[error("read failed")]
    Read,
    /// A write to standard output failed, or wrote no byte.
    #[error("write failed")]
    Write,
    /// Standard input has more than 67,108,864 bytes.
    #[error("input too long")]
    InputTooLong,
    /// Memory ran out.
    #[error("out of memory")]
    Memory,
}

impl CommandFault {
    /// The status of a run with this fault: [`Status::Refused`] if the words were refused, else
    /// [`Status::Failed`].
    pub fn status(&self) -> Status
        ensures { result ≡ status_of self.now }
    {
        match self {
            CommandFault::Usage(_) | CommandFault::NoCommand => Status::Refused,
            _ => Status::Failed,
        }
    }

    /// The message about the fault on standard error, with its line ends.
    pub fn message(&self) -> &str
        ensures { result.now ≡ text_of_fault self.now }
    {
        match self {
            CommandFault::Usage(text) => text.as_str(),
            CommandFault::NoCommand => "scionet: usage\n",
            CommandFault::PacketText => "scionet: bad packet text\n",
            CommandFault::Topology => "scionet: topology refused\n",
            CommandFault::Workers => "scionet: workers refused\n",
            CommandFault::Read => "scionet: read failed\n",
            CommandFault::Write => "scionet: write failed\n",
            CommandFault::InputTooLong => "scionet: input too long\n",
            CommandFault::Memory => "scionet: out of memory\n",
        }
    }
}

impl From<WordsFault> for CommandFault {
    ghost from_gives = { λ fault e. e ≡ of_words fault };

    fn from(fault: WordsFault) -> CommandFault {
        match fault {
            WordsFault::Usage(text) => CommandFault::Usage(text),
            WordsFault::NoCommand => CommandFault::NoCommand,
            WordsFault::Memory => CommandFault::Memory,
        }
    }
}

impl From<InputFault> for CommandFault {
    ghost from_gives = { λ fault e. e ≡ of_input fault };

    fn from(fault: InputFault) -> CommandFault {
        match fault {
            InputFault::Read => CommandFault::Read,
            InputFault::TooLong => CommandFault::InputTooLong,
            InputFault::Memory => CommandFault::Memory,
        }
    }
}

impl From<TurnFault> for CommandFault {
    ghost from_gives = { λ fault e. e ≡ of_turn fault };

    fn from(fault: TurnFault) -> CommandFault {
        match fault {
            TurnFault::PacketText => CommandFault::PacketText,
            TurnFault::Memory => CommandFault::Memory,
        }
    }
}

impl From<RunFault> for CommandFault {
    ghost from_gives = { λ fault e. e ≡ of_run fault };

    fn from(fault: RunFault) -> CommandFault {
        match fault {
            RunFault::Topology => CommandFault::Topology,
            RunFault::Read => CommandFault::Read,
            RunFault::Write => CommandFault::Write,
            RunFault::Memory => CommandFault::Memory,
            RunFault::InputTooLong => CommandFault::InputTooLong,
        }
    }
}

impl From<WorkFault> for CommandFault {
    ghost from_gives = { λ fault e. e ≡ of_work fault };

    fn from(fault: WorkFault) -> CommandFault {
        match fault {
            WorkFault::Lines(fault) => CommandFault::from(fault),
            WorkFault::Workers => CommandFault::Workers,
            WorkFault::Memory => CommandFault::Memory,
            WorkFault::Write => CommandFault::Write,
        }
    }
}

impl From<WriteFailed> for CommandFault {
    ghost from_gives = { λ _ e. e ≡ command.Write };

    fn from(_fault: WriteFailed) -> CommandFault {
        CommandFault::Write
    }
}

impl From<AllocError> for CommandFault {
    ghost from_gives = { λ _ e. e ≡ command.Memory };

    fn from(_error: AllocError) -> CommandFault {
        CommandFault::Memory
    }
}
