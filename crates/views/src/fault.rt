ghost use Rattle.std.specs.Prelude.{◌≡◌};
ghost use Rattle.commands.specs.declared.fault.CommandFault.TheVariants as command;
ghost use Rattle.views.specs.declared.fault.ViewFault.TheVariants.{Command};

use commands::CommandFault;
use network_core::EventFault;
use streams::WriteFailed;

/// Why a view was not shown, or not whole.
#[derive(Debug, Drop)]
pub enum ViewFault {
    /// The view was not carried out.
    Command(CommandFault),
    /// What the words name is not in the network after the lines, or is there no question: the
    /// fault of an event that names the same.
    Refused(EventFault),
}

impl From<CommandFault> for ViewFault {
    ghost from_gives = { λ fault e. e ≡ Command fault };

    fn from(fault: CommandFault) -> ViewFault {
        ViewFault::Command(fault)
    }
}

impl From<WriteFailed> for ViewFault {
    ghost from_gives = { λ _ e. e ≡ Command command.Write };

    fn from(_fault: WriteFailed) -> ViewFault {
        ViewFault::Command(CommandFault::Write)
    }
}
