ghost use Rattle.std.specs.Prelude.{◌≡◌};
ghost use Rattle.commands.specs.Fault.{exit_code};

/// How a run of the program ended.
#[derive(Clone, Copy, Debug, PartialEq, Eq)]
pub enum Status {
    /// The command was carried out.
    Done,
    /// The packet's text is no packet, the topology or the number of workers is refused, a stream
    /// failed or was too long, or memory ran out.
    Failed,
    /// The words are refused, or ask for help.
    Refused,
}

impl Status {
    /// The exit status of the program: 0, 1 or 2.
    pub fn code(self) -> u8
        ensures { result ≡ exit_code self }
    {
        match self {
            Status::Done => 0,
            Status::Failed => 1,
            Status::Refused => 2,
        }
    }
}
