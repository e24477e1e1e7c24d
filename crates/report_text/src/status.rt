ghost use Rattle.std.specs.Prelude.{◌≡◌};
ghost use Rattle.report_text.specs.Statuses.{status_number};

/// How a run ended.
#[derive(Clone, Copy, Debug, PartialEq, Eq)]
pub enum Status {
    /// The answer was written to its end.
    Chains,

    /// The answer was written up to the first branch that passed a limit.
    Stopped,

    /// The words of the command line are no command.
    Usage,

    /// What was read is no system.
    Refused,

    /// A read failed.
    ReadFault,

    /// A write failed.
    WriteFault,

    /// There was no memory.
    OutOfMemory,
}

impl Status {
    /// The number that a program ends with.
    pub fn number(self) -> u8
        ensures { result ≡ status_number self }
    {
        match self {
            Status::Chains => 0,
            Status::Stopped => 1,
            Status::Usage => 2,
            Status::Refused => 3,
            Status::ReadFault => 4,
            Status::WriteFault => 5,
            Status::OutOfMemory => 6,
        }
    }
}
