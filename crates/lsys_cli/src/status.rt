//! How a run ends.
ghost use Rattle.std.specs.Prelude.{◌≡◌};
ghost use Rattle.lsys_cli.specs.Statuses.{exit_code};

/// How a run of the program ended.
#[derive(Clone, Copy, PartialEq, Eq, Debug)]
pub enum Status {
    /// The script was read to its end or to `quit`, and every command was accepted or printed.
    Done,
    /// The same, but some reply is a refusal, and none says out of memory.
    Refused,
    /// The words on the command line are wrong.
    Usage,
    /// The source failed.
    ReadFault,
    /// The sink failed.
    WriteFault,
    /// Some reply says out of memory, or the run could not begin for it.
    Memory,
    /// The script has more than 16,777,216 bytes.
    TooLong,
}

impl Status {
    /// The program's exit code: 0 to 6, in the order of the statuses.
    pub fn code(self) -> u8
        ensures { result ≡ exit_code self }
    {
        match self {
            Status::Done => 0,
            Status::Refused => 1,
            Status::Usage => 2,
            Status::ReadFault => 3,
            Status::WriteFault => 4,
            Status::Memory => 5,
            Status::TooLong => 6,
        }
    }
}
