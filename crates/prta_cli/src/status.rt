//! How a run of the program ends.

ghost use Rattle.std.specs.Prelude.{◌≡◌};
ghost use Rattle.prta_cli.specs.Answer.{status_number};

/// How a run of the program ended.
#[derive(Clone, Copy, Debug, PartialEq, Eq)]
pub enum Status {
    /// Out took the whole text.
    Done,
    /// The same, and `check` found a job whose upper number doesn't pass, `verify` a list that certifies
    /// nothing, or `assign` no order.
    No,
    /// The words are no command.
    Usage,
    /// A condition on the sheet fails: the first one is told on err.
    SheetRefused,
    /// A condition on the second file fails: the first one is told on err.
    InputRefused,
    /// A file can't be read.
    ReadFault,
    /// Out failed. It took a prefix of the text; all of it may have gone out where only its flush failed.
    WriteFault,
    /// Want of memory.
    NoMemory,
}

impl Status {
    /// The number that the process ends with.
    pub fn number(&self) -> u8
        ensures { result ≡ status_number self.now }
    {
        match self {
            Status::Done => 0,
            Status::No => 1,
            Status::Usage => 2,
            Status::SheetRefused => 3,
            Status::InputRefused => 4,
            Status::ReadFault => 5,
            Status::WriteFault => 6,
            Status::NoMemory => 7,
        }
    }
}
