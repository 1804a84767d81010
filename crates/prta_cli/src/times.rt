//! The file of chosen times, and why it is refused.

ghost use Rattle.std.specs.Prelude.{◌≡◌};
ghost use Rattle.prta_cli.specs.Refused.{times_number};

/// A file of chosen times has at most this many bytes.
pub const TIMES_LIMIT: usize = 1_048_576;

/// The condition that refuses a file of chosen times.
#[derive(Clone, Copy, Debug, PartialEq, Eq)]
pub enum TimesFault {
    /// There are more bytes than `TIMES_LIMIT`.
    TooLong,
    /// This line, counted from 1, is the first that is no time.
    BadLine(usize),
    /// There are so many times, and not one for each analysed job.
    WrongCount(usize),
    /// The time at this place, from 0, is the first that is not in its job's table.
    NotInTable(usize),
}

impl TimesFault {
    /// The number of the condition.
    pub fn number(&self) -> u64
        ensures { result ≡ times_number self.now }
    {
        match self {
            TimesFault::TooLong => 1,
            TimesFault::BadLine(_) => 2,
            TimesFault::WrongCount(_) => 3,
            TimesFault::NotInTable(_) => 4,
        }
    }
}
