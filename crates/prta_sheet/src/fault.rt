//! Why a sheet is refused.

ghost use Rattle.std.specs.Prelude.{◌≡◌};
ghost use Rattle.prta_sheet.specs.Refusal.{number_of};

use prta_mass::TableFault;
use thiserror::Error;

/// A table of the document.
#[derive(Clone, Copy, Debug, PartialEq, Eq)]
pub enum Place {
    /// The document itself.
    Top,
    /// The table `support`.
    Support,
    /// The element of `task` with this number, from 0.
    Task(usize),
}

/// A key of the format.
#[derive(Clone, Copy, Debug, PartialEq, Eq)]
pub enum Key {
    /// The number of the format, 1 or 2.
    Format,
    /// The number of cells of a list of chances.
    Cap,
    /// The number of hyperperiods that are analysed.
    Hyperperiods,
    /// The number of images that are tried for a certificate.
    Turns,
    /// The cells that a re-sampling keeps.
    Support,
    /// The last of the cells from 0 on that are all kept.
    Fine,
    /// The number whose multiples are kept.
    Step,
    /// The tasks, from highest priority to lowest.
    Task,
    /// The name of a task.
    Name,
    /// The release of a task's first job, in ticks.
    Offset,
    /// The ticks from one release of a task to the next.
    Period,
    /// The ticks from a job's release to its absolute deadline.
    Deadline,
    /// The execution times of a task, in ticks, with their weights.
    Times,
    /// The tables of a task that its jobs have in turn, each as under `times`.
    Cycle,
    /// The allowance p of q of a task: a job may miss with a chance of at most p / q.
    Allow,
}

/// Why bytes or parts give no sheet: the first condition that fails. A `usize` alone is a task's number, from 0.
#[derive(Clone, Copy, Debug, PartialEq, Eq, Error)]
pub enum SheetFault {
    #[error("the file has more than 1048576 bytes")]
    TooLong,
    #[error("the file is no TOML")]
    NotToml,
    #[error("there is no key format with the value 1 or 2")]
    Format,
    #[error("an unknown key")]
    UnknownKey(Place),
    #[error("a key is missing")]
    MissingKey(Place, Key),
    #[error("a value is of another kind")]
    WrongKind(Place, Key),
    #[error("a number is out of its range")]
    OutOfRange(Place, Key),
    #[error("{0} tasks, not 1 to 12")]
    TaskCount(usize),
    #[error("the name of task {0} is not 1 to 24 letters, digits, _ and -")]
    BadName(usize),
    #[error("the name of task {0} is that of an earlier one")]
    RepeatedName(usize),
    #[error("the offset of task {0} is not below its period")]
    OffsetNotBelowPeriod(usize),
    #[error("the times of task {0}: {1}")]
    BadTable(usize, TableFault),
    #[error("the weights of task {0} sum to more than 281474976710656")]
    TotalTooLarge(usize),
    #[error("the deadline of task {0} is above the cap less 2")]
    DeadlineNotBelowCap(usize),
    #[error("the hyperperiod is above 1000000")]
    HyperperiodTooLarge,
    #[error("{0} jobs, more than 2000")]
    TooManyJobs(u64),
    #[error("a work of {0}, more than 2147483648")]
    TooMuchWork(u64),
    #[error("no memory")]
    NoMemory,
}

impl SheetFault {
    /// The number of the condition, and 0 for want of memory.
    pub fn number(&self) -> u32
        ensures { result ≡ number_of self.now }
    {
        match self {
            SheetFault::TooLong => 1,
            SheetFault::NotToml => 2,
            SheetFault::Format => 3,
            SheetFault::UnknownKey(_) => 4,
            SheetFault::MissingKey(_, _) => 5,
            SheetFault::WrongKind(_, _) => 6,
            SheetFault::OutOfRange(_, _) => 7,
            SheetFault::TaskCount(_) => 8,
            SheetFault::BadName(_) | SheetFault::RepeatedName(_) => 9,
            SheetFault::OffsetNotBelowPeriod(_) => 10,
            SheetFault::BadTable(_, _) => 11,
            SheetFault::TotalTooLarge(_) => 12,
            SheetFault::DeadlineNotBelowCap(_) => 13,
            SheetFault::HyperperiodTooLarge => 14,
            SheetFault::TooManyJobs(_) => 15,
            SheetFault::TooMuchWork(_) => 16,
            SheetFault::NoMemory => 0,
        }
    }
}
