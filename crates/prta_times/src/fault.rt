//! Why bytes are no file of counts.

ghost use Rattle.std.specs.Prelude.{◌≡◌};
ghost use Rattle.prta_times.specs.Counts.{number_of};

use prta_mass::NoMemory;
use std::alloc::AllocFailed;
use thiserror::Error;

/// Why bytes are no file of counts for a sheet, by the first condition that fails. Each is tested over the whole file
/// before the next. Records are counted from 1 after the header, tasks from 0.
#[derive(Clone, Copy, Debug, PartialEq, Eq, Error)]
pub enum CountsFault {
    /// There are more than `COUNTS_LIMIT` bytes.
    #[error("more than 1048576 bytes")]
    TooLong,
    /// The first record isn't the three fields `task`, `time`, `weight`, or there is none.
    #[error("the first record isn't task,time,weight")]
    BadHeader,
    /// This record is the first that hasn't three fields, a time of 1 to 1,000,000 and a weight of 1 to `TOTAL_LIMIT`.
    #[error("record {0} isn't a name, a time and a weight")]
    BadRow(usize),
    /// This record is the first whose task isn't on the sheet.
    #[error("the task of record {0} isn't on the sheet")]
    UnknownTask(usize),
    /// This task is the first with too many different times: more than `POINT_LIMIT`, or where they are reduced
    /// more than `WIDE_LIMIT`.
    #[error("task {0} has too many different times")]
    TooManyPoints(usize),
    /// This task is the first whose weights sum to more than `TOTAL_LIMIT`.
    #[error("the weights of task {0} sum to more than 281474976710656")]
    TotalTooLarge(usize),
    /// The new sheet's work, which is carried, is too much.
    #[error("the work is {0}, more than 2147483648")]
    TooMuchWork(u64),
    /// Want of memory.
    #[error("no memory")]
    NoMemory,
}

impl CountsFault {
    /// The number of the condition, from 1 on; 0 for want of memory.
    pub fn number(&self) -> u32
        ensures { result ≡ number_of self.now }
    {
        match self {
            CountsFault::TooLong => 1,
            CountsFault::BadHeader => 2,
            CountsFault::BadRow(_) => 3,
            CountsFault::UnknownTask(_) => 4,
            CountsFault::TooManyPoints(_) => 5,
            CountsFault::TotalTooLarge(_) => 6,
            CountsFault::TooMuchWork(_) => 7,
            CountsFault::NoMemory => 0,
        }
    }
}

impl From<NoMemory> for CountsFault {
    ghost use Rattle.prta_times.specs.declared.fault.CountsFault.TheVariants.{NoMemory as no_memory};

    ghost from_gives = { λ _ fault. fault ≡ no_memory };

    fn from(_error: NoMemory) -> CountsFault {
        CountsFault::NoMemory
    }
}

impl<T: Drop> From<AllocFailed<T>> for CountsFault {
    ghost use Rattle.prta_times.specs.declared.fault.CountsFault.TheVariants.{NoMemory as no_memory};

    ghost from_gives = { λ _ fault. fault ≡ no_memory };

    fn from(_error: AllocFailed<T>) -> CountsFault {
        CountsFault::NoMemory
    }
}
