//! Why times are not those of a sheet's analysed jobs.

use thiserror::Error;

/// Why no machine is made.
#[derive(Clone, Copy, Debug, PartialEq, Eq, Error)]
pub enum MachineFault {
    /// The number of times is not that of the analysed jobs.
    #[error("{got} times for {want} jobs")]
    WrongCount {
        /// The number of analysed jobs.
        want: usize,
        /// The number of times.
        got: usize,
    },
    /// The time at this place, from 0, is the first that is not in its job's table.
    #[error("time {0} is not in its job's table")]
    NotInTable(usize),
    /// Want of memory.
    #[error("no memory")]
    NoMemory,
}
