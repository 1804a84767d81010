//! Runs of one job.

/// A stretch of ticks in which one job runs, or none.
#[derive(Clone, Copy, Debug, PartialEq, Eq)]
pub struct Run {
    /// The first tick.
    pub from: u64,
    /// The tick after the last.
    pub to: u64,
    /// The place of the job among the machine's jobs; none where the processor is idle.
    pub who: Option<usize>,
}
