//! What a certificate states of a task.

use crate::steps::StepList;

/// What a certificate states of a task, with all that stand above it.
#[derive(Debug, Drop)]
pub enum CertLevel {
    /// A list of chances, by its steps.
    Steps(StepList),
    /// There is none: the greatest work of a hyperperiod, in ticks, is above the hyperperiod.
    OverFull {
        /// The greatest work of a hyperperiod, in ticks.
        work: u64,
        /// The hyperperiod, in ticks.
        hyperperiod: u64,
    },
    /// There is none with so many cells: the peak isn't below the cap.
    BeyondCap {
        /// The greatest backlog right after a release, in ticks.
        peak: u64,
    },
}
