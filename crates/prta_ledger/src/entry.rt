//! What one operation of an analysis changed.

use prta_mass::Dir;

/// How an operation changed a list of chances beside what it is for.
#[derive(Clone, Copy, Debug, PartialEq, Eq)]
pub enum Kind {
    /// An addition of a level run divided with a remainder in some cell.
    Round,
    /// An addition of a level run cut something off at the last cell.
    Cut,
    /// A re-sampling of a level run moved something.
    Resample,
    /// A delay of a response run divided with a remainder in some cell.
    Delay,
}

/// A change of one kind by one operation.
#[derive(Clone, Copy, Debug, PartialEq, Eq)]
pub struct Entry {
    /// The direction of the run.
    pub dir: Dir,
    /// The kind of change.
    pub kind: Kind,
    /// The number of the analysed task.
    pub task: u32,
    /// The number of the job of this task that the entry names.
    pub job: u32,
    /// The number of the operation in its run, from 1 on.
    pub op: u32,
    /// By how much, in units of 2^-60.
    pub amount: u64,
}
