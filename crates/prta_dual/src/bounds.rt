//! The two numbers of a job.

/// Two numbers around the exact chance that a job misses its deadline, in units of 2^-60.
#[derive(Clone, Copy)]
pub struct Bounds {
    /// At most the chance.
    pub lower: u64,
    /// At least the chance.
    pub upper: u64,
}
