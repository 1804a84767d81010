//! What is said of a level.

/// Whether there is a certificate for a level, and which one, or why there is none.
#[derive(Clone, Copy)]
pub enum Verdict {
    /// The image of this number of the point at 0.
    Turn(u32),
    /// The last image that was tried, lowered by this many units of 2^-60 below the worst-case backlog.
    Slack(u64),
    /// The greatest work is above the hyperperiod, both in ticks.
    OverFull {
        /// The greatest work.
        work: u64,
        /// The hyperperiod.
        hyperperiod: u64,
    },
    /// The peak, in ticks, isn't below the cap.
    BeyondCap {
        /// The peak.
        peak: u64,
    },
}
