//! Delays of a response: the part of a list of chances above a split place is put off by the time of a job.
#![tactic(auto)]

mod delays;
mod laws;
mod splits;
#[cfg(test)]
mod tests;
mod window;

pub use delays::delay;
pub use laws::{delays_by_splitting, delays_keep_chances, worked_delays};
pub use splits::{merge, split};
