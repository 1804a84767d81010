//! Re-sampling lists of chances at a stated support: between two support points a list stays level, on the safe side.
#![tactic(auto)]

mod laws;
mod resample;
#[cfg(test)]
mod tests;

pub use laws::{resamplings_keep_chances, worked_resamplings};
pub use resample::resample_cells;
