//! Geometric tails: steady bounds for levels whose greatest work is above the hyperperiod.
#![tactic(auto)]

mod growth;
mod laws;
mod loading;
mod ratio;
mod steadiness;
#[cfg(test)]
mod tests;
mod walking;
mod worked;

pub use laws::{backlogs_have_tails, base_lists_bound, tail_numbers_hold};
pub use loading::load_tail;
pub use ratio::{RATIOS, Ratio, stated_ratios};
pub use steadiness::tail_steady;
pub use walking::{find_ratio, walk_passes};
pub use worked::{worked_tails, worked_walks};
