//! Certificates: lists of chances that bound a level's backlog at the start of every hyperperiod, and when there is one.
#![tactic(auto)]

mod checking;
mod laws;
mod searching;
mod steadiness;
mod steps;
#[cfg(test)]
mod tests;
mod verdict;
mod worked;

pub use checking::check;
pub use laws::{
    candidates_certify, certified_lists_bound, levels_are_found, none_certifies, search_decides,
    steady_numbers_hold, test_certifies, verdicts_say,
};
pub use prta_certfile::{CertFault, CertLevel, Certificate, StepList};
pub use searching::find;
pub use steadiness::steady;
pub use steps::{load_steps, take_steps};
pub use verdict::Verdict;
pub use worked::worked_certificates;
