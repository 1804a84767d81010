//! How many ticks may be added to the times of a task with every job still passing.
#![tactic(auto)]

mod answer;
mod finding;
mod laws;
#[cfg(test)]
mod tests;
mod worked;

pub use answer::Slack;
pub use finding::find_slack;
pub use laws::{added_ticks, later_times_lower_no_upper, passing_is_each, slacks_hold};
pub use worked::worked_slacks;
