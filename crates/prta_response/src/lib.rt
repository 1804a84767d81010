//! Response runs: from a level's list at a job's release to a bound of the chance that the job misses its deadline; and
//! the law of starts, by which such lists and numbers bound the machine's exact chances.
#![tactic(auto)]

mod coming;
mod delaying;
mod laws;
mod meeting;
mod responding;
#[cfg(test)]
mod tests;
mod worked;

pub use laws::{
    images_bound_backlogs, law_of_starts, lower_numbers_stay, numbers_are_around,
    points_bound_backlogs,
};
pub use responding::respond;
pub use worked::{worked_law, worked_responses};
