//! Two numbers around the exact chance of each analysed job, and a ledger that bounds their difference.
#![tactic(auto)]

mod analyse;
mod bounds;
mod failing;
mod laws;
#[cfg(test)]
mod tests;
mod worked;

pub use analyse::analyse_task;
pub use bounds::Bounds;
pub use failing::{Failing, first_failing, first_failing_below};
pub use laws::{
    empty_ledger_is_exact, entries_are_countable, entries_have_room, gap_is_noted, own_jobs_in_turn,
};
pub use worked::worked_analyses;
