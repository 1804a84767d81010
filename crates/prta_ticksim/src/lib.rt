//! The tick machine: it runs jobs with chosen times, and its state is that of the model after each number of ticks.
#![tactic(auto)]

mod backlog;
mod choices;
mod fault;
mod line;
mod machine;
mod model;
mod run;
mod schedule;
mod serving;
mod starting;
#[cfg(test)]
mod tests;

pub use backlog::finish_by_backlog;
pub use choices::{Choices, ChoicesFault, read_choices};
pub use fault::MachineFault;
pub use machine::Machine;
pub use model::{
    finishes_tell_misses, later_jobs_change_no_miss, worked_choices, worked_runs, worked_turns,
};
pub use run::Run;
pub use schedule::schedule_to_backlog;
