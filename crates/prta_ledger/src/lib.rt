//! The ledger: what the operations of an analysis change by rounding, cutting and re-sampling, as numbered entries, and
//! their sum for a job.
#![tactic(auto)]

mod entry;
mod ledger;
mod notes;
#[cfg(test)]
mod tests;
mod worked;

pub use entry::{Entry, Kind};
pub use ledger::Ledger;
pub use notes::{NoNotes, Notes};
pub use worked::worked_sums;
