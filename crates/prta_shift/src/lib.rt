//! Shifting lists of chances: as time passes without a release, the backlog falls.
#![tactic(auto)]

mod laws;
mod shift;
#[cfg(test)]
mod tests;

pub use laws::{shifts_add, shifts_keep_chances, worked_shifts};
pub use shift::{shift_cells, shift_into};
