//! Generated sheets: a seed and a number of tasks make a sheet, always the same and always an accepted one.
#![tactic(auto)]

mod draws;
mod generator;
mod laws;
#[cfg(test)]
mod tests;

pub use generator::{GenFault, generate};
pub use laws::{generated_sheets_are_accepted, worked_draws};
