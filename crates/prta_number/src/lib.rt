//! Whole numbers in decimal, as every file and word that is read writes them.
#![tactic(auto)]

mod laws;
mod number;
#[cfg(test)]
mod tests;

pub use laws::{printed_numbers_are_read, read_numbers_are_printed, worked_numbers};
pub use number::number_within;
