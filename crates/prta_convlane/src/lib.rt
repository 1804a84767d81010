//! The kernel that sums eight cells at a time, by limbs.
#![tactic(auto)]

mod cells;
mod halves;
mod lane;
mod lanes;
mod laws;
mod quarters;
mod rest;
#[cfg(test)]
mod tests;

pub use lane::Lane;
pub use laws::{limbs_join, worked_limbs};
