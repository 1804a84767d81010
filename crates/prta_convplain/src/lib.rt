//! The kernel that sums each cell in 128 bits.
#![tactic(auto)]

mod plain;
mod sums;
#[cfg(test)]
mod tests;

pub use plain::Plain;
