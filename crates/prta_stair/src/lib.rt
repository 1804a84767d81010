//! A curve that keeps only the places where its list of chances rises.
#![tactic(auto)]

mod adding;
mod comparing;
mod laws;
mod marking;
mod moving;
mod reading;
mod setting;
mod stair;
#[cfg(test)]
mod tests;

pub use laws::{steps_are_lists, worked_steps};
pub use stair::Stair;
