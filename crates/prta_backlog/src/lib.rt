//! Level runs: from a sheet and a level to the list of chances of its backlog at each instant, with an entry for every
//! rounding, cut and re-sampling; images, and the greatest numbers of a level.
#![tactic(auto)]

mod adding;
mod bench;
mod greatest;
mod imaging;
mod instants;
mod laws;
mod noting;
mod pass;
mod room;
#[cfg(test)]
mod tests;
mod worked;

pub use bench::{Bench, bench_for};
pub use greatest::{greatest_work, peak, worst_backlog};
pub use imaging::image;
pub use laws::{
    greatest_numbers_are_low, images_keep_dominance, operations_keep_dominance, room_is_enough,
    runs_keep_dominance, runs_stay_chances, runs_stay_still, steps_follow_runs,
};
pub use pass::LevelPass;
pub use room::room_for;
pub use worked::{worked_greatest, worked_runs};
