//! The discrete side of the model: which jobs there are and when, sets of tasks, and orders of priorities.
#![tactic(auto)]

mod instant;
mod job;
mod jobs;
mod model;
mod order;
mod permutation;
mod releases;
mod task_set;
mod tasks;
#[cfg(test)]
mod tests;

pub use instant::{Instant, first_instant, next_instant};
pub use job::{Job, release};
pub use jobs::{Jobs, jobs_before};
pub use model::{jobs_are_before, orders_have_places, worked_finishes};
pub use order::{Order, OrderFault};
pub use task_set::TaskSet;
