//! The answer of the assignment.

use prta_jobs::{Order, TaskSet};

/// What is known of the orders of priorities of a sheet's tasks.
#[derive(Debug, Drop)]
pub enum Assigned {
    /// Under this order every task passes by its upper numbers.
    Order(Order),
    /// No order passes by the upper numbers, and the lower numbers don't refuse every order.
    Undecided {
        /// The unplaced tasks: none of them passes by its upper numbers with all others of them above it.
        stuck: TaskSet,
    },
    /// Under every order some job's exact chance of a miss is above its task's allowance.
    Impossible {
        /// The unplaced tasks: none of them passes by its lower numbers with all others of them above it.
        stuck: TaskSet,
    },
}
