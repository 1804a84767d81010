//! The schedule and one number of backlog: a law of the definitions.

ghost use Rattle.prta_ticksim.specs.ScheduleToBacklog.{ScheduleToBacklog};

use prta_jobs::{jobs_are_before, orders_have_places};

/// The machine starts with all jobs of some tasks before some time, under an order of these tasks, and each job has a
/// time of at least 1. Then each of the jobs finishes at its finish by backlog, misses where that is above its absolute
/// deadline, and finishes at the same time whatever the jobs of lower tasks take.
pub fn schedule_to_backlog()
    ensures { ScheduleToBacklog }
{
    orders_have_places();
    jobs_are_before();
}
