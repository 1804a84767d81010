//! Instants: the times at which the tasks of a level release jobs.

ghost use Rattle.std.specs.Prelude.{◌≡◌, ℕ, ◌+◌, ◌^◌, ◌<◌, ◌≤◌, length};
ghost use Rattle.prta_jobs.specs.TaskSet.{holds};
ghost use Rattle.prta_jobs.specs.Ranges.{AreSheetTasks};
ghost use Rattle.prta_jobs.specs.Instant.{is_released, IsOnSheet, HasTask, IsLeastRelease, IsInstant};

use crate::releases::{is_release, next_release};
use crate::task_set::TaskSet;
use crate::tasks::tasks_of;
use prta_sheet::{PERIOD_LIMIT, Sheet, Task};
use std::marker::Model;

/// A time at which tasks of a level release jobs.
#[derive(Clone, Copy, Debug, PartialEq, Eq)]
pub struct Instant {
    /// The time, in ticks.
    pub at: u64,
    /// All tasks of the level that release a job then.
    pub released: TaskSet,
}

impl Model for Instant {
    ghost use Rattle.prta_jobs.specs.Instant.{InstantParts};

    ghost Value = { InstantParts };

    ghost view = { λ i. record { at = i.at; released = i.released } };

    ghost inverse = { λ i. record { at = i.at; released = i.released } };
}

/// The first instant of the level.
pub fn first_instant(sheet: &Sheet, level: TaskSet) -> Instant
    requires on_sheet { IsOnSheet sheet.now.tasks (holds level) }
    requires some { HasTask (holds level) }
    ensures instant { IsInstant sheet.now.tasks (holds level) 0 result.at (holds result.released) }
    ensures near { result.at < PERIOD_LIMIT }
{
    instant_from(tasks_of(sheet), level, 0)
}

/// The first instant of the level after a time in ticks.
pub fn next_instant(sheet: &Sheet, level: TaskSet, after: u64) -> Instant
    requires on_sheet { IsOnSheet sheet.now.tasks (holds level) }
    requires some { HasTask (holds level) }
    requires after { after ≤ 2 ^ 40 }
    ensures instant { IsInstant sheet.now.tasks (holds level) (after + 1) result.at (holds result.released) }
    ensures near { result.at ≤ after + PERIOD_LIMIT }
{
    instant_from(tasks_of(sheet), level, after + 1)
}

// The first instant of the level from a time on.
pub(crate) fn instant_from(tasks: &[Task], level: TaskSet, from: u64) -> Instant
    requires sheet { AreSheetTasks tasks.now }
    requires on_sheet { IsOnSheet tasks.now (holds level) }
    requires some { HasTask (holds level) }
    requires from { from ≤ 2 ^ 41 }
    ensures instant { IsInstant tasks.now (holds level) from result.at (holds result.released) }
    ensures near { result.at < from + PERIOD_LIMIT }
{
    let at = least_release(tasks, level, from);
    Instant {
        at,
        released: released_at(tasks, level, at),
    }
}

// The first time from another one on at which a task of the level releases a job.
pub(crate) fn least_release(tasks: &[Task], level: TaskSet, from: u64) -> u64
    requires sheet { AreSheetTasks tasks.now }
    requires on_sheet { IsOnSheet tasks.now (holds level) }
    requires some { HasTask (holds level) }
    requires from { from ≤ 2 ^ 41 }
    ensures least { IsLeastRelease tasks.now (holds level) from result }
    ensures near { result < from + PERIOD_LIMIT }
{
    let mut least = u64::MAX;
    for i in 0..tasks.len() {
        if level.holds(i) {
            least = least.min(next_release(&tasks[i], from));
        }
    }
    least
}

// The tasks of the level that release a job at a time.
fn released_at(tasks: &[Task], level: TaskSet, time: u64) -> TaskSet
    requires sheet { AreSheetTasks tasks.now }
    requires on_sheet { IsOnSheet tasks.now (holds level) }
    ensures { (i : ℕ) → holds result i ≡ is_released tasks.now (holds level) time i }
{
    let mut released = TaskSet::empty();
    for i in 0..tasks.len() {
        if is_released(tasks, level, time, i) {
            released = released.with(i);
        }
    }
    released
}

// Whether task i is of the level and releases a job at a time.
fn is_released(tasks: &[Task], level: TaskSet, time: u64, i: usize) -> bool
    requires sheet { AreSheetTasks tasks.now }
    requires task { i < length tasks.now }
    ensures { result ≡ is_released tasks.now (holds level) time i }
{
    level.holds(i) && is_release(&tasks[i], time)
}
