//! Jobs.

ghost use Rattle.std.specs.Prelude.{◌≡◌, ◌<◌, length};
ghost use Rattle.prta_sheet.specs.Job.{nth_job};

use crate::releases::release_of;
use crate::tasks::tasks_of;
use prta_sheet::Sheet;
use std::marker::Model;

/// A job of a task.
#[derive(Clone, Copy, Debug, PartialEq, Eq)]
pub struct Job {
    /// The number of its task on the sheet, from 0.
    pub task: usize,
    /// Its number among the jobs of its task, from 0.
    pub number: u32,
    /// When it is released, in ticks.
    pub release: u64,
}

impl Model for Job {
    ghost use Rattle.prta_sheet.specs.Job.{Job as JobParts};

    ghost Value = { JobParts };

    ghost view = { λ j. record { task = j.task; number = j.number; release = j.release } };

    ghost inverse = { λ j. record { task = j.task; number = j.number; release = j.release } };
}

/// When the task's job of this number is released, in ticks.
pub fn release(sheet: &Sheet, task: usize, number: u32) -> u64
    requires { task < length sheet.now.tasks }
    ensures { result ≡ (nth_job sheet.now.tasks task number).release }
{
    release_of(&tasks_of(sheet)[task], number)
}
