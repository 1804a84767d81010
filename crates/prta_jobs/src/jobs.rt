//! The jobs that are released before a time.

ghost use Rattle.std.specs.Prelude.{◌≡◌, ◌<◌, ◌≤◌, ◌^◌, ◌∷◌, ◌++◌, [], true, length, IfOk, OnOk};
ghost use Rattle.prta_sheet.specs.Sheet.{task_at};
ghost use Rattle.prta_sheet.specs.Job.{is_release, released_by, released_at, jobs_before};
ghost use Rattle.prta_jobs.specs.Ranges.{AreSheetTasks};

use crate::instant::least_release;
use crate::job::Job;
use crate::releases::{count_before, is_release};
use crate::task_set::TaskSet;
use crate::tasks::tasks_of;
use prta_mass::NoMemory;
use prta_sheet::{Sheet, Task};
use std::alloc::Global;
use std::marker::Model;

/// Jobs in a list.
#[derive(Debug, Drop)]
pub struct Jobs {
    list: Vec<Job>,
}

impl Model for Jobs {
    ghost use Rattle.std.specs.Prelude.{List};
    ghost use Rattle.prta_sheet.specs.Job.{Job as JobParts};

    ghost Value = { List JobParts };

    ghost view = { λ j. j.list.items };
}

impl Jobs {
    /// The jobs, in the order in which they were listed.
    pub fn list(&self) -> &[Job]
        ensures { result.now ≡ self.now }
    {
        &self.list
    }
}

/// The jobs of the sheet with a release below t ticks: earlier releases first, and those of one time in the order of
/// their tasks.
pub fn jobs_before(alloc: Global, sheet: &Sheet, t: u64) -> Result<Jobs, NoMemory>
    requires { t ≤ 2 ^ 32 }
    ensures { IfOk result (λ jobs. jobs ≡ jobs_before sheet.now.tasks t) }
{
    let list = list_before(alloc, tasks_of(sheet), t)?;
    Ok(Jobs { list })
}

// The jobs of these tasks before t. Memory is taken once, since the length of the list is known.
pub(crate) fn list_before(alloc: Global, tasks: &[Task], t: u64) -> Result<Vec<Job>, NoMemory>
    requires sheet { AreSheetTasks tasks.now }
    requires time { t ≤ 2 ^ 32 }
    ensures { IfOk result (λ jobs. jobs.items ≡ jobs_before tasks.now t) }
{
    let level = TaskSet::below(tasks.len());
    let mut jobs = Vec::with_capacity(alloc, count_before(tasks, t) as usize)?;
    let mut since = 0;
    while since < t {
        let at = least_release(tasks, level, since);
        if at >= t {
            return Ok(jobs);
        }
        push_released(&mut jobs, tasks, at)?;
        since = at + 1;
    }
    Ok(jobs)
}

// Appends the jobs that are released at a time, in the order of their tasks.
fn push_released(jobs: &mut Vec<Job>, tasks: &[Task], at: u64) -> Result<(), NoMemory>
    requires sheet { AreSheetTasks tasks.now }
    requires time { at < 2 ^ 32 }
    ensures { OnOk result (jobs.new.items ≡ jobs.old.items ++ released_at 0 tasks.now at) }
{
    for i in 0..tasks.len() {
        if is_release(&tasks[i], at) {
            jobs.push(job_at(tasks, i, at))?;
        }
    }
    Ok(())
}

// The job that task i releases at a time.
fn job_at(tasks: &[Task], i: usize, at: u64) -> Job
    requires sheet { AreSheetTasks tasks.now }
    requires task { i < length tasks.now }
    requires time { at < 2 ^ 32 }
    requires release { is_release (task_at tasks.now i) at ≡ true }
    ensures { released_by i (task_at tasks.now i) at ≡ result ∷ [] }
{
    let task = &tasks[i];
    let number = (at - task.offset() as u64) / task.period() as u64;
    Job {
        task: i,
        number: number as u32,
        release: at,
    }
}
