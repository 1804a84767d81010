//! When tasks release jobs.

ghost use Rattle.std.specs.Prelude.{◌≡◌, ◌+◌, ◌*◌, ◌^◌, ◌<◌, ◌≤◌, length};
ghost use Rattle.prta_sheet.specs.Job.{is_release, jobs_before};
ghost use Rattle.prta_jobs.specs.Ranges.{HasShortPeriod, AreSheetTasks};
ghost use Rattle.prta_jobs.specs.Instant.{IsNextRelease};

use prta_sheet::{PERIOD_LIMIT, Task, releases, releases_before};

// The release of the task's job of this number.
pub(crate) fn release_of(task: &Task, number: u32) -> u64
    ensures { result ≡ task.now.offset + number * task.now.period }
{
    task.offset() as u64 + number as u64 * task.period() as u64
}

// Whether the task releases a job at a time.
pub(crate) fn is_release(task: &Task, time: u64) -> bool
    requires { 1 ≤ task.now.period }
    ensures { result ≡ is_release task.now time }
{
    let offset = task.offset() as u64;
    offset <= time && (time - offset) % task.period() as u64 == 0
}

// The first time from another one on at which the task releases a job.
pub(crate) fn next_release(task: &Task, from: u64) -> u64
    requires period { HasShortPeriod task.now }
    requires from { from ≤ 2 ^ 41 }
    ensures next { IsNextRelease task.now from result }
    ensures near { result < from + PERIOD_LIMIT }
{
    let number = releases(task, from);
    task.offset() as u64 + number * task.period() as u64
}

// The number of the jobs before a time, without a list of them.
pub(crate) fn count_before(tasks: &[Task], time: u64) -> u64
    requires sheet { AreSheetTasks tasks.now }
    requires time { time ≤ 2 ^ 32 }
    ensures { result ≡ length (jobs_before tasks.now time) }
{
    releases_before();
    let mut count = 0;
    for task in tasks {
        count += releases(task, time);
    }
    count
}
