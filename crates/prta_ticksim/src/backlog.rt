//! The finish of a job by one number of backlog, without ticks.

ghost use Rattle.std.specs.Prelude.{◌≡◌, true, ◌*◌, ◌<◌, ◌≤◌, length, All};
ghost use Rattle.prta_sheet.specs.declared.limits.TheConstants.{TIME_LIMIT};
ghost use Rattle.prta_sheet.specs.Machine.{IsFinish};
ghost use Rattle.prta_jobs.specs.Permutation.{is_order};
ghost use Rattle.prta_jobs.specs.Backlog.{released_until, released_after, backlog_at, delayed, finish_by_backlog};
ghost use Rattle.prta_ticksim.specs.Times.{timed_jobs, jobs_in, job_at, AreAllBefore, IsTime, IsJobList};

#[cfg(test)]
mod tests;

use prta_jobs::{Job, Jobs, Order, TaskSet, jobs_are_before, orders_have_places};
use prta_sheet::Sheet;

/// When the i-th of the jobs is finished, in ticks, where just these jobs are released and the k-th takes the k-th
/// time: found by adding and shifting one number of backlog, without ticks. The jobs are all jobs of the sheet before
/// some time, of at most 2^32 ticks; the order is one of the sheet's tasks; a time is 1 to `TIME_LIMIT` ticks.
pub fn finish_by_backlog(sheet: &Sheet, order: &Order, jobs: &Jobs, times: &[u32], i: usize) -> u64
    requires order { is_order (length sheet.now.tasks) order.now ≡ true }
    requires jobs { AreAllBefore sheet.now.tasks jobs.now }
    requires one_each { length times.now ≡ length jobs.now }
    requires times { All IsTime times.now }
    requires job { i < length jobs.now }
    ensures value { result ≡ finish_by_backlog order.now (timed_jobs jobs.now times.now) (job_at jobs.now i) }
    ensures finish { IsFinish order.now (timed_jobs jobs.now times.now) (job_at jobs.now i) result }
{
    orders_have_places();
    jobs_are_before();
    let tasks = sheet.tasks().len();
    let jobs = jobs.list();
    let own = jobs[i];
    prove!(own.task < tasks);
    let above = order.above(own.task);
    let backlog = backlog_at(above.with(own.task), jobs, times, own.release);
    own.release + delayed(above, jobs, times, own.release, backlog)
}

// The backlog of the level right after its releases at a time: it falls by 1 a tick, not below 0, and rises by the
// time of each job.
fn backlog_at(level: TaskSet, jobs: &[Job], times: &[u32], time: u64) -> u64
    requires jobs { IsJobList jobs.now }
    requires one_each { length times.now ≡ length jobs.now }
    requires times { All IsTime times.now }
    ensures value { result ≡ backlog_at 0 0 (released_until time (jobs_in level (timed_jobs jobs.now times.now))) time }
    ensures bound { result ≤ length jobs.now * TIME_LIMIT }
{
    let mut backlog: u64 = 0;
    let mut since: u64 = 0;
    for k in 0..jobs.len() {
        let job = jobs[k];
        if level.holds(job.task) && job.release <= time {
            let passed = job.release - since;
            backlog = backlog.saturating_sub(passed) + times[k] as u64;
            since = job.release;
        }
    }
    backlog.saturating_sub(time - since)
}

// The ticks from a time on that serve the backlog and each job of a higher task released while some are left.
fn delayed(above: TaskSet, jobs: &[Job], times: &[u32], from: u64, backlog: u64) -> u64
    requires jobs { IsJobList jobs.now }
    requires one_each { length times.now ≡ length jobs.now }
    requires times { All IsTime times.now }
    requires bound { backlog ≤ length jobs.now * TIME_LIMIT }
    ensures value { result ≡ delayed from backlog (released_after from (jobs_in above (timed_jobs jobs.now times.now))) }
    ensures bound { result ≤ 2 * (length jobs.now * TIME_LIMIT) }
{
    let mut ticks = backlog;
    for k in 0..jobs.len() {
        let job = jobs[k];
        if above.holds(job.task) && from < job.release && job.release - from < ticks {
            ticks += times[k] as u64;
        }
    }
    ticks
}
