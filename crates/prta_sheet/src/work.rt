//! The work of a sheet, without a list of its jobs.

ghost use Rattle.std.specs.Prelude.{◌≡◌, ◌+◌, ◌-◌, ◌*◌, ◌/◌, ◌%◌, ◌^◌, ◌<◌, ◌≤◌, ◌&&◌, not, nat_eq, nat_lt, length, filter, sum_by, All};
ghost use Rattle.prta_sheet.specs.Sheet.{task_at, hyperperiod as hyperperiod_of};
ghost use Rattle.prta_sheet.specs.Job.{jobs_before, nth_job};
ghost use Rattle.prta_sheet.specs.Counts.{releases, all_jobs};
ghost use Rattle.prta_sheet.specs.Work.{points_of, points_of_first, points_of_other, job_work, work, IsSmall};
ghost use Rattle.prta_sheet.specs.Accepted.{AreSettings, IsTask};

use crate::limits::{CYCLE_LIMIT, JOB_LIMIT, PERIOD_LIMIT, TASK_LIMIT};
use crate::settings::Settings;
use crate::task::Task;
use prta_mass::TimeTable;

/// How often a task releases before a time, in ticks.
pub fn releases(task: &Task, time: u64) -> u64
    requires { 1 ≤ task.now.period }
    ensures value { result ≡ releases task.now time }
    ensures bound { result ≤ time }
{
    let offset = task.offset() as u64;
    if time <= offset {
        0
    } else {
        (time - offset - 1) / task.period() as u64 + 1
    }
}

// How many times the tables have.
fn points_of_tables(tables: &[TimeTable]) -> u64
    requires { length tables.now ≤ CYCLE_LIMIT }
    ensures value { result ≡ sum_by length tables.now }
    ensures bound { result ≤ 32 * length tables.now }
{
    let mut points = 0;
    for table in tables {
        points += table.points().len() as u64;
    }
    points
}

// The points of a task's first jobs, n of them.
fn points_of_first(task: &Task, n: u64) -> u64
    requires some { 1 ≤ length task.now.cycle }
    requires few { length task.now.cycle ≤ CYCLE_LIMIT }
    requires jobs { n ≤ 2 ^ 27 }
    ensures value { result ≡ points_of_first task.now n }
    ensures bound { result ≤ 32 * n }
{
    let cycle = task.cycle();
    let size = cycle.len() as u64;
    let rest = points_of_tables(&cycle[..(n % size) as usize]);
    n / size * points_of_tables(cycle) + rest
}

// The points of the jobs that task m releases after one time and before another; none for task i.
fn points_of_other(tasks: &[Task], i: usize, after: u64, until: u64, m: usize) -> u64
    requires small { All IsSmall tasks.now }
    requires task { m < length tasks.now }
    requires until { until ≤ 2 ^ 26 }
    requires after { after ≤ until }
    ensures value { result ≡ points_of_other tasks.now i after until m }
    ensures bound { result ≤ 2 ^ 31 }
{
    if m == i {
        return 0;
    }
    let other = &tasks[m];
    let before = points_of_first(other, releases(other, after + 1));
    points_of_first(other, releases(other, until)).saturating_sub(before)
}

// The points of the jobs of other tasks than i, released after one time and before another.
fn points_between(tasks: &[Task], i: usize, after: u64, until: u64) -> u64
    requires small { All IsSmall tasks.now }
    requires few { length tasks.now ≤ TASK_LIMIT }
    requires until { until ≤ 2 ^ 26 }
    requires after { after ≤ until }
    ensures value { result ≡ sum_by (points_of tasks.now) (filter (λ other. not (nat_eq other.task i) && nat_lt after other.release) (jobs_before tasks.now until)) }
    ensures bound { result ≤ 2 ^ 35 }
{
    let mut points = 0;
    for m in 0..tasks.len() {
        points += points_of_other(tasks, i, after, until, m);
    }
    points
}

// What the k-th job of task i gives.
fn job_work(tasks: &[Task], i: usize, k: u64) -> u64
    requires small { All IsSmall tasks.now }
    requires few { length tasks.now ≤ TASK_LIMIT }
    requires task { i < length tasks.now }
    requires end { (task_at tasks.now i).offset + k * (task_at tasks.now i).period + (task_at tasks.now i).deadline ≤ 2 ^ 26 }
    ensures value { result ≡ job_work tasks.now (nth_job tasks.now i k) }
    ensures bound { result ≤ 2 ^ 49 }
{
    let task = &tasks[i];
    let release = task.offset() as u64 + k * task.period() as u64;
    let deadline = task.deadline() as u64;
    (deadline + 1) * points_between(tasks, i, release, release + deadline)
}

// What the jobs of task i before the horizon give.
fn own_work(tasks: &[Task], i: usize, horizon: u64) -> u64
    requires small { All IsSmall tasks.now }
    requires few { length tasks.now ≤ TASK_LIMIT }
    requires task { i < length tasks.now }
    requires horizon { horizon ≤ 64000000 }
    requires whole { horizon % (task_at tasks.now i).period ≡ 0 }
    requires jobs { horizon / (task_at tasks.now i).period ≤ 2048 }
    ensures value { result ≡ sum_by (job_work tasks.now) (filter (λ job. nat_eq job.task i) (jobs_before tasks.now horizon)) }
    ensures bound { result ≤ 2 ^ 60 }
{
    let mut work = 0;
    for k in 0..horizon / tasks[i].period() as u64 {
        work += job_work(tasks, i, k);
    }
    work
}

// The points of all jobs before the horizon.
fn points_of_all(tasks: &[Task], horizon: u64) -> u64
    requires small { All IsSmall tasks.now }
    requires few { length tasks.now ≤ TASK_LIMIT }
    requires horizon { horizon ≤ 64000000 }
    requires whole { All (λ task. horizon % task.period ≡ 0) tasks.now }
    ensures value { result ≡ sum_by (points_of tasks.now) (jobs_before tasks.now horizon) }
    ensures bound { result ≤ 2 ^ 35 }
{
    let mut points = 0;
    for task in tasks {
        points += points_of_first(task, horizon / task.period() as u64);
    }
    points
}

// The work of the sheet of these parts.
pub(crate) fn work_of(tasks: &[Task], settings: Settings, hyperperiod: u64) -> u64
    requires settings { AreSettings settings }
    requires tasks { All (IsTask settings.cap) tasks.now }
    requires few { length tasks.now ≤ TASK_LIMIT }
    requires hyperperiod { hyperperiod ≡ hyperperiod_of tasks.now }
    requires short { hyperperiod ≤ PERIOD_LIMIT }
    requires jobs { all_jobs (record { settings = settings; tasks = tasks.now }) ≤ JOB_LIMIT }
    ensures { result ≡ work (record { settings = settings; tasks = tasks.now }) }
{
    let horizon = settings.hyperperiods as u64 * hyperperiod;
    let shared = settings.cap as u64 * points_of_all(tasks, horizon);
    let mut work = 0;
    for i in 0..tasks.len() {
        work += shared + own_work(tasks, i, horizon);
    }
    work
}
