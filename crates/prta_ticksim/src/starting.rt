//! What is tested before a machine is made.

ghost use Rattle.std.specs.Prelude.{◌≡◌, ℕ, ◌^◌, ◌<◌, ◌≤◌, true, length, slice_index, All, IfOk};
ghost use Rattle.prta_sheet.specs.Sheet.{horizon};
ghost use Rattle.prta_sheet.specs.Accepted.{IsAccepted};
ghost use Rattle.prta_jobs.specs.Permutation.{is_order};
ghost use Rattle.prta_ticksim.specs.Serving.{AreApart};
ghost use Rattle.prta_ticksim.specs.Start.{has_time, first_foreign, IsCheckedAnswer};

use crate::fault::MachineFault;
use prta_jobs::{Job, Jobs, jobs_are_before, jobs_before, orders_have_places};
use prta_mass::{NoMemory, TimeTable};
use prta_sheet::{Sheet, Task};
use std::alloc::Global;

// The sheet's analysed jobs, where each has a time of its own table.
pub(crate) fn checked_jobs(
    alloc: Global,
    sheet: &Sheet,
    order: &[usize],
    times: &[u32],
) -> Result<Jobs, MachineFault>
    requires { is_order (length sheet.now.tasks) order.now ≡ true }
    ensures answer { IsCheckedAnswer sheet.now times.now result }
    ensures some { IfOk result (λ jobs. (i : ℕ) → i < length jobs → 0 < slice_index times.now i) }
    ensures apart { IfOk result (AreApart order.now) }
{
    orders_have_places();
    jobs_are_before();
    let want = sheet.all_jobs();
    let got = times.len();
    if want != got {
        return Err(MachineFault::WrongCount { want, got });
    }
    let jobs = match jobs_before(alloc, sheet, horizon_of(sheet)) {
        Ok(jobs) => jobs,
        Err(NoMemory) => return Err(MachineFault::NoMemory),
    };
    if let Some(i) = first_foreign(sheet.tasks(), jobs.list(), times) {
        return Err(MachineFault::NotInTable(i));
    }
    Ok(jobs)
}

// The time before which the analysed jobs are released.
pub(crate) fn horizon_of(sheet: &Sheet) -> u64
    ensures value { result ≡ horizon sheet.now }
    ensures near { result ≤ 2 ^ 32 }
    ensures accepted { IsAccepted sheet.now }
{
    let _settings = sheet.settings();
    sheet.horizon()
}

// The first place at which the time isn't in the job's table.
pub(crate) fn first_foreign(tasks: &[Task], jobs: &[Job], times: &[u32]) -> Option<usize>
    requires each { length times.now ≡ length jobs.now }
    requires tasks { All (λ job. job.task < length tasks.now) jobs.now }
    requires cycles { All (λ task. 1 ≤ length task.cycle) tasks.now }
    ensures { result ≡ first_foreign tasks.now jobs.now times.now }
{
    for i in 0..jobs.len() {
        let job = &jobs[i];
        if !has_time(tasks[job.task].table(job.number), times[i]) {
            return Some(i);
        }
    }
    None
}

// Whether the table has the time.
fn has_time(table: &TimeTable, time: u32) -> bool
    ensures { result ≡ has_time table.now time }
{
    table.points().iter().any(|pair| pair.0 == time)
}
