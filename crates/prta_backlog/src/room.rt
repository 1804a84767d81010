//! Room for entries.

ghost use Rattle.std.specs.Prelude.{◌≡◌, ◌+◌, ◌*◌, ◌^◌, ◌<◌, ◌≤◌, not, nat_eq, filter, length, All};
ghost use Rattle.prta_sheet.specs.Sheet.{Task, task_at};
ghost use Rattle.prta_sheet.specs.Job.{jobs_before, nth_job};
ghost use Rattle.prta_sheet.specs.Work.{between};
ghost use Rattle.prta_backlog.specs.Room.{jobs_between, room_for as room_of};

use prta_sheet::{Sheet, Task, releases};

/// Room enough for the entries of an analysis of any one task of the sheet, whatever tasks are above it, and for the
/// condition of one more `LevelPass::step`.
pub fn room_for(sheet: &Sheet) -> usize
    ensures { result ≡ room_of sheet.now }
{
    let mut most = 0;
    for i in 0..sheet.tasks().len() {
        most = most.max(between_own(sheet, i));
    }
    6 * sheet.all_jobs() + 2 * most as usize + 26
}

// For the analysed jobs of task i, the jobs of other tasks strictly between release and absolute deadline.
fn between_own(sheet: &Sheet, i: usize) -> u64
    requires { i < length sheet.now.tasks }
    ensures value { result ≡ jobs_between sheet.now i }
    ensures low { result ≤ 2 ^ 60 }
{
    let tasks = sheet.tasks();
    let mut jobs = 0;
    for k in 0..releases(&tasks[i], sheet.horizon()) {
        jobs += between_one(tasks, i, k);
    }
    jobs
}

// The jobs of other tasks strictly between the release and the absolute deadline of task i's job of this number.
fn between_one(tasks: &[Task], i: usize, k: u64) -> u64
    requires few { length tasks.now ≤ 12 }
    requires periods { All (λ task. 1 ≤ task.period) tasks.now }
    requires task { i < length tasks.now }
    requires deadline { 1 ≤ (task_at tasks.now i).deadline }
    requires end { (task_at tasks.now i).offset + k * (task_at tasks.now i).period + (task_at tasks.now i).deadline ≤ 2 ^ 28 }
    ensures value { result ≡ length (between tasks.now (nth_job tasks.now i k)) }
    ensures low { result ≤ 2 ^ 32 }
{
    let task = &tasks[i];
    let release = task.offset() as u64 + k * task.period() as u64;
    let until = others_before(tasks, i, release + task.deadline() as u64);
    until - others_before(tasks, i, release + 1)
}

// The jobs of other tasks than i before a time.
fn others_before(tasks: &[Task], i: usize, time: u64) -> u64
    requires few { length tasks.now ≤ 12 }
    requires periods { All (λ task. 1 ≤ task.period) tasks.now }
    requires time { time ≤ 2 ^ 28 }
    ensures value { result ≡ length (filter (λ job. not (nat_eq job.task i)) (jobs_before tasks.now time)) }
    ensures low { result ≤ 12 * time }
{
    let mut jobs = 0;
    for m in 0..tasks.len() {
        if m != i {
            jobs += releases(&tasks[m], time);
        }
    }
    jobs
}
