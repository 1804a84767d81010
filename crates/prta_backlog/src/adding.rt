//! The operations of one instant.

ghost use Rattle.std.specs.Prelude.{◌≡◌, ℕ, ◌+◌, ◌-◌, ◌*◌, ◌/◌, ◌^◌, ◌<◌, ◌≤◌, ◌&&◌, true, filter, length};
ghost use Rattle.prta_sheet.specs.Sheet.{task_at, table_in};
ghost use Rattle.prta_sheet.specs.Job.{is_release, released_at, table_of};
ghost use Rattle.prta_sheet.specs.Accepted.{IsSupport};
ghost use Rattle.prta_jobs.specs.TaskSet.{holds};
ghost use Rattle.prta_backlog.specs.LevelRun.{tables_added, kept};
ghost use Rattle.prta_backlog.specs.Entries.{additions, samplings};
ghost use Rattle.prta_backlog.specs.AreNoted.{AreNoted};

use crate::noting::{Origin, add_table, note_amount};
use prta_dist::Curve;
use prta_jobs::TaskSet;
use prta_ledger::{Kind, Notes};
use prta_mass::{Support, TimeTable};
use prta_sheet::{Sheet, TASK_LIMIT, Task};

// The table of the job that the task releases at a time.
pub(crate) fn table_at(task: &Task, at: u64) -> &TimeTable
    requires period { 1 ≤ task.now.period }
    requires cycle { 1 ≤ length task.now.cycle }
    requires reached { task.now.offset ≤ at }
    requires at { at < 2 ^ 32 }
    ensures { result.now ≡ table_in task.now ((at - task.now.offset) / task.now.period) }
{
    let number = (at - task.offset() as u64) / task.period() as u64;
    task.table(number as u32)
}

// Re-samples where there is a support and the run has begun, and answers how many operations were made then.
pub(crate) fn resample<C: Curve, N: Notes>(
    curve: &mut C,
    support: Option<Support>,
    begun: bool,
    origin: Origin,
    made: u32,
    notes: &mut N,
) -> u32
    requires support { IsSupport support }
    requires made { made + 1 < 2 ^ 32 }
    requires room { 1 ≤ N.room notes.old }
    ensures cells { C.cells curve.new ≡ kept origin.dir support (record { cells = C.cells curve.old; since = 0; begun = begun }) }
    ensures made { result ≡ made + length (samplings origin.dir support (record { cells = C.cells curve.old; since = 0; begun = begun })) }
    ensures noted { AreNoted origin.dir origin.task origin.job (1 + made)
        (samplings origin.dir support (record { cells = C.cells curve.old; since = 0; begun = begun }))
        (N.noted notes.old) (N.room notes.old) (N.noted notes.new) (N.room notes.new) }
{
    let Some(support) = support else {
        return made;
    };
    if !begun {
        return made;
    }
    let moved = curve.resample(support, origin.dir);
    note_amount(notes, origin, made + 1, Kind::Resample, moved);
    made + 1
}

// Adds the tables of the jobs that the tasks of a set release at a time, in sheet order, and answers how many operations
// were made then.
pub(crate) fn add_jobs<C: Curve, N: Notes>(
    curve: &mut C,
    sheet: &Sheet,
    set: TaskSet,
    released: TaskSet,
    at: u64,
    origin: Origin,
    made: u32,
    notes: &mut N,
) -> u32
    requires released { (i : ℕ) → holds set i ≡ true → holds released i ≡ is_release (task_at sheet.now.tasks i) at }
    requires at { at < 2 ^ 32 }
    requires made { made + 12 < 2 ^ 32 }
    requires room { 2 * length (filter (λ job. holds set job.task) (released_at 0 sheet.now.tasks at)) ≤ N.room notes.old }
    ensures cells { let jobs = filter (λ job. holds set job.task) (released_at 0 sheet.now.tasks at) in
        C.cells curve.new ≡ tables_added origin.dir (table_of sheet.now.tasks) jobs (C.cells curve.old) }
    ensures made { let jobs = filter (λ job. holds set job.task) (released_at 0 sheet.now.tasks at) in result ≡ made + length jobs }
    ensures noted { let jobs = filter (λ job. holds set job.task) (released_at 0 sheet.now.tasks at) in
        AreNoted origin.dir origin.task origin.job (1 + made) (additions origin.dir (table_of sheet.now.tasks) jobs (C.cells curve.old))
        (N.noted notes.old) (N.room notes.old) (N.noted notes.new) (N.room notes.new) }
{
    let tasks = sheet.tasks();
    let mut op = made;
    for i in 0..tasks.len() {
        if both_hold(set, released, i) {
            op += 1;
            add_table(curve, table_at(&tasks[i], at), origin, op, notes);
        }
    }
    op
}

// Whether both sets hold a task.
pub(crate) fn both_hold(set: TaskSet, other: TaskSet, i: usize) -> bool
    requires { i < TASK_LIMIT }
    ensures { result ≡ (holds set i && holds other i) }
{
    set.holds(i) && other.holds(i)
}
