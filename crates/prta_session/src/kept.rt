//! The numbers that a session keeps, task by task.

ghost use Rattle.std.specs.Prelude.{◌≡◌, ℕ, ◌+◌, ◌<◌, ◌≤◌, true, false, not, ◌&&◌, nat_le, nat_lt, [], ◌∷◌, length, vec_len, IfOk};
ghost use Rattle.prta_sheet.specs.Counts.{job_count};
ghost use Rattle.prta_sheet.specs.Edits.{task_of};
ghost use Rattle.prta_backlog.specs.Level.{sheet_level};
ghost use Rattle.prta_dual.specs.Numbers.{all_bounds};
ghost use Rattle.prta_session.specs.State.{flags, makes_stale};
ghost use Rattle.prta_session.specs.Workers.{lengthened};
ghost use Rattle.prta_session.specs.Kept.{AreKept, HavePlaces, is_marked, unmarked};

use crate::worker::Worker;
use prta_dual::Bounds;
use prta_mass::NoMemory;
use prta_sheet::{Edit, Sheet};
use std::alloc::Global;

// A mark for each task of a sheet, none of them fresh.
pub(crate) fn no_marks(alloc: Global, sheet: &Sheet) -> Result<Vec<bool>, NoMemory>
    ensures { IfOk result (λ fresh. fresh.items ≡ flags (length sheet.now.tasks) (λ task. false)) }
{
    Ok(vec![in alloc; false; sheet.tasks().len()]?)
}

// Places for the numbers of each task's analysed jobs.
pub(crate) fn places_for(alloc: Global, sheet: &Sheet) -> Result<Vec<Vec<Bounds>>, NoMemory>
    ensures { IfOk result (λ found. HavePlaces sheet.now found.items (length sheet.now.tasks)) }
{
    let mut found = Vec::new(alloc);
    for task in 0..sheet.tasks().len() {
        found.push(places(alloc, sheet.job_count(task))?)?;
    }
    Ok(found)
}

fn places(alloc: Global, count: usize) -> Result<Vec<Bounds>, NoMemory>
    ensures { IfOk result (λ found. vec_len found ≡ count) }
{
    let none = Bounds { lower: 0, upper: 0 };
    Ok(vec![in alloc; none; count]?)
}

// The tasks that an edit makes stale: those from the first number on and below the second, of so many.
pub(crate) fn stale_by(edit: &Edit, count: usize) -> (usize, usize)
    requires { task_of edit.now < count }
    ensures tasks { (i : ℕ) → i < count → makes_stale edit.now i ≡ (nat_le result.0 i && nat_lt i result.1) }
    ensures order { result.0 ≤ result.1 }
    ensures within { result.1 ≤ count }
{
    match edit {
        Edit::Table { task, .. } => (*task, count),
        Edit::Deadline { task, .. } => (*task, *task + 1),
        Edit::Allow { .. } => (0, 0),
    }
}

// Takes the marks of these tasks away.
pub(crate) fn mark_stale(fresh: &mut [bool], from: usize, to: usize)
    requires order { from ≤ to }
    requires within { to ≤ length fresh.old }
    ensures { (i : ℕ) → is_marked fresh.new i ≡ (is_marked fresh.old i && not (nat_le from i && nat_lt i to)) }
{
    for task in from..to {
        fresh[task] = false;
    }
}

// Whether the task isn't marked.
fn is_stale(fresh: &[bool], task: usize) -> bool
    requires { task < length fresh.now }
    ensures { result ≡ not (is_marked fresh.now task) }
{
    !fresh[task]
}

// Analyses the tasks that aren't marked, in order, and marks them.
pub(crate) fn analyse_stale<W: Worker>(
    worker: &mut W,
    sheet: &Sheet,
    fresh: &mut [bool],
    found: &mut [Vec<Bounds>],
)
    requires kept { AreKept sheet.now fresh.old found.old }
    requires cap { W.cap worker.old ≡ sheet.now.settings.cap }
    requires room { length (unmarked fresh.old (length fresh.old)) ≤ W.room worker.old }
    ensures kept { AreKept sheet.now fresh.new found.new }
    ensures marked { (i : ℕ) → i < length fresh.old → is_marked fresh.new i ≡ true }
    ensures told { W.analysed worker.new ≡ lengthened (W.analysed worker.old) (unmarked fresh.old (length fresh.old)) }
    ensures cap { W.cap worker.new ≡ W.cap worker.old }
    ensures room { W.room worker.old ≤ W.room worker.new + length (unmarked fresh.old (length fresh.old)) }
{
    for task in 0..fresh.len() {
        if is_stale(fresh, task) {
            analyse_one(worker, sheet, task, &mut found[task]);
            fresh[task] = true;
        }
    }
}

fn analyse_one<W: Worker>(worker: &mut W, sheet: &Sheet, task: usize, found: &mut Vec<Bounds>)
    requires task { task < length sheet.now.tasks }
    requires cap { W.cap worker.old ≡ sheet.now.settings.cap }
    requires places { vec_len found.old ≡ job_count sheet.now task }
    requires room { 1 ≤ W.room worker.old }
    ensures numbers { found.new.items ≡ all_bounds sheet.now (sheet_level task) }
    ensures told { W.analysed worker.new ≡ lengthened (W.analysed worker.old) (task ∷ []) }
    ensures cap { W.cap worker.new ≡ W.cap worker.old }
    ensures room { W.room worker.old ≤ W.room worker.new + 1 }
{
    worker.analyse(sheet, task, found);
}
