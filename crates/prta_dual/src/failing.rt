//! The first job whose number doesn't pass its task's allowance.

ghost use Rattle.std.specs.Prelude.{◌≡◌, ◌<◌, false, option_map, IfSome, length, vec_len};
ghost use Rattle.prta_jobs.specs.TaskSet.{holds};
ghost use Rattle.prta_jobs.specs.Instant.{IsOnSheet};
ghost use Rattle.prta_backlog.specs.Level.{has_task};
ghost use Rattle.prta_backlog.specs.Pass.{level_of};
ghost use Rattle.prta_backlog.specs.Fitting.{FitsCap};
ghost use Rattle.prta_dual.specs.Failing.{failing_number, failing_at, failing, found_job};

use crate::laws::own_jobs_in_turn;
use prta_backlog::{Bench, LevelPass};
use prta_dist::{Curve, Kernel};
use prta_jobs::TaskSet;
use prta_ledger::NoNotes;
use prta_mass::{Dir, UNIT, passes};
use prta_response::respond;
use prta_sheet::Sheet;

/// A job whose number in a direction doesn't pass its task's allowance.
#[derive(Clone, Copy)]
pub struct Failing {
    /// The place of its task on the sheet.
    pub task: usize,
    /// Which of the task's jobs it is.
    pub number: u32,
    /// What bounds its chance of a miss in that direction, in units of 2^-60.
    pub bound: u64,
}

/// The first analysed job of a task, with exactly the tasks of `higher` above it, whose number in a direction doesn't pass the
/// task's allowance. No job after it is looked at. It takes no memory. The main curve and the work lists hold anything
/// afterwards.
pub fn first_failing_below<C: Curve, K: Kernel>(
    bench: &mut Bench<C, K>,
    sheet: &Sheet,
    higher: TaskSet,
    task: usize,
    dir: Dir,
) -> Option<Failing>
    requires on_sheet { IsOnSheet sheet.now.tasks (has_task (level_of higher task)) }
    requires apart { holds higher task ≡ false }
    requires fits { FitsCap sheet.now.settings.cap (C.cells bench.old.main) (C.cells bench.old.spare) (C.cells bench.old.kept)
        (vec_len bench.old.cells) (vec_len bench.old.tail) (vec_len bench.old.room) }
    ensures first { result ≡ option_map (failing_at dir sheet.now (level_of higher task)) (failing_number dir sheet.now (level_of higher task)) }
    ensures others { bench.new ≡ record bench.old { main = bench.new.main; cells = bench.new.cells; tail = bench.new.tail; room = bench.new.room } }
    ensures fits { FitsCap sheet.now.settings.cap (C.cells bench.new.main) (C.cells bench.new.spare) (C.cells bench.new.kept)
        (vec_len bench.new.cells) (vec_len bench.new.tail) (vec_len bench.new.room) }
{
    let tasks = sheet.tasks();
    let allow = tasks[task].allow();
    let count = sheet.job_count(task);
    let mut pass = LevelPass::begin(bench, sheet, higher, task, dir);
    let mut number = 0;
    while number < count {
        let instant = pass.step(bench, sheet, &mut NoNotes);
        if instant.released.holds(task) {
            let met = respond(bench, sheet, higher, task, number as u32, dir, &mut NoNotes);
            let bound = UNIT - met;
            if !passes(bound, allow.0, allow.1) {
                return Some(Failing {
                    task,
                    number: number as u32,
                    bound,
                });
            }
            number += 1;
        }
    }
    None
}

/// The first analysed job of a sheet, by task in sheet order and then by number, whose upper number doesn't pass its task's
/// allowance, with the tasks before its own above it. It takes no memory. The main curve and the work lists hold anything
/// afterwards.
pub fn first_failing<C: Curve, K: Kernel>(bench: &mut Bench<C, K>, sheet: &Sheet) -> Option<Failing>
    requires fits { FitsCap sheet.now.settings.cap (C.cells bench.old.main) (C.cells bench.old.spare) (C.cells bench.old.kept)
        (vec_len bench.old.cells) (vec_len bench.old.tail) (vec_len bench.old.room) }
    ensures first { option_map (found_job sheet.now) result ≡ failing sheet.now }
    ensures on_sheet { IfSome result (λ found. found.task < length sheet.now.tasks) }
    ensures others { bench.new ≡ record bench.old { main = bench.new.main; cells = bench.new.cells; tail = bench.new.tail; room = bench.new.room } }
    ensures fits { FitsCap sheet.now.settings.cap (C.cells bench.new.main) (C.cells bench.new.spare) (C.cells bench.new.kept)
        (vec_len bench.new.cells) (vec_len bench.new.tail) (vec_len bench.new.room) }
{
    own_jobs_in_turn();
    for task in 0..sheet.tasks().len() {
        let found = first_failing_below(bench, sheet, TaskSet::below(task), task, Dir::Up);
        if found.is_some() {
            return found;
        }
    }
    None
}
