//! The steady numbers of a task's jobs.

ghost use Rattle.std.specs.Prelude.{◌≡◌, ◌/◌, ◌<◌, map, length, vec_len};
ghost use Rattle.std.specs.List.{range_with_len};
ghost use Rattle.prta_sheet.specs.Sheet.{task_at, hyperperiod};
ghost use Rattle.prta_sheet.specs.Job.{nth_job};
ghost use Rattle.prta_backlog.specs.Fitting.{FitsCap};
ghost use Rattle.prta_backlog.specs.Level.{sheet_level};
ghost use Rattle.prta_certificate.specs.Certificate.{Certifies, steady_number};
ghost use Rattle.prta_certificate.specs.Levels.{SteadyHold};

use crate::laws::steady_numbers_hold;
use prta_backlog::{Bench, LevelPass};
use prta_dist::{Curve, Kernel};
use prta_jobs::TaskSet;
use prta_ledger::NoNotes;
use prta_mass::{Dir, UNIT};
use prta_response::respond;
use prta_sheet::Sheet;

/// Writes the steady numbers of a task's jobs of the first hyperperiod, in units of 2^-60, for the list on the main curve, on
/// the level of the task in the sheet's order. Where the list certifies the level, each bounds the exact chance that the
/// job's copy in any later hyperperiod misses its deadline. All three curves and the work lists hold anything afterwards.
pub fn steady<C: Curve, K: Kernel>(
    bench: &mut Bench<C, K>,
    sheet: &Sheet,
    task: usize,
    found: &mut [u64],
)
    requires task { task < length sheet.now.tasks }
    requires fits { FitsCap sheet.now.settings.cap (C.cells bench.old.main) (C.cells bench.old.spare) (C.cells bench.old.kept)
        (vec_len bench.old.cells) (vec_len bench.old.tail) (vec_len bench.old.room) }
    requires places { length found.old ≡ hyperperiod sheet.now.tasks / (task_at sheet.now.tasks task).period }
    ensures numbers { found.new ≡ map (λ k. steady_number sheet.now.tasks (sheet_level task) (C.cells bench.old.main) (nth_job sheet.now.tasks task k)) (range_with_len 0 (length found.old)) }
    ensures hold { Certifies sheet.now.tasks (sheet_level task) (C.cells bench.old.main) → SteadyHold sheet.now task (C.cells bench.old.main) }
    ensures fits { FitsCap sheet.now.settings.cap (C.cells bench.new.main) (C.cells bench.new.spare) (C.cells bench.new.kept)
        (vec_len bench.new.cells) (vec_len bench.new.tail) (vec_len bench.new.room) }
{
    steady_numbers_hold();
    let _tasks = sheet.tasks();
    let _cap = bench.main.cap();
    let higher = TaskSet::below(task);
    let mut pass = LevelPass::plain(higher, task, Dir::Up);
    let mut notes = NoNotes;
    let mut number = 0;
    while number < found.len() {
        let instant = pass.step(bench, sheet, &mut notes);
        if instant.released.holds(task) {
            let met = respond(
                bench,
                sheet,
                higher,
                task,
                number as u32,
                Dir::Up,
                &mut notes,
            );
            found[number] = UNIT - met;
            number += 1;
        }
    }
}
