//! The tail numbers of a task's jobs.

ghost use Rattle.std.specs.Prelude.{◌≡◌, ◌/◌, ◌<◌, min, map, length, vec_len, slice_index_or};
ghost use Rattle.std.specs.List.{range_with_len};
ghost use Rattle.prta_sheet.specs.Sheet.{task_at, hyperperiod};
ghost use Rattle.prta_sheet.specs.Job.{nth_job};
ghost use Rattle.prta_backlog.specs.Fitting.{FitsCap};
ghost use Rattle.prta_backlog.specs.Level.{sheet_level};
ghost use Rattle.prta_certificate.specs.Certificate.{next_image, steady_number};
ghost use Rattle.prta_tail.specs.Tail.{tail_number};
ghost use Rattle.prta_tail.specs.Laws.{Passes, TailsHold};

use crate::laws::{backlogs_have_tails, tail_numbers_hold};
use crate::loading::load_tail;
use crate::ratio::Ratio;
use prta_backlog::{Bench, LevelPass, image};
use prta_dist::{Curve, Kernel};
use prta_jobs::TaskSet;
use prta_ledger::NoNotes;
use prta_mass::{Dir, UNIT};
use prta_response::respond;
use prta_sheet::Sheet;

/// Writes the tail numbers of a task's jobs of the first hyperperiod, in units of 2^-60, on the level of the task in the
/// sheet's order: for each job the least of its steady numbers for the images 0 to `turns` of the base list. Each bounds
/// the exact chance that the job's copy in any later hyperperiod misses its deadline. All three curves and the work lists
/// hold anything afterwards.
pub fn tail_steady<C: Curve, K: Kernel>(
    bench: &mut Bench<C, K>,
    sheet: &Sheet,
    task: usize,
    ratio: Ratio,
    found: &mut [u64],
)
    requires task { task < length sheet.now.tasks }
    requires fits { FitsCap sheet.now.settings.cap (C.cells bench.old.main) (C.cells bench.old.spare) (C.cells bench.old.kept)
        (vec_len bench.old.cells) (vec_len bench.old.tail) (vec_len bench.old.room) }
    requires places { length found.old ≡ hyperperiod sheet.now.tasks / (task_at sheet.now.tasks task).period }
    requires passes { Passes sheet.now.tasks (sheet_level task) ratio }
    ensures numbers { found.new ≡ map (λ k. tail_number sheet.now.tasks (sheet_level task) sheet.now.settings.cap sheet.now.settings.turns ratio (nth_job sheet.now.tasks task k))
        (range_with_len 0 (length found.old)) }
    ensures hold { TailsHold sheet.now task ratio }
    ensures fits { FitsCap sheet.now.settings.cap (C.cells bench.new.main) (C.cells bench.new.spare) (C.cells bench.new.kept)
        (vec_len bench.new.cells) (vec_len bench.new.tail) (vec_len bench.new.room) }
{
    backlogs_have_tails();
    tail_numbers_hold();
    let turns = sheet.settings().turns;
    load_tail(bench, sheet, task, ratio);
    bench.set_aside();
    found.fill(UNIT);
    lower_to_steady(bench, sheet, task, found);
    let mut turn = 0;
    while turn < turns {
        bench.bring_back();
        go_on(bench, sheet, task);
        bench.set_aside();
        lower_to_steady(bench, sheet, task, found);
        turn += 1;
    }
}

// Makes the main curve its image on the level.
fn go_on<C: Curve, K: Kernel>(bench: &mut Bench<C, K>, sheet: &Sheet, task: usize)
    requires task { task < length sheet.now.tasks }
    ensures main { C.cells bench.new.main ≡ next_image sheet.now.tasks (sheet_level task) (C.cells bench.old.main) }
    ensures cap { length (C.cells bench.new.main) ≡ length (C.cells bench.old.main) }
    ensures others { bench.new ≡ record bench.old { main = bench.new.main } }
{
    let _tasks = sheet.tasks();
    image(bench, sheet, TaskSet::below(task), task);
}

// Lowers each number to the steady number of the task's job of its place, for the list on the main curve, where that is
// less. The spare curve stays; the main one holds anything afterwards.
fn lower_to_steady<C: Curve, K: Kernel>(
    bench: &mut Bench<C, K>,
    sheet: &Sheet,
    task: usize,
    found: &mut [u64],
)
    requires task { task < length sheet.now.tasks }
    requires fits { FitsCap sheet.now.settings.cap (C.cells bench.old.main) (C.cells bench.old.spare) (C.cells bench.old.kept)
        (vec_len bench.old.cells) (vec_len bench.old.tail) (vec_len bench.old.room) }
    requires places { length found.old ≡ hyperperiod sheet.now.tasks / (task_at sheet.now.tasks task).period }
    ensures numbers { found.new ≡ map (λ k. min (slice_index_or found.old k 0) (steady_number sheet.now.tasks (sheet_level task) (C.cells bench.old.main) (nth_job sheet.now.tasks task k)))
        (range_with_len 0 (length found.old)) }
    ensures spare { C.cells bench.new.spare ≡ C.cells bench.old.spare }
    ensures fits { FitsCap sheet.now.settings.cap (C.cells bench.new.main) (C.cells bench.new.spare) (C.cells bench.new.kept)
        (vec_len bench.new.cells) (vec_len bench.new.tail) (vec_len bench.new.room) }
{
    let _tasks = sheet.tasks();
    let higher = TaskSet::below(task);
    let mut pass = LevelPass::plain(higher, task, Dir::Up);
    let mut notes = NoNotes;
    let mut number = 0;
    while number < found.len() {
        let instant = pass.step(bench, sheet, &mut notes);
        if instant.released.holds(task) {
            let met = respond(
                bench,
                sheet,
                higher,
                task,
                number as u32,
                Dir::Up,
                &mut notes,
            );
            found[number] = found[number].min(UNIT - met);
            number += 1;
        }
    }
}
