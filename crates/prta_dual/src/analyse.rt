//! The analysis of one task above a set of tasks.

ghost use Rattle.std.specs.Prelude.{◌≡◌, ℕ, ◌+◌, ◌<◌, ◌≤◌, false, List, length, vec_len};
ghost use Rattle.prta_sheet.specs.Job.{nth_job};
ghost use Rattle.prta_sheet.specs.Counts.{job_count};
ghost use Rattle.prta_sheet.specs.Chance.{IsAround};
ghost use Rattle.prta_jobs.specs.TaskSet.{holds};
ghost use Rattle.prta_jobs.specs.Instant.{IsOnSheet};
ghost use Rattle.prta_ledger.specs.Noted.{appended};
ghost use Rattle.prta_backlog.specs.Level.{has_task};
ghost use Rattle.prta_backlog.specs.Pass.{level_of};
ghost use Rattle.prta_backlog.specs.Room.{room_for};
ghost use Rattle.prta_backlog.specs.Laws.{entry_count, delay_count};
ghost use Rattle.prta_response.specs.Chance.{IsOrderFor, BoundsChance, copy_of};
ghost use Rattle.prta_backlog.specs.Fitting.{FitsCap};
ghost use Rattle.prta_dual.specs.Numbers.{bounds_of, all_bounds};
ghost use Rattle.prta_dual.specs.Direction.{with_number as with_number_in, all_written};
ghost use Rattle.prta_dual.specs.Entries.{entries, entries_in, job_sum};

use crate::bounds::Bounds;
use crate::laws::gap_is_noted;
use prta_backlog::{Bench, LevelPass, room_is_enough};
use prta_dist::{Curve, Kernel};
use prta_jobs::TaskSet;
use prta_ledger::Notes;
use prta_mass::{Dir, UNIT};
use prta_response::{lower_numbers_stay, numbers_are_around, respond};
use prta_sheet::Sheet;

/// Writes the two numbers of each analysed job of a task, with exactly the tasks of `higher` above it, in order of number,
/// and notes every entry: first those of Up, then those of Down. It takes no memory. The main curve and the work lists
/// hold anything afterwards.
pub fn analyse_task<C: Curve, K: Kernel, N: Notes>(
    bench: &mut Bench<C, K>,
    sheet: &Sheet,
    higher: TaskSet,
    task: usize,
    notes: &mut N,
    found: &mut [Bounds],
)
    requires on_sheet { IsOnSheet sheet.now.tasks (has_task (level_of higher task)) }
    requires apart { holds higher task ≡ false }
    requires fits { FitsCap sheet.now.settings.cap (C.cells bench.old.main) (C.cells bench.old.spare) (C.cells bench.old.kept)
        (vec_len bench.old.cells) (vec_len bench.old.tail) (vec_len bench.old.room) }
    requires places { length found.old ≡ job_count sheet.now task }
    requires room { room_for sheet.now ≤ N.room notes.old }
    ensures numbers { found.new ≡ all_bounds sheet.now (level_of higher task) }
    ensures noted { N.noted notes.new ≡ appended (N.noted notes.old) (entries sheet.now (level_of higher task)) }
    ensures room { N.room notes.old ≤ N.room notes.new + length (entries sheet.now (level_of higher task)) }
    // What the numbers mean.
    ensures around { (order : List ℕ) (k : ℕ) → IsOrderFor sheet.now.tasks (level_of higher task) order → k < job_count sheet.now task →
        let bounds = bounds_of sheet.now (level_of higher task) k in IsAround sheet.now.tasks order (nth_job sheet.now.tasks task k) bounds.lower bounds.upper }
    ensures gap { (k : ℕ) → k < job_count sheet.now task →
        let bounds = bounds_of sheet.now (level_of higher task) k in bounds.upper ≤ bounds.lower + job_sum sheet.now (level_of higher task) (nth_job sheet.now.tasks task k) }
    ensures later { (order : List ℕ) (k m : ℕ) → IsOrderFor sheet.now.tasks (level_of higher task) order → k < job_count sheet.now task →
        BoundsChance Dir.Down sheet.now.tasks order (copy_of sheet.now.tasks task k m) (bounds_of sheet.now (level_of higher task) k).lower }
    ensures others { bench.new ≡ record bench.old { main = bench.new.main; cells = bench.new.cells; tail = bench.new.tail; room = bench.new.room } }
    ensures fits { FitsCap sheet.now.settings.cap (C.cells bench.new.main) (C.cells bench.new.spare) (C.cells bench.new.kept)
        (vec_len bench.new.cells) (vec_len bench.new.tail) (vec_len bench.new.room) }
{
    numbers_are_around();
    lower_numbers_stay();
    gap_is_noted();
    room_is_enough();
    let _tasks = sheet.tasks();
    analyse_direction(bench, sheet, higher, task, Dir::Up, notes, found);
    analyse_direction(bench, sheet, higher, task, Dir::Down, notes, found);
}

// Makes the level run of one direction from instant to instant, up to the last analysed own job, and the response run of
// each own job where it is released; writes the number of each of these jobs.
fn analyse_direction<C: Curve, K: Kernel, N: Notes>(
    bench: &mut Bench<C, K>,
    sheet: &Sheet,
    higher: TaskSet,
    task: usize,
    dir: Dir,
    notes: &mut N,
    found: &mut [Bounds],
)
    requires on_sheet { IsOnSheet sheet.now.tasks (has_task (level_of higher task)) }
    requires apart { holds higher task ≡ false }
    requires fits { FitsCap sheet.now.settings.cap (C.cells bench.old.main) (C.cells bench.old.spare) (C.cells bench.old.kept)
        (vec_len bench.old.cells) (vec_len bench.old.tail) (vec_len bench.old.room) }
    requires places { length found.old ≡ job_count sheet.now task }
    requires room { entry_count dir sheet.now (level_of higher task) + delay_count sheet.now (level_of higher task) + 26 ≤ N.room notes.old }
    ensures numbers { found.new ≡ all_written dir sheet.now (level_of higher task) found.old }
    ensures noted { N.noted notes.new ≡ appended (N.noted notes.old) (entries_in dir sheet.now (level_of higher task)) }
    ensures room { N.room notes.old ≤ N.room notes.new + length (entries_in dir sheet.now (level_of higher task)) }
    ensures others { bench.new ≡ record bench.old { main = bench.new.main; cells = bench.new.cells; tail = bench.new.tail; room = bench.new.room } }
    ensures fits { FitsCap sheet.now.settings.cap (C.cells bench.new.main) (C.cells bench.new.spare) (C.cells bench.new.kept)
        (vec_len bench.new.cells) (vec_len bench.new.tail) (vec_len bench.new.room) }
{
    let _tasks = sheet.tasks();
    let count = sheet.job_count(task);
    let mut pass = LevelPass::begin(bench, sheet, higher, task, dir);
    let mut number = 0;
    while number < count {
        let instant = pass.step(bench, sheet, notes);
        if instant.released.holds(task) {
            let met = respond(bench, sheet, higher, task, number as u32, dir, notes);
            found[number] = with_number(found[number], dir, UNIT - met);
            number += 1;
        }
    }
}

// The numbers of a job, with that of one direction in place.
fn with_number(bounds: Bounds, dir: Dir, number: u64) -> Bounds
    ensures { result ≡ with_number_in dir number bounds }
{
    match dir {
        Dir::Up => Bounds {
            upper: number,
            ..bounds
        },
        Dir::Down => Bounds {
            lower: number,
            ..bounds
        },
    }
}
