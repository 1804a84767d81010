//! The base list of a level.

ghost use Rattle.std.specs.Prelude.{◌≡◌, ◌<◌, length, Contains};
ghost use Rattle.prta_backlog.specs.Level.{sheet_level};
ghost use Rattle.prta_backlog.specs.Greatest.{worst_backlog as worst_backlog_of};
ghost use Rattle.prta_tail.specs.Ratios.{ratios};
ghost use Rattle.prta_tail.specs.Tail.{base_list};

use crate::growth::scaled;
use crate::ratio::Ratio;
use prta_backlog::{Bench, worst_backlog};
use prta_dist::{Curve, Kernel};
use prta_jobs::TaskSet;
use prta_mass::UNIT;
use prta_sheet::Sheet;

/// Makes the main curve the base list of the level of the task in the sheet's order: 0 below the worst-case backlog B, and
/// from there on the unit less a tail, which is p/q of the unit at B and shrinks by p/q from place to place. All else
/// stays. Where the ratio passes for the level, which isn't tested here, the list bounds the level's backlog at the start of
/// every hyperperiod.
pub fn load_tail<C: Curve, K: Kernel>(
    bench: &mut Bench<C, K>,
    sheet: &Sheet,
    task: usize,
    ratio: Ratio,
)
    requires task { task < length sheet.now.tasks }
    requires listed { Contains ratios ratio }
    ensures main { C.cells bench.new.main ≡ base_list sheet.now.tasks (sheet_level task) (length (C.cells bench.old.main)) ratio }
    ensures cap { length (C.cells bench.new.main) ≡ length (C.cells bench.old.main) }
    ensures others { bench.new ≡ record bench.old { main = bench.new.main } }
{
    let worst = worst_of(sheet, task);
    let cap = bench.main.cap();
    bench.main.raise(0, 0);
    let mut tail = UNIT;
    for place in 0..cap {
        if place as u64 >= worst {
            tail = scaled(tail, ratio.p, ratio.q) as u64;
            bench.main.raise(place, UNIT - tail);
        }
    }
}

// The worst-case backlog of the level, in ticks.
pub(crate) fn worst_of(sheet: &Sheet, task: usize) -> u64
    requires task { task < length sheet.now.tasks }
    ensures { result ≡ worst_backlog_of sheet.now.tasks (sheet_level task) }
{
    let _tasks = sheet.tasks();
    worst_backlog(sheet, TaskSet::below(task), task)
}
