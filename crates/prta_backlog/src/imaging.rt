//! Images of lists of chances.

ghost use Rattle.std.specs.Prelude.{◌≡◌, ◌≤◌, false, length};
ghost use Rattle.prta_sheet.specs.Sheet.{hyperperiod as hyperperiod_of, horizon};
ghost use Rattle.prta_jobs.specs.TaskSet.{holds};
ghost use Rattle.prta_jobs.specs.Instant.{IsOnSheet};
ghost use Rattle.prta_backlog.specs.Level.{has_task};
ghost use Rattle.prta_backlog.specs.LevelRun.{image as image_of};
ghost use Rattle.prta_backlog.specs.Pass.{level_of};

use crate::bench::Bench;
use crate::pass::LevelPass;
use prta_dist::{Curve, Kernel};
use prta_jobs::TaskSet;
use prta_ledger::NoNotes;
use prta_mass::Dir;
use prta_sheet::Sheet;

/// Replaces the main curve by its image: in Up and without re-sampling it goes through the instants of one hyperperiod,
/// and is shifted to its end.
pub fn image<C: Curve, K: Kernel>(
    bench: &mut Bench<C, K>,
    sheet: &Sheet,
    higher: TaskSet,
    task: usize,
)
    requires on_sheet { IsOnSheet sheet.now.tasks (has_task (level_of higher task)) }
    requires apart { holds higher task ≡ false }
    ensures image { C.cells bench.new.main ≡ image_of sheet.now.tasks (level_of higher task) (hyperperiod_of sheet.now.tasks) (C.cells bench.old.main) }
    ensures cap { length (C.cells bench.new.main) ≡ length (C.cells bench.old.main) }
    ensures others { bench.new ≡ record bench.old { main = bench.new.main } }
{
    let end = whole_hyperperiod(sheet);
    let mut pass = LevelPass::plain(higher, task, Dir::Up);
    let mut notes = NoNotes;
    while pass.next(sheet).at < end {
        pass.step(bench, sheet, &mut notes);
    }
    bench.main.shift(end - pass.since());
}

// The hyperperiod, which is within the horizon.
pub(crate) fn whole_hyperperiod(sheet: &Sheet) -> u64
    ensures hyperperiod { result ≡ hyperperiod_of sheet.now.tasks }
    ensures within { result ≤ horizon sheet.now }
    ensures short { result ≤ 1000000 }
{
    sheet.hyperperiod()
}
