//! The assignment of priorities.

ghost use Rattle.std.specs.Prelude.{◌≡◌, true, IfOk, IfErr, length, vec_len};
ghost use Rattle.prta_jobs.specs.Permutation.{is_order};
ghost use Rattle.prta_backlog.specs.Fitting.{FitsCap};
ghost use Rattle.prta_audsley.specs.Verdict.{verdict, Says, IsExactly};

use crate::assigned::Assigned;
use crate::laws::verdicts_hold;
use crate::placing::place_all;
use prta_backlog::Bench;
use prta_dist::{Curve, Kernel};
use prta_jobs::Order;
use prta_mass::{Dir, NoMemory};
use prta_sheet::Sheet;
use std::alloc::Global;

/// The verdict on the orders of the sheet's tasks, by a greedy assignment: the lowest free place gets the first task, in sheet
/// order, that passes with all other unplaced tasks above it. It is the order that this finds by the upper numbers. Where it
/// finds none it is Impossible where the lower numbers leave it stuck too, and else Undecided. The bench holds anything
/// afterwards; after a want of memory it is as before.
pub fn assign<C: Curve, K: Kernel>(
    alloc: Global,
    bench: &mut Bench<C, K>,
    sheet: &Sheet,
) -> Result<Assigned, NoMemory>
    requires fits { FitsCap sheet.now.settings.cap (C.cells bench.old.main) (C.cells bench.old.spare) (C.cells bench.old.kept)
        (vec_len bench.old.cells) (vec_len bench.old.tail) (vec_len bench.old.room) }
    ensures verdict { IfOk result (λ assigned. assigned ≡ verdict sheet.now) }
    // When each comes, and what it means.
    ensures exactly { IfOk result (IsExactly sheet.now) }
    ensures says { IfOk result (Says sheet.now) }
    ensures unchanged { IfErr result (λ _. bench.new ≡ bench.old) }
    ensures fits { FitsCap sheet.now.settings.cap (C.cells bench.new.main) (C.cells bench.new.spare) (C.cells bench.new.kept)
        (vec_len bench.new.cells) (vec_len bench.new.tail) (vec_len bench.new.room) }
{
    verdicts_hold();
    let _tasks = sheet.tasks();
    let order = Order::of_sheet(alloc, sheet)?;
    Ok(decide(bench, sheet, order))
}

// The verdict, without taking memory.
fn decide<C: Curve, K: Kernel>(bench: &mut Bench<C, K>, sheet: &Sheet, order: Order) -> Assigned
    requires order { is_order (length sheet.now.tasks) order ≡ true }
    requires fits { FitsCap sheet.now.settings.cap (C.cells bench.old.main) (C.cells bench.old.spare) (C.cells bench.old.kept)
        (vec_len bench.old.cells) (vec_len bench.old.tail) (vec_len bench.old.room) }
    ensures verdict { result ≡ verdict sheet.now }
    ensures fits { FitsCap sheet.now.settings.cap (C.cells bench.new.main) (C.cells bench.new.spare) (C.cells bench.new.kept)
        (vec_len bench.new.cells) (vec_len bench.new.tail) (vec_len bench.new.room) }
{
    let _tasks = sheet.tasks();
    let mut order = order;
    match place_all(bench, sheet, Dir::Up, &mut order) {
        None => Assigned::Order(order),
        Some(unplaced) => match place_all(bench, sheet, Dir::Down, &mut order) {
            None => Assigned::Undecided { stuck: unplaced },
            Some(below) => Assigned::Impossible { stuck: below },
        },
    }
}
