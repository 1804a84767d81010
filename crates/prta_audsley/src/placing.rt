//! The greedy assignment, from the lowest place up.

ghost use Rattle.std.specs.Prelude.{◌≡◌, ◌<◌, true, ◌&&◌, position, nat_eq, swap, IfSome, length, vec_len};
ghost use Rattle.prta_sheet.specs.Machine.{place};
ghost use Rattle.prta_jobs.specs.TaskSet.{holds};
ghost use Rattle.prta_jobs.specs.Permutation.{is_order};
ghost use Rattle.prta_backlog.specs.Fitting.{FitsCap};
ghost use Rattle.prta_audsley.specs.Passing.{task_passes};
ghost use Rattle.prta_audsley.specs.Verdict.{greedy_by, other_tasks};
ghost use Rattle.prta_audsley.specs.Placing.{IsSetOf, IsFirstPassing, outcome_of};

use prta_backlog::Bench;
use prta_dist::{Curve, Kernel};
use prta_dual::first_failing_below;
use prta_jobs::{Order, TaskSet};
use prta_mass::Dir;
use prta_sheet::Sheet;

// Brings the order into that of the greedy by a direction; where it is stuck, answers the unplaced tasks, and the order is
// any one.
pub(crate) fn place_all<C: Curve, K: Kernel>(
    bench: &mut Bench<C, K>,
    sheet: &Sheet,
    dir: Dir,
    order: &mut Order,
) -> Option<TaskSet>
    requires order { is_order (length sheet.now.tasks) order.old ≡ true }
    requires fits { FitsCap sheet.now.settings.cap (C.cells bench.old.main) (C.cells bench.old.spare) (C.cells bench.old.kept)
        (vec_len bench.old.cells) (vec_len bench.old.tail) (vec_len bench.old.room) }
    ensures outcome { outcome_of (length sheet.now.tasks) order.new result ≡ greedy_by dir sheet.now }
    ensures set { IfSome result (IsSetOf (length sheet.now.tasks)) }
    ensures order { is_order (length sheet.now.tasks) order.new ≡ true }
    ensures fits { FitsCap sheet.now.settings.cap (C.cells bench.new.main) (C.cells bench.new.spare) (C.cells bench.new.kept)
        (vec_len bench.new.cells) (vec_len bench.new.tail) (vec_len bench.new.room) }
{
    let count = sheet.tasks().len();
    let mut unplaced = TaskSet::below(count);
    for placed in 0..count {
        match first_passing(bench, sheet, unplaced, dir) {
            Some(task) => {
                move_to(order, task, count - 1 - placed);
                unplaced = unplaced.without(task);
            }
            None => return Some(unplaced),
        }
    }
    None
}

// The first task of a set, in sheet order, that passes by a direction with all others of the set above it.
fn first_passing<C: Curve, K: Kernel>(
    bench: &mut Bench<C, K>,
    sheet: &Sheet,
    unplaced: TaskSet,
    dir: Dir,
) -> Option<usize>
    requires set { IsSetOf (length sheet.now.tasks) unplaced }
    requires fits { FitsCap sheet.now.settings.cap (C.cells bench.old.main) (C.cells bench.old.spare) (C.cells bench.old.kept)
        (vec_len bench.old.cells) (vec_len bench.old.tail) (vec_len bench.old.room) }
    ensures first { IsFirstPassing (task_passes dir sheet.now) (length sheet.now.tasks) unplaced result }
    ensures fits { FitsCap sheet.now.settings.cap (C.cells bench.new.main) (C.cells bench.new.spare) (C.cells bench.new.kept)
        (vec_len bench.new.cells) (vec_len bench.new.tail) (vec_len bench.new.room) }
{
    for task in 0..sheet.tasks().len() {
        if passes_lowest(bench, sheet, unplaced, task, dir) {
            return Some(task);
        }
    }
    None
}

// Whether a task is of the set, and passes by a direction with all others of it above it.
fn passes_lowest<C: Curve, K: Kernel>(
    bench: &mut Bench<C, K>,
    sheet: &Sheet,
    unplaced: TaskSet,
    task: usize,
    dir: Dir,
) -> bool
    requires set { IsSetOf (length sheet.now.tasks) unplaced }
    requires task { task < length sheet.now.tasks }
    requires fits { FitsCap sheet.now.settings.cap (C.cells bench.old.main) (C.cells bench.old.spare) (C.cells bench.old.kept)
        (vec_len bench.old.cells) (vec_len bench.old.tail) (vec_len bench.old.room) }
    ensures passes { result ≡ (holds unplaced task && task_passes dir sheet.now (other_tasks unplaced task) task) }
    ensures fits { FitsCap sheet.now.settings.cap (C.cells bench.new.main) (C.cells bench.new.spare) (C.cells bench.new.kept)
        (vec_len bench.new.cells) (vec_len bench.new.tail) (vec_len bench.new.room) }
{
    let _tasks = sheet.tasks();
    if !unplaced.holds(task) {
        return false;
    }
    let others = unplaced.without(task);
    first_failing_below(bench, sheet, others, task, dir).is_none()
}

// Exchanges the task with the one that stands at a place.
fn move_to(order: &mut Order, task: usize, to: usize)
    requires task { place order.old task < length order.old }
    requires to { to < length order.old }
    ensures { order.new ≡ swap order.old (place order.old task) to }
{
    let from = place_of(order.list(), task);
    order.swap(from, to);
}

// The place of a task in an order; the number of places where it has none.
fn place_of(order: &[usize], task: usize) -> usize
    ensures { result ≡ place order.now task }
{
    first_place(order, task).unwrap_or(order.len())
}

// The first place at which the task stands.
fn first_place(order: &[usize], task: usize) -> Option<usize>
    ensures { result ≡ position (λ other. nat_eq other task) order.now }
{
    order.iter().position(|other| *other == task)
}
