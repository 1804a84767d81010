//! The walk of a level: whether a ratio passes.

ghost use Rattle.std.specs.Prelude.{◌≡◌, ◌↔◌, ℕ, ◌-◌, ◌/◌, ◌^◌, ◌<◌, ◌≤◌, ◌&&◌, ◌||◌, not, None, true, false, filter, length, slice_index_or, All, Contains, IfSome};
ghost use Rattle.std.specs.List.{list_all, range_with_len};
ghost use Rattle.prta_sheet.specs.Sheet.{task_at, table_in, hyperperiod as hyperperiod_of};
ghost use Rattle.prta_sheet.specs.Job.{table_of, is_release, released_at};
ghost use Rattle.prta_jobs.specs.TaskSet.{holds};
ghost use Rattle.prta_jobs.specs.Instant.{IsOnSheet, IsInstant};
ghost use Rattle.prta_backlog.specs.Level.{has_task, level_at, sheet_level};
ghost use Rattle.prta_backlog.specs.Pass.{level_of};
ghost use Rattle.prta_tail.specs.Ratios.{ratio, ratios};
ghost use Rattle.prta_tail.specs.Walk.{WalkNumber, StandsAt, IsWalk, grows_low, after_tick, after_release, after_releases, walk_to, level_grows_low, walk_ends_low, ratio_passes, first_ratio};
ghost use Rattle.prta_tail.specs.Laws.{Passes};

use crate::growth::{cycle_grows_low, factor_of, scaled};
use crate::ratio::{RATIOS, Ratio};
use prta_jobs::{Instant, TaskSet, first_instant, next_instant};
use prta_mass::TimeTable;
use prta_sheet::{Sheet, TASK_LIMIT, Task};

// Where a walk starts, and where it has to end or below.
const START: u64 = 1_099_511_627_776;

// A walk above this fails.
const WALK_LIMIT: u64 = 9_223_372_036_854_775_808;

// What stands for a factor of 1.
const ONE: u128 = 4_294_967_296;

/// The first of the ratios that passes for the level of the task in the sheet's order; there is none exactly where none
/// of them passes. A level whose mean work is below the hyperperiod may have none.
pub fn find_ratio(sheet: &Sheet, task: usize) -> Option<Ratio>
    requires task { task < length sheet.now.tasks }
    ensures first { result ≡ first_ratio sheet.now.tasks (sheet_level task) }
    ensures passes { IfSome result (Passes sheet.now.tasks (sheet_level task)) }
    ensures none { (result ≡ None) ↔ All (λ ratio. ratio_passes sheet.now.tasks (sheet_level task) ratio ≡ false) ratios }
{
    let _tasks = sheet.tasks();
    let higher = TaskSet::below(task);
    for i in 0..RATIOS.len() {
        let ratio = ratio_at(i);
        if walk_passes(sheet, higher, task, ratio) {
            return Some(ratio);
        }
    }
    None
}

// The ratio of this place.
fn ratio_at(i: usize) -> Ratio
    requires i { i < 10 }
    ensures { result ≡ slice_index_or ratios i (ratio 0 0) }
{
    RATIOS[i]
}

/// Whether a ratio passes for the level: the walk number of the level, which starts at 2^40, falls with each tick of one
/// hyperperiod and rises with each job that is released, ends at 2^40 at most, was never above 2^63, and no time of a
/// table of the level grows above 2^60.
pub fn walk_passes(sheet: &Sheet, higher: TaskSet, task: usize, ratio: Ratio) -> bool
    requires listed { Contains ratios ratio }
    requires on_sheet { IsOnSheet sheet.now.tasks (has_task (level_of higher task)) }
    requires apart { holds higher task ≡ false }
    ensures { result ≡ ratio_passes sheet.now.tasks (level_of higher task) ratio }
{
    let _tasks = sheet.tasks();
    all_grow_low(sheet, higher.with(task), ratio) && ends_low(sheet, higher, task, ratio)
}

// Whether no time of a table of these tasks grows above the limit.
fn all_grow_low(sheet: &Sheet, level: TaskSet, ratio: Ratio) -> bool
    requires listed { Contains ratios ratio }
    ensures { result ≡ list_all (λ i. not (holds level i) || list_all (grows_low ratio) (task_at sheet.now.tasks i).cycle) (range_with_len 0 (length sheet.now.tasks)) }
{
    let tasks = sheet.tasks();
    for i in 0..tasks.len() {
        if !task_grows_low(sheet, level, i, ratio) {
            return false;
        }
    }
    true
}

// The same of one task, where it is of the level.
fn task_grows_low(sheet: &Sheet, level: TaskSet, i: usize, ratio: Ratio) -> bool
    requires listed { Contains ratios ratio }
    requires i { i < length sheet.now.tasks }
    ensures { result ≡ (not (holds level i) || list_all (grows_low ratio) (task_at sheet.now.tasks i).cycle) }
{
    let tasks = sheet.tasks();
    !level.holds(i) || cycle_grows_low(tasks[i].cycle(), ratio)
}

// Whether the walk ends low enough, and was never too high.
fn ends_low(sheet: &Sheet, higher: TaskSet, task: usize, ratio: Ratio) -> bool
    requires listed { Contains ratios ratio }
    requires on_sheet { IsOnSheet sheet.now.tasks (has_task (level_of higher task)) }
    requires apart { holds higher task ≡ false }
    requires low { level_grows_low sheet.now.tasks (level_of higher task) ratio ≡ true }
    ensures { result ≡ walk_ends_low sheet.now.tasks (level_of higher task) ratio }
{
    match walk(sheet, higher, task, ratio) {
        Some(number) => number <= START,
        None => false,
    }
}

// The walk number at the end of the hyperperiod; none where it was once too high.
fn walk(sheet: &Sheet, higher: TaskSet, task: usize, ratio: Ratio) -> Option<u64>
    requires listed { Contains ratios ratio }
    requires on_sheet { IsOnSheet sheet.now.tasks (has_task (level_of higher task)) }
    requires apart { holds higher task ≡ false }
    requires low { level_grows_low sheet.now.tasks (level_of higher task) ratio ≡ true }
    ensures { IsWalk (walk_to sheet.now.tasks (level_of higher task) ratio (hyperperiod_of sheet.now.tasks)) result }
{
    let _tasks = sheet.tasks();
    let end = sheet.hyperperiod();
    let mut number = Some(START);
    let mut instant = instant_from(sheet, higher, task, 0);
    for t in 0..end {
        if instant.at == t {
            number = level_releases(sheet, higher, task, instant.released, t, ratio, number);
            instant = instant_from(sheet, higher, task, t + 1);
        }
        number = tick(ratio, number);
    }
    number
}

// The first instant of the level from a time on.
fn instant_from(sheet: &Sheet, higher: TaskSet, task: usize, from: u64) -> Instant
    requires on_sheet { IsOnSheet sheet.now.tasks (has_task (level_of higher task)) }
    requires from { from ≤ 2 ^ 40 }
    ensures { IsInstant sheet.now.tasks (has_task (level_of higher task)) from result.at (holds result.released) }
{
    let _tasks = sheet.tasks();
    let level = higher.with(task);
    if from == 0 {
        first_instant(sheet, level)
    } else {
        next_instant(sheet, level, from - 1)
    }
}

// A tick passes.
fn tick(ratio: Ratio, number: Option<u64>) -> Option<u64>
    requires listed { Contains ratios ratio }
    ensures { (walk : WalkNumber) → IsWalk walk number → IsWalk (after_tick ratio walk) result }
{
    match number {
        Some(number) => Some(scaled(number, ratio.p, ratio.q) as u64),
        None => None,
    }
}

// A level releases jobs: those of its higher tasks, and then the own one.
fn level_releases(
    sheet: &Sheet,
    higher: TaskSet,
    task: usize,
    released: TaskSet,
    at: u64,
    ratio: Ratio,
    number: Option<u64>,
) -> Option<u64>
    requires listed { Contains ratios ratio }
    requires on_sheet { IsOnSheet sheet.now.tasks (has_task (level_of higher task)) }
    requires low { level_grows_low sheet.now.tasks (level_of higher task) ratio ≡ true }
    requires released { (i : ℕ) → has_task (level_of higher task) i ≡ true → holds released i ≡ is_release (task_at sheet.now.tasks i) at }
    requires at { at < 2 ^ 32 }
    ensures { (walk : WalkNumber) → IsWalk walk number →
        IsWalk (after_releases ratio (table_of sheet.now.tasks) (level_at sheet.now.tasks (level_of higher task) at) walk) result }
{
    let _tasks = sheet.tasks();
    let own = TaskSet::empty().with(task);
    let number = releases(sheet, higher, released, at, ratio, number);
    releases(sheet, own, released, at, ratio, number)
}

// The tasks of a set release jobs, in the order of the sheet.
fn releases(
    sheet: &Sheet,
    set: TaskSet,
    released: TaskSet,
    at: u64,
    ratio: Ratio,
    number: Option<u64>,
) -> Option<u64>
    requires listed { Contains ratios ratio }
    requires low { (i : ℕ) → holds set i ≡ true → list_all (grows_low ratio) (task_at sheet.now.tasks i).cycle ≡ true }
    requires released { (i : ℕ) → holds set i ≡ true → holds released i ≡ is_release (task_at sheet.now.tasks i) at }
    requires at { at < 2 ^ 32 }
    ensures { (walk : WalkNumber) → IsWalk walk number →
        IsWalk (after_releases ratio (table_of sheet.now.tasks) (filter (λ job. holds set job.task) (released_at 0 sheet.now.tasks at)) walk) result }
{
    let tasks = sheet.tasks();
    let mut after = number;
    for i in 0..tasks.len() {
        if both_hold(set, released, i) {
            after = release(table_at(&tasks[i], at), ratio, after);
        }
    }
    after
}

// Whether both sets hold a task.
fn both_hold(set: TaskSet, other: TaskSet, i: usize) -> bool
    requires { i < TASK_LIMIT }
    ensures { result ≡ (holds set i && holds other i) }
{
    set.holds(i) && other.holds(i)
}

// A job with this table is released.
fn release(table: &TimeTable, ratio: Ratio, number: Option<u64>) -> Option<u64>
    requires listed { Contains ratios ratio }
    requires low { grows_low ratio table.now ≡ true }
    ensures { (walk : WalkNumber) → IsWalk walk number → IsWalk (after_release ratio table.now walk) result }
{
    match number {
        Some(number) => release_from(table, ratio, number),
        None => None,
    }
}

// The same where the walk stands at a number.
fn release_from(table: &TimeTable, ratio: Ratio, number: u64) -> Option<u64>
    requires listed { Contains ratios ratio }
    requires low { grows_low ratio table.now ≡ true }
    ensures { (walk : WalkNumber) → StandsAt walk number → IsWalk (after_release ratio table.now walk) result }
{
    let factor = factor_of(table, ratio);
    let next = (number as u128 * factor as u128).div_ceil(ONE);
    if next > WALK_LIMIT as u128 {
        None
    } else {
        Some(next as u64)
    }
}

// The table of the job that the task releases at a time.
fn table_at(task: &Task, at: u64) -> &TimeTable
    requires period { 1 ≤ task.now.period }
    requires cycle { 1 ≤ length task.now.cycle }
    requires reached { task.now.offset ≤ at }
    requires at { at < 2 ^ 32 }
    ensures { result.now ≡ table_in task.now ((at - task.now.offset) / task.now.period) }
{
    let number = (at - task.offset() as u64) / task.period() as u64;
    task.table(number as u32)
}
