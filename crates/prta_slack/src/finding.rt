//! The search for the greatest number of ticks.

ghost use Rattle.std.specs.Prelude.{◌≡◌, ◌+◌, ◌<◌, ◌≤◌, true, false, IfOk, IfErr, length, vec_len};
ghost use Rattle.prta_sheet.specs.Added.{IsSheetWithAdded};
ghost use Rattle.prta_backlog.specs.Fitting.{FitsCap};
ghost use Rattle.prta_slack.specs.Passing.{passes_with};
ghost use Rattle.prta_slack.specs.Answer.{room_of, slack_of, IsExactly, Says};

use crate::answer::Slack;
use crate::laws::slacks_hold;
use prta_backlog::Bench;
use prta_dist::{Curve, Kernel};
use prta_dual::first_failing;
use prta_mass::NoMemory;
use prta_sheet::{Sheet, added_sheets};
use std::alloc::Global;

/// How many ticks may be added to each time of a task, at most its room, with every job of the sheet still passing; or the first
/// job that doesn't pass as it is. Memory is taken for a copy of the sheet, before anything is analysed. The bench holds anything
/// afterwards; after a want of memory it is as before. The sheet is analysed about twenty times, which no clause says.
pub fn find_slack<C: Curve, K: Kernel>(
    alloc: Global,
    bench: &mut Bench<C, K>,
    sheet: &Sheet,
    task: usize,
) -> Result<Slack, NoMemory>
    requires task { task < length sheet.now.tasks }
    requires fits { FitsCap sheet.now.settings.cap (C.cells bench.old.main) (C.cells bench.old.spare) (C.cells bench.old.kept)
        (vec_len bench.old.cells) (vec_len bench.old.tail) (vec_len bench.old.room) }
    ensures slack { IfOk result (λ found. found ≡ slack_of sheet.now task) }
    // When each comes, and what it means.
    ensures exactly { IfOk result (IsExactly sheet.now task) }
    ensures says { IfOk result (Says sheet.now task) }
    ensures unchanged { IfErr result (λ _. bench.new ≡ bench.old) }
    ensures fits { FitsCap sheet.now.settings.cap (C.cells bench.new.main) (C.cells bench.new.spare) (C.cells bench.new.kept)
        (vec_len bench.new.cells) (vec_len bench.new.tail) (vec_len bench.new.room) }
{
    slacks_hold();
    let _tasks = sheet.tasks();
    let mut copy = sheet.copy(alloc)?;
    Ok(search(bench, sheet, &mut copy, task))
}

// The slack, without taking memory; the copy is used up.
fn search<C: Curve, K: Kernel>(
    bench: &mut Bench<C, K>,
    sheet: &Sheet,
    copy: &mut Sheet,
    task: usize,
) -> Slack
    requires task { task < length sheet.now.tasks }
    requires copy { copy.old ≡ sheet.now }
    requires fits { FitsCap sheet.now.settings.cap (C.cells bench.old.main) (C.cells bench.old.spare) (C.cells bench.old.kept)
        (vec_len bench.old.cells) (vec_len bench.old.tail) (vec_len bench.old.room) }
    ensures slack { result ≡ slack_of sheet.now task }
    ensures fits { FitsCap sheet.now.settings.cap (C.cells bench.new.main) (C.cells bench.new.spare) (C.cells bench.new.kept)
        (vec_len bench.new.cells) (vec_len bench.new.tail) (vec_len bench.new.room) }
{
    slacks_hold();
    added_sheets();
    let _tasks = sheet.tasks();
    let room = sheet.room(task);
    match first_failing(bench, sheet) {
        Some(job) => Slack::Fails {
            task: job.task,
            number: job.number,
            upper: job.bound,
        },
        None => {
            if passes_added(bench, sheet, copy, task, room) {
                Slack::All(room)
            } else {
                Slack::Ticks(last_passing(bench, sheet, copy, task, room))
            }
        }
    }
}

// The number with which the sheet passes, and with one more of which it doesn't, where it passes with none and not with a limit:
// the two ends of the numbers in question approach each other.
fn last_passing<C: Curve, K: Kernel>(
    bench: &mut Bench<C, K>,
    sheet: &Sheet,
    copy: &mut Sheet,
    task: usize,
    limit: u32,
) -> u32
    requires task { task < length sheet.now.tasks }
    requires copy { IsSheetWithAdded sheet.now task copy.old }
    requires room { limit ≤ room_of sheet.now task }
    requires passes { passes_with sheet.now task 0 ≡ true }
    requires fails { passes_with sheet.now task limit ≡ false }
    requires fits { FitsCap sheet.now.settings.cap (C.cells bench.old.main) (C.cells bench.old.spare) (C.cells bench.old.kept)
        (vec_len bench.old.cells) (vec_len bench.old.tail) (vec_len bench.old.room) }
    ensures below { result < limit }
    ensures passes { passes_with sheet.now task result ≡ true }
    ensures fails { passes_with sheet.now task (result + 1) ≡ false }
    ensures fits { FitsCap sheet.now.settings.cap (C.cells bench.new.main) (C.cells bench.new.spare) (C.cells bench.new.kept)
        (vec_len bench.new.cells) (vec_len bench.new.tail) (vec_len bench.new.room) }
{
    let mut passing = 0;
    let mut failing = limit;
    while failing - passing > 1 {
        let middle = passing + (failing - passing) / 2;
        if passes_added(bench, sheet, copy, task, middle) {
            passing = middle;
        } else {
            failing = middle;
        }
    }
    passing
}

// Whether the sheet passes with s ticks added to the task: the copy becomes that sheet, and every job of it is analysed.
fn passes_added<C: Curve, K: Kernel>(
    bench: &mut Bench<C, K>,
    sheet: &Sheet,
    copy: &mut Sheet,
    task: usize,
    s: u32,
) -> bool
    requires task { task < length sheet.now.tasks }
    requires copy { IsSheetWithAdded sheet.now task copy.old }
    requires room { s ≤ room_of sheet.now task }
    requires fits { FitsCap sheet.now.settings.cap (C.cells bench.old.main) (C.cells bench.old.spare) (C.cells bench.old.kept)
        (vec_len bench.old.cells) (vec_len bench.old.tail) (vec_len bench.old.room) }
    ensures passes { result ≡ passes_with sheet.now task s }
    ensures copy { IsSheetWithAdded sheet.now task copy.new }
    ensures fits { FitsCap sheet.now.settings.cap (C.cells bench.new.main) (C.cells bench.new.spare) (C.cells bench.new.kept)
        (vec_len bench.new.cells) (vec_len bench.new.tail) (vec_len bench.new.room) }
{
    copy.set_added(sheet, task, s);
    first_failing(bench, copy).is_none()
}
