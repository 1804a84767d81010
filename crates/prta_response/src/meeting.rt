//! The response run where no entry is told: each delay is made on those cells alone on which the answer can hang.

ghost use Rattle.std.specs.Prelude.{◌≡◌, ◌+◌, ◌-◌, ◌<◌, ◌≤◌, false, take, drop, ◌++◌, length};
ghost use Rattle.prta_mass.specs.Unit.{unit};
ghost use Rattle.prta_mass.specs.Chances.{at, IsChances};
ghost use Rattle.prta_mass.specs.Table.{IsTable};
ghost use Rattle.prta_sheet.specs.Job.{table_of};
ghost use Rattle.prta_jobs.specs.TaskSet.{holds};
ghost use Rattle.prta_jobs.specs.Instant.{IsOnSheet};
ghost use Rattle.prta_preempt.specs.Delay.{delayed};
ghost use Rattle.prta_backlog.specs.Level.{has_task, delaying};
ghost use Rattle.prta_backlog.specs.Pass.{level_of};
ghost use Rattle.prta_response.specs.Response.{all_delayed, meeting_cell};
ghost use Rattle.prta_response.specs.Reach.{least, Suffices};

use crate::coming::Coming;
use crate::delaying::{Delayed, table_of};
use prta_dist::{Curve, Kernel};
use prta_jobs::TaskSet;
use prta_mass::{Dir, TimeTable};
use prta_preempt::{delay, delays_keep_chances};
use prta_sheet::Sheet;

// Makes the response run in the first cells of work lists that go past the deadline as far as the cell there hangs on
// them, and answers it.
pub(crate) fn meet<C: Curve, K: Kernel>(
    main: &C,
    kernel: &K,
    cells: &mut [u64],
    tail: &mut [u64],
    room: &mut [u64],
    sheet: &Sheet,
    higher: TaskSet,
    job: Delayed,
) -> u64
    requires on_sheet { IsOnSheet sheet.now.tasks (has_task (level_of higher job.task)) }
    requires apart { holds higher job.task ≡ false }
    requires release { job.release ≤ 64000000 }
    requires task { job.task < length sheet.now.tasks }
    requires front { sheet.now.settings.cap ≤ length (C.cells main.now) }
    requires cells { sheet.now.settings.cap ≤ length cells.old }
    requires tails { sheet.now.settings.cap ≤ length tail.old }
    requires rooms { sheet.now.settings.cap ≤ length room.old }
    ensures cell { result ≡ meeting_cell job.dir sheet.now.tasks (level_of higher job.task) job.release (C.cells main.now) }
    ensures limit { result ≤ unit }
{
    let deadline = sheet.tasks()[job.task as usize].deadline() as usize;
    let cells = &mut cells[..deadline + 1];
    let tail = &mut tail[..deadline + 1];
    let room = &mut room[..deadline + 1];
    let _cap = main.cap();
    main.front(cells);
    let reach = reach_of(job, sheet, higher, deadline);
    delay_within(job, kernel, cells, tail, room, sheet, higher, reach);
    cells[deadline]
}

// Up to which place the cells of the job's response have to be right before its delays, so that the one at the deadline
// is right after them. A delay reads no later place than the least time of its table before the one that it makes.
fn reach_of(job: Delayed, sheet: &Sheet, higher: TaskSet, deadline: usize) -> usize
    requires on_sheet { IsOnSheet sheet.now.tasks (has_task (level_of higher job.task)) }
    requires apart { holds higher job.task ≡ false }
    requires release { job.release ≤ 64000000 }
    requires some { 0 < deadline }
    requires few { deadline < 16384 }
    ensures suffices { Suffices (table_of sheet.now.tasks) job.release deadline (delaying sheet.now.tasks (level_of higher job.task) job.release deadline) result }
    ensures within { result ≤ deadline }
{
    let mut coming = job.coming(sheet, higher, deadline);
    let mut sum = 0;
    let mut reach = 0;
    while let Some(next) = coming.next(sheet) {
        let place = (next.release - job.release) as usize;
        reach = reach.max(place.saturating_sub(sum));
        sum = deadline.min(sum + least_of(table_of(sheet, next)));
    }
    reach.max(deadline - sum)
}

// Delays the cells, which are right up to a reach that suffices, so that the last one is right after all delays.
fn delay_within<K: Kernel>(
    job: Delayed,
    kernel: &K,
    cells: &mut [u64],
    tail: &mut [u64],
    room: &mut [u64],
    sheet: &Sheet,
    higher: TaskSet,
    reach: usize,
)
    requires on_sheet { IsOnSheet sheet.now.tasks (has_task (level_of higher job.task)) }
    requires apart { holds higher job.task ≡ false }
    requires release { job.release ≤ 64000000 }
    requires some { 1 < length cells.old }
    requires few { length cells.old ≤ 16384 }
    requires tails { length tail.old ≡ length cells.old }
    requires rooms { length room.old ≡ length cells.old }
    requires chances { IsChances cells.old }
    requires within { reach < length cells.old }
    requires suffices { let end = length cells.old - 1 in
        Suffices (table_of sheet.now.tasks) job.release end (delaying sheet.now.tasks (level_of higher job.task) job.release end) reach }
    ensures chances { IsChances cells.new }
    ensures cell { let end = length cells.old - 1 in
        at cells.new end ≡ at (all_delayed job.dir (table_of sheet.now.tasks) job.release (delaying sheet.now.tasks (level_of higher job.task) job.release end) cells.old) end }
{
    let end = cells.len() - 1;
    let mut coming = job.coming(sheet, higher, end);
    let mut reach = reach;
    while let Some(next) = coming.next(sheet) {
        let place = (next.release - job.release) as usize;
        let table = table_of(sheet, next);
        reach = end.min(reach + least_of(table));
        delay_front(kernel, cells, tail, room, table, place, reach + 1, job.dir);
    }
}

// Delays the first n cells by a job with the times of the table that is released d ticks after the delayed one.
fn delay_front<K: Kernel>(
    kernel: &K,
    cells: &mut [u64],
    tail: &mut [u64],
    room: &mut [u64],
    table: &TimeTable,
    d: usize,
    n: usize,
    dir: Dir,
)
    requires tails { length tail.old ≡ length cells.old }
    requires rooms { length room.old ≡ length cells.old }
    requires inside { n ≤ length cells.old }
    requires place { d < n }
    requires chances { IsChances cells.old }
    ensures cells { cells.new ≡ delayed dir table.now d (take n cells.old) ++ drop n cells.old }
    ensures chances { IsChances cells.new }
    ensures table { IsTable table.now }
{
    // What these two ensure keeps the cells a list of chances.
    delays_keep_chances();
    let _greatest = table.greatest();
    let _rounded = delay(
        kernel,
        &mut cells[..n],
        &mut tail[..n],
        &mut room[..n],
        table,
        d,
        dir,
    );
}

// The least time of the table.
fn least_of(table: &TimeTable) -> usize
    ensures least { result ≡ least table.now }
    ensures limit { result < 4294967296 }
{
    table.points()[0].0 as usize
}
