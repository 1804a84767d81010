//! The response run of one job.

ghost use Rattle.std.specs.Prelude.{◌≡◌, ◌+◌, ◌<◌, ◌≤◌, false, length, vec_len};
ghost use Rattle.prta_mass.specs.Unit.{unit};
ghost use Rattle.prta_sheet.specs.Job.{nth_job};
ghost use Rattle.prta_sheet.specs.Counts.{job_count};
ghost use Rattle.prta_jobs.specs.TaskSet.{holds};
ghost use Rattle.prta_jobs.specs.Instant.{IsOnSheet};
ghost use Rattle.prta_ledger.specs.Noted.{appended};
ghost use Rattle.prta_backlog.specs.Level.{has_task};
ghost use Rattle.prta_backlog.specs.AreNoted.{AreNoted};
ghost use Rattle.prta_backlog.specs.Pass.{level_of};
ghost use Rattle.prta_response.specs.Response.{delaying_jobs, meeting_cell};
ghost use Rattle.prta_response.specs.Delays.{response_delays, delay_entries};
ghost use Rattle.prta_backlog.specs.Fitting.{FitsCap};

use crate::delaying::Delayed;
use crate::meeting::meet;
use prta_backlog::Bench;
use prta_dist::{Curve, Kernel};
use prta_jobs::TaskSet;
use prta_ledger::Notes;
use prta_mass::Dir;
use prta_sheet::Sheet;

/// Makes the response run of the own job of this number from the main curve, notes the entries of its delays, and answers
/// the cell at the deadline: the chance, in units of 2^-60, that the job meets it. In Up it is at most that chance, in Down
/// at least. The curves stay; the work lists hold anything afterwards.
pub fn respond<C: Curve, K: Kernel, N: Notes>(
    bench: &mut Bench<C, K>,
    sheet: &Sheet,
    higher: TaskSet,
    task: usize,
    number: u32,
    dir: Dir,
    notes: &mut N,
) -> u64
    requires on_sheet { IsOnSheet sheet.now.tasks (has_task (level_of higher task)) }
    requires apart { holds higher task ≡ false }
    requires number { number < job_count sheet.now task }
    requires fits { FitsCap sheet.now.settings.cap (C.cells bench.old.main) (C.cells bench.old.spare) (C.cells bench.old.kept)
        (vec_len bench.old.cells) (vec_len bench.old.tail) (vec_len bench.old.room) }
    requires room { length (delaying_jobs sheet.now.tasks (level_of higher task) (nth_job sheet.now.tasks task number).release) ≤ N.room notes.old }
    ensures cell { result ≡ meeting_cell dir sheet.now.tasks (level_of higher task) (nth_job sheet.now.tasks task number).release (C.cells bench.old.main) }
    ensures limit { result ≤ unit }
    ensures noted { N.noted notes.new ≡ appended (N.noted notes.old) (delay_entries dir sheet.now.tasks (level_of higher task) (nth_job sheet.now.tasks task number) (C.cells bench.old.main)) }
    ensures room { N.room notes.old ≤ N.room notes.new + length (delay_entries dir sheet.now.tasks (level_of higher task) (nth_job sheet.now.tasks task number) (C.cells bench.old.main)) }
    ensures curves { bench.new ≡ record bench.old { cells = bench.new.cells; tail = bench.new.tail; room = bench.new.room } }
    ensures fits { FitsCap sheet.now.settings.cap (C.cells bench.new.main) (C.cells bench.new.spare) (C.cells bench.new.kept)
        (vec_len bench.new.cells) (vec_len bench.new.tail) (vec_len bench.new.room) }
{
    let job = Delayed::new(sheet, task, number, dir);
    if notes.is_silent() {
        return meet(
            &bench.main,
            &bench.kernel,
            &mut bench.cells,
            &mut bench.tail,
            &mut bench.room,
            sheet,
            higher,
            job,
        );
    }
    respond_in(
        &bench.main,
        &bench.kernel,
        &mut bench.cells,
        &mut bench.tail,
        &mut bench.room,
        sheet,
        higher,
        job,
        notes,
    )
}

// Makes the response run in the first cells of work lists that go past the deadline, and answers the cell there.
fn respond_in<C: Curve, K: Kernel, N: Notes>(
    main: &C,
    kernel: &K,
    cells: &mut [u64],
    tail: &mut [u64],
    room: &mut [u64],
    sheet: &Sheet,
    higher: TaskSet,
    job: Delayed,
    notes: &mut N,
) -> u64
    requires on_sheet { IsOnSheet sheet.now.tasks (has_task (level_of higher job.task)) }
    requires apart { holds higher job.task ≡ false }
    requires release { job.release ≤ 64000000 }
    requires task { job.task < length sheet.now.tasks }
    requires front { sheet.now.settings.cap ≤ length (C.cells main.now) }
    requires cells { sheet.now.settings.cap ≤ length cells.old }
    requires tails { sheet.now.settings.cap ≤ length tail.old }
    requires rooms { sheet.now.settings.cap ≤ length room.old }
    requires spare { length (delaying_jobs sheet.now.tasks (level_of higher job.task) job.release) ≤ N.room notes.old }
    ensures cell { result ≡ meeting_cell job.dir sheet.now.tasks (level_of higher job.task) job.release (C.cells main.now) }
    ensures limit { result ≤ unit }
    ensures noted { AreNoted job.dir job.task job.number 1 (response_delays job.dir sheet.now.tasks (level_of higher job.task) job.release (C.cells main.now))
        (N.noted notes.old) (N.room notes.old) (N.noted notes.new) (N.room notes.new) }
{
    let deadline = sheet.tasks()[job.task as usize].deadline() as usize;
    let cells = &mut cells[..deadline + 1];
    let tail = &mut tail[..deadline + 1];
    let room = &mut room[..deadline + 1];
    let _cap = main.cap();
    main.front(cells);
    job.by_all(kernel, cells, tail, room, sheet, higher, notes);
    cells[deadline]
}
