//! The delays of a response run.

ghost use Rattle.std.specs.Prelude.{◌≡◌, ◌+◌, ◌-◌, ◌<◌, ◌≤◌, false, length};
ghost use Rattle.prta_mass.specs.Chances.{IsChances};
ghost use Rattle.prta_sheet.specs.Job.{nth_job, table_of};
ghost use Rattle.prta_sheet.specs.Counts.{job_count};
ghost use Rattle.prta_jobs.specs.TaskSet.{holds};
ghost use Rattle.prta_jobs.specs.Instant.{IsOnSheet};
ghost use Rattle.prta_preempt.specs.Delay.{delayed};
ghost use Rattle.prta_ledger.specs.Noted.{appended};
ghost use Rattle.prta_backlog.specs.Level.{has_task, delaying};
ghost use Rattle.prta_backlog.specs.Entries.{entries_of};
ghost use Rattle.prta_backlog.specs.AreNoted.{AreNoted};
ghost use Rattle.prta_backlog.specs.Pass.{level_of};
ghost use Rattle.prta_response.specs.Response.{all_delayed};
ghost use Rattle.prta_response.specs.Delays.{delay_operation, delays};
ghost use Rattle.prta_response.specs.Coming.{to_come, IsComing};

use crate::coming::Coming;
use prta_dist::Kernel;
use prta_jobs::{Job, TaskSet, release};
use prta_ledger::{Entry, Kind, Notes};
use prta_mass::{Dir, TimeTable};
use prta_preempt::{delay, delays_keep_chances};
use prta_sheet::Sheet;

// The job whose response is delayed, as entries name it, with its release; and the direction of the run.
#[derive(Clone, Copy)]
pub(crate) struct Delayed {
    pub(crate) dir: Dir,
    pub(crate) task: u32,
    pub(crate) number: u32,
    pub(crate) release: u64,
}

impl Delayed {
    // The job of this number of an analysed task, which is released before the horizon.
    pub(crate) fn new(sheet: &Sheet, task: usize, number: u32, dir: Dir) -> Delayed
        requires task { task < length sheet.now.tasks }
        requires number { number < job_count sheet.now task }
        ensures job { result ≡ record { dir = dir; task = task; number = number; release = (nth_job sheet.now.tasks task number).release } }
        ensures early { result.release ≤ 64000000 }
    {
        let _tasks = sheet.tasks();
        Delayed {
            dir,
            task: task as u32,
            number,
            release: release(sheet, task, number),
        }
    }

    // The jobs that delay it where they are released less than this many ticks after it.
    pub(crate) fn coming(self, sheet: &Sheet, higher: TaskSet, ticks: usize) -> Coming
        requires on_sheet { IsOnSheet sheet.now.tasks (has_task (level_of higher self.task)) }
        requires apart { holds higher self.task ≡ false }
        requires release { self.release ≤ 64000000 }
        requires some { 0 < ticks }
        requires few { ticks < 16384 }
        ensures jobs { to_come sheet.now.tasks result ≡ delaying sheet.now.tasks (level_of higher self.task) self.release ticks }
        ensures coming { IsComing sheet.now.tasks result }
        ensures at { result.at ≡ self.release }
        ensures end { result.end ≡ self.release + ticks }
    {
        let end = self.release + ticks as u64;
        Coming::new(sheet, higher, self.task as usize, self.release, end)
    }

    // Delays the cells, which go to the deadline, by each job of a higher task that is released after this one and before
    // its absolute deadline.
    pub(crate) fn by_all<K: Kernel, N: Notes>(
        self,
        kernel: &K,
        cells: &mut [u64],
        tail: &mut [u64],
        room: &mut [u64],
        sheet: &Sheet,
        higher: TaskSet,
        notes: &mut N,
    )
        requires on_sheet { IsOnSheet sheet.now.tasks (has_task (level_of higher self.task)) }
        requires apart { holds higher self.task ≡ false }
        requires release { self.release ≤ 64000000 }
        requires some { 1 < length cells.old }
        requires few { length cells.old ≤ 16384 }
        requires tails { length tail.old ≡ length cells.old }
        requires rooms { length room.old ≡ length cells.old }
        requires chances { IsChances cells.old }
        requires spare { length (delaying sheet.now.tasks (level_of higher self.task) self.release (length cells.old - 1)) ≤ N.room notes.old }
        ensures cells { let jobs = delaying sheet.now.tasks (level_of higher self.task) self.release (length cells.old - 1) in
            cells.new ≡ all_delayed self.dir (table_of sheet.now.tasks) self.release jobs cells.old }
        ensures chances { IsChances cells.new }
        ensures noted { let jobs = delaying sheet.now.tasks (level_of higher self.task) self.release (length cells.old - 1) in
            AreNoted self.dir self.task self.number 1 (delays self.dir (table_of sheet.now.tasks) self.release jobs cells.old)
            (N.noted notes.old) (N.room notes.old) (N.noted notes.new) (N.room notes.new) }
    {
        let _tasks = sheet.tasks();
        let mut coming = self.coming(sheet, higher, cells.len() - 1);
        let mut made = 0;
        while let Some(job) = coming.next(sheet) {
            made += 1;
            let table = table_of(sheet, job);
            self.by_one(kernel, cells, tail, room, table, job.release, made, notes);
        }
    }

    // Delays the cells by a job with the times of the table that is released at a time, and notes the delay of this
    // number where it is rounded.
    fn by_one<K: Kernel, N: Notes>(
        self,
        kernel: &K,
        cells: &mut [u64],
        tail: &mut [u64],
        room: &mut [u64],
        table: &TimeTable,
        at: u64,
        op: u32,
        notes: &mut N,
    )
        requires after { self.release ≤ at }
        requires place { at - self.release < length cells.old }
        requires tails { length tail.old ≡ length cells.old }
        requires rooms { length room.old ≡ length cells.old }
        requires chances { IsChances cells.old }
        requires spare { 1 ≤ N.room notes.old }
        ensures cells { cells.new ≡ delayed self.dir table.now (at - self.release) cells.old }
        ensures chances { IsChances cells.new }
        ensures noted { N.noted notes.new ≡ appended (N.noted notes.old)
            (entries_of self.dir self.task self.number op (delay_operation table.now (at - self.release) cells.old)) }
        ensures room { N.room notes.old
            ≤ N.room notes.new + length (entries_of self.dir self.task self.number op (delay_operation table.now (at - self.release) cells.old)) }
    {
        // What these two ensure keeps the cells a list of chances.
        delays_keep_chances();
        let _greatest = table.greatest();
        let d = (at - self.release) as usize;
        if delay(kernel, cells, tail, room, table, d, self.dir) {
            notes.note(Entry {
                dir: self.dir,
                kind: Kind::Delay,
                task: self.task,
                job: self.number,
                op,
                amount: 1,
            });
        }
    }
}

// The table of a job.
pub(crate) fn table_of(sheet: &Sheet, job: Job) -> &TimeTable
    requires { job.task < length sheet.now.tasks }
    ensures { result.now ≡ table_of sheet.now.tasks job }
{
    sheet.tasks()[job.task].table(job.number)
}
