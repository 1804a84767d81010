//! The jobs that delay a response, one after the other.

ghost use Rattle.std.specs.Prelude.{◌≡◌, ℕ, ◌-◌, ◌/◌, ◌^◌, ◌<◌, ◌≤◌, true, false, [], filter, length, MatchOption};
ghost use Rattle.prta_sheet.specs.Job.{released_at};
ghost use Rattle.prta_jobs.specs.TaskSet.{holds};
ghost use Rattle.prta_jobs.specs.Instant.{IsOnSheet};
ghost use Rattle.prta_backlog.specs.Level.{has_task, delaying};
ghost use Rattle.prta_backlog.specs.Pass.{level_of};
ghost use Rattle.prta_response.specs.Coming.{to_come, IsComing, IsNextJob, IsFirst};

use prta_jobs::{Job, TaskSet, next_instant};
use prta_sheet::{Sheet, Task};
use std::marker::Model;

// The delaying jobs that are still to come, in order of release and then of the sheet.
#[derive(Drop)]
pub(crate) struct Coming {
    higher: TaskSet,
    own: usize,
    end: u64,
    at: u64,
    waiting: TaskSet,
}

impl Model for Coming {
    ghost use Rattle.prta_response.specs.Coming.{ComingState};

    ghost Value = { ComingState };

    ghost view = { λ c. record { higher = c.higher; own = c.own; end = c.end; at = c.at; waiting = c.waiting } };
}

impl Coming {
    // The jobs of higher tasks that are released after a time and before an end.
    pub(crate) fn new(sheet: &Sheet, higher: TaskSet, own: usize, after: u64, end: u64) -> Coming
        requires on_sheet { IsOnSheet sheet.now.tasks (has_task (level_of higher own)) }
        requires apart { holds higher own ≡ false }
        requires inside { after < end }
        requires early { end < 2 ^ 32 }
        ensures jobs { to_come sheet.now.tasks result ≡ delaying sheet.now.tasks (level_of higher own) after (end - after) }
        ensures coming { IsComing sheet.now.tasks result }
        ensures stands { result ≡ record { higher = higher; own = own; end = end; at = after; waiting = result.waiting } }
    {
        let _tasks = sheet.tasks();
        Coming {
            higher,
            own,
            end,
            at: after,
            waiting: TaskSet::empty(),
        }
    }

    // The next one, or none after the last.
    pub(crate) fn next(&mut self, sheet: &Sheet) -> Option<Job>
        requires { IsComing sheet.now.tasks self.old }
        ensures job { MatchOption result (to_come sheet.now.tasks self.old ≡ []) (λ job. IsNextJob sheet.now.tasks self.old self.new job) }
        ensures coming { IsComing sheet.now.tasks self.new }
        ensures later { self.old.at ≤ self.new.at }
        ensures same { self.new ≡ record self.old { at = self.new.at; waiting = self.new.waiting } }
    {
        loop {
            if let Some(task) = first_of(self.waiting, sheet.tasks()) {
                return Some(self.take(sheet, task));
            }
            if !self.step(sheet) {
                return None;
            }
        }
    }

    // The job of this task, the first that waits, which waits no more.
    fn take(&mut self, sheet: &Sheet, task: usize) -> Job
        requires coming { IsComing sheet.now.tasks self.old }
        requires first { IsFirst self.old.waiting (length sheet.now.tasks) task }
        ensures job { IsNextJob sheet.now.tasks self.old self.new result }
        ensures coming { IsComing sheet.now.tasks self.new }
        ensures same { self.new ≡ record self.old { waiting = self.new.waiting } }
    {
        let tasks = sheet.tasks();
        self.waiting = self.waiting.without(task);
        job_at(&tasks[task], task, self.at)
    }

    // Goes on to the next instant of the level where none waits any more, or answers that it is past the end.
    fn step(&mut self, sheet: &Sheet) -> bool
        requires coming { IsComing sheet.now.tasks self.old }
        requires none { filter (λ job. holds self.old.waiting job.task) (released_at 0 sheet.now.tasks self.old.at) ≡ [] }
        ensures ends { result ≡ false → to_come sheet.now.tasks self.old ≡ [] }
        ensures stays { result ≡ false → self.new ≡ self.old }
        ensures jobs { result ≡ true → to_come sheet.now.tasks self.new ≡ to_come sheet.now.tasks self.old }
        ensures later { result ≡ true → self.old.at < self.new.at }
        ensures coming { IsComing sheet.now.tasks self.new }
        ensures same { self.new ≡ record self.old { at = self.new.at; waiting = self.new.waiting } }
    {
        let _tasks = sheet.tasks();
        let level = self.higher.with(self.own);
        let instant = next_instant(sheet, level, self.at);
        if instant.at >= self.end {
            return false;
        }
        self.at = instant.at;
        self.waiting = instant.released.without(self.own);
        true
    }
}

// The first of the tasks that the set holds.
fn first_of(set: TaskSet, tasks: &[Task]) -> Option<usize>
    requires { length tasks.now ≤ 12 }
    ensures { MatchOption result ((i : ℕ) → i < length tasks.now → holds set i ≡ false) (λ task. IsFirst set (length tasks.now) task) }
{
    for i in 0..tasks.len() {
        if set.holds(i) {
            return Some(i);
        }
    }
    None
}

// The job that the task of this number releases at a time.
fn job_at(task: &Task, i: usize, at: u64) -> Job
    requires period { 1 ≤ task.now.period }
    requires reached { task.now.offset ≤ at }
    requires at { at < 2 ^ 32 }
    ensures { result ≡ record { task = i; number = (at - task.now.offset) / task.now.period; release = at } }
{
    let number = (at - task.offset() as u64) / task.period() as u64;
    Job {
        task: i,
        number: number as u32,
        release: at,
    }
}
