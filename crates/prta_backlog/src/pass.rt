//! Level runs, step by step.

ghost use Rattle.std.specs.Prelude.{◌≡◌, ◌+◌, ◌*◌, ◌^◌, ◌<◌, ◌≤◌, true, false, Some, None, unwrap_or, length};
ghost use Rattle.prta_mass.specs.Chances.{point};
ghost use Rattle.prta_sheet.specs.Sheet.{horizon};
ghost use Rattle.prta_sheet.specs.Accepted.{IsSupport};
ghost use Rattle.prta_jobs.specs.TaskSet.{holds};
ghost use Rattle.prta_jobs.specs.Instant.{IsOnSheet, IsInstant};
ghost use Rattle.prta_ledger.specs.Noted.{appended};
ghost use Rattle.prta_backlog.specs.Level.{has_task};
ghost use Rattle.prta_backlog.specs.Entries.{named_job};
ghost use Rattle.prta_backlog.specs.AreNoted.{AreNoted};
ghost use Rattle.prta_backlog.specs.Pass.{pass_support, pass_level, after_last, pass_operations, pass_entries, pass_cells, pass_after};

use crate::adding::{add_jobs, resample};
use crate::bench::Bench;
use crate::instants::instant_after;
use crate::noting::Origin;
use prta_dist::{Curve, Kernel};
use prta_jobs::{Instant, TaskSet};
use prta_ledger::Notes;
use prta_mass::{Dir, Support};
use prta_sheet::{Sheet, releases};
use std::marker::Model;

/// Where a level run stands: the higher tasks and the own one, the direction, whether it re-samples at the sheet's
/// support, the last instant, and the number of operations made.
#[derive(Debug, Drop)]
pub struct LevelPass {
    higher: TaskSet,
    task: usize,
    dir: Dir,
    resamples: bool,
    last: Option<u64>,
    made: u32,
}

impl Model for LevelPass {
    ghost use Rattle.std.specs.Prelude.{◌*◌, ◌≤◌};
    ghost use Rattle.prta_backlog.specs.Pass.{PassState, after_last};

    ghost Value = { PassState };

    ghost view = { λ p. record { higher = p.higher; task = p.task; dir = p.dir; resamples = p.resamples; last = p.last; made = p.made } };

    // At each instant there are at most a re-sampling and an addition for each task.
    ghost invariant = { λ p. p.made ≤ 13 * after_last p.last };
}

impl LevelPass {
    /// Sets the main curve to the point at 0 and stands before the first instant. It re-samples where the sheet has a
    /// support.
    pub fn begin<C: Curve, K: Kernel>(
        bench: &mut Bench<C, K>,
        _sheet: &Sheet,
        higher: TaskSet,
        task: usize,
        dir: Dir,
    ) -> LevelPass
        ensures pass { result ≡ record { higher = higher; task = task; dir = dir; resamples = true; last = None; made = 0 } }
        ensures list { C.cells bench.new.main ≡ point (length (C.cells bench.old.main)) 0 }
        ensures cap { length (C.cells bench.new.main) ≡ length (C.cells bench.old.main) }
        ensures others { bench.new ≡ record bench.old { main = bench.new.main } }
    {
        let _cap = bench.main.cap();
        bench.main.point(0);
        LevelPass {
            higher,
            task,
            dir,
            resamples: true,
            last: None,
            made: 0,
        }
    }

    /// Stands before the first instant with the main curve as it is, and doesn't re-sample.
    pub fn plain(higher: TaskSet, task: usize, dir: Dir) -> LevelPass
        ensures { result ≡ record { higher = higher; task = task; dir = dir; resamples = false; last = None; made = 0 } }
    {
        LevelPass {
            higher,
            task,
            dir,
            resamples: false,
            last: None,
            made: 0,
        }
    }

    /// Makes the next instant of the level run on the main curve, notes the entries of its operations, and answers it.
    pub fn step<C: Curve, K: Kernel, N: Notes>(
        &mut self,
        bench: &mut Bench<C, K>,
        sheet: &Sheet,
        notes: &mut N,
    ) -> Instant
        requires on_sheet { IsOnSheet sheet.now.tasks (has_task (pass_level self.old)) }
        requires apart { holds self.old.higher self.old.task ≡ false }
        requires before { after_last self.old.last ≤ horizon sheet.now }
        requires room { 26 ≤ N.room notes.old }
        ensures instant { IsInstant sheet.now.tasks (has_task (pass_level self.old)) (after_last self.old.last) result.at (holds result.released) }
        ensures list { C.cells bench.new.main ≡ pass_cells sheet.now self.old (C.cells bench.old.main) result.at }
        ensures cap { length (C.cells bench.new.main) ≡ length (C.cells bench.old.main) }
        ensures pass { self.new ≡ pass_after sheet.now self.old (C.cells bench.old.main) result.at }
        ensures noted { N.noted notes.new ≡ appended (N.noted notes.old) (pass_entries sheet.now self.old (C.cells bench.old.main) result.at) }
        ensures room { N.room notes.old ≤ N.room notes.new + length (pass_entries sheet.now self.old (C.cells bench.old.main) result.at) }
        ensures others { bench.new ≡ record bench.old { main = bench.new.main } }
    {
        short_horizon(sheet);
        let instant = self.next(sheet);
        let made = self.make(&mut bench.main, sheet, instant.at, instant.released, notes);
        self.made = made;
        self.last = Some(instant.at);
        instant
    }

    // The time of the last instant, or 0.
    pub(crate) fn since(&self) -> u64
        ensures { result ≡ unwrap_or self.now.last 0 }
    {
        self.last.unwrap_or(0)
    }

    // The next instant.
    pub(crate) fn next(&self, sheet: &Sheet) -> Instant
        requires on_sheet { IsOnSheet sheet.now.tasks (has_task (pass_level self.now)) }
        requires before { after_last self.now.last ≤ 2 ^ 40 }
        ensures instant { IsInstant sheet.now.tasks (has_task (pass_level self.now)) (after_last self.now.last) result.at (holds result.released) }
        ensures near { result.at < after_last self.now.last + 1000000 }
    {
        instant_after(sheet, self.higher, self.task, self.last)
    }

    // Makes the operations of an instant, and answers how many there are then.
    fn make<C: Curve, N: Notes>(
        &self,
        curve: &mut C,
        sheet: &Sheet,
        at: u64,
        released: TaskSet,
        notes: &mut N,
    ) -> u32
        requires on_sheet { IsOnSheet sheet.now.tasks (has_task (pass_level self.now)) }
        requires apart { holds self.now.higher self.now.task ≡ false }
        requires before { after_last self.now.last ≤ 2 ^ 26 }
        requires at { at < 2 ^ 27 }
        requires instant { IsInstant sheet.now.tasks (has_task (pass_level self.now)) (after_last self.now.last) at (holds released) }
        requires room { 26 ≤ N.room notes.old }
        ensures list { C.cells curve.new ≡ pass_cells sheet.now self.now (C.cells curve.old) at }
        ensures made { result ≡ self.now.made + length (pass_operations sheet.now self.now (C.cells curve.old) at) }
        ensures few { result ≤ self.now.made + 13 }
        ensures noted { AreNoted self.now.dir self.now.task (named_job sheet.now.tasks (pass_level self.now) at) (1 + self.now.made)
            (pass_operations sheet.now self.now (C.cells curve.old) at)
            (N.noted notes.old) (N.room notes.old) (N.noted notes.new) (N.room notes.new) }
    {
        let _tasks = sheet.tasks();
        let origin = self.origin(sheet, at);
        let support = self.support(sheet);
        let made = resample(
            curve,
            support,
            self.last.is_some(),
            origin,
            self.made,
            notes,
        );
        curve.shift(at - self.last.unwrap_or(0));
        let own = TaskSet::empty().with(self.task);
        let made = add_jobs(curve, sheet, self.higher, released, at, origin, made, notes);
        add_jobs(curve, sheet, own, released, at, origin, made, notes)
    }

    // What the entries of an instant have in common.
    fn origin(&self, sheet: &Sheet, at: u64) -> Origin
        requires task { self.now.task < length sheet.now.tasks }
        requires at { at < 2 ^ 32 }
        ensures { result ≡ record { dir = self.now.dir; task = self.now.task; job = named_job sheet.now.tasks (pass_level self.now) at } }
    {
        let task = &sheet.tasks()[self.task];
        Origin {
            dir: self.dir,
            task: self.task as u32,
            job: releases(task, at) as u32,
        }
    }

    // The support at which it re-samples.
    fn support(&self, sheet: &Sheet) -> Option<Support>
        ensures value { result ≡ pass_support sheet.now self.now }
        ensures support { IsSupport result }
    {
        let stated = sheet.settings().support;
        if self.resamples { stated } else { None }
    }
}

// The horizon of a sheet is at most 64 hyperperiods of at most 1,000,000 ticks.
fn short_horizon(sheet: &Sheet)
    ensures { horizon sheet.now ≤ 64000000 }
{
    let _tasks = sheet.tasks();
}
