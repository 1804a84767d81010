//! The machine.

ghost use Rattle.std.specs.Prelude.{◌≡◌, ◌↔◌, ℕ, ◌+◌, ◌<◌, ◌≤◌, ◌^◌, true, length, slice_index, IsNone, IfNone, IfSome, IfOk};
ghost use Rattle.prta_sheet.specs.Machine.{remaining, IsFinish};
ghost use Rattle.prta_jobs.specs.Permutation.{is_order};
ghost use Rattle.prta_ticksim.specs.Times.{job_at};
ghost use Rattle.prta_ticksim.specs.Serving.{AreApart};
ghost use Rattle.prta_ticksim.specs.Machine.{start_of, state_after, running};
ghost use Rattle.prta_ticksim.specs.Start.{IsMachineAnswer};
ghost use Rattle.prta_ticksim.specs.Run.{IsLongestRun};

use crate::fault::MachineFault;
use crate::run::Run;
use crate::serving::{first_waiting, next_event, serve};
use crate::starting::{checked_jobs, horizon_of};
use prta_jobs::{Job, Jobs, Order};
use prta_mass::NoMemory;
use prta_sheet::Sheet;
use std::alloc::Global;
use std::marker::Model;

/// One processor that serves jobs, each for the time that was chosen for it. In each tick it serves the job of the
/// highest priority, and of one task's jobs the oldest; a job that is late runs on to its end.
#[derive(Debug, Drop)]
pub struct Machine {
    order: Vec<usize>,
    jobs: Jobs,
    times: Vec<u32>,
    // of each job, the ticks that are left to it, and the time at which it ran last
    left: Vec<u32>,
    ends: Vec<u64>,
    horizon: u64,
    ticks: u64,
}

impl Model for Machine {
    ghost use Rattle.prta_ticksim.specs.Machine.{MachineParts, IsMachine};

    ghost Value = { MachineParts };

    ghost view = { λ m. record { order = m.order.items; jobs = m.jobs; times = m.times.items; horizon = m.horizon; ticks = m.ticks } };

    ghost invariant = { λ m. IsMachine m.order.items m.jobs m.times.items m.left.items m.ends.items m.horizon m.ticks };
}

impl Machine {
    /// The machine before its first tick, with the sheet's analysed jobs, each with the time at its place. It is
    /// WrongCount where there are more or fewer times than jobs, and else NotInTable with the first place, from 0,
    /// whose time isn't in the job's table.
    pub fn new(
        alloc: Global,
        sheet: &Sheet,
        order: &Order,
        times: &[u32],
    ) -> Result<Machine, MachineFault>
        requires { is_order (length sheet.now.tasks) order.now ≡ true }
        ensures { IsMachineAnswer sheet.now order.now times.now result }
    {
        let horizon = horizon_of(sheet);
        let jobs = checked_jobs(alloc, sheet, order.list(), times)?;
        match Machine::of_parts(alloc, order.list(), jobs, times, horizon) {
            Ok(machine) => Ok(machine),
            Err(NoMemory) => Err(MachineFault::NoMemory),
        }
    }

    /// The jobs, by release and then by task.
    pub fn jobs(&self) -> &[Job]
        ensures { result.now ≡ self.now.jobs }
    {
        self.jobs.list()
    }

    /// The number of ticks that were made.
    pub fn now(&self) -> u64
        ensures ticks { result ≡ self.now.ticks }
        ensures within { self.now.ticks ≤ self.now.horizon }
    {
        self.ticks
    }

    /// The ticks that are left to job i.
    pub fn remaining(&self, i: usize) -> u32
        requires { i < length self.now.jobs }
        ensures { result ≡ remaining (job_at self.now.jobs i) (state_after self.now self.now.ticks) }
    {
        self.left[i]
    }

    /// The number of ticks with which job i finished; none while time remains to it.
    pub fn finish(&self, i: usize) -> Option<u64>
        requires { i < length self.now.jobs }
        ensures none { IsNone result ↔ (0 < remaining (job_at self.now.jobs i) (state_after self.now self.now.ticks)) }
        ensures finish { IfSome result (λ n. IsFinish self.now.order (start_of self.now) (job_at self.now.jobs i) n) }
    {
        if self.left[i] > 0 {
            return None;
        }
        Some(self.ends[i])
    }

    /// Makes one tick.
    pub fn tick(&mut self)
        requires { self.old.ticks < self.old.horizon }
        ensures { self.new ≡ record self.old { ticks = self.old.ticks + 1 } }
    {
        let t = self.ticks + 1;
        self.advance(t);
    }

    /// Makes the ticks up to t. It goes from release to release and from end to end.
    pub fn run_to(&mut self, t: u64)
        requires from { self.old.ticks ≤ t }
        requires within { t ≤ self.old.horizon }
        ensures { self.new ≡ record self.old { ticks = t } }
    {
        while self.now() < t {
            self.advance(t);
        }
    }

    /// Makes ticks as long as the same job runs, or none does, and tells that run; none where the horizon is reached.
    pub fn next_run(&mut self) -> Option<Run>
        ensures none { IsNone result ↔ (self.old.ticks ≡ self.old.horizon) }
        ensures unmoved { IfNone result (self.new ≡ self.old) }
        ensures from { IfSome result (λ run. run.from ≡ self.old.ticks) }
        ensures run { IfSome result (IsLongestRun self.old) }
        ensures job { IfSome result (λ run. IfSome run.who (λ i. i < length self.old.jobs)) }
        ensures moved { IfSome result (λ run. self.new ≡ record self.old { ticks = run.to }) }
    {
        if self.ticks == self.horizon {
            return None;
        }
        let from = self.ticks;
        let horizon = self.horizon;
        let who = self.advance(horizon);
        while self.now() < horizon && self.served() == who {
            self.advance(horizon);
        }
        Some(Run {
            from,
            to: self.now(),
            who,
        })
    }

    // The machine before its first tick, with these jobs and times.
    fn of_parts(
        alloc: Global,
        order: &[usize],
        jobs: Jobs,
        times: &[u32],
        horizon: u64,
    ) -> Result<Machine, NoMemory>
        requires times { length times.now ≡ length jobs }
        requires some { (i : ℕ) → i < length jobs → 0 < slice_index times.now i }
        requires apart { AreApart order.now jobs }
        requires near { horizon ≤ 2 ^ 32 }
        ensures { IfOk result (λ machine. machine ≡ record { order = order.now; jobs = jobs; times = times.now; horizon = horizon; ticks = 0 }) }
    {
        Ok(Machine {
            order: Vec::from_slice(alloc, order)?,
            jobs,
            times: Vec::from_slice(alloc, times)?,
            left: Vec::from_slice(alloc, times)?,
            ends: vec![in alloc; 0; times.len()]?,
            horizon,
            ticks: 0,
        })
    }

    // Makes ticks in which one job runs, or none: to the next release, to the job's end or to t, which is first. It
    // tells the job's place.
    fn advance(&mut self, t: u64) -> Option<usize>
        requires later { self.old.ticks < t }
        requires within { t ≤ self.old.horizon }
        ensures rest { self.new ≡ record self.old { ticks = self.new.ticks } }
        ensures later { self.old.ticks < self.new.ticks }
        ensures within { self.new.ticks ≤ t }
        ensures job { IfSome result (λ i. i < length self.old.jobs) }
        ensures same { (n : ℕ) → self.old.ticks ≤ n → n < self.new.ticks → running self.old n ≡ result }
    {
        let who = first_waiting(&self.order, self.jobs.list(), &self.left, self.ticks);
        let event = next_event(self.jobs.list(), self.ticks, t);
        self.ticks = match who {
            Some(i) => serve(&mut self.left, &mut self.ends, i, self.ticks, event),
            None => event,
        };
        who
    }

    // The place of the job that runs in the next tick.
    fn served(&self) -> Option<usize>
        ensures { result ≡ running self.now self.now.ticks }
    {
        first_waiting(&self.order, self.jobs.list(), &self.left, self.ticks)
    }
}
