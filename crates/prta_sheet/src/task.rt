//! Tasks.

ghost use Rattle.std.specs.Prelude.{◌≡◌, ◌+◌, ◌^◌, ◌<◌, ◌≤◌, [], length, slice_index_or, slice_set, All, IfOk};
ghost use Rattle.prta_mass.specs.Table.{greatest};
ghost use Rattle.prta_sheet.specs.Sheet.{table_in};
ghost use Rattle.prta_sheet.specs.Added.{task_with_added, IsTaskWithAdded};

use crate::added::put_added;
use prta_mass::{NoMemory, TimeTable};
use std::alloc::Global;
use std::marker::Model;
use std::mem;

/// A periodic task: when it releases jobs, by when they are to finish, and how long they take.
#[derive(Debug, Drop)]
pub struct Task {
    name: String,
    offset: u32,
    period: u32,
    deadline: u32,
    cycle: Vec<TimeTable>,
    allow: (u64, u64),
}

impl Model for Task {
    ghost use Rattle.std.specs.Prelude.{string_bytes};
    ghost use Rattle.prta_sheet.specs.Sheet.{Task as TaskParts};

    ghost Value = { TaskParts };

    ghost view = { λ t. record { name = string_bytes t.name; offset = t.offset; period = t.period; deadline = t.deadline; cycle = t.cycle.items; allow = t.allow } };
}

impl Task {
    /// Makes a task of just these parts and checks nothing. Times are in ticks; job k is released at
    /// `offset + k * period`, its deadline is relative to that, its execution times are those of the table at place k
    /// modulo the length of `cycle`; `allow` is the allowance p of q. Where memory is wanting the tables are dropped.
    pub fn new(
        alloc: Global,
        name: &str,
        offset: u32,
        period: u32,
        deadline: u32,
        cycle: Vec<TimeTable>,
        allow: (u64, u64),
    ) -> Result<Task, NoMemory>
        ensures parts { IfOk result (λ task. task ≡ record { name = name.now; offset = offset; period = period; deadline = deadline; cycle = cycle.items; allow = allow }) }
    {
        let name = String::from_str(alloc, name)?;
        Ok(Task {
            name,
            offset,
            period,
            deadline,
            cycle,
            allow,
        })
    }

    /// An equal task.
    pub fn copy(&self, alloc: Global) -> Result<Task, NoMemory>
        ensures { IfOk result (λ task. task ≡ self.now) }
    {
        let cycle = copies_of(alloc, &self.cycle)?;
        Task::new(
            alloc,
            self.name.as_str(),
            self.offset,
            self.period,
            self.deadline,
            cycle,
            self.allow,
        )
    }

    /// The name.
    pub fn name(&self) -> &str
        ensures { result.now ≡ self.now.name }
    {
        self.name.as_str()
    }

    /// The release of the first job, in ticks.
    pub fn offset(&self) -> u32
        ensures { result ≡ self.now.offset }
    {
        self.offset
    }

    /// The ticks from one release to the next.
    pub fn period(&self) -> u32
        ensures { result ≡ self.now.period }
    {
        self.period
    }

    /// The ticks from a job's release to its absolute deadline.
    pub fn deadline(&self) -> u32
        ensures { result ≡ self.now.deadline }
    {
        self.deadline
    }

    /// The tables of execution times that the jobs have in turn.
    pub fn cycle(&self) -> &[TimeTable]
        ensures { result.now ≡ self.now.cycle }
    {
        &self.cycle
    }

    /// The execution times, with their weights, of the job of this number: the table of the cycle with that number
    /// modulo the cycle's length.
    pub fn table(&self, number: u32) -> &TimeTable
        requires { 1 ≤ length self.now.cycle }
        ensures { result.now ≡ table_in self.now number }
    {
        &self.cycle[number as usize % self.cycle.len()]
    }

    /// The allowance p of q: a job may miss with a chance of at most p / q.
    pub fn allow(&self) -> (u64, u64)
        ensures { result ≡ self.now.allow }
    {
        self.allow
    }

    // Puts the table in a place of the cycle, and gives the one that stood there.
    pub(crate) fn put_table(&mut self, index: usize, table: TimeTable) -> TimeTable
        requires { index < length self.old.cycle }
        ensures after { self.new ≡ record self.old { cycle = slice_set self.old.cycle index table } }
        ensures before { result ≡ slice_index_or self.old.cycle index [] }
    {
        mem::replace(&mut self.cycle[index], table)
    }

    // Sets the deadline, and gives the one before.
    pub(crate) fn put_deadline(&mut self, deadline: u32) -> u32
        ensures after { self.new ≡ record self.old { deadline = deadline } }
        ensures before { result ≡ self.old.deadline }
    {
        mem::replace(&mut self.deadline, deadline)
    }

    // Sets the allowance, and gives the one before.
    pub(crate) fn put_allow(&mut self, allow: (u64, u64)) -> (u64, u64)
        ensures after { self.new ≡ record self.old { allow = allow } }
        ensures before { result ≡ self.old.allow }
    {
        mem::replace(&mut self.allow, allow)
    }

    // Makes the task, which is the base with some number added, the base with s ticks added.
    pub(crate) fn set_added(&mut self, base: &Task, s: u32)
        requires same { IsTaskWithAdded base.now self.old }
        requires within { All (λ table. greatest table + s < 2 ^ 32) base.now.cycle }
        ensures { self.new ≡ task_with_added base.now s }
    {
        put_added(&mut self.cycle, &base.cycle, s);
    }
}

// Equal tables, in order.
fn copies_of(alloc: Global, tables: &[TimeTable]) -> Result<Vec<TimeTable>, NoMemory>
    ensures { IfOk result (λ copies. copies.items ≡ tables.now) }
{
    let mut copies = Vec::new(alloc);
    for table in tables {
        copies.push(table.copy(alloc)?)?;
    }
    Ok(copies)
}
