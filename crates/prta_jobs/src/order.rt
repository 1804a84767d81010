//! Orders of priorities.

ghost use Rattle.std.specs.Prelude.{◌≡◌, ℕ, ◌<◌, ◌≤◌, true, length, swap, IfOk};
ghost use Rattle.std.specs.List.{range_with_len};
ghost use Rattle.prta_sheet.specs.Sheet.{sheet_order};
ghost use Rattle.prta_jobs.specs.TaskSet.{holds};

use crate::permutation::{is_order, tasks_before};
use crate::task_set::TaskSet;
use crate::tasks::tasks_of;
use prta_mass::NoMemory;
use prta_sheet::{Sheet, TASK_LIMIT};
use std::alloc::Global;
use std::marker::Model;
use thiserror::Error;

/// Why numbers make no order of a sheet's tasks.
#[derive(Clone, Copy, Debug, PartialEq, Eq, Error)]
pub enum OrderFault {
    /// A number is no task of the sheet, or a task is missing or repeated.
    #[error("not each task once")]
    NotPermutation,
    /// Want of memory.
    #[error("no memory")]
    NoMemory,
}

/// An order of priorities: the numbers of a sheet's tasks, the highest priority first.
#[derive(Debug, Drop)]
pub struct Order {
    tasks: Vec<usize>,
}

impl Model for Order {
    ghost use Rattle.std.specs.Prelude.{ℕ, List};
    ghost use Rattle.prta_jobs.specs.Permutation.{IsOrder};

    ghost Value = { List ℕ };

    ghost view = { λ o. o.tasks.items };

    ghost invariant = { λ o. IsOrder o.tasks.items };
}

impl Order {
    ghost use Rattle.prta_jobs.specs.Permutation.{is_order, is_above, IsOrder};
    ghost use Rattle.prta_jobs.specs.Order.{IsOrderAnswer};

    /// The order of these task numbers, the highest priority first. It is NotPermutation where a number is no task
    /// of the sheet, or a task is missing or repeated, and nowhere else; for these numbers no memory is wanted.
    pub fn new(alloc: Global, sheet: &Sheet, tasks: &[usize]) -> Result<Order, OrderFault>
        ensures { IsOrderAnswer (length sheet.now.tasks) tasks.now result }
    {
        Order::of_tasks(alloc, tasks_of(sheet).len(), tasks)
    }

    /// The sheet's own order.
    pub fn of_sheet(alloc: Global, sheet: &Sheet) -> Result<Order, NoMemory>
        ensures list { IfOk result (λ order. order ≡ sheet_order sheet.now.tasks) }
        ensures permutation { IfOk result (λ order. is_order (length sheet.now.tasks) order ≡ true) }
    {
        Order::of_numbers(alloc, tasks_of(sheet).len())
    }

    /// Puts each of two tasks into the other's place. Places count from 0, the highest priority.
    pub fn swap(&mut self, i: usize, j: usize)
        requires i { i < length self.old }
        requires j { j < length self.old }
        ensures { self.new ≡ swap self.old i j }
    {
        self.tasks.swap(i, j);
    }

    /// The task numbers, the highest priority first.
    pub fn list(&self) -> &[usize]
        ensures list { result.now ≡ self.now }
        ensures order { IsOrder self.now }
    {
        &self.tasks
    }

    /// The set of the tasks of higher priority than the task.
    pub fn above(&self, task: usize) -> TaskSet
        requires { task < length self.now }
        ensures { (i : ℕ) → holds result i ≡ is_above self.now task i }
    {
        tasks_before(&self.tasks, task)
    }

    // The order of these numbers on a sheet of that many tasks.
    pub(crate) fn of_tasks(
        alloc: Global,
        count: usize,
        tasks: &[usize],
    ) -> Result<Order, OrderFault>
        requires { count ≤ TASK_LIMIT }
        ensures { IsOrderAnswer count tasks.now result }
    {
        if !is_order(count, tasks) {
            return Err(OrderFault::NotPermutation);
        }
        match Vec::from_slice(alloc, tasks) {
            Ok(tasks) => Ok(Order { tasks }),
            Err(_) => Err(OrderFault::NoMemory),
        }
    }

    // The order of the tasks of a sheet of that many.
    pub(crate) fn of_numbers(alloc: Global, count: usize) -> Result<Order, NoMemory>
        requires { count ≤ TASK_LIMIT }
        ensures list { IfOk result (λ order. order ≡ range_with_len 0 count) }
        ensures permutation { IfOk result (λ order. is_order count order ≡ true) }
    {
        let mut tasks = Vec::with_capacity(alloc, count)?;
        for task in 0..count {
            tasks.push(task)?;
        }
        Ok(Order { tasks })
    }
}
