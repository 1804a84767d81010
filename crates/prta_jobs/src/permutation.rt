//! What makes a list of task numbers an order, and the tasks before one in it.

ghost use Rattle.std.specs.Prelude.{◌≡◌, ℕ, ◌<◌, nat_eq, nat_lt, length, count_by};
ghost use Rattle.std.specs.List.{list_all, range_with_len};
ghost use Rattle.prta_jobs.specs.TaskSet.{holds};
ghost use Rattle.prta_jobs.specs.Permutation.{stands_once, is_order, is_above, IsOrder};

use crate::task_set::TaskSet;

// Whether each of that many tasks stands in the list once, and nothing else does.
pub(crate) fn is_order(count: usize, tasks: &[usize]) -> bool
    ensures { result ≡ is_order count tasks.now }
{
    tasks.len() == count && (are_tasks(count, tasks) && stand_once(count, tasks))
}

// Whether all numbers are below the count.
fn are_tasks(count: usize, tasks: &[usize]) -> bool
    ensures { result ≡ list_all (λ task. nat_lt task count) tasks.now }
{
    tasks.iter().all(|task| *task < count)
}

// Whether each number below the count stands in the list once.
fn stand_once(count: usize, tasks: &[usize]) -> bool
    ensures { result ≡ list_all (stands_once tasks.now) (range_with_len 0 count) }
{
    for task in 0..count {
        if times_of(task, tasks) != 1 {
            return false;
        }
    }
    true
}

// How often the task stands in the list.
fn times_of(task: usize, tasks: &[usize]) -> usize
    ensures { result ≡ count_by (λ other. nat_eq other task) tasks.now }
{
    tasks.iter().filter(|other| **other == task).count()
}

// The tasks that stand before the task in an order.
pub(crate) fn tasks_before(order: &[usize], task: usize) -> TaskSet
    requires order { IsOrder order.now }
    requires task { task < length order.now }
    ensures { (i : ℕ) → holds result i ≡ is_above order.now task i }
{
    let mut before = TaskSet::empty();
    for other in order {
        if *other == task {
            return before;
        }
        before = before.with(*other);
    }
    before
}
