//! Sets of tasks.

ghost use Rattle.std.specs.Prelude.{◌≡◌, ℕ, ◌<◌, ◌≤◌, false, ◌&&◌, ◌||◌, not, nat_eq, nat_lt, length};
ghost use Rattle.prta_jobs.specs.TaskSet.{holds};

use prta_sheet::TASK_LIMIT;
use std::marker::Model;

/// Some of the task numbers 0 to 11.
#[derive(Clone, Copy, Debug, PartialEq, Eq)]
pub struct TaskSet {
    held: [bool; TASK_LIMIT],
}

impl Model for TaskSet {
    ghost use Rattle.std.specs.Prelude.{Bool, List};

    ghost Value = { List Bool };

    ghost view = { λ s. s.held };

    ghost inverse = { λ flags. record { held = flags } };
}

impl TaskSet {
    /// The set without a task.
    pub fn empty() -> TaskSet
        ensures members { (i : ℕ) → holds result i ≡ false }
        ensures flags { length result ≡ TASK_LIMIT }
    {
        TaskSet {
            held: [false; TASK_LIMIT],
        }
    }

    /// All task numbers below n.
    pub fn below(n: usize) -> TaskSet
        requires { n ≤ TASK_LIMIT }
        ensures members { (i : ℕ) → holds result i ≡ nat_lt i n }
        ensures flags { length result ≡ TASK_LIMIT }
    {
        let mut set = TaskSet::empty();
        for task in 0..n {
            set = set.with(task);
        }
        set
    }

    /// The set with this task beside those that it holds.
    pub fn with(self, task: usize) -> TaskSet
        requires { task < TASK_LIMIT }
        ensures members { (i : ℕ) → holds result i ≡ (nat_eq i task || holds self i) }
        ensures flags { length result ≡ TASK_LIMIT }
    {
        let mut held = self.held;
        held[task] = true;
        TaskSet { held }
    }

    /// The set without this task.
    pub fn without(self, task: usize) -> TaskSet
        requires { task < TASK_LIMIT }
        ensures members { (i : ℕ) → holds result i ≡ (not (nat_eq i task) && holds self i) }
        ensures flags { length result ≡ TASK_LIMIT }
    {
        let mut held = self.held;
        held[task] = false;
        TaskSet { held }
    }

    /// Whether the set holds this task.
    pub fn holds(self, task: usize) -> bool
        requires { task < TASK_LIMIT }
        ensures held { result ≡ holds self task }
        ensures flags { length self ≡ TASK_LIMIT }
    {
        self.held[task]
    }
}
