//! Edits of a sheet, without memory.

ghost use Rattle.std.specs.Prelude.{◌≡◌, ◌<◌, false, None, Some, length, IsOk, IfErr, OnOk, OnErr};
ghost use Rattle.prta_sheet.specs.Sheet.{task_at};
ghost use Rattle.prta_sheet.specs.Edits.{task_of, edited_tasks, lacks_table, edit_fault, EditsKeepJobs, PartFaultsAreNumbered};
ghost use Rattle.prta_sheet.specs.WorkedEdits.{WorkedEdits};

use crate::making::accepted_hyperperiod;
use crate::settings::Settings;
use crate::task::Task;
use prta_mass::TimeTable;
use thiserror::Error;

/// A change of one task of a sheet. `task` is the task's number, from 0.
#[derive(Debug, Drop)]
pub enum Edit {
    /// Another table in a place of the task's cycle.
    Table {
        task: usize,
        /// The place in the cycle, from 0.
        index: usize,
        table: TimeTable,
    },
    /// Another relative deadline, in ticks.
    Deadline {
        task: usize,
        value: u32,
    },
    /// Another allowance, p of q.
    Allow {
        task: usize,
        p: u64,
        q: u64,
    },
}

/// Why an edit is refused.
#[derive(Clone, Copy, Debug, PartialEq, Eq, Error)]
pub enum EditFault {
    /// The task's cycle has no table of that index.
    #[error("the cycle has no such table")]
    NoTable,
    /// The edited sheet fails the condition of this number, as `SheetFault::number` counts them, and none before it.
    #[error("the edited sheet fails condition {0}")]
    Refused(u32),
}

// Makes the edit, if it is not refused.
pub(crate) fn edit_tasks(
    settings: Settings,
    tasks: &mut [Task],
    edit: Edit,
) -> Result<(), EditFault>
    requires task { task_of edit < length tasks.old }
    ensures edited { OnOk result (tasks.new ≡ edited_tasks edit tasks.old) }
    ensures accepted { IsOk result → edit_fault edit (record { settings = settings; tasks = tasks.old }) ≡ None }
    ensures refused { IfErr result (λ fault. edit_fault edit (record { settings = settings; tasks = tasks.old }) ≡ Some fault) }
    ensures unchanged { OnErr result (tasks.new ≡ tasks.old) }
{
    if lacks_table(tasks, &edit) {
        return Err(EditFault::NoTable);
    }
    let back = exchange(tasks, edit);
    match accepted_hyperperiod(settings, tasks) {
        Ok(_) => Ok(()),
        Err(fault) => {
            exchange(tasks, back);
            Err(EditFault::Refused(fault.number()))
        }
    }
}

// The edit is one of a table that the task's cycle hasn't.
fn lacks_table(tasks: &[Task], edit: &Edit) -> bool
    requires { task_of edit.now < length tasks.now }
    ensures { result ≡ lacks_table edit.now (task_at tasks.now (task_of edit.now)) }
{
    match edit {
        Edit::Table { task, index, .. } => tasks[*task].cycle().len() <= *index,
        _ => false,
    }
}

// Makes the edit, and gives the one that takes it back.
fn exchange(tasks: &mut [Task], edit: Edit) -> Edit
    requires task { task_of edit < length tasks.old }
    requires table { lacks_table edit (task_at tasks.old (task_of edit)) ≡ false }
    ensures made { tasks.new ≡ edited_tasks edit tasks.old }
    ensures task { task_of result < length tasks.new }
    ensures table { lacks_table result (task_at tasks.new (task_of result)) ≡ false }
    ensures back { edited_tasks result tasks.new ≡ tasks.old }
{
    match edit {
        Edit::Table { task, index, table } => {
            let table = tasks[task].put_table(index, table);
            Edit::Table { task, index, table }
        }
        Edit::Deadline { task, value } => {
            let value = tasks[task].put_deadline(value);
            Edit::Deadline { task, value }
        }
        Edit::Allow { task, p, q } => {
            let (p, q) = tasks[task].put_allow((p, q));
            Edit::Allow { task, p, q }
        }
    }
}

/// An edit leaves the hyperperiod and all jobs as they are.
pub fn edits_keep_jobs()
    ensures { EditsKeepJobs }
{}

/// The conditions that a sheet of given parts can fail are those of the numbers 7 to 16.
pub fn part_faults_are_numbered()
    ensures { PartFaultsAreNumbered }
{}

/// Worked edits and their faults.
pub fn worked_edits()
    ensures { WorkedEdits }
{}
