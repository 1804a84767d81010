//! Sheets.

ghost use Rattle.std.specs.Prelude.{◌≡◌, ℕ, ◌<◌, ◌≤◌, None, Some, length, IsOk, IfOk, IfErr, OnOk, OnErr};
ghost use Rattle.prta_sheet.specs.Sheet.{task_at, hyperperiod as hyperperiod_of, horizon};
ghost use Rattle.prta_sheet.specs.Counts.{job_count, all_jobs};
ghost use Rattle.prta_sheet.specs.Work.{work};
ghost use Rattle.prta_sheet.specs.Accepted.{IsAccepted};
ghost use Rattle.prta_sheet.specs.Added.{sheet_with_added, IsSheetWithAdded, room};
ghost use Rattle.prta_sheet.specs.Edits.{task_of, edited, edit_fault};

use crate::added::{added_sheets, greatest_of};
use crate::count::count_jobs;
use crate::edit::{Edit, EditFault, edit_tasks, edits_keep_jobs};
use crate::limits::TIME_LIMIT;
use crate::settings::Settings;
use crate::task::Task;
use crate::work::work_of;
use prta_mass::{NoMemory, faultless_pairs};
use std::alloc::Global;
use std::marker::Model;

/// An accepted sheet: its settings, and its tasks from highest priority to lowest.
#[derive(Debug, Drop)]
pub struct Sheet {
    settings: Settings,
    tasks: Vec<Task>,
    hyperperiod: u64,
}

impl Model for Sheet {
    ghost use Rattle.std.specs.Prelude.{◌≡◌};
    ghost use Rattle.prta_sheet.specs.Sheet.{Sheet as SheetParts, hyperperiod as hyperperiod_of};
    ghost use Rattle.prta_sheet.specs.Accepted.{IsAccepted};

    ghost Value = { SheetParts };

    ghost view = { λ s. record { settings = s.settings; tasks = s.tasks.items } };

    ghost invariant = { λ s. IsAccepted (record { settings = s.settings; tasks = s.tasks.items }) × (s.hyperperiod ≡ hyperperiod_of s.tasks.items) };
}

impl Sheet {
    /// What the sheet states beside its tasks.
    pub fn settings(&self) -> Settings
        ensures settings { result ≡ self.now.settings }
        ensures accepted { IsAccepted self.now }
    {
        self.settings
    }

    /// The tasks, from highest priority to lowest.
    pub fn tasks(&self) -> &[Task]
        ensures tasks { result.now ≡ self.now.tasks }
        ensures accepted { IsAccepted self.now }
    {
        &self.tasks
    }

    /// The number of cells of a list of chances.
    pub fn cap(&self) -> usize
        ensures { result ≡ self.now.settings.cap }
    {
        self.settings.cap as usize
    }

    /// The least common multiple, over the tasks, of the period times the number of tables of the cycle, in ticks.
    pub fn hyperperiod(&self) -> u64
        ensures hyperperiod { result ≡ hyperperiod_of self.now.tasks }
        ensures accepted { IsAccepted self.now }
    {
        self.hyperperiod
    }

    /// The time before which the analysed jobs are released, in ticks.
    pub fn horizon(&self) -> u64
        ensures { result ≡ horizon self.now }
    {
        self.settings.hyperperiods as u64 * self.hyperperiod
    }

    /// The number of analysed jobs of the task of this number.
    pub fn job_count(&self, task: usize) -> usize
        requires { task < length self.now.tasks }
        ensures { result ≡ job_count self.now task }
    {
        (self.horizon() / self.tasks[task].period() as u64) as usize
    }

    /// The number of all analysed jobs.
    pub fn all_jobs(&self) -> usize
        ensures { result ≡ all_jobs self.now }
    {
        count_jobs(&self.tasks, self.settings.hyperperiods, self.hyperperiod) as usize
    }

    /// The work of the sheet: for each task the cap times the points of all analysed jobs, and for each of its own
    /// jobs, deadline + 1 times, the points of the jobs of other tasks between its release and its absolute deadline.
    pub fn work(&self) -> u64
        ensures { result ≡ work self.now }
    {
        work_of(&self.tasks, self.settings, self.hyperperiod)
    }

    /// An equal sheet.
    pub fn copy(&self, alloc: Global) -> Result<Sheet, NoMemory>
        ensures { IfOk result (λ sheet. sheet ≡ self.now) }
    {
        let tasks = copies_of(alloc, &self.tasks)?;
        Ok(Sheet {
            settings: self.settings,
            tasks,
            hyperperiod: self.hyperperiod,
        })
    }

    /// Makes the edit: puts the table in the place of the cycle's, or sets the deadline or the allowance. It is refused
    /// with NoTable where the task's cycle has no table of that index; else with the number of the first condition, in
    /// the order in which `make_sheet` tests them, that the edited sheet fails. A refused edit is dropped, and the sheet
    /// is as it was. The hyperperiod and the numbers of jobs stay. It takes no memory.
    pub fn edit(&mut self, edit: Edit) -> Result<(), EditFault>
        requires task { task_of edit < length self.old.tasks }
        ensures edited { OnOk result (self.new ≡ edited edit self.old) }
        ensures accepted { IsOk result → edit_fault edit self.old ≡ None }
        ensures refused { IfErr result (λ fault. edit_fault edit self.old ≡ Some fault) }
        ensures unchanged { OnErr result (self.new ≡ self.old) }
        ensures hyperperiod { hyperperiod_of self.new.tasks ≡ hyperperiod_of self.old.tasks }
        ensures jobs { (i : ℕ) → job_count self.new i ≡ job_count self.old i }
    {
        faultless_pairs();
        edits_keep_jobs();
        match edit_tasks(self.settings, &mut self.tasks, edit) {
            Ok(()) => Ok(()),
            Err(fault) => Err(fault),
        }
    }

    /// How many ticks may be added to each time of the task's tables before one is above `TIME_LIMIT`.
    pub fn room(&self, task: usize) -> u32
        requires { task < length self.now.tasks }
        ensures room { result ≡ room (task_at self.now.tasks task) }
        ensures accepted { IsAccepted self.now }
    {
        TIME_LIMIT - greatest_of(self.tasks[task].cycle())
    }

    /// Makes the sheet, which is the base with some number added to the task, the base with `s` ticks added to each time
    /// of each table of the task's cycle. There is room for `s`: no time goes above `TIME_LIMIT`. It takes no memory.
    pub fn set_added(&mut self, base: &Sheet, task: usize, s: u32)
        requires task { task < length base.now.tasks }
        requires same { IsSheetWithAdded base.now task self.old }
        requires room { s ≤ room (task_at base.now.tasks task) }
        ensures { self.new ≡ sheet_with_added base.now task s }
    {
        added_sheets();
        self.tasks[task].set_added(&base.tasks[task], s);
    }

    // The sheet of parts that meet all conditions.
    pub(crate) fn of_parts(settings: Settings, tasks: Vec<Task>, hyperperiod: u64) -> Sheet
        requires accepted { IsAccepted (record { settings = settings; tasks = tasks.items }) }
        requires hyperperiod { hyperperiod ≡ hyperperiod_of tasks.items }
        ensures { result ≡ record { settings = settings; tasks = tasks.items } }
    {
        Sheet {
            settings,
            tasks,
            hyperperiod,
        }
    }
}

// Equal tasks, in order.
fn copies_of(alloc: Global, tasks: &[Task]) -> Result<Vec<Task>, NoMemory>
    ensures { IfOk result (λ copies. copies.items ≡ tasks.now) }
{
    let mut copies = Vec::new(alloc);
    for task in tasks {
        copies.push(task.copy(alloc)?)?;
    }
    Ok(copies)
}
