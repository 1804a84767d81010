//! Sessions.

ghost use Rattle.std.specs.Prelude.{◌≡◌, ◌+◌, ◌<◌, ◌≤◌, true, None, Some, length, IsOk, IfOk, IfErr, OnOk, OnErr};
ghost use Rattle.prta_sheet.specs.Edits.{task_of, edit_fault};
ghost use Rattle.prta_backlog.specs.Level.{sheet_level};
ghost use Rattle.prta_dual.specs.Numbers.{all_bounds};
ghost use Rattle.prta_session.specs.State.{is_fresh, session_of, session_edited, refreshed, stale_tasks};
ghost use Rattle.prta_session.specs.Workers.{lengthened};

use crate::kept::{analyse_stale, mark_stale, no_marks, places_for, stale_by};
use crate::laws::edits_keep_numbers;
use crate::worker::Worker;
use prta_dual::Bounds;
use prta_mass::NoMemory;
use prta_sheet::{Edit, EditFault, Sheet};
use std::alloc::Global;
use std::marker::Model;

/// A sheet under edits, with the two numbers of each analysed job of those tasks that are fresh: whose numbers no edit
/// since their analysis can have changed.
#[derive(Drop)]
pub struct Session {
    sheet: Sheet,
    // Which tasks are fresh.
    fresh: Vec<bool>,
    // The numbers of each task.
    found: Vec<Vec<Bounds>>,
}

impl Model for Session {
    ghost use Rattle.prta_session.specs.State.{SessionState};
    ghost use Rattle.prta_session.specs.Kept.{AreKept};

    ghost Value = { SessionState };

    ghost view = { λ s. record { sheet = s.sheet; fresh = s.fresh.items } };

    ghost invariant = { λ s. AreKept s.sheet s.fresh.items s.found.items };
}

impl Session {
    /// A session on a sheet, in which every task is stale. It takes the memory for all numbers here, and none later. Fails
    /// for want of memory alone; the sheet is then dropped.
    pub fn new(alloc: Global, sheet: Sheet) -> Result<Session, NoMemory>
        ensures { IfOk result (λ session. session ≡ session_of sheet) }
    {
        let fresh = no_marks(alloc, &sheet)?;
        let found = places_for(alloc, &sheet)?;
        Ok(Session {
            sheet,
            fresh,
            found,
        })
    }

    /// The sheet as it is now.
    pub fn sheet(&self) -> &Sheet
        ensures { result.now ≡ self.now.sheet }
    {
        &self.sheet
    }

    /// Whether the task is fresh. Past the sheet none is.
    pub fn fresh(&self, task: usize) -> bool
        ensures { result ≡ is_fresh self.now task }
    {
        task < self.fresh.len() && self.fresh[task]
    }

    /// Makes the edit on the sheet, as `Sheet::edit` does. A table makes stale its task and all after it on the sheet, a
    /// deadline its task, an allowance none. A refused edit is dropped, and the session is as it was.
    pub fn edit(&mut self, edit: Edit) -> Result<(), EditFault>
        requires task { task_of edit < length self.old.sheet.tasks }
        ensures edited { OnOk result (self.new ≡ session_edited edit self.old) }
        ensures accepted { IsOk result → edit_fault edit self.old.sheet ≡ None }
        ensures refused { IfErr result (λ fault. edit_fault edit self.old.sheet ≡ Some fault) }
        ensures unchanged { OnErr result (self.new ≡ self.old) }
    {
        edits_keep_numbers();
        let (from, to) = stale_by(&edit, self.fresh.len());
        match self.sheet.edit(edit) {
            Ok(()) => {
                mark_stale(&mut self.fresh, from, to);
                Ok(())
            }
            Err(fault) => Err(fault),
        }
    }

    /// Analyses the stale tasks, in sheet order, so that all are fresh. The sheet stays as it is.
    pub fn refresh<W: Worker>(&mut self, worker: &mut W)
        requires cap { W.cap worker.old ≡ self.old.sheet.settings.cap }
        requires room { length (stale_tasks self.old) ≤ W.room worker.old }
        ensures refreshed { self.new ≡ refreshed self.old }
        ensures analysed { W.analysed worker.new ≡ lengthened (W.analysed worker.old) (stale_tasks self.old) }
        ensures cap { W.cap worker.new ≡ W.cap worker.old }
        ensures room { W.room worker.old ≤ W.room worker.new + length (stale_tasks self.old) }
    {
        analyse_stale(worker, &self.sheet, &mut self.fresh, &mut self.found);
    }

    /// The two numbers of each analysed job of a fresh task, with the tasks before it on the sheet above it, in order of
    /// number: those of the sheet as it is now.
    pub fn bounds(&self, task: usize) -> &[Bounds]
        requires { is_fresh self.now task ≡ true }
        ensures { result.now ≡ all_bounds self.now.sheet (sheet_level task) }
    {
        &self.found[task]
    }
}
