//! A ledger of limited room.

ghost use Rattle.std.specs.Prelude.{◌≡◌, ◌-◌, ◌<◌, [], ◌∷◌, ◌++◌, length, false, Some, IfOk};
ghost use Rattle.prta_ledger.specs.Sums.{counts_for, part_for, sum_for};
ghost use Rattle.prta_ledger.specs.LedgerState.{empty_ledger};

use crate::entry::{Entry, Kind};
use crate::notes::Notes;
use prta_mass::NoMemory;
use std::alloc::Global;
use std::marker::Model;

/// Keeps the entries noted, up to as many as it has room for.
#[derive(Debug, Drop)]
pub struct Ledger {
    entries: Vec<Entry>,
    room: usize,
}

impl Model for Ledger {
    ghost use Rattle.std.specs.Prelude.{◌≤◌, vec_len, vec_capacity};
    ghost use Rattle.prta_ledger.specs.LedgerState.{LedgerState};

    ghost Value = { LedgerState };

    ghost view = { λ s. record { entries = s.entries.items; room = s.room } };

    // The memory for all entries is there from the start.
    ghost invariant = { λ s. (vec_len s.entries ≤ s.room) × (s.room ≤ vec_capacity s.entries) };
}

impl Ledger {
    /// Makes an empty ledger with room for `n` entries. It takes the memory for all of them here, and none later.
    /// Fails for want of memory alone.
    pub fn with_room(alloc: Global, n: usize) -> Result<Ledger, NoMemory>
        ensures { IfOk result (λ ledger. ledger ≡ empty_ledger n) }
    {
        Ok(Ledger {
            entries: Vec::with_capacity(alloc, n)?,
            room: n,
        })
    }

    /// The entries, in the order in which they were noted.
    pub fn entries(&self) -> &[Entry]
        ensures { result.now ≡ self.now.entries }
    {
        &self.entries
    }

    /// What the entries add up to for a job of a task, in units of 2^-60. An entry of the task's level run counts for
    /// the job that it names and for later ones, an entry of a delay for the job that it names alone.
    pub fn sum_for(&self, task: usize, job: u32) -> u128
        ensures { result ≡ sum_for task job self.now.entries }
    {
        let mut sum: u128 = 0;
        for entry in &self.entries {
            sum += part_for(entry, task, job) as u128;
        }
        sum
    }

    /// Takes all entries out.
    pub fn clear(&mut self)
        ensures { self.new ≡ empty_ledger self.old.room }
    {
        self.entries.clear();
    }
}

impl Notes for Ledger {
    ghost noted = { λ s. Some s.entries };

    ghost room = { λ s. s.room - length s.entries };

    fn is_silent(&self) -> bool
        ensures { result ≡ false }
    {
        false
    }

    fn spare(&self) -> usize {
        self.room - self.entries.len()
    }

    fn note(&mut self, entry: Entry)
        requires { length self.old.entries < self.old.room }
        ensures { self.new ≡ record self.old { entries = self.old.entries ++ entry ∷ [] } }
    {
        // The room is reserved, so this takes no memory.
        self.entries.push(entry).unwrap();
    }
}

// What an entry adds to the sum for a job.
fn part_for(entry: &Entry, task: usize, job: u32) -> u64
    ensures { result ≡ part_for task job entry.now }
{
    if counts_for(entry, task, job) {
        entry.amount
    } else {
        0
    }
}

// An entry counts for a job.
fn counts_for(entry: &Entry, task: usize, job: u32) -> bool
    ensures { result ≡ counts_for task job entry.now }
{
    entry.task as usize == task
        && match entry.kind {
            Kind::Round | Kind::Cut | Kind::Resample => entry.job <= job,
            Kind::Delay => entry.job == job,
        }
}
