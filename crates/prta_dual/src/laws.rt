//! Laws of the two numbers and their ledger, without code: a body only calls the law that it rests on.

ghost use Rattle.prta_dual.specs.Laws.{GapIsNoted, EmptyLedgerIsExact, EntriesHaveRoom, EntriesAreCountable, OwnJobsInTurn};

use prta_response::numbers_are_around;

/// The two numbers of an analysed job come no further apart than the job's entries add up to.
pub fn gap_is_noted()
    ensures { GapIsNoted }
{}

/// Where a job's entries add up to nothing, both of its numbers are its exact chance, under every order in which exactly the
/// higher tasks stand above its task.
pub fn empty_ledger_is_exact()
    ensures { EmptyLedgerIsExact }
{
    numbers_are_around();
}

/// `room_for` is enough for all entries of an analysis of one task, and for the condition of one more step of a level run.
pub fn entries_have_room()
    ensures { EntriesHaveRoom }
{}

/// The entries of an analysis of one task can be counted in 64 bits, so notes without a limit have room for them.
pub fn entries_are_countable()
    ensures { EntriesAreCountable }
{}

/// The analysed jobs of a task, in their order, are its jobs of the numbers from 0 on.
pub fn own_jobs_in_turn()
    ensures { OwnJobsInTurn }
{}
