//! Laws of edits and scripts, without code: a body only calls the laws that it rests on.

ghost use Rattle.prta_session.specs.Laws.{NumbersDependOn, EditsKeepNumbers, ScriptsGoByLines};

use prta_sheet::edits_keep_jobs;

/// The numbers of a task depend, of what an edit can change, on the tables of the tasks of its level and on its own deadline
/// alone, and on no allowance.
pub fn numbers_depend_on()
    ensures { NumbersDependOn }
{}

/// An edit leaves the numbers of each task that it doesn't make stale.
pub fn edits_keep_numbers()
    ensures { EditsKeepNumbers }
{
    numbers_depend_on();
    edits_keep_jobs();
}

/// What is needed to go through a script line by line: an edit leaves the number of tasks, at most all of them are stale,
/// none is after a refresh, and there is a sheet for each print.
pub fn scripts_go_by_lines()
    ensures { ScriptsGoByLines }
{}
