//! Worked level runs.

ghost use Rattle.prta_backlog.specs.Worked.{WorkedRuns, WorkedGreatest};

/// Lists, entries and an image of worked level runs.
pub fn worked_runs()
    ensures { WorkedRuns }
{}

/// Greatest numbers of worked levels, and the room for the entries of a worked sheet.
pub fn worked_greatest()
    ensures { WorkedGreatest }
{}
