//! Laws of the definitions, and what they give on worked values, without code.

ghost use Rattle.prta_ticksim.specs.LaterJobs.{LaterJobsChangeNoMiss};
ghost use Rattle.prta_ticksim.specs.Misses.{FinishesTellMisses};
ghost use Rattle.prta_ticksim.specs.Worked.{WorkedRuns, WorkedTurns, WorkedChoices};

/// Which job runs in each tick, for jobs of two tasks, and of one that is late.
pub fn worked_runs()
    ensures { WorkedRuns }
{}

/// Whose table each job's time is looked up in, where a task has a cycle of tables.
pub fn worked_turns()
    ensures { WorkedTurns }
{}

/// What files of choices state.
pub fn worked_choices()
    ensures { WorkedChoices }
{}

/// A job has one finish, and misses its deadline just where that is later, or where time is left to it then.
pub fn finishes_tell_misses()
    ensures { FinishesTellMisses }
{}

/// Jobs released at or after a job's absolute deadline don't change whether it misses: so where that deadline is at or
/// before some time, its miss with all jobs before that time is its miss with those to which the exact chance gives
/// times. Of a job whose deadline is later nothing is said.
pub fn later_jobs_change_no_miss()
    ensures { LaterJobsChangeNoMiss }
{}
