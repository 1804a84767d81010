//! What the tables of a file of counts are, and what the definitions give on worked values, without code.

ghost use Rattle.std.specs.Prelude.{◌≡◌};
ghost use Rattle.prta_times.specs.LaterTimes.{LaterTimesLowerNoChance};
ghost use Rattle.prta_times.specs.Laws.{CountedAreSums, CountedAreAccepted, ReducedAreAccepted, ReducedAreSafe};
ghost use Rattle.prta_times.specs.Worked.{WorkedCounts};
ghost use Rattle.prta_times.specs.declared.limits.TheConstants.{COUNTS_LIMIT};

use prta_fewpoints::{reduction_is_one, reduction_is_safe, reduction_is_table};
use prta_jobs::jobs_are_before;
use prta_mass::faultless_pairs;
use prta_ticksim::schedule_to_backlog;

/// A task's counted times rise, and each has the sum of the weights that the counts give it.
pub fn counted_tables_are_sums()
    ensures { CountedAreSums }
{}

/// A file without a fault makes an accepted sheet of one that was: no other condition on a sheet can fail.
pub fn counted_sheets_are_accepted()
    ensures { CountedAreAccepted }
{
    faultless_pairs();
    reduction_is_one();
    reduction_is_table();
}

/// The same where the counted times are reduced to at most k, which is 1 to 32.
pub fn reduced_sheets_are_accepted()
    ensures { ReducedAreAccepted }
{
    faultless_pairs();
    reduction_is_one();
    reduction_is_table();
}

/// Tables whose weights move to later times lower no exact chance: whatever the order of priorities, a job's weight of a
/// miss is no greater by the earlier tables, and the weight of all assignments is the same.
pub fn later_times_lower_no_chance()
    ensures { LaterTimesLowerNoChance }
{
    schedule_to_backlog();
    jobs_are_before();
}

/// So a sheet with reduced tables is on the safe side of the tables as they were counted: what bounds its exact chances from
/// above bounds those by the counted tables, under every order of priorities.
pub fn reduced_sheets_are_safe()
    ensures { ReducedAreSafe }
{
    faultless_pairs();
    reduction_is_one();
    reduction_is_table();
    reduction_is_safe();
    later_times_lower_no_chance();
}

/// The limit as a number.
pub fn stated_limit()
    ensures { COUNTS_LIMIT ≡ 1048576 }
{}

/// Worked records: their tables, their faults, and a whole file.
pub fn worked_counts()
    ensures { WorkedCounts }
{}
