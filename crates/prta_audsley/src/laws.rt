//! Laws of the assignment, without code: a body only calls the laws that it rests on.

ghost use Rattle.prta_audsley.specs.Fewer.{FewerRaiseNoUpper, FewerLengthenNoFinish, FewerRaiseNoChance};
ghost use Rattle.prta_audsley.specs.Greedy.{GreedyFindsOrders};
ghost use Rattle.prta_audsley.specs.Verdict.{VerdictsHold};

use prta_response::numbers_are_around;
use prta_ticksim::schedule_to_backlog;

/// Taking tasks out of the set above a task raises none of the upper numbers of its jobs.
pub fn fewer_raise_no_upper()
    ensures { FewerRaiseNoUpper }
{}

/// Where fewer tasks stand above a job's task, the machine of ticks finishes the job no later, whatever the times of all jobs.
pub fn fewer_lengthen_no_finish()
    ensures { FewerLengthenNoFinish }
{
    schedule_to_backlog();
}

/// Nor is the exact chance that the job misses its deadline greater.
pub fn fewer_raise_no_chance()
    ensures { FewerRaiseNoChance }
{
    schedule_to_backlog();
}

/// For every test of a task below a set of tasks: where the greedy gets through, its order passes. Where it is stuck, none of
/// the tasks that are left passes below the others. Where a task that passes below a set passes below each part of it, the
/// greedy gets through exactly where some order passes.
pub fn greedy_finds_orders()
    ensures { GreedyFindsOrders }
{}

/// What the verdict on a sheet says is so, and each verdict comes exactly where the greedy by the upper numbers and that by the
/// lower ones say.
pub fn verdicts_hold()
    ensures { VerdictsHold }
{
    numbers_are_around();
    fewer_raise_no_upper();
    fewer_raise_no_chance();
    greedy_finds_orders();
}
