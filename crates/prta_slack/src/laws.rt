//! Laws of added ticks, without code: a body only calls the laws that it rests on.

ghost use Rattle.prta_slack.specs.Laws.{LaterTimesLowerNoUpper, PassingIsEach, AddedTicks, SlacksHold};

use prta_dual::own_jobs_in_turn;
use prta_response::numbers_are_around;
use prta_sheet::added_sheets;

/// Moving weights of tables to later times lowers none of the upper numbers.
pub fn later_times_lower_no_upper()
    ensures { LaterTimesLowerNoUpper }
{}

/// A sheet passes exactly where the upper number of each analysed job passes.
pub fn passing_is_each()
    ensures { PassingIsEach }
{
    own_jobs_in_turn();
}

/// What holds as ticks are added to a task: no upper number falls. So with a number with which the sheet passes it passes with
/// every smaller one, and with a number with which it doesn't it passes with no greater one. Where it passes, every analysed
/// job's exact chance of a miss is at most its task's allowance.
pub fn added_ticks()
    ensures { AddedTicks }
{
    added_sheets();
    passing_is_each();
    numbers_are_around();
}

/// What the slack of a task says is so, and each answer comes exactly where its cause is there.
pub fn slacks_hold()
    ensures { SlacksHold }
{
    added_sheets();
    added_ticks();
    own_jobs_in_turn();
}
