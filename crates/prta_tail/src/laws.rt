//! Laws of geometric tails, without code: a body only calls the laws that it rests on.

ghost use Rattle.prta_tail.specs.Laws.{BacklogsHaveTails, BaseListsBound, TailNumbersHold};

use prta_backlog::images_keep_dominance;
use prta_response::{images_bound_backlogs, law_of_starts, points_bound_backlogs};

/// Where a ratio passes for a level, its backlog at the start of every hyperperiod is above k with a chance of at most
/// (p/q)^(k + 1 - B), for every k from the worst-case backlog B on.
pub fn backlogs_have_tails()
    ensures { BacklogsHaveTails }
{}

/// So the base list bounds the backlog at the start of every hyperperiod, and so does each of its images.
pub fn base_lists_bound()
    ensures { BaseListsBound }
{
    backlogs_have_tails();
    images_bound_backlogs();
    points_bound_backlogs();
    images_keep_dominance();
}

/// The tail number of an own job bounds the exact chance of the job's copy in every later hyperperiod.
pub fn tail_numbers_hold()
    ensures { TailNumbersHold }
{
    law_of_starts();
    base_lists_bound();
}
