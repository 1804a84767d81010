//! The law of starts, and what follows from it: laws, without code beside the calls of the laws that they rest on.

ghost use Rattle.prta_response.specs.Laws.{LawOfStarts, ImagesBoundBacklogs, PointsBoundBacklogs, NumbersAreAround, LowerNumbersStay};

use prta_jobs::orders_have_places;
use prta_ticksim::schedule_to_backlog;

/// Where a list bounds a level's backlog at the start of a hyperperiod, the lists of a level run that starts there with
/// it bound the backlog right after each instant, and the numbers of the own jobs in this level run bound the exact
/// chances. In both directions, with and without a support, from every hyperperiod on.
pub fn law_of_starts()
    ensures { LawOfStarts }
{
    orders_have_places();
    schedule_to_backlog();
}

/// In Up the image of a list that bounds a level's backlog at the start of a hyperperiod bounds it at the start of the
/// next.
pub fn images_bound_backlogs()
    ensures { ImagesBoundBacklogs }
{}

/// The point at 0 bounds a level's backlog at time 0 in both directions, and in Down at every time.
pub fn points_bound_backlogs()
    ensures { PointsBoundBacklogs }
{}

/// The two numbers of a job in an analysis are around its exact chance, under every order in which exactly the higher
/// tasks stand above its task.
pub fn numbers_are_around()
    ensures { NumbersAreAround }
{
    law_of_starts();
    points_bound_backlogs();
}

/// The lower number of a job in an analysis bounds the exact chance of its copy in every later hyperperiod.
pub fn lower_numbers_stay()
    ensures { LowerNumbersStay }
{
    law_of_starts();
    points_bound_backlogs();
}
