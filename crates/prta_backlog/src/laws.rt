//! Laws of level runs and images, without code.

ghost use Rattle.prta_backlog.specs.Laws.{StepsFollowRuns, RunsStayStill, OperationsKeepDominance, RunsKeepDominance, ImagesKeepDominance, RunsStayChances, RoomIsEnough, GreatestNumbersAreLow};

/// A pass that stands in the level run from a list stands in it after a step to the next instant, and the step's entries
/// are the run's next ones.
pub fn steps_follow_runs()
    ensures { StepsFollowRuns }
{}

/// Up to the next instant a level run keeps its list, and has no more entries.
pub fn runs_stay_still()
    ensures { RunsStayStill }
{}

/// Where one list dominates another, it does so after the same addition, shift or re-sampling of both, in both directions.
pub fn operations_keep_dominance()
    ensures { OperationsKeepDominance }
{}

/// Where one list dominates another, the lists of the level runs from them stay so, from any time on.
pub fn runs_keep_dominance()
    ensures { RunsKeepDominance }
{}

/// Where one list dominates another, its image dominates the other's image.
pub fn images_keep_dominance()
    ensures { ImagesKeepDominance }
{}

/// The list of a level run stays a list of chances: its cells don't fall and are at most the unit.
pub fn runs_stay_chances()
    ensures { RunsStayChances }
{}

/// `room_for` is enough for all entries of an analysis of one task, whatever tasks are above it: in each direction those
/// of its level run, and one for each delay of the response runs of its analysed jobs.
pub fn room_is_enough()
    ensures { RoomIsEnough }
{}

/// The worst-case backlog is at most the greatest work, and the peak at most both together.
pub fn greatest_numbers_are_low()
    ensures { GreatestNumbersAreLow }
{}
