//! Laws of steps, without code, and what their definitions give on worked values.

ghost use Rattle.prta_stair.specs.Laws.{StepsAreLists};
ghost use Rattle.prta_stair.specs.Worked.{WorkedSteps};

/// A list of chances is determined by its steps, which rise below its number of cells and up to the unit at most, and
/// such steps are determined by their list, which is one of chances.
pub fn steps_are_lists()
    ensures { StepsAreLists }
{}

/// The steps of some lists, the lists of some steps, and the sums of an addition by steps and by marks.
pub fn worked_steps()
    ensures { WorkedSteps }
{}
