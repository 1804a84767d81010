//! What an analysis gives on worked values.

ghost use Rattle.prta_dual.specs.Worked.{WorkedAnalyses};

/// The numbers, entries and sums of small sheets: rounded, carried over, re-sampled, cut and delayed.
pub fn worked_analyses()
    ensures { WorkedAnalyses }
{}
