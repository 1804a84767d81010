//! Laws of the delay, without code, and what it gives on worked values.

ghost use Rattle.prta_preempt.specs.Laws.{DelaysBySplitting, DelaysKeepChances};
ghost use Rattle.prta_preempt.specs.WorkedDelays.{WorkedDelays};

/// Splitting off the tail, adding the table to it and merging it again is the delay, with the same answer on rounding.
pub fn delays_by_splitting()
    ensures { DelaysBySplitting }
{}

/// A delayed list of chances is one, of the same length. The cells up to the split place stay, and no cell rises.
pub fn delays_keep_chances()
    ensures { DelaysKeepChances }
{}

/// Delays that change nothing, that are exact, and that are rounded in either direction.
pub fn worked_delays()
    ensures { WorkedDelays }
{}
