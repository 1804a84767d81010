//! Worked sums.

ghost use Rattle.prta_ledger.specs.WorkedSums.{WorkedSums};

/// The sums for jobs of worked ledgers.
pub fn worked_sums()
    ensures { WorkedSums }
{}
