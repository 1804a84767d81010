//! What holds of reductions, and what the definitions give on worked values, without code.

ghost use Rattle.std.specs.Prelude.{◌≡◌};
ghost use Rattle.prta_fewpoints.specs.Wide.{FaultlessWide};
ghost use Rattle.prta_fewpoints.specs.Laws.{ReductionIsOne, ReductionIsTable, ChoicesAreSafe, ReductionIsSafe};
ghost use Rattle.prta_fewpoints.specs.Worked.{WorkedReductions};
ghost use Rattle.prta_fewpoints.specs.declared.wide.TheConstants.{WIDE_LIMIT};

/// The recursion gives the reduction of every wide table, and no other table is one.
pub fn reduction_is_one()
    ensures { ReductionIsOne }
{}

/// The reduction to at most `POINT_LIMIT` points is a time table.
pub fn reduction_is_table()
    ensures { ReductionIsTable }
{}

/// The table of any choice is the wide table with each weight moved to a time that isn't below its own: no time is worth
/// less in it where later times are worth more. Its total and its greatest time are the wide table's.
pub fn choices_are_safe()
    ensures { ChoicesAreSafe }
{}

/// The reduction is such a table.
pub fn reduction_is_safe()
    ensures { ReductionIsSafe }
{}

/// The pairs that make a wide table are those without a fault.
pub fn faultless_wide_pairs()
    ensures { FaultlessWide }
{}

/// The limit as a number.
pub fn stated_limit()
    ensures { WIDE_LIMIT ≡ 1024 }
{}

/// Worked choices, reductions and faults.
pub fn worked_reductions()
    ensures { WorkedReductions }
{}
