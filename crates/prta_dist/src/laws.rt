//! Laws of curves, without code, and what their definitions give on worked values.

ghost use Rattle.prta_dist.specs.Laws.{AdditionsKeepChances, UnbrokenDominates};
ghost use Rattle.prta_dist.specs.Window.{WindowsAdd};
ghost use Rattle.prta_dist.specs.Worked.{WorkedAdditions};

/// After an addition the cells are a list of chances, before the rule on the last cell and after it.
pub fn additions_keep_chances()
    ensures { AdditionsKeepChances }
{}

/// Adding a table to the window of a list alone is adding it to the whole list, with the same answer on rounding.
pub fn windows_add()
    ensures { WindowsAdd }
{}

/// There is no break exactly where a list dominates its image.
pub fn unbroken_dominates()
    ensures { UnbrokenDominates }
{}

/// Additions that are rounded, exact and cut, in both directions, and the other lists that a curve makes.
pub fn worked_additions()
    ensures { WorkedAdditions }
{}
