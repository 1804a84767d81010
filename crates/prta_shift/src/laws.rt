//! Laws of the shift, without code, and what it gives on worked values.

ghost use Rattle.prta_shift.specs.Laws.{ShiftsAdd, ShiftsKeepChances, ShiftsReadLater};
ghost use Rattle.prta_shift.specs.WorkedShifts.{WorkedShifts};

/// Shifting by a and then by b is shifting by a + b.
pub fn shifts_add()
    ensures { ShiftsAdd }
{}

/// A shifted list of chances is one, of the same length and with the same last cell, and its value at every place, also
/// past its end, is the one that stood t later.
pub fn shifts_keep_chances()
    ensures kept { ShiftsKeepChances }
    ensures later { ShiftsReadLater }
{}

/// The shift of a list by 0, by 1 and past its end.
pub fn worked_shifts()
    ensures { WorkedShifts }
{}
