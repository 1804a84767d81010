//! Laws of sums by limbs, without code, and what their definitions give on worked values.

ghost use Rattle.prta_convlane.specs.Laws.{LimbsJoin};
ghost use Rattle.prta_convlane.specs.Worked.{WorkedLimbs};

/// The sums of both halves, each at its place, are the weighted sum, and so are those of the four quarters.
pub fn limbs_join()
    ensures { LimbsJoin }
{}

/// The limbs of the unit and of the number below it, sums by limbs, and a list that is added to up to a place.
pub fn worked_limbs()
    ensures { WorkedLimbs }
{}
