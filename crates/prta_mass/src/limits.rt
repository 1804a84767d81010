//! The limits as numbers.

ghost use Rattle.prta_mass.specs.Limits.{StatedLimits};

/// The unit and the limits of a table, as numbers.
pub fn stated_limits()
    ensures { StatedLimits }
{}
