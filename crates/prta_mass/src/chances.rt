//! Lists of chances: what their definitions give on worked values, and passing an allowance.

ghost use Rattle.std.specs.Prelude.{◌≡◌};
ghost use Rattle.prta_mass.specs.Passing.{passes};
ghost use Rattle.prta_mass.specs.WorkedChances.{WorkedChances};

use crate::unit::UNIT;

/// Whether a chance of `u` units of 2^-60 is at most p / q: exactly `u * q <= p * UNIT`.
pub fn passes(u: u64, p: u64, q: u64) -> bool
    ensures { result ≡ passes u p q }
{
    u as u128 * q as u128 <= p as u128 * UNIT as u128
}

/// Lists of chances at places inside and past their ends, rounding, and passing, on worked values.
pub fn worked_chances()
    ensures { WorkedChances }
{}
