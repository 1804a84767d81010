//! The cells that don't fill lanes, one by one.

ghost use Rattle.std.specs.Prelude.{◌≡◌, ◌*◌, ◌/◌, length};
ghost use Rattle.prta_mass.specs.Table.{total, IsTable};
ghost use Rattle.prta_mass.specs.Chances.{IsChances};
ghost use Rattle.prta_convlane.specs.Progress.{IsDone};

use crate::cells::{rounded_quotient, weighted_sum};
use prta_mass::{Dir, Divisor};

// The cells after the last eight. `before` and the result tell whether a cell so far left a remainder.
pub(crate) fn add_rest(
    from: &[u64],
    to: &mut [u64],
    points: &[(u32, u64)],
    divisor: Divisor,
    dir: Dir,
    before: bool,
) -> bool
    requires same { length to.old ≡ length from.now }
    requires chances { IsChances from.now }
    requires table { IsTable points.now }
    requires whole { divisor.total ≡ total points.now }
    requires done { IsDone dir points.now from.now to.old (length from.now / 8 * 8) before }
    ensures same { length to.new ≡ length from.now }
    ensures done { IsDone dir points.now from.now to.new (length from.now) result }
{
    let mut rounded = before;
    for k in from.len() / 8 * 8..from.len() {
        let (cell, rest) = rounded_quotient(weighted_sum(from, points, k), divisor, dir);
        to[k] = cell;
        rounded = rounded | rest;
    }
    rounded
}
