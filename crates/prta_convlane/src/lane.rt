//! The kernel over lanes.

ghost use Rattle.std.specs.Prelude.{◌≡◌, length, ◌*◌, ◌/◌};
ghost use Rattle.prta_mass.specs.Table.{IsTable, total};
ghost use Rattle.prta_mass.specs.Chances.{IsChances};
ghost use Rattle.prta_convlane.specs.Progress.{IsDone};

use crate::halves::add_by_halves;
use crate::quarters::add_by_quarters;
use crate::rest::add_rest;
use prta_dist::Kernel;
use prta_mass::{Dir, Divisor, TimeTable};

/// A kernel that sums eight cells at a time in lanes of 64 bits.
///
/// A cell is cut into limbs, so that their weighted sums fit a lane: into two halves where the table's total is below
/// 2^32, else into four quarters. The cells after the last eight are summed one by one.
#[derive(Clone, Copy)]
pub struct Lane;

impl Kernel for Lane {
    fn convolve(&self, from: &[u64], to: &mut [u64], table: &TimeTable, dir: Dir) -> bool {
        let points = table.points();
        let divisor = table.divisor();
        let rounded = add_by_lanes(from, to, points, divisor, dir);
        add_rest(from, to, points, divisor, dir, rounded)
    }
}

// All cells that fill lanes. Tells whether one of them left a remainder.
#[inline(always)]
fn add_by_lanes(
    from: &[u64],
    to: &mut [u64],
    points: &[(u32, u64)],
    divisor: Divisor,
    dir: Dir,
) -> bool
    requires same { length to.old ≡ length from.now }
    requires chances { IsChances from.now }
    requires table { IsTable points.now }
    requires whole { divisor.total ≡ total points.now }
    ensures same { length to.new ≡ length from.now }
    ensures done { IsDone dir points.now from.now to.new (length from.now / 8 * 8) result }
{
    if divisor.total < 0x1_0000_0000 {
        add_by_halves(from, to, points, divisor, dir)
    } else {
        add_by_quarters(from, to, points, divisor, dir)
    }
}
