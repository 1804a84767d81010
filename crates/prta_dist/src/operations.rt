//! What the calls of a curve do to cells, the addition apart.

ghost use Rattle.std.specs.Prelude.{◌≡◌, ◌<◌, ◌≤◌, length};
ghost use Rattle.prta_mass.specs.Chances.{at, point};
ghost use Rattle.prta_dist.specs.Curve.{lower, raise, first_break};

use crate::effect::Break;
use prta_mass::UNIT;

// Makes the cells the point at b.
pub(crate) fn write_point(cells: &mut [u64], b: usize)
    ensures { cells.new ≡ point (length cells.old) b }
{
    for k in 0..cells.len() {
        cells[k] = if k < b { 0 } else { UNIT };
    }
}

// Takes s off each cell below `top`, not below 0, and sets the others to the unit.
pub(crate) fn lower_cells(cells: &mut [u64], s: u64, top: usize)
    ensures { cells.new ≡ lower s top cells.old }
{
    for k in 0..cells.len() {
        cells[k] = if k < top {
            cells[k].saturating_sub(s)
        } else {
            UNIT
        };
    }
}

// Sets the cells from the place on to the value.
pub(crate) fn raise_cells(cells: &mut [u64], place: usize, value: u64)
    requires { place ≤ length cells.old }
    ensures { cells.new ≡ raise place value cells.old }
{
    for k in place..cells.len() {
        cells[k] = value;
    }
}

// The first place where the image is below the cells.
pub(crate) fn first_break_of(cells: &[u64], image: &[u64]) -> Option<Break>
    requires { length image.now ≡ length cells.now }
    ensures { result ≡ first_break cells.now image.now }
{
    for k in 0..cells.len() {
        if image[k] < cells[k] {
            return Some(Break {
                place: k,
                had: cells[k],
                got: image[k],
            });
        }
    }
    None
}
