//! Curves: lists of chances as their users see them.

ghost use Rattle.std.specs.Prelude.{◌≡◌, ◌↔◌, ℕ, None, List, length, take, ◌<◌, ◌≤◌};
ghost use Rattle.prta_mass.specs.Unit.{unit};
ghost use Rattle.prta_mass.specs.Chances.{at, before, point, IsChances, Dominates};
ghost use Rattle.prta_shift.specs.Shift.{shifted};
ghost use Rattle.prta_resample.specs.Resample.{resampled, moved_amount};
ghost use Rattle.prta_dist.specs.Addition.{added, is_rounded, cut_amount};
ghost use Rattle.prta_dist.specs.Curve.{lower, raise, first_break};

use crate::effect::{Break, Effect};
use prta_mass::{Dir, Support, TimeTable};

/// A list of chances: cell k is the chance of a backlog of at most k ticks, in units of 2^-60. It has 3 to 16384 cells,
/// which don't fall and are at most the unit. No call takes memory.
pub trait Curve: Drop {
    // the cells
    ghost cells: { Self → List ℕ };

    /// The number of cells.
    fn cap(&self) -> usize
        ensures cap { result ≡ length (cells self.now) }
        ensures least { 3 ≤ result }
        ensures most { result ≤ 16384 }
        ensures chances { IsChances (cells self.now) };

    /// The value at any place: past the last cell it is the last cell's.
    fn at(&self, k: usize) -> u64
        ensures value { result ≡ at (cells self.now) k }
        ensures low { result ≤ unit };

    /// Makes it the point at b ticks: 0 below b, the unit from b on.
    fn point(&mut self, b: usize)
        requires { b < length (cells self.old) }
        ensures cells { cells self.new ≡ point (length (cells self.old)) b }
        ensures cap { length (cells self.new) ≡ length (cells self.old) };

    /// Adds a table, rounded in the direction, and applies the rule on the last cell.
    fn add(&mut self, table: &TimeTable, dir: Dir) -> Effect
        ensures cells { cells self.new ≡ added dir table.now (cells self.old) }
        ensures rounded { result.rounded ≡ is_rounded table.now (cells self.old) }
        ensures cut { result.cut ≡ cut_amount dir table.now (cells self.old) }
        ensures cap { length (cells self.new) ≡ length (cells self.old) };

    /// Shifts by t ticks.
    fn shift(&mut self, t: u64)
        ensures cells { cells self.new ≡ shifted t (cells self.old) }
        ensures cap { length (cells self.new) ≡ length (cells self.old) };

    /// Re-samples at the support and answers the moved amount, in units of 2^-60.
    fn resample(&mut self, support: Support, dir: Dir) -> u64
        requires { 1 ≤ support.step }
        ensures cells { cells self.new ≡ resampled dir support (cells self.old) }
        ensures moved { result ≡ moved_amount (cells self.old) (cells self.new) }
        ensures cap { length (cells self.new) ≡ length (cells self.old) };

    /// Makes it equal to another of as many cells.
    fn copy_from(&mut self, other: &Self)
        requires { length (cells other.now) ≡ length (cells self.old) }
        ensures cells { cells self.new ≡ cells other.now }
        ensures cap { length (cells self.new) ≡ length (cells self.old) };

    /// The first place where the image is below this list, with both cells. There is none exactly where this list
    /// dominates the image.
    fn first_break(&self, image: &Self) -> Option<Break>
        requires { length (cells image.now) ≡ length (cells self.now) }
        ensures first { result ≡ first_break (cells self.now) (cells image.now) }
        ensures none { (result ≡ None) ↔ Dominates (cells self.now) (cells image.now) };

    /// Writes the first cells, as many as there is room for.
    fn front(&self, room: &mut [u64])
        requires { length room.old ≤ length (cells self.now) }
        ensures { room.new ≡ take (length room.old) (cells self.now) };

    /// Takes s off each cell below `top`, not below 0, and sets the cells from `top` on to the unit.
    fn lower(&mut self, s: u64, top: usize)
        requires { top < length (cells self.old) }
        ensures cells { cells self.new ≡ lower s top (cells self.old) }
        ensures cap { length (cells self.new) ≡ length (cells self.old) };

    /// Sets the cells from the place on to the value.
    fn raise(&mut self, place: usize, value: u64)
        requires place { place < length (cells self.old) }
        requires low { value ≤ unit }
        requires rising { before (at (cells self.old)) place 1 ≤ value }
        ensures cells { cells self.new ≡ raise place value (cells self.old) }
        ensures cap { length (cells self.new) ≡ length (cells self.old) };
}
