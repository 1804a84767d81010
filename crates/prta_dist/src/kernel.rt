//! The addition of a table to a list of chances, as one call over cells.

ghost use Rattle.std.specs.Prelude.{◌≡◌, length};
ghost use Rattle.prta_mass.specs.Chances.{IsChances};
ghost use Rattle.prta_dist.specs.Addition.{cells_added, is_rounded};

use prta_mass::{Dir, TimeTable};

/// Adds tables to lists of chances.
pub trait Kernel: Drop {
    /// Writes into `to` the cells of `from` after the addition of the table, in units of 2^-60, without the rule on
    /// the last cell. Answers whether some cell's division by the table's total left a remainder.
    fn convolve(&self, from: &[u64], to: &mut [u64], table: &TimeTable, dir: Dir) -> bool
        requires same { length to.old ≡ length from.now }
        requires chances { IsChances from.now }
        ensures cells { to.new ≡ cells_added dir table.now from.now }
        ensures rounded { result ≡ is_rounded table.now from.now };
}
