//! The delay of a response by a job of a higher task.

ghost use Rattle.std.specs.Prelude.{◌≡◌, ◌<◌, length};
ghost use Rattle.prta_mass.specs.Chances.{IsChances};
ghost use Rattle.prta_preempt.specs.Delay.{delayed, is_delay_rounded};

use crate::splits::{merge, split};
use crate::window::add_to_tail;
use prta_dist::Kernel;
use prta_mass::{Dir, TimeTable};

/// Delays the cells by a job with the times of the table that is released d ticks after the delayed job: a response
/// that ends by d stays, a later one ends one of these times later. Answers whether some cell's division by the
/// table's total left a remainder. `tail` and `room` are work space, and hold anything afterwards.
pub fn delay<K: Kernel>(
    kernel: &K,
    cells: &mut [u64],
    tail: &mut [u64],
    room: &mut [u64],
    table: &TimeTable,
    d: usize,
    dir: Dir,
) -> bool
    requires tails { length tail.old ≡ length cells.old }
    requires rooms { length room.old ≡ length cells.old }
    requires place { d < length cells.old }
    requires chances { IsChances cells.old }
    ensures cells { cells.new ≡ delayed dir table.now d cells.old }
    ensures rounded { result ≡ is_delay_rounded table.now d cells.old }
{
    split(cells, d, tail);
    let rounded = add_to_tail(kernel, tail, room, table, dir);
    merge(cells, d, tail);
    rounded
}
