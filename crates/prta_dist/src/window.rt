//! The window of cells, where their values change, and the addition of a table by the window alone.

ghost use Rattle.std.specs.Prelude.{◌≡◌, ℕ, ◌-◌, ◌<◌, ◌≤◌, length};
ghost use Rattle.prta_mass.specs.Unit.{unit};
ghost use Rattle.prta_mass.specs.Chances.{at, last, IsChances};
ghost use Rattle.prta_shift.specs.Shift.{shifted};
ghost use Rattle.prta_dist.specs.Addition.{cells_added, settled, added, missing, is_rounded, cut_amount};
ghost use Rattle.prta_dist.specs.Window.{IsWindow};

use crate::effect::Effect;
use crate::kernel::Kernel;
use prta_mass::{Dir, TimeTable, UNIT};
use prta_shift::shift_cells;

// The window of the cells. Each end is sought from a place that is likely near it; any place will do.
pub(crate) fn window_of(cells: &[u64], near_lo: usize, near_hi: usize) -> (usize, usize)
    requires some { 0 < length cells.now }
    requires chances { IsChances cells.now }
    ensures { IsWindow cells.now result.0 result.1 }
{
    let lo = zero_end(cells, near_lo);
    let hi = still_start(cells, lo, near_hi);
    (lo, hi)
}

// A place below which the cells are 0: the first cell that isn't, or the last cell, where `near` isn't past it.
fn zero_end(cells: &[u64], near: usize) -> usize
    requires some { 0 < length cells.now }
    requires chances { IsChances cells.now }
    ensures inside { result < length cells.now }
    ensures zero { (k : ℕ) → k < result → at cells.now k ≡ 0 }
{
    let end = cells.len() - 1;
    let start = if 0 < near && near <= end && cells[near - 1] == 0 {
        near
    } else {
        0
    };
    for k in start..end {
        if cells[k] != 0 {
            return k;
        }
    }
    end
}

// A place not below lo from which on the cells are all the last one's.
fn still_start(cells: &[u64], lo: usize, near: usize) -> usize
    requires low { lo < length cells.now }
    requires chances { IsChances cells.now }
    ensures ordered { lo ≤ result }
    ensures inside { result < length cells.now }
    ensures still { (k : ℕ) → result ≤ k → at cells.now k ≡ last cells.now }
{
    let end = cells.len() - 1;
    let last = cells[end];
    let start = if lo <= near && near <= end && cells[near] == last {
        near
    } else {
        end
    };
    for k in (lo..start).rev() {
        if cells[k] != last {
            return k + 1;
        }
    }
    lo
}

// Shifts the cells by t ticks, by their window alone.
pub(crate) fn shift_in_window(cells: &mut [u64], lo: usize, hi: usize, t: u64)
    requires { IsWindow cells.old lo hi }
    ensures { cells.new ≡ shifted t cells.old }
{
    let start = (lo as u64).saturating_sub(t) as usize;
    shift_cells(&mut cells[start..hi + 1], t);
}

// Adds the table to the cells by their window alone, without the rule on the last cell. `spare` is work space.
fn add_in_window<K: Kernel>(
    kernel: &K,
    cells: &mut [u64],
    spare: &mut [u64],
    lo: usize,
    hi: usize,
    table: &TimeTable,
    dir: Dir,
) -> bool
    requires room { length spare.old ≡ length cells.old }
    requires short { length cells.old ≤ 16384 }
    requires chances { IsChances cells.old }
    requires window { IsWindow cells.old lo hi }
    ensures cells { cells.new ≡ cells_added dir table.now cells.old }
    ensures rounded { result ≡ is_rounded table.now cells.old }
{
    let far = hi + table.greatest() as usize;
    let end = if far < cells.len() { far } else { cells.len() };
    let rounded = kernel.convolve(&cells[lo..end], &mut spare[lo..end], table, dir);
    cells[lo..end].copy_from_slice(&spare[lo..end]);
    rounded
}

// Applies the rule on the last cell, and tells what was cut off. `before` is the last cell before the addition.
fn settle(cells: &mut [u64], before: u64, dir: Dir) -> u64
    requires some { 0 < length cells.old }
    requires low { last cells.old ≤ unit }
    requires falls { last cells.old ≤ before }
    ensures cells { cells.new ≡ settled dir cells.old }
    ensures cut { result ≡ missing dir before (last cells.old) }
{
    let end = cells.len() - 1;
    let computed = cells[end];
    match dir {
        Dir::Up => before - computed,
        Dir::Down => {
            cells[end] = UNIT;
            UNIT - computed
        }
    }
}

// Adds the table to the cells by their window, the rule on the last cell included. Tells the new window too.
pub(crate) fn add_table<K: Kernel>(
    kernel: &K,
    cells: &mut [u64],
    spare: &mut [u64],
    window: (usize, usize),
    table: &TimeTable,
    dir: Dir,
) -> (Effect, (usize, usize))
    requires some { 0 < length cells.old }
    requires short { length cells.old ≤ 16384 }
    requires room { length spare.old ≡ length cells.old }
    requires chances { IsChances cells.old }
    requires window { IsWindow cells.old window.0 window.1 }
    ensures cells { cells.new ≡ added dir table.now cells.old }
    ensures rounded { result.0.rounded ≡ is_rounded table.now cells.old }
    ensures cut { result.0.cut ≡ cut_amount dir table.now cells.old }
    ensures chances { IsChances cells.new }
    ensures window { IsWindow cells.new result.1.0 result.1.1 }
{
    let (lo, hi) = window;
    let near = hi + table.greatest() as usize;
    let before = cells[cells.len() - 1];
    let rounded = add_in_window(kernel, cells, spare, lo, hi, table, dir);
    let cut = settle(cells, before, dir);
    (Effect { rounded, cut }, window_of(cells, lo, near))
}
