//! The window of a tail, where its values change, and the addition of a table by the window alone.

ghost use Rattle.std.specs.Prelude.{◌≡◌, ℕ, ◌+◌, ◌<◌, ◌≤◌, min, length};
ghost use Rattle.prta_mass.specs.Table.{IsTable};
ghost use Rattle.prta_mass.specs.Chances.{at, last, IsChances};
ghost use Rattle.prta_dist.specs.Addition.{cells_added, is_rounded};
ghost use Rattle.prta_dist.specs.Window.{IsWindow};

use prta_dist::Kernel;
use prta_mass::{Dir, TimeTable};

// Adds the table to the tail by its window alone, without the rule on the last cell. `room` is work space.
pub(crate) fn add_to_tail<K: Kernel>(
    kernel: &K,
    tail: &mut [u64],
    room: &mut [u64],
    table: &TimeTable,
    dir: Dir,
) -> bool
    requires some { 0 < length tail.old }
    requires same { length room.old ≡ length tail.old }
    requires chances { IsChances tail.old }
    ensures tail { tail.new ≡ cells_added dir table.now tail.old }
    ensures rounded { result ≡ is_rounded table.now tail.old }
    ensures table { IsTable table.now }
{
    let (lo, hi) = window_of(tail);
    let end = at_most(hi, table.greatest() as usize, tail.len());
    let rounded = kernel.convolve(&tail[lo..end], &mut room[lo..end], table, dir);
    tail[lo..end].copy_from_slice(&room[lo..end]);
    rounded
}

// The window of the tail: the first cell that isn't 0 and the least place after it from which on all are the last one's.
fn window_of(tail: &[u64]) -> (usize, usize)
    requires { 0 < length tail.now }
    ensures { IsWindow tail.now result.0 result.1 }
{
    let lo = zero_end(tail);
    let hi = still_start(tail, lo);
    (lo, hi)
}

// The first cell that isn't 0, or the last one.
fn zero_end(tail: &[u64]) -> usize
    requires { 0 < length tail.now }
    ensures inside { result < length tail.now }
    ensures zero { (k : ℕ) → k < result → at tail.now k ≡ 0 }
{
    let end = tail.len() - 1;
    for k in 0..end {
        if tail[k] != 0 {
            return k;
        }
    }
    end
}

// The least place from lo on from which on all cells are the last one's.
fn still_start(tail: &[u64], lo: usize) -> usize
    requires { lo < length tail.now }
    ensures ordered { lo ≤ result }
    ensures inside { result < length tail.now }
    ensures still { (k : ℕ) → result ≤ k → at tail.now k ≡ last tail.now }
{
    let end = tail.len() - 1;
    for k in (lo..end).rev() {
        if tail[k] != tail[end] {
            return k + 1;
        }
    }
    lo
}

// The place that stands `more` after hi, or the length where that is less.
fn at_most(hi: usize, more: usize, len: usize) -> usize
    requires { hi ≤ len }
    ensures { result ≡ min (hi + more) len }
{
    if more < len - hi { hi + more } else { len }
}
