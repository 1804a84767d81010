//! Re-sampling in place.

ghost use Rattle.std.specs.Prelude.{◌≡◌, ◌+◌, ◌-◌, ◌%◌, ◌<◌, ◌≤◌, min, max, length};
ghost use Rattle.std.specs.List.Sorted.{IsNonDecreasing};
ghost use Rattle.prta_resample.specs.Resample.{resampled, moved_amount};

use prta_mass::{Dir, Support};

/// Re-samples the cells, with their number as the cap, and answers the moved amount in units of 2^-60.
pub fn resample_cells(cells: &mut [u64], support: Support, dir: Dir) -> u64
    requires some { 0 < length cells.old }
    requires rising { IsNonDecreasing cells.old }
    requires step { 1 ≤ support.step }
    ensures cells { cells.new ≡ resampled dir support cells.old }
    ensures moved { result ≡ moved_amount cells.old cells.new }
{
    match dir {
        Dir::Up => resample_up(cells, support),
        Dir::Down => resample_down(cells, support),
    }
}

// From the first cell on: a support point's value is held until the next one.
fn resample_up(cells: &mut [u64], support: Support) -> u64
    requires some { 0 < length cells.old }
    requires rising { IsNonDecreasing cells.old }
    requires step { 1 ≤ support.step }
    ensures cells { cells.new ≡ resampled Dir.Up support cells.old }
    ensures moved { result ≡ moved_amount cells.old cells.new }
{
    let last = cells.len() - 1;
    let step = support.step as usize;
    let first = smaller(support.fine as usize, last);
    let mut held = cells[first];
    let mut past = (first + 1) % step;
    let mut moved = 0;
    for k in first + 1..last {
        if past == 0 {
            held = cells[k];
        } else {
            moved = larger(moved, cells[k] - held);
            cells[k] = held;
        }
        past = one_further(past, step);
    }
    moved
}

// From the last cell backwards: what stands just before a support point is held down to the one before.
fn resample_down(cells: &mut [u64], support: Support) -> u64
    requires some { 0 < length cells.old }
    requires rising { IsNonDecreasing cells.old }
    requires step { 1 ≤ support.step }
    ensures cells { cells.new ≡ resampled Dir.Down support cells.old }
    ensures moved { result ≡ moved_amount cells.old cells.new }
{
    let last = cells.len() - 1;
    let step = support.step as usize;
    let first = smaller(support.fine as usize, last);
    let mut k = last.saturating_sub(1);
    let mut held = cells[k];
    let mut past = k % step;
    let mut moved = 0;
    while k > first {
        k -= 1;
        if past == 0 {
            held = cells[k];
        } else {
            moved = larger(moved, held - cells[k]);
            cells[k] = held;
        }
        past = one_back(past, step);
    }
    moved
}

fn smaller(a: usize, b: usize) -> usize
    ensures { result ≡ min a b }
{
    if a < b { a } else { b }
}

fn larger(a: u64, b: u64) -> u64
    ensures { result ≡ max a b }
{
    if a < b { b } else { a }
}

// How far the next place is past a multiple of step, where this one is that far past one.
fn one_further(past: usize, step: usize) -> usize
    requires { past < step }
    ensures { result ≡ (past + 1) % step }
{
    if past + 1 == step { 0 } else { past + 1 }
}

// How far the place before is past a multiple of step, where this one is that far past one.
fn one_back(past: usize, step: usize) -> usize
    requires { past < step }
    ensures { result ≡ (past + (step - 1)) % step }
{
    if past == 0 { step - 1 } else { past - 1 }
}
