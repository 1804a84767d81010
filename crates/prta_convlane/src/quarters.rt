//! Eight cells at a time by quarters of 15 bits, for every total up to 2^48.

ghost use Rattle.std.specs.Prelude.{◌≡◌, ℕ, ◌+◌, ◌*◌, ◌/◌, ◌^◌, ◌<◌, ◌≤◌, length, slice_index};
ghost use Rattle.prta_mass.specs.Table.{total};
ghost use Rattle.prta_mass.specs.Chances.{at, before, IsChances};
ghost use Rattle.prta_convlane.specs.Limbs.{top_quarter, high_quarter, middle_quarter, low_quarter, limb_sum};
ghost use Rattle.prta_convlane.specs.Progress.{IsDone};

use crate::cells::rounded_quotient;
use crate::lanes::{down_15, down_30, down_45, eight_before, low_15, plus_limb};
use prta_mass::{Dir, Divisor};
use std::simd::prelude::*;

// The sums of the quarters, from the highest on.
type Sums = (u64x8, u64x8, u64x8, u64x8);

// The sums of all quarters with one pair more. A time past all eight places adds nothing.
#[inline(always)]
fn plus_pair(sums: Sums, from: &[u64], k: usize, time: usize, weight: u64) -> Sums
    requires room { k + 8 ≤ length from.now }
    requires top_fits { (j : ℕ) → j < 8 → slice_index sums.0 j + weight * top_quarter (before (at from.now) (k + j) time) < 2 ^ 64 }
    requires high_fits { (j : ℕ) → j < 8 → slice_index sums.1 j + weight * high_quarter (before (at from.now) (k + j) time) < 2 ^ 64 }
    requires middle_fits { (j : ℕ) → j < 8 → slice_index sums.2 j + weight * middle_quarter (before (at from.now) (k + j) time) < 2 ^ 64 }
    requires low_fits { (j : ℕ) → j < 8 → slice_index sums.3 j + weight * low_quarter (before (at from.now) (k + j) time) < 2 ^ 64 }
    ensures top { (j : ℕ) → j < 8 → slice_index result.0 j ≡ slice_index sums.0 j + weight * top_quarter (before (at from.now) (k + j) time) }
    ensures high { (j : ℕ) → j < 8 → slice_index result.1 j ≡ slice_index sums.1 j + weight * high_quarter (before (at from.now) (k + j) time) }
    ensures middle { (j : ℕ) → j < 8 → slice_index result.2 j ≡ slice_index sums.2 j + weight * middle_quarter (before (at from.now) (k + j) time) }
    ensures low { (j : ℕ) → j < 8 → slice_index result.3 j ≡ slice_index sums.3 j + weight * low_quarter (before (at from.now) (k + j) time) }
{
    if time >= k + 8 {
        return sums;
    }
    let (top, high, middle, low) = sums;
    let x = eight_before(from, k, time);
    (
        plus_limb(top, down_45(x), weight),
        plus_limb(high, low_15(down_30(x)), weight),
        plus_limb(middle, low_15(down_15(x)), weight),
        plus_limb(low, low_15(x), weight),
    )
}

// The weighted sums of the quarters at the eight places from k on.
#[inline(always)]
fn quarter_sums(from: &[u64], points: &[(u32, u64)], k: usize) -> Sums
    requires room { k + 8 ≤ length from.now }
    requires chances { IsChances from.now }
    requires limited { total points.now ≤ 281474976710656 }
    ensures top { (j : ℕ) → j < 8 → slice_index result.0 j ≡ limb_sum top_quarter points.now from.now (k + j) }
    ensures high { (j : ℕ) → j < 8 → slice_index result.1 j ≡ limb_sum high_quarter points.now from.now (k + j) }
    ensures middle { (j : ℕ) → j < 8 → slice_index result.2 j ≡ limb_sum middle_quarter points.now from.now (k + j) }
    ensures low { (j : ℕ) → j < 8 → slice_index result.3 j ≡ limb_sum low_quarter points.now from.now (k + j) }
{
    let none = u64x8::splat(0);
    let mut sums = (none, none, none, none);
    for point in points {
        sums = plus_pair(sums, from, k, point.0 as usize, point.1);
    }
    sums
}

// The eight cells from k on. `before` and the result tell whether a cell so far left a remainder.
#[inline(always)]
fn add_eight(
    from: &[u64],
    to: &mut [u64],
    points: &[(u32, u64)],
    k: usize,
    divisor: Divisor,
    dir: Dir,
    before: bool,
) -> bool
    requires room { k + 8 ≤ length from.now }
    requires same { length to.old ≡ length from.now }
    requires chances { IsChances from.now }
    requires whole { divisor.total ≡ total points.now }
    requires limited { divisor.total ≤ 281474976710656 }
    requires done { IsDone dir points.now from.now to.old k before }
    ensures same { length to.new ≡ length from.now }
    ensures done { IsDone dir points.now from.now to.new (k + 8) result }
{
    let (top, high, middle, low) = quarter_sums(from, points, k);
    let top = top.to_array();
    let high = high.to_array();
    let middle = middle.to_array();
    let low = low.to_array();
    let mut rounded = before;
    for j in 0..8 {
        let sum = top[j] as u128 * 0x2000_0000_0000
            + high[j] as u128 * 0x4000_0000
            + middle[j] as u128 * 0x8000
            + low[j] as u128;
        let (cell, rest) = rounded_quotient(sum, divisor, dir);
        to[k + j] = cell;
        rounded = rounded | rest;
    }
    rounded
}

// All cells that fill lanes. Tells whether one of them left a remainder.
pub(crate) fn add_by_quarters(
    from: &[u64],
    to: &mut [u64],
    points: &[(u32, u64)],
    divisor: Divisor,
    dir: Dir,
) -> bool
    requires same { length to.old ≡ length from.now }
    requires chances { IsChances from.now }
    requires whole { divisor.total ≡ total points.now }
    requires limited { divisor.total ≤ 281474976710656 }
    ensures same { length to.new ≡ length from.now }
    ensures done { IsDone dir points.now from.now to.new (length from.now / 8 * 8) result }
{
    let mut rounded = false;
    for block in 0..from.len() / 8 {
        rounded = add_eight(from, to, points, block * 8, divisor, dir, rounded);
    }
    rounded
}
