//! Eight cells at a time by halves of 32 bits, for totals below 2^32.

ghost use Rattle.std.specs.Prelude.{◌≡◌, ℕ, ◌+◌, ◌*◌, ◌/◌, ◌^◌, ◌<◌, ◌≤◌, length, slice_index};
ghost use Rattle.prta_mass.specs.Table.{total};
ghost use Rattle.prta_mass.specs.Chances.{at, before, IsChances};
ghost use Rattle.prta_convlane.specs.Limbs.{high_half, low_half, limb_sum};
ghost use Rattle.prta_convlane.specs.Progress.{IsDone};

use crate::cells::rounded_quotient;
use crate::lanes::{down_32, eight_before, low_32, plus_half};
use prta_mass::{Dir, Divisor};
use std::simd::prelude::*;

// The sums of both halves with one pair more. A time past all eight places adds nothing.
#[inline(always)]
fn plus_pair(
    high: u64x8,
    low: u64x8,
    from: &[u64],
    k: usize,
    time: usize,
    weight: u64,
) -> (u64x8, u64x8)
    requires room { k + 8 ≤ length from.now }
    requires small { weight < 2 ^ 32 }
    requires high_fits { (j : ℕ) → j < 8 → slice_index high j + weight * high_half (before (at from.now) (k + j) time) < 2 ^ 64 }
    requires low_fits { (j : ℕ) → j < 8 → slice_index low j + weight * low_half (before (at from.now) (k + j) time) < 2 ^ 64 }
    ensures high { (j : ℕ) → j < 8 → slice_index result.0 j ≡ slice_index high j + weight * high_half (before (at from.now) (k + j) time) }
    ensures low { (j : ℕ) → j < 8 → slice_index result.1 j ≡ slice_index low j + weight * low_half (before (at from.now) (k + j) time) }
{
    if time >= k + 8 {
        return (high, low);
    }
    let x = eight_before(from, k, time);
    (
        plus_half(high, down_32(x), weight),
        plus_half(low, low_32(x), weight),
    )
}

// The weighted sums of both halves at the eight places from k on.
#[inline(always)]
fn half_sums(from: &[u64], points: &[(u32, u64)], k: usize) -> (u64x8, u64x8)
    requires room { k + 8 ≤ length from.now }
    requires chances { IsChances from.now }
    requires small { total points.now < 2 ^ 32 }
    ensures high { (j : ℕ) → j < 8 → slice_index result.0 j ≡ limb_sum high_half points.now from.now (k + j) }
    ensures low { (j : ℕ) → j < 8 → slice_index result.1 j ≡ limb_sum low_half points.now from.now (k + j) }
{
    let mut high = u64x8::splat(0);
    let mut low = u64x8::splat(0);
    for point in points {
        (high, low) = plus_pair(high, low, from, k, point.0 as usize, point.1);
    }
    (high, low)
}

// The eight cells from k on. `before` and the result tell whether a cell so far left a remainder.
#[inline(always)]
fn add_eight(
    from: &[u64],
    to: &mut [u64],
    points: &[(u32, u64)],
    k: usize,
    divisor: Divisor,
    dir: Dir,
    before: bool,
) -> bool
    requires room { k + 8 ≤ length from.now }
    requires same { length to.old ≡ length from.now }
    requires chances { IsChances from.now }
    requires whole { divisor.total ≡ total points.now }
    requires small { divisor.total < 2 ^ 32 }
    requires done { IsDone dir points.now from.now to.old k before }
    ensures same { length to.new ≡ length from.now }
    ensures done { IsDone dir points.now from.now to.new (k + 8) result }
{
    let (high, low) = half_sums(from, points, k);
    let high = high.to_array();
    let low = low.to_array();
    let mut rounded = before;
    for j in 0..8 {
        let sum = high[j] as u128 * 0x1_0000_0000 + low[j] as u128;
        let (cell, rest) = rounded_quotient(sum, divisor, dir);
        to[k + j] = cell;
        rounded = rounded | rest;
    }
    rounded
}

// All cells that fill lanes. Tells whether one of them left a remainder.
pub(crate) fn add_by_halves(
    from: &[u64],
    to: &mut [u64],
    points: &[(u32, u64)],
    divisor: Divisor,
    dir: Dir,
) -> bool
    requires same { length to.old ≡ length from.now }
    requires chances { IsChances from.now }
    requires whole { divisor.total ≡ total points.now }
    requires small { divisor.total < 2 ^ 32 }
    ensures same { length to.new ≡ length from.now }
    ensures done { IsDone dir points.now from.now to.new (length from.now / 8 * 8) result }
{
    let mut rounded = false;
    for block in 0..from.len() / 8 {
        rounded = add_eight(from, to, points, block * 8, divisor, dir, rounded);
    }
    rounded
}
