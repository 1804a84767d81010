//! Operations on eight lanes, and eight cells of a list in them.

ghost use Rattle.std.specs.Prelude.{◌≡◌, ℕ, ◌+◌, ◌*◌, ◌/◌, ◌%◌, ◌^◌, ◌<◌, ◌≤◌, length, slice_index};
ghost use Rattle.prta_mass.specs.Chances.{at, before};

use std::simd::prelude::*;

#[inline(always)]
fn plus(a: u64x8, b: u64x8) -> u64x8
    ensures { (j : ℕ) → j < 8 → slice_index result j ≡ (slice_index a j + slice_index b j) % 2 ^ 64 }
{
    a + b
}

#[inline(always)]
fn times(a: u64x8, b: u64x8) -> u64x8
    ensures { (j : ℕ) → j < 8 → slice_index result j ≡ slice_index a j * slice_index b j % 2 ^ 64 }
{
    a * b
}

#[inline(always)]
fn same(w: u64) -> u64x8
    ensures { (j : ℕ) → j < 8 → slice_index result j ≡ w }
{
    u64x8::splat(w)
}

#[inline(always)]
pub(crate) fn low_32(x: u64x8) -> u64x8
    ensures { (j : ℕ) → j < 8 → slice_index result j ≡ slice_index x j % 2 ^ 32 }
{
    x & u64x8::splat(0xffff_ffff)
}

#[inline(always)]
pub(crate) fn down_32(x: u64x8) -> u64x8
    ensures { (j : ℕ) → j < 8 → slice_index result j ≡ slice_index x j / 2 ^ 32 }
{
    x >> 32
}

#[inline(always)]
pub(crate) fn low_15(x: u64x8) -> u64x8
    ensures { (j : ℕ) → j < 8 → slice_index result j ≡ slice_index x j % 2 ^ 15 }
{
    x & u64x8::splat(0x7fff)
}

#[inline(always)]
pub(crate) fn down_15(x: u64x8) -> u64x8
    ensures { (j : ℕ) → j < 8 → slice_index result j ≡ slice_index x j / 2 ^ 15 }
{
    x >> 15
}

#[inline(always)]
pub(crate) fn down_30(x: u64x8) -> u64x8
    ensures { (j : ℕ) → j < 8 → slice_index result j ≡ slice_index x j / 2 ^ 30 }
{
    x >> 30
}

#[inline(always)]
pub(crate) fn down_45(x: u64x8) -> u64x8
    ensures { (j : ℕ) → j < 8 → slice_index result j ≡ slice_index x j / 2 ^ 45 }
{
    x >> 45
}

// The sums with weighted limbs of 32 bits more. The weight is cut to its lower bits beside the product, so that one
// product of 32 bits is made in place of three.
#[inline(always)]
pub(crate) fn plus_half(sum: u64x8, limb: u64x8, weight: u64) -> u64x8
    requires small { weight < 2 ^ 32 }
    requires fits { (j : ℕ) → j < 8 → slice_index sum j + weight * slice_index limb j < 2 ^ 64 }
    ensures { (j : ℕ) → j < 8 → slice_index result j ≡ slice_index sum j + weight * slice_index limb j }
{
    plus(sum, times(low_32(same(weight)), limb))
}

// The sums with weighted limbs more.
#[inline(always)]
pub(crate) fn plus_limb(sum: u64x8, limb: u64x8, weight: u64) -> u64x8
    requires fits { (j : ℕ) → j < 8 → slice_index sum j + weight * slice_index limb j < 2 ^ 64 }
    ensures { (j : ℕ) → j < 8 → slice_index result j ≡ slice_index sum j + weight * slice_index limb j }
{
    plus(sum, times(same(weight), limb))
}

// The value `time` places before place k, 0 before the first cell.
#[inline(always)]
fn value_before(from: &[u64], k: usize, time: usize) -> u64
    requires place { k < length from.now }
    ensures { result ≡ before (at from.now) k time }
{
    if time <= k { from[k - time] } else { 0 }
}

// Those of the eight places from k on, some of them before the first cell.
#[inline(never)]
fn eight_at_start(from: &[u64], k: usize, time: usize) -> u64x8
    requires room { k + 8 ≤ length from.now }
    ensures { (j : ℕ) → j < 8 → slice_index result j ≡ before (at from.now) (k + j) time }
{
    let mut values = [0; 8];
    for j in 0..8 {
        values[j] = value_before(from, k + j, time);
    }
    u64x8::from_array(values)
}

// Those of the eight places from k on, all of them cells.
#[inline(always)]
fn eight_inside(from: &[u64], k: usize, time: usize) -> u64x8
    requires room { k + 8 ≤ length from.now }
    requires near { time ≤ k }
    ensures { (j : ℕ) → j < 8 → slice_index result j ≡ before (at from.now) (k + j) time }
{
    u64x8::from_slice(&from[k - time..])
}

// The values `time` places before the eight places from k on.
#[inline(always)]
pub(crate) fn eight_before(from: &[u64], k: usize, time: usize) -> u64x8
    requires room { k + 8 ≤ length from.now }
    ensures { (j : ℕ) → j < 8 → slice_index result j ≡ before (at from.now) (k + j) time }
{
    if time <= k {
        return eight_inside(from, k, time);
    }
    eight_at_start(from, k, time)
}
