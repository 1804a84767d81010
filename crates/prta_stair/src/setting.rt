//! Steps that are written one after another, and the lists that get a value from a place on.

ghost use Rattle.std.specs.Prelude.{◌≡◌, ℕ, ◌+◌, ◌-◌, ◌<◌, ◌≤◌, length, take};
ghost use Rattle.prta_mass.specs.Unit.{unit};
ghost use Rattle.prta_mass.specs.Chances.{before};
ghost use Rattle.prta_mass.specs.declared.direction.Dir.TheVariants.{Down};
ghost use Rattle.prta_dist.specs.Addition.{settled};
ghost use Rattle.prta_dist.specs.Curve.{lower, raise};
ghost use Rattle.prta_stair.specs.Steps.{value_at, cells_by_steps, place, height, AreSteps};
ghost use Rattle.prta_stair.specs.Setting.{IsPut};

use crate::reading::{last_of, seek, value};
use prta_mass::UNIT;

// Gives the list of the first `count` steps a value from a place on, at or behind which none of them stands.
pub(crate) fn put(to: &mut [(u32, u64)], count: usize, at: u32, value: u64) -> usize
    requires count { count ≤ length to.old }
    requires room { at < length to.old }
    requires steps { AreSteps (length to.old) (take count to.old) }
    requires low { value ≤ unit }
    requires before { (i : ℕ) → i < count → (place (take count to.old) i ≤ at) × (height (take count to.old) i < value) }
    requires some { 0 < value }
    ensures count { result ≤ count + 1 }
    ensures room { result ≤ length to.old }
    ensures put { IsPut (length to.old) at value (take count to.old) (take result to.new) }
{
    if count > 0 && to[count - 1].0 == at {
        to[count - 1] = (at, value);
        return count;
    }
    to[count] = (at, value);
    count + 1
}

// Copies the steps to the front of others.
pub(crate) fn copy_steps(from: &[(u32, u64)], to: &mut [(u32, u64)])
    requires { length from.now ≤ length to.old }
    ensures { take (length from.now) to.new ≡ from.now }
{
    to[..from.len()].copy_from_slice(from);
}

// Sets the last cell of the list of the first `count` steps to the unit.
pub(crate) fn settle(to: &mut [(u32, u64)], count: usize) -> usize
    requires some { 0 < length to.old }
    requires most { length to.old ≤ 16384 }
    requires count { count ≤ length to.old }
    requires steps { AreSteps (length to.old) (take count to.old) }
    ensures count { result ≤ length to.old }
    ensures steps { AreSteps (length to.old) (take result to.new) }
    ensures cells { cells_by_steps (length to.old) (take result to.new) ≡ settled Down (cells_by_steps (length to.old) (take count to.old)) }
{
    if last_of(to, count) == UNIT {
        return count;
    }
    let end = to.len() - 1;
    put(to, count, end as u32, UNIT)
}

// Sets the cells from the place on to the value.
pub(crate) fn raise_steps(
    steps: &mut [(u32, u64)],
    count: usize,
    place: usize,
    height: u64,
) -> usize
    requires most { length steps.old ≤ 16384 }
    requires count { count ≤ length steps.old }
    requires steps { AreSteps (length steps.old) (take count steps.old) }
    requires place { place < length steps.old }
    requires low { height ≤ unit }
    requires rising { before (value_at (take count steps.old)) place 1 ≤ height }
    ensures count { result ≤ length steps.old }
    ensures steps { AreSteps (length steps.old) (take result steps.new) }
    ensures cells { cells_by_steps (length steps.old) (take result steps.new) ≡ raise place height (cells_by_steps (length steps.old) (take count steps.old)) }
{
    let kept = seek(&steps[..count], 1, place);
    if value(&steps[..count], 1, place, kept) == height {
        return kept;
    }
    steps[kept] = (place as u32, height);
    kept + 1
}

// Takes s off the cells below `top`, not below 0, and sets the others to the unit.
pub(crate) fn lower_steps(steps: &[(u32, u64)], to: &mut [(u32, u64)], s: u64, top: usize) -> usize
    requires most { length to.old ≤ 16384 }
    requires steps { AreSteps (length to.old) steps.now }
    requires top { top < length to.old }
    ensures count { result ≤ length to.old }
    ensures steps { AreSteps (length to.old) (take result to.new) }
    ensures cells { cells_by_steps (length to.old) (take result to.new) ≡ lower s top (cells_by_steps (length to.old) steps.now) }
{
    let count = lower_below(steps, to, s, top);
    if last_of(to, count) == UNIT {
        return count;
    }
    put(to, count, top as u32, UNIT)
}

// Takes s off the steps below `top`, and drops those that become 0 and those from `top` on.
fn lower_below(steps: &[(u32, u64)], to: &mut [(u32, u64)], s: u64, top: usize) -> usize
    requires steps { AreSteps (length to.old) steps.now }
    requires top { top < length to.old }
    ensures count { result ≤ length to.old }
    ensures steps { AreSteps (length to.old) (take result to.new) }
    ensures below { (i : ℕ) → i < result → place (take result to.new) i < top }
    ensures values { (k : ℕ) → k < top → value_at (take result to.new) k ≡ value_at steps.now k - s }
{
    let kept = seek(steps, 1, top);
    let mut count = 0;
    for i in 0..kept {
        let height = steps[i].1.saturating_sub(s);
        if height > 0 {
            count = put(to, count, steps[i].0, height);
        }
    }
    count
}
