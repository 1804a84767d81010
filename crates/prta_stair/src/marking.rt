//! Marks: how much the weighted sum of an addition rises at each place.

ghost use Rattle.std.specs.Prelude.{◌≡◌, ℕ, ◌+◌, ◌-◌, ◌*◌, ◌<◌, ◌≤◌, ◌^◌, length, slice_index};
ghost use Rattle.prta_mass.specs.Chances.{before};
ghost use Rattle.prta_mass.specs.Table.{total};
ghost use Rattle.prta_stair.specs.Steps.{value_at, place, AreSteps};
ghost use Rattle.prta_stair.specs.Adding.{sum_at, sum_of_first};

use prta_mass::TimeTable;

// Where the sums of an addition may begin to rise, and a place from which on they are still, or the list ends.
pub(crate) fn window(steps: &[(u32, u64)], table: &TimeTable, cap: usize) -> (usize, usize)
    requires short { cap ≤ 16384 }
    requires steps { AreSteps cap steps.now }
    ensures ordered { result.0 ≤ result.1 }
    ensures inside { result.1 ≤ cap }
    ensures some { result.0 < cap → result.0 < result.1 }
    ensures steps { AreSteps result.1 steps.now }
    ensures low { (i : ℕ) → i < length steps.now → result.0 ≤ place steps.now i }
    ensures early { (k : ℕ) → k < result.0 → sum_at table.now steps.now k ≡ 0 }
    ensures late { (k : ℕ) → result.1 ≤ k → k < cap → sum_at table.now steps.now k ≡ sum_at table.now steps.now (result.1 - 1) }
{
    if steps.is_empty() {
        return (cap, cap);
    }
    let first = steps[0].0 as usize;
    let past = steps[steps.len() - 1].0 as usize + table.greatest() as usize + 1;
    (first, if past < cap { past } else { cap })
}

// Marks how much the sum rises at each place, the first of which is `first`.
pub(crate) fn mark_all(
    marks: &mut [u128],
    steps: &[(u32, u64)],
    points: &[(u32, u64)],
    first: usize,
)
    requires limited { total points.now ≤ 281474976710656 }
    requires steps { AreSteps (first + length marks.old) steps.now }
    requires low { (i : ℕ) → i < length steps.now → first ≤ place steps.now i }
    ensures sums { (j : ℕ) → j < length marks.old → sum_of_first (j + 1) marks.new ≡ sum_at points.now steps.now (first + j) }
{
    clear(marks);
    for i in 0..points.len() {
        mark(marks, steps, first, points[i].0 as usize, points[i].1);
    }
}

// Takes all marks away.
fn clear(marks: &mut [u128])
    ensures { (k : ℕ) → k < length marks.old → slice_index marks.new k ≡ 0 }
{
    for k in 0..marks.len() {
        marks[k] = 0;
    }
}

// Marks each step, so many ticks later, with its rise times the weight.
fn mark(marks: &mut [u128], steps: &[(u32, u64)], first: usize, time: usize, weight: u64)
    requires time { time < 2 ^ 32 }
    requires steps { AreSteps (first + length marks.old) steps.now }
    requires low { (i : ℕ) → i < length steps.now → first ≤ place steps.now i }
    requires fits { (j : ℕ) → j < length marks.old → sum_of_first (j + 1) marks.old + weight * before (value_at steps.now) (first + j) time < 2 ^ 127 }
    ensures sums { (j : ℕ) → j < length marks.old → sum_of_first (j + 1) marks.new ≡ sum_of_first (j + 1) marks.old + weight * before (value_at steps.now) (first + j) time }
{
    let mut under = 0;
    for i in 0..steps.len() {
        let at = steps[i].0 as usize - first + time;
        let value = steps[i].1;
        if at < marks.len() {
            marks[at] += weight as u128 * (value - under) as u128;
        }
        under = value;
    }
}
