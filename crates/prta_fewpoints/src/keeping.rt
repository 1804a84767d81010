//! Which times the reduction keeps.

ghost use Rattle.std.specs.Prelude.{◌≡◌, suc, ◌+◌, ◌*◌, ◌<◌, ◌≤◌, ◌∷◌, length, drop, slice_index_or, IfOk, IsSome};
ghost use Rattle.prta_fewpoints.specs.Wide.{IsWide};
ghost use Rattle.prta_fewpoints.specs.Recursion.{least_cost, picks};
ghost use Rattle.prta_fewpoints.specs.Costs.{AreCosts, AreShort};

use crate::costs::{cost_at, cost_from};
use crate::gathered::{Gathered, plus, reaches};
use prta_mass::NoMemory;
use std::alloc::Global;

// The times of the cheapest choice of `count`, the first of those, from the least on.
pub(crate) fn kept_times(
    alloc: Global,
    pairs: &[(u32, u64)],
    costs: &[Option<u128>],
    count: usize,
) -> Result<Vec<u32>, NoMemory>
    requires wide { IsWide pairs.now }
    requires short { AreShort pairs.now }
    requires costs { AreCosts pairs.now costs.now }
    requires rows { count * (length pairs.now + 1) ≤ length costs.now }
    requires few { count ≤ 32 }
    requires some { 0 < count }
    requires within { count ≤ length pairs.now }
    ensures { IfOk result (λ times. times.items ≡ picks count pairs.now) }
{
    let mut times = Vec::with_capacity(alloc, count)?;
    let mut start = 0;
    for left in (0..count).rev() {
        let place = next_place(pairs, costs, left, start);
        times.push(pairs[place].0)?;
        start = place + 1;
    }
    Ok(times)
}

// The place of the first of these times, where `left` more come after it: the first with the least cost.
fn next_place(pairs: &[(u32, u64)], costs: &[Option<u128>], left: usize, start: usize) -> usize
    requires wide { IsWide pairs.now }
    requires short { AreShort pairs.now }
    requires costs { AreCosts pairs.now costs.now }
    requires rows { (left + 1) * (length pairs.now + 1) ≤ length costs.now }
    requires few { left < 32 }
    requires within { start ≤ length pairs.now }
    requires some { IsSome (least_cost (suc left) (drop start pairs.now)) }
    ensures inside { result < length pairs.now }
    ensures picked { picks (suc left) (drop start pairs.now) ≡ (slice_index_or pairs.now result (0, 0)).0 ∷ picks left (drop (result + 1) pairs.now) }
    ensures more { IsSome (least_cost left (drop (result + 1) pairs.now)) }
{
    let goal = cost_from(pairs, costs, left, start);
    let mut gathered = Gathered::nothing();
    for i in start..pairs.len() {
        let (time, weight) = pairs[i];
        let cost = plus(gathered.at(time), cost_at(pairs, costs, left, i + 1));
        if reaches(cost, goal) {
            return i;
        }
        gathered = gathered.with(time, weight);
    }
    unreachable!()
}
