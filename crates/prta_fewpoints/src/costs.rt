//! The least costs of moving the pairs from a place on to just so many times, in one list.

ghost use Rattle.std.specs.Prelude.{◌≡◌, suc, ◌+◌, ◌*◌, ◌/◌, ◌%◌, ◌<◌, ◌≤◌, ◌^◌, length, drop, IfOk, IfSome};
ghost use Rattle.prta_fewpoints.specs.Wide.{IsWide};
ghost use Rattle.prta_fewpoints.specs.Recursion.{least_cost};
ghost use Rattle.prta_fewpoints.specs.Costs.{AreCosts, AreShort};

use crate::gathered::{Gathered, lesser, plus};
use prta_mass::NoMemory;
use std::alloc::Global;

// The least costs of fewer times than `rows`, row by row, each row by the place. Their memory is taken at once.
pub(crate) fn least_costs(
    alloc: Global,
    pairs: &[(u32, u64)],
    rows: usize,
) -> Result<Vec<Option<u128>>, NoMemory>
    requires wide { IsWide pairs.now }
    requires short { AreShort pairs.now }
    requires few { rows ≤ 32 }
    ensures costs { IfOk result (λ costs. AreCosts pairs.now costs.items) }
    ensures size { IfOk result (λ costs. length costs.items ≡ rows * (length pairs.now + 1)) }
{
    let places = pairs.len() + 1;
    let mut costs = Vec::with_capacity(alloc, rows * places)?;
    for at in 0..rows * places {
        let cost = cost_of(pairs, &costs, at / places, at % places);
        costs.push(cost)?;
    }
    Ok(costs)
}

// The least cost of moving the pairs from `start` on to just `count` times. The rows before are there.
fn cost_of(pairs: &[(u32, u64)], costs: &[Option<u128>], count: usize, start: usize) -> Option<u128>
    requires wide { IsWide pairs.now }
    requires short { AreShort pairs.now }
    requires costs { AreCosts pairs.now costs.now }
    requires rows { count * (length pairs.now + 1) ≤ length costs.now }
    requires few { count < 32 }
    requires within { start ≤ length pairs.now }
    ensures { result ≡ least_cost count (drop start pairs.now) }
{
    if count == 0 {
        return if start == pairs.len() { Some(0) } else { None };
    }
    cost_from(pairs, costs, count - 1, start)
}

// The same with one time more than `count`: the least over the places of the first chosen time.
pub(crate) fn cost_from(
    pairs: &[(u32, u64)],
    costs: &[Option<u128>],
    count: usize,
    start: usize,
) -> Option<u128>
    requires wide { IsWide pairs.now }
    requires short { AreShort pairs.now }
    requires costs { AreCosts pairs.now costs.now }
    requires rows { (count + 1) * (length pairs.now + 1) ≤ length costs.now }
    requires few { count < 32 }
    requires within { start ≤ length pairs.now }
    ensures { result ≡ least_cost (suc count) (drop start pairs.now) }
{
    let mut best = None;
    let mut gathered = Gathered::nothing();
    for i in start..pairs.len() {
        let (time, weight) = pairs[i];
        best = lesser(
            best,
            plus(gathered.at(time), cost_at(pairs, costs, count, i + 1)),
        );
        gathered = gathered.with(time, weight);
    }
    best
}

// The least cost of moving the pairs from `start` on to just `count` times, out of the list.
pub(crate) fn cost_at(
    pairs: &[(u32, u64)],
    costs: &[Option<u128>],
    count: usize,
    start: usize,
) -> Option<u128>
    requires wide { IsWide pairs.now }
    requires short { AreShort pairs.now }
    requires costs { AreCosts pairs.now costs.now }
    requires rows { (count + 1) * (length pairs.now + 1) ≤ length costs.now }
    requires few { count < 32 }
    requires within { start ≤ length pairs.now }
    ensures cost { result ≡ least_cost count (drop start pairs.now) }
    ensures low { IfSome result (λ cost. cost ≤ 2 ^ 80) }
{
    costs[count * (pairs.len() + 1) + start]
}
