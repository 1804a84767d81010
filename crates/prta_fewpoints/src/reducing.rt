//! The reduction of a wide table.

ghost use Rattle.std.specs.Prelude.{◌≡◌, ◌≤◌, IfOk, All};
ghost use Rattle.prta_mass.specs.Table.{IsTable};
ghost use Rattle.prta_fewpoints.specs.Choices.{IsReduction};
ghost use Rattle.prta_fewpoints.specs.Recursion.{reduced};

use crate::costs::least_costs;
use crate::keeping::kept_times;
use crate::laws::{reduction_is_one, reduction_is_table};
use crate::merging::merged;
use crate::wide::WideTable;
use prta_mass::{NoMemory, TableFault, TimeTable, faultless_pairs};
use std::alloc::Global;

/// The table of at most k points that stands for the wide one: each weight moves to the least kept time that isn't
/// below its own, and the sum of each weight times the ticks that it moves is the least that a choice of min(k, n) of the
/// n times can have. Of the choices that cost this, it is the one whose times come first, compared from the least on.
pub fn reduce(alloc: Global, wide: &WideTable, k: usize) -> Result<TimeTable, NoMemory>
    requires some { 1 ≤ k }
    requires few { k ≤ 32 }
    requires short { All (λ pair. pair.0 ≤ 1000000) wide.now }
    ensures reduction { IfOk result (λ table. IsReduction wide.now k table) }
    ensures recursion { IfOk result (λ table. table ≡ reduced wide.now k) }
{
    reduction_is_one();
    reduction_is_table();
    let pairs = wide.pairs();
    let count = k.min(pairs.len());
    let costs = least_costs(alloc, pairs, count)?;
    let times = kept_times(alloc, pairs, &costs, count)?;
    let points = merged(alloc, &times, pairs)?;
    table_of(alloc, &points)
}

// The table of points that make one.
fn table_of(alloc: Global, points: &[(u32, u64)]) -> Result<TimeTable, NoMemory>
    requires { IsTable points.now }
    ensures { IfOk result (λ table. table ≡ points.now) }
{
    faultless_pairs();
    match TimeTable::new(alloc, points) {
        Ok(table) => Ok(table),
        Err(TableFault::NoMemory) => Err(NoMemory),
        Err(_) => unreachable!(),
    }
}
