//! How the weight of a tail grows over the time of a job.

ghost use Rattle.std.specs.Prelude.{◌≡◌, ◌+◌, ◌*◌, ◌^◌, ◌<◌, ◌≤◌, min, true, Contains};
ghost use Rattle.std.specs.Int.{div_ceil};
ghost use Rattle.std.specs.List.{list_all};
ghost use Rattle.prta_tail.specs.Ratios.{ratios};
ghost use Rattle.prta_tail.specs.Walk.{grown_from, grows_low as grows_low_of, factor};

use crate::ratio::Ratio;
use prta_mass::TimeTable;

// What stands for a growth of 1.
const ONE: u64 = 4_294_967_296;

// A growth above this fails.
const GROWTH_LIMIT: u64 = 1_152_921_504_606_846_976;

// A number times one number, divided by another, rounded up.
pub(crate) fn scaled(number: u64, times: u32, over: u32) -> u128
    requires over { 0 < over }
    ensures { result ≡ div_ceil (number * times) over }
{
    (number as u128 * times as u128).div_ceil(over as u128)
}

// The growth over some ticks, from a start; just above the limit, where it is above.
fn grow(ratio: Ratio, start: u64, ticks: u32) -> u64
    requires listed { Contains ratios ratio }
    requires start { start ≤ 2 ^ 60 }
    ensures { result ≡ min (grown_from ratio start ticks) (2 ^ 60 + 1) }
{
    let mut growth = start;
    let mut n = 0;
    while n < ticks {
        growth = limited(scaled(growth, ratio.q, ratio.p));
        if growth > GROWTH_LIMIT {
            return growth;
        }
        n += 1;
    }
    growth
}

// A growth, or just above the limit.
fn limited(growth: u128) -> u64
    ensures { result ≡ min growth (2 ^ 60 + 1) }
{
    if growth > GROWTH_LIMIT as u128 {
        GROWTH_LIMIT + 1
    } else {
        growth as u64
    }
}

// Whether the growth over no time of a table is above the limit; it is greatest over the greatest time.
fn table_grows_low(table: &TimeTable, ratio: Ratio) -> bool
    requires listed { Contains ratios ratio }
    ensures { result ≡ grows_low_of ratio table.now }
{
    grow(ratio, ONE, table.greatest()) <= GROWTH_LIMIT
}

// The same of all tables of a cycle.
pub(crate) fn cycle_grows_low(cycle: &[TimeTable], ratio: Ratio) -> bool
    requires listed { Contains ratios ratio }
    ensures { result ≡ list_all (grows_low_of ratio) cycle.now }
{
    cycle.iter().all(|table| table_grows_low(table, ratio))
}

// The mean growth over the times of a table, rounded up; 2^32 stands for 1.
pub(crate) fn factor_of(table: &TimeTable, ratio: Ratio) -> u64
    requires listed { Contains ratios ratio }
    requires low { grows_low_of ratio table.now ≡ true }
    ensures factor { result ≡ factor ratio table.now }
    ensures low { result ≤ 2 ^ 60 }
{
    let points = table.points();
    let mut growth = ONE;
    let mut time = 0;
    let mut sum: u128 = 0;
    for i in 0..points.len() {
        growth = grow(ratio, growth, points[i].0 - time);
        time = points[i].0;
        sum += points[i].1 as u128 * growth as u128;
    }
    sum.div_ceil(table.total() as u128) as u64
}
