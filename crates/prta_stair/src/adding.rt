//! The addition of a table to a list, by its steps.

ghost use Rattle.std.specs.Prelude.{◌≡◌, ◌+◌, ◌*◌, ◌%◌, ◌<◌, ◌≤◌, not, nat_eq, length, take};
ghost use Rattle.prta_mass.specs.Unit.{unit};
ghost use Rattle.prta_mass.specs.Table.{IsTable};
ghost use Rattle.prta_mass.specs.Direction.{divided};
ghost use Rattle.prta_dist.specs.Addition.{added, cells_added, is_rounded, cut_amount};
ghost use Rattle.prta_stair.specs.Steps.{cells_by_steps, AreSteps};
ghost use Rattle.prta_stair.specs.Moving.{Makes};
ghost use Rattle.prta_stair.specs.Adding.{sum_of_first, marked, some_rest};

use crate::marking::{mark_all, window};
use crate::reading::last_of;
use crate::setting::settle;
use prta_dist::Effect;
use prta_mass::{Dir, Divisor, TimeTable, UNIT};

// Adds the table to the list of the steps, the rule on the last cell included.
pub(crate) fn add_steps(
    steps: &[(u32, u64)],
    to: &mut [(u32, u64)],
    marks: &mut [u128],
    table: &TimeTable,
    dir: Dir,
) -> (usize, Effect)
    requires some { 0 < length to.old }
    requires most { length to.old ≤ 16384 }
    requires marks { length marks.old ≡ length to.old }
    requires steps { AreSteps (length to.old) steps.now }
    ensures count { result.0 ≤ length to.old }
    ensures steps { AreSteps (length to.old) (take result.0 to.new) }
    ensures cells { cells_by_steps (length to.old) (take result.0 to.new) ≡ added dir table.now (cells_by_steps (length to.old) steps.now) }
    ensures rounded { result.1.rounded ≡ is_rounded table.now (cells_by_steps (length to.old) steps.now) }
    ensures cut { result.1.cut ≡ cut_amount dir table.now (cells_by_steps (length to.old) steps.now) }
{
    let before = last_of(steps, steps.len());
    let (count, rounded) = add_table(steps, to, marks, table, dir);
    let computed = last_of(to, count);
    match dir {
        Dir::Up => {
            let cut = before - computed;
            (count, Effect { rounded, cut })
        }
        Dir::Down => {
            let cut = UNIT - computed;
            (settle(to, count), Effect { rounded, cut })
        }
    }
}

// Adds the table to the list of the steps, without the rule on the last cell: marks the places where the sum rises, and
// sweeps over them.
fn add_table(
    steps: &[(u32, u64)],
    to: &mut [(u32, u64)],
    marks: &mut [u128],
    table: &TimeTable,
    dir: Dir,
) -> (usize, bool)
    requires some { 0 < length to.old }
    requires most { length to.old ≤ 16384 }
    requires marks { length marks.old ≡ length to.old }
    requires steps { AreSteps (length to.old) steps.now }
    ensures count { result.0 ≤ length to.old }
    ensures steps { AreSteps (length to.old) (take result.0 to.new) }
    ensures cells { cells_by_steps (length to.old) (take result.0 to.new) ≡ cells_added dir table.now (cells_by_steps (length to.old) steps.now) }
    ensures rounded { result.1 ≡ is_rounded table.now (cells_by_steps (length to.old) steps.now) }
    ensures table { IsTable table.now }
{
    let (first, end) = window(steps, table, to.len());
    let marks = &mut marks[..end - first];
    mark_all(marks, steps, table.points(), first);
    sweep(marks, first, to, table.divisor(), dir)
}

// Writes the steps of the list whose value at a place is the quotient of the sum of the marks up to it. Tells whether
// some division left a remainder.
fn sweep(
    marks: &[u128],
    first: usize,
    to: &mut [(u32, u64)],
    divisor: Divisor,
    dir: Dir,
) -> (usize, bool)
    requires most { length to.old ≤ 16384 }
    requires inside { first + length marks.now ≤ length to.old }
    requires low { sum_of_first (length marks.now) marks.now ≤ divisor.total * unit }
    ensures count { result.0 ≤ length to.old }
    ensures made { Makes (length to.old) (λ k. divided dir (marked marks.now first k) divisor.total) (take result.0 to.new) }
    ensures rounded { result.1 ≡ some_rest divisor.total (marked marks.now first) (length to.old) }
{
    let mut sum: u128 = 0;
    let mut count = 0;
    let mut last = 0;
    let mut rounded = false;
    for j in 0..marks.len() {
        if marks[j] == 0 {
            continue;
        }
        sum += marks[j];
        let (cell, rest) = rounded_quotient(sum, divisor, dir);
        rounded = rounded | rest;
        if last < cell {
            to[count] = ((first + j) as u32, cell);
            count += 1;
            last = cell;
        }
    }
    (count, rounded)
}

// The quotient of a sum, rounded in the direction, and whether a remainder was left.
#[inline(always)]
fn rounded_quotient(sum: u128, divisor: Divisor, dir: Dir) -> (u64, bool)
    requires { sum ≤ divisor.total * unit }
    ensures cell { result.0 ≡ divided dir sum divisor.total }
    ensures rest { result.1 ≡ not (nat_eq (sum % divisor.total) 0) }
{
    let (quotient, rest) = divisor.divide(sum);
    let cell = match dir {
        Dir::Up => quotient,
        Dir::Down => { if rest == 0 { quotient } else { quotient + 1 } }
    };
    (cell, rest != 0)
}
