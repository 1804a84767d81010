//! The sum of one cell, and its rounded quotient.

ghost use Rattle.std.specs.Prelude.{◌≡◌, ◌*◌, ◌%◌, ◌<◌, ◌≤◌, length, not, nat_eq};
ghost use Rattle.prta_mass.specs.Unit.{unit};
ghost use Rattle.prta_mass.specs.Table.{total};
ghost use Rattle.prta_mass.specs.Chances.{IsChances};
ghost use Rattle.prta_mass.specs.Direction.{divided};
ghost use Rattle.prta_dist.specs.Addition.{weighted};

use prta_mass::{Dir, Divisor};

// The weighted sum of cell k. With totals up to 2^48 it is at most 2^108.
#[inline(always)]
pub(crate) fn weighted_sum(from: &[u64], points: &[(u32, u64)], k: usize) -> u128
    requires place { k < length from.now }
    requires chances { IsChances from.now }
    requires limited { total points.now ≤ 281474976710656 }
    ensures { result ≡ weighted points.now from.now k }
{
    let mut sum: u128 = 0;
    for point in points {
        let time = point.0 as usize;
        if time <= k {
            sum += point.1 as u128 * from[k - time] as u128;
        }
    }
    sum
}

// The quotient of a sum, rounded in the direction, and whether a remainder was left.
#[inline(always)]
pub(crate) fn rounded_quotient(sum: u128, divisor: Divisor, dir: Dir) -> (u64, bool)
    requires { sum ≤ divisor.total * unit }
    ensures cell { result.0 ≡ divided dir sum divisor.total }
    ensures rest { result.1 ≡ not (nat_eq (sum % divisor.total) 0) }
{
    let (quotient, rest) = divisor.divide(sum);
    let cell = match dir {
        Dir::Up => quotient,
        Dir::Down => { if rest == 0 { quotient } else { quotient + 1 } }
    };
    (cell, rest != 0)
}
