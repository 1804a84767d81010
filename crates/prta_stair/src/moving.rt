//! Lists whose steps move: shifted and re-sampled ones.

ghost use Rattle.std.specs.Prelude.{◌≡◌, ◌<◌, ◌≤◌, length, take};
ghost use Rattle.prta_mass.specs.declared.direction.Dir.TheVariants.{Up, Down};
ghost use Rattle.prta_shift.specs.Shift.{shifted};
ghost use Rattle.prta_resample.specs.Resample.{read_place, resampled, moved_amount};
ghost use Rattle.prta_stair.specs.Steps.{value_at, cells_by_steps, place, AreSteps};
ghost use Rattle.prta_stair.specs.Moving.{place_read, HasStep, MovesTo, Makes};

use crate::comparing::largest_excess;
use crate::setting::put;
use prta_mass::{Dir, Support};

// How a list's steps move.
#[derive(Clone, Copy)]
pub(crate) enum Move {
    // Earlier by so many ticks, not below 0.
    Shift(u64),
    // To a support point.
    Resample(Support, Dir),
}

// Shifts the list of the steps by t ticks.
pub(crate) fn shift_steps(steps: &[(u32, u64)], to: &mut [(u32, u64)], t: u64) -> usize
    requires some { 0 < length to.old }
    requires most { length to.old ≤ 16384 }
    requires steps { AreSteps (length to.old) steps.now }
    ensures count { result ≤ length to.old }
    ensures steps { AreSteps (length to.old) (take result to.new) }
    ensures cells { cells_by_steps (length to.old) (take result to.new) ≡ shifted t (cells_by_steps (length to.old) steps.now) }
{
    move_steps(steps, to, Move::Shift(t))
}

// Re-samples the list of the steps, and tells the moved amount.
pub(crate) fn resample_steps(
    steps: &[(u32, u64)],
    to: &mut [(u32, u64)],
    support: Support,
    dir: Dir,
) -> (usize, u64)
    requires some { 0 < length to.old }
    requires most { length to.old ≤ 16384 }
    requires steps { AreSteps (length to.old) steps.now }
    requires step { 1 ≤ support.step }
    ensures count { result.0 ≤ length to.old }
    ensures steps { AreSteps (length to.old) (take result.0 to.new) }
    ensures cells { cells_by_steps (length to.old) (take result.0 to.new) ≡ resampled dir support (cells_by_steps (length to.old) steps.now) }
    ensures moved { result.1 ≡ moved_amount (cells_by_steps (length to.old) steps.now) (cells_by_steps (length to.old) (take result.0 to.new)) }
{
    let count = move_steps(steps, to, Move::Resample(support, dir));
    let moved = match dir {
        Dir::Up => largest_excess(steps, &to[..count]),
        Dir::Down => largest_excess(&to[..count], steps),
    };
    (count, moved)
}

// Moves each step. Of those that come to one place the last one stays.
fn move_steps(steps: &[(u32, u64)], to: &mut [(u32, u64)], how: Move) -> usize
    requires some { 0 < length to.old }
    requires most { length to.old ≤ 16384 }
    requires steps { AreSteps (length to.old) steps.now }
    requires step { HasStep how }
    ensures count { result ≤ length to.old }
    ensures made { Makes (length to.old) (λ k. value_at steps.now (place_read how (length to.old) k)) (take result to.new) }
{
    let cap = to.len() as u32;
    let mut count = 0;
    for i in 0..steps.len() {
        let at = moved(how, cap, steps[i].0);
        count = put(to, count, at, steps[i].1);
    }
    count
}

// Where a step at q moves to.
fn moved(how: Move, cap: u32, q: u32) -> u32
    requires below { q < cap }
    requires step { HasStep how }
    ensures below { result < cap }
    ensures moved { MovesTo (place_read how cap) cap q result }
{
    match how {
        Move::Shift(t) => (q as u64).saturating_sub(t) as u32,
        Move::Resample(support, dir) => match dir {
            Dir::Up => least_from(support, cap, q),
            Dir::Down => greatest_to(support, cap, q),
        },
    }
}

// The least support point from q on.
fn least_from(support: Support, cap: u32, q: u32) -> u32
    requires below { q < cap }
    requires step { 1 ≤ support.step }
    ensures below { result < cap }
    ensures moved { MovesTo (read_place Up support cap) cap q result }
{
    let rest = q % support.step;
    if q <= support.fine || rest == 0 {
        return q;
    }
    let next = (q - rest) as u64 + support.step as u64;
    if next < cap as u64 {
        next as u32
    } else {
        cap - 1
    }
}

// The greatest support point that is at most q.
fn greatest_to(support: Support, cap: u32, q: u32) -> u32
    requires below { q < cap }
    requires step { 1 ≤ support.step }
    ensures below { result < cap }
    ensures moved { MovesTo (read_place Down support cap) cap q result }
{
    if q <= support.fine || q == cap - 1 {
        return q;
    }
    let floor = q - q % support.step;
    if floor > support.fine {
        floor
    } else {
        support.fine
    }
}
