//! Two lists side by side, by their steps.

ghost use Rattle.std.specs.Prelude.{◌≡◌, ℕ, ◌-◌, ◌≤◌, max};
ghost use Rattle.prta_resample.specs.Resample.{largest};
ghost use Rattle.prta_dist.specs.Curve.{first_break};
ghost use Rattle.prta_stair.specs.Steps.{value_at, cells_by_steps, AreRising};
ghost use Rattle.prta_stair.specs.Reading.{AreBelow};

use crate::reading::{reach, value};
use prta_dist::Break;

// The largest amount by which the first list is above the second, which is nowhere above it.
pub(crate) fn largest_excess(above: &[(u32, u64)], below: &[(u32, u64)]) -> u64
    requires above_rises { AreRising above.now }
    requires below_rises { AreRising below.now }
    requires over { (k : ℕ) → value_at below.now k ≤ value_at above.now k }
    ensures { (cap : ℕ) → AreBelow cap above.now → result ≡ largest cap (λ k. value_at above.now k - value_at below.now k) }
{
    let mut most = 0;
    let mut j = 0;
    for i in 0..above.len() {
        let place = above[i].0 as usize;
        j = reach(below, 0, place, j);
        let excess = above[i].1 - value(below, 0, place, j);
        most = larger(most, excess);
    }
    most
}

fn larger(a: u64, b: u64) -> u64
    ensures { result ≡ max a b }
{
    if a < b { b } else { a }
}

// The first place where the image is below the list.
pub(crate) fn first_break_of(steps: &[(u32, u64)], image: &[(u32, u64)]) -> Option<Break>
    requires rising { AreRising steps.now }
    requires image { AreRising image.now }
    ensures { (cap : ℕ) → AreBelow cap steps.now → result ≡ first_break (cells_by_steps cap steps.now) (cells_by_steps cap image.now) }
{
    let mut j = 0;
    for i in 0..steps.len() {
        let place = steps[i].0 as usize;
        let had = steps[i].1;
        j = reach(image, 0, place, j);
        let got = value(image, 0, place, j);
        if got < had {
            return Some(Break { place, had, got });
        }
    }
    None
}
