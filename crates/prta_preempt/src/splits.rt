//! Splitting a list of chances at a place, and merging it again.

ghost use Rattle.std.specs.Prelude.{◌≡◌, ℕ, ◌+◌, ◌<◌, ◌≤◌, length, slice_index};
ghost use Rattle.std.specs.List.Sorted.{IsNonDecreasing};
ghost use Rattle.prta_mass.specs.Unit.{unit};
ghost use Rattle.prta_preempt.specs.Delay.{tail_above, merged};

/// Writes into `tail` what each cell above place d has more than cell d, and 0 up to d.
pub fn split(cells: &[u64], d: usize, tail: &mut [u64])
    requires same { length tail.old ≡ length cells.now }
    requires place { d < length cells.now }
    requires rising { IsNonDecreasing cells.now }
    ensures { tail.new ≡ tail_above d cells.now }
{
    let base = cells[d];
    for k in 0..d + 1 {
        tail[k] = 0;
    }
    for k in d + 1..tail.len() {
        tail[k] = cells[k] - base;
    }
}

/// Keeps the cells up to place d, and makes each above it cell d and what `tail` has there.
pub fn merge(cells: &mut [u64], d: usize, tail: &[u64])
    requires same { length tail.now ≡ length cells.old }
    requires place { d < length cells.old }
    requires fits { (k : ℕ) → d < k → k < length cells.old → slice_index cells.old d + slice_index tail.now k ≤ unit }
    ensures { cells.new ≡ merged d cells.old tail.now }
{
    let base = cells[d];
    for k in d + 1..cells.len() {
        cells[k] = base + tail[k];
    }
}
