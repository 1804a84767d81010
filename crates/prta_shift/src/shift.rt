//! The shift of cells, in place and into another list.

ghost use Rattle.std.specs.Prelude.{◌≡◌, ◌+◌, ◌<◌, min, length};
ghost use Rattle.prta_shift.specs.Shift.{shifted};

/// Shifts the cells by t ticks. Where t is past the end, each becomes the last one.
pub fn shift_cells(cells: &mut [u64], t: u64)
    requires { 0 < length cells.old }
    ensures { cells.new ≡ shifted t cells.old }
{
    let len = cells.len();
    let last = cells[len - 1];
    let gone = at_most(t, len);
    cells.copy_within(gone..len, 0);
    for k in len - gone..len {
        cells[k] = last;
    }
}

/// Writes the shift of `from` by t ticks into `to`.
pub fn shift_into(from: &[u64], to: &mut [u64], t: u64)
    requires some { 0 < length from.now }
    requires same { length to.old ≡ length from.now }
    ensures { to.new ≡ shifted t from.now }
{
    let last = from[from.len() - 1];
    let gone = at_most(t, from.len());
    let kept = from.len() - gone;
    for k in 0..kept {
        to[k] = from[gone + k];
    }
    for k in kept..to.len() {
        to[k] = last;
    }
}

// The number of cells that a shift by t ticks drops of a list of n.
fn at_most(t: u64, n: usize) -> usize
    ensures { result ≡ min t n }
{
    if t < n as u64 { t as usize } else { n }
}
