//! A curve that keeps every cell, and the window where they change.

ghost use Rattle.std.specs.Prelude.{◌≡◌, ◌≤◌, IfOk};
ghost use Rattle.prta_mass.specs.Chances.{point};

use crate::curve::Curve;
use crate::effect::{Break, Effect};
use crate::kernel::Kernel;
use crate::operations::{first_break_of, lower_cells, raise_cells, write_point};
use crate::window::{add_table, shift_in_window, window_of};
use prta_mass::{Dir, NoMemory, Support, TimeTable, UNIT};
use prta_resample::resample_cells;
use std::alloc::Global;
use std::marker::Model;

/// A curve that keeps every cell. An addition computes only the cells of the window, where the values change.
#[derive(Drop)]
pub struct Dense<K: Kernel> {
    kernel: K,
    cells: Vec<u64>,
    spare: Vec<u64>,
    lo: usize,
    hi: usize,
}

impl<K: Kernel> Model for Dense<K> {
    ghost use Rattle.std.specs.Prelude.{List, ℕ};
    ghost use Rattle.prta_dist.specs.Dense.{IsDense};

    ghost Value = { List ℕ };

    ghost view = { λ d. d.cells.items };

    ghost invariant = { λ d. IsDense d.cells.items d.spare.items d.lo d.hi };
}

impl<K: Kernel> Dense<K> {
    /// The point at 0, of `cap` cells. Takes the memory of both buffers of cells.
    pub fn new(alloc: Global, kernel: K, cap: usize) -> Result<Dense<K>, NoMemory>
        requires least { 3 ≤ cap }
        requires most { cap ≤ 16384 }
        ensures { IfOk result (λ dense. dense ≡ point cap 0) }
    {
        let cells = vec![in alloc; UNIT; cap]?;
        let spare = vec![in alloc; 0; cap]?;
        let (lo, hi) = window_of(&cells, 0, 0);
        Ok(Dense {
            kernel,
            cells,
            spare,
            lo,
            hi,
        })
    }
}

impl<K: Kernel> Curve for Dense<K> {
    ghost cells = { λ list. list };

    fn cap(&self) -> usize {
        self.cells.len()
    }

    fn at(&self, k: usize) -> u64 {
        let end = self.cells.len() - 1;
        self.cells[if k < end { k } else { end }]
    }

    fn point(&mut self, b: usize) {
        write_point(&mut self.cells, b);
        let (lo, hi) = window_of(&self.cells, b, b);
        self.lo = lo;
        self.hi = hi;
    }

    fn add(&mut self, table: &TimeTable, dir: Dir) -> Effect {
        let (effect, (lo, hi)) = add_table(
            &self.kernel,
            &mut self.cells,
            &mut self.spare,
            (self.lo, self.hi),
            table,
            dir,
        );
        self.lo = lo;
        self.hi = hi;
        effect
    }

    fn shift(&mut self, t: u64) {
        shift_in_window(&mut self.cells, self.lo, self.hi, t);
        let near_lo = (self.lo as u64).saturating_sub(t) as usize;
        let near_hi = (self.hi as u64).saturating_sub(t) as usize;
        let (lo, hi) = window_of(&self.cells, near_lo, near_hi);
        self.lo = lo;
        self.hi = hi;
    }

    fn resample(&mut self, support: Support, dir: Dir) -> u64 {
        let moved = resample_cells(&mut self.cells, support, dir);
        let (lo, hi) = window_of(&self.cells, self.lo, self.hi);
        self.lo = lo;
        self.hi = hi;
        moved
    }

    fn copy_from(&mut self, other: &Self) {
        self.cells.copy_from_slice(&other.cells);
        self.lo = other.lo;
        self.hi = other.hi;
    }

    fn first_break(&self, image: &Self) -> Option<Break> {
        first_break_of(&self.cells, &image.cells)
    }

    fn front(&self, room: &mut [u64]) {
        room.copy_from_slice(&self.cells[..room.len()]);
    }

    fn lower(&mut self, s: u64, top: usize) {
        lower_cells(&mut self.cells, s, top);
        let (lo, hi) = window_of(&self.cells, self.lo, top);
        self.lo = lo;
        self.hi = hi;
    }

    fn raise(&mut self, place: usize, value: u64) {
        raise_cells(&mut self.cells, place, value);
        let (lo, hi) = window_of(&self.cells, self.lo, place);
        self.lo = lo;
        self.hi = hi;
    }
}
