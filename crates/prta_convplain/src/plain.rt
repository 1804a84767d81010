//! The kernel over cells.

use crate::sums::{rounded_quotient, weighted_sum};
use prta_dist::Kernel;
use prta_mass::{Dir, TimeTable};

/// A kernel that sums each cell in 128 bits.
#[derive(Clone, Copy)]
pub struct Plain;

impl Kernel for Plain {
    fn convolve(&self, from: &[u64], to: &mut [u64], table: &TimeTable, dir: Dir) -> bool {
        let points = table.points();
        let divisor = table.divisor();
        let mut rounded = false;
        for k in 0..to.len() {
            let (cell, rest) = rounded_quotient(weighted_sum(from, points, k), divisor, dir);
            to[k] = cell;
            rounded = rounded | rest;
        }
        rounded
    }
}
