//! The program's kernel against the plain one.

ghost use Rattle.std.specs.Prelude.{IsTrue};
ghost use Rattle.prta_mass.specs.Chances.{IsChances};

use prta_convlane::Lane;
use prta_convplain::Plain;
use prta_dist::Kernel;
use prta_mass::{Dir, TimeTable, UNIT};
use std::test::Fail;

// Whether the cells are a list of chances.
fn is_chances(cells: &[u64]) -> bool
    ensures { IsTrue result → IsChances cells.now }
{
    let mut below = 0;
    for k in 0..cells.len() {
        if cells[k] < below || cells[k] > UNIT {
            return false;
        }
        below = cells[k];
    }
    true
}

// Cell k becomes k times the slope.
fn write_ramp(cells: &mut [u64], slope: u64) {
    for k in 0..cells.len() {
        cells[k] = slope.wrapping_mul(k as u64);
    }
}

#[test]
fn lanes_have_the_plain_sums(rt: HostRuntime) -> Result<(), Fail> {
    let steep = 70_368_744_177_663;
    let cases = [
        (4_294_967_295, 1, Dir::Up),
        (4_294_967_295, 1, Dir::Down),
        (4_294_967_295, steep, Dir::Up),
        (4_294_967_295, steep, Dir::Down),
        (281_474_976_710_655, 1, Dir::Up),
        (281_474_976_710_655, 1, Dir::Down),
        (281_474_976_710_655, steep, Dir::Up),
        (281_474_976_710_655, steep, Dir::Down),
    ];
    for cap in [0, 1, 7, 8, 9, 16_384] {
        for (weight, slope, dir) in cases {
            let table = TimeTable::new(rt.alloc(), &[(1, weight), (3, 1)])?;
            let mut from = vec![in rt.alloc(); 0; cap]?;
            let mut by_lanes = vec![in rt.alloc(); 5; cap]?;
            let mut plainly = vec![in rt.alloc(); 7; cap]?;
            write_ramp(&mut from, slope);
            assert!(rt; is_chances(&from));
            let rounded = Lane.convolve(&from, &mut by_lanes, &table, dir);
            let left = Plain.convolve(&from, &mut plainly, &table, dir);
            assert!(rt;
                rounded == left && by_lanes == plainly,
                "{cap} cells, {weight}, {slope}, {dir:?}"
            );
        }
    }
    Ok(())
}
