//! Re-sampled lists and moved amounts, worked out by hand.

use super::*;
use prta_mass::{Dir, Support};

const HALF: u64 = 576_460_752_303_423_488;

const WHOLE: u64 = 1_152_921_504_606_846_976;

#[test]
fn values_are_held_between_support_points(rt: HostRuntime) {
    let steep = [0, HALF, HALF, WHOLE];
    let cases: [(u32, u32, Dir, [u64; 4], u64); 8] = [
        (0, 2, Dir::Up, [0, 0, HALF, WHOLE], HALF),
        (0, 2, Dir::Down, [HALF, HALF, HALF, WHOLE], HALF),
        (0, 9, Dir::Up, [0, 0, 0, WHOLE], HALF),
        (1, 9, Dir::Down, [0, HALF, HALF, WHOLE], 0),
        (0, 1, Dir::Up, steep, 0),
        (0, 1, Dir::Down, steep, 0),
        (7, 9, Dir::Up, steep, 0),
        (7, 9, Dir::Down, steep, 0),
    ];
    for (fine, step, dir, want, moved) in cases {
        let mut cells = steep;
        let mut amount = WHOLE;
        if step > 0 && cells.is_sorted() {
            amount = resample_cells(&mut cells, Support { fine, step }, dir);
        }
        assert!(rt; cells == want && amount == moved);
    }
}

#[test]
fn the_largest_difference_is_told(rt: HostRuntime) {
    let mut cells = [0, 1, 2, 3, 4, 5, 6, 7, 8, 9, 10];
    let mut one = [5];
    let support = Support { fine: 2, step: 4 };
    if cells.is_sorted() && one.is_sorted() {
        assert!(rt; resample_cells(&mut cells, support, Dir::Up) == 3);
        assert!(rt; resample_cells(&mut one, support, Dir::Down) == 0);
    }
    assert!(rt; cells == [0, 1, 2, 2, 4, 4, 4, 4, 8, 8, 10] && one == [5]);
}
