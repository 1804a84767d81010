//! Shifts of one list, in place and into another.

use super::*;

const HALF: u64 = 576_460_752_303_423_488;

const WHOLE: u64 = 1_152_921_504_606_846_976;

#[test]
fn shifts_inside_and_past_the_end(rt: HostRuntime) {
    let cases: [(u64, [u64; 4]); 5] = [
        (0, [0, HALF, HALF, WHOLE]),
        (1, [HALF, HALF, WHOLE, WHOLE]),
        (3, [WHOLE, WHOLE, WHOLE, WHOLE]),
        (4, [WHOLE, WHOLE, WHOLE, WHOLE]),
        (u64::MAX, [WHOLE, WHOLE, WHOLE, WHOLE]),
    ];
    for (t, want) in cases {
        let mut cells = [0, HALF, HALF, WHOLE];
        let mut copy = [9; 4];
        shift_into(&cells, &mut copy, t);
        shift_cells(&mut cells, t);
        assert_eq!(rt; copy, want, "into, by {t}");
        assert_eq!(rt; cells, want, "in place, by {t}");
    }
}
