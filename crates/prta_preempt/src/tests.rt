//! Tails that are split off and merged, worked out by hand.

use super::*;

#[test]
fn tails_are_split_off_and_merged(rt: HostRuntime) {
    let cases: [(usize, [u64; 4], [u64; 4]); 3] = [
        (0, [0, 2, 2, 6], [3, 3, 3, 4]),
        (2, [0, 0, 0, 4], [3, 5, 5, 6]),
        (3, [0, 0, 0, 0], [3, 5, 5, 9]),
    ];
    for (d, want, joined) in cases {
        let mut cells = [3, 5, 5, 9];
        let mut tail = [7; 4];
        if d < 4 && cells.is_sorted() {
            split(&cells, d, &mut tail);
            merge(&mut cells, d, &[0, 0, 0, 1]);
        }
        assert!(rt; tail == want && cells == joined);
    }
}
