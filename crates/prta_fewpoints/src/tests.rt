//! Worked reductions, and the largest ones.

use super::*;
use prta_mass::TableFault;
use std::alloc::Global;
use std::test::Fail;

type Points = &'static [(u32, u64)];

// A wide table, a number of points, and the reduction.
static WORKED: [(Points, usize, Points); 10] = [
    (&[(1, 1), (2, 1), (3, 1), (4, 1)], 1, &[(4, 4)]),
    (&[(1, 1), (2, 1), (3, 1), (4, 1)], 2, &[(2, 2), (4, 2)]),
    (
        &[(1, 1), (2, 1), (3, 1), (4, 1)],
        4,
        &[(1, 1), (2, 1), (3, 1), (4, 1)],
    ),
    (
        &[(1, 1), (2, 1), (3, 1), (4, 1)],
        32,
        &[(1, 1), (2, 1), (3, 1), (4, 1)],
    ),
    (&[(1, 1), (2, 1), (3, 1)], 2, &[(1, 1), (3, 2)]),
    (&[(7, 5)], 1, &[(7, 5)]),
    (&[(1, 1), (2, 9), (7, 2), (9, 1)], 2, &[(2, 10), (9, 3)]),
    (
        &[(1, 1), (2, 9), (7, 2), (9, 1)],
        3,
        &[(2, 10), (7, 2), (9, 1)],
    ),
    // the heaviest times but the greatest don't stay: they would move far
    (
        &[(10, 5), (11, 4), (90, 3), (100, 1)],
        2,
        &[(11, 9), (100, 4)],
    ),
    // costs of more than 64 bits on the way
    (
        &[
            (1, 93_824_992_236_885),
            (2, 1),
            (1_000_000, 187_649_984_473_770),
        ],
        2,
        &[(1, 93_824_992_236_885), (1_000_000, 187_649_984_473_771)],
    ),
];

#[test]
fn tables_are_reduced_at_the_least_cost(rt: HostRuntime) -> Result<(), Fail> {
    for (pairs, k, want) in WORKED.iter() {
        let wide = WideTable::new(rt.alloc(), pairs)?;
        assert_eq!(rt; wide.pairs(), *pairs);
        assert!(rt; 1 <= *k && *k <= 32);
        assert!(rt; wide.pairs().iter().all(|pair| pair.0 <= 1_000_000));
        let table = reduce(rt.alloc(), &wide, *k)?;
        assert_eq!(rt; table.points(), *want, "{pairs:?} to {k}");
    }
    Ok(())
}

// The times from 1 on, each with this weight.
fn ramp(alloc: Global, count: u32, weight: u64) -> Result<Vec<(u32, u64)>, Fail> {
    let mut pairs = Vec::new(alloc);
    for i in 0..count {
        pairs.push((i + 1, weight))?;
    }
    Ok(pairs)
}

#[test]
fn faulty_pairs_are_refused(rt: HostRuntime) -> Result<(), Fail> {
    let most = ramp(rt.alloc(), 1024, 1)?;
    let many = ramp(rt.alloc(), 1025, 1)?;
    let cases: [(&[(u32, u64)], Option<TableFault>); 9] = [
        (&[], Some(TableFault::Empty)),
        (&most, None),
        (&many, Some(TableFault::TooManyPoints(1025))),
        (&[(2, 1), (1, 1), (0, 0)], Some(TableFault::ZeroTime(2))),
        (&[(7, 3), (3, 0)], Some(TableFault::NotIncreasing(1))),
        (&[(1, 1), (1, 1)], Some(TableFault::NotIncreasing(1))),
        (&[(3, 1), (7, 0)], Some(TableFault::ZeroWeight(1))),
        (
            &[(3, 281_474_976_710_656), (7, 1)],
            Some(TableFault::TotalTooLarge),
        ),
        (&[(3, 281_474_976_710_656)], None),
    ];
    for (pairs, want) in cases {
        assert!(rt; WideTable::new(rt.alloc(), pairs).err() == want, "{want:?}");
    }
    Ok(())
}

// All of 1,024 times weigh the same: 32 stretches of 32 times each move to their last.
#[test]
fn the_largest_table_is_reduced(rt: HostRuntime) -> Result<(), Fail> {
    let wide = WideTable::new(rt.alloc(), &ramp(rt.alloc(), 1024, 274_877_906_944)?)?;
    assert!(rt; wide.pairs().iter().all(|pair| pair.0 <= 1_000_000));
    let table = reduce(rt.alloc(), &wide, 32)?;
    assert_eq!(rt; table.points().len(), 32);
    for i in 0..32 {
        assert_eq!(rt;
            table.points().get(i),
            Some(&(32 * (i as u32 + 1), 8_796_093_022_208))
        );
    }
    Ok(())
}
