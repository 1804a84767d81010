//! Worked values of tables, of their faults and of decimals.

use super::*;
use std::test::Fail;

#[test]
fn a_table_is_what_it_was_made_from(rt: HostRuntime) -> Result<(), Fail> {
    let table = TimeTable::new(rt.alloc(), &[(3, 9), (7, 1)])?;
    assert_eq!(rt; table.points(), [(3, 9), (7, 1)].as_slice());
    assert_eq!(rt; table.total(), 10);
    assert_eq!(rt; table.greatest(), 7);
    assert_eq!(rt; table.mean_times_total(), 34);
    let copy = table.copy(rt.alloc())?;
    assert_eq!(rt; copy.points(), [(3, 9), (7, 1)].as_slice());
    Ok(())
}

#[test]
fn pairs_of_no_table_have_their_first_fault(rt: HostRuntime) -> Result<(), Fail> {
    let mut many = Vec::new(rt.alloc());
    for time in 1..34 {
        many.push((time, 1))?;
    }
    let empty: [(u32, u64); 0] = [];
    let cases: [(&[(u32, u64)], TableFault); 8] = [
        (&empty, TableFault::Empty),
        (&many, TableFault::TooManyPoints(33)),
        (&[(1, 1), (1, 1)], TableFault::NotIncreasing(1)),
        (&[(2, 1), (1, 1), (0, 0)], TableFault::ZeroTime(2)),
        (&[(7, 3), (3, 0)], TableFault::NotIncreasing(1)),
        (&[(3, 1), (7, 0)], TableFault::ZeroWeight(1)),
        (
            &[(3, 281_474_976_710_656), (7, 1)],
            TableFault::TotalTooLarge,
        ),
        (
            &[(3, 18_446_744_073_709_551_615), (7, 2)],
            TableFault::TotalTooLarge,
        ),
    ];
    for (pairs, want) in cases {
        assert!(rt;
            TimeTable::new(rt.alloc(), pairs).err() == Some(want),
            "{want}"
        );
    }
    assert!(rt; TimeTable::new(rt.alloc(), &[(3, 281_474_976_710_656)]).is_ok());
    let _ = many.pop();
    assert!(rt; TimeTable::new(rt.alloc(), &many).is_ok());
    Ok(())
}

#[test]
fn ticks_are_added_and_taken_off_again(rt: HostRuntime) -> Result<(), Fail> {
    let base = TimeTable::new(rt.alloc(), &[(3, 9), (7, 1)])?;
    let mut table = base.copy(rt.alloc())?;
    // up to the greatest number of 32 bits
    table.set_added(&base, 4_294_967_288);
    let latest = [(4_294_967_291, 9), (4_294_967_295, 1)];
    assert_eq!(rt; table.points(), latest.as_slice());
    assert_eq!(rt; table.greatest(), 4_294_967_295);
    table.set_added(&base, 2);
    assert_eq!(rt; table.points(), [(5, 9), (9, 1)].as_slice());
    assert_eq!(rt; table.total(), 10);
    assert!(rt; table.divisor().divide(25) == (2, 5));
    table.set_added(&base, 0);
    assert_eq!(rt; table.points(), base.points());
    Ok(())
}

#[test]
fn support_points_are_fine_or_multiples_or_last(rt: HostRuntime) {
    let support = Support { fine: 2, step: 4 };
    let mut kept = [false; 10];
    for k in 0..10 {
        kept[k] = is_support(support, 10, k);
    }
    let want = [
        true, true, true, false, true, false, false, false, true, true,
    ];
    assert_eq!(rt; kept, want);
}

#[test]
fn decimals_are_rounded_in_their_direction(rt: HostRuntime) {
    let cases: [(u64, &[u8], &[u8]); 6] = [
        (0, b"0.000000000000", b"0.000000000000"),
        (1, b"0.000000000000", b"0.000000000001"),
        (
            115_292_150_460_684_697,
            b"0.099999999999",
            b"0.100000000000",
        ),
        (
            115_292_150_460_684_698,
            b"0.100000000000",
            b"0.100000000001",
        ),
        (
            288_230_376_151_711_744,
            b"0.250000000000",
            b"0.250000000000",
        ),
        (UNIT, b"1.000000000000", b"1.000000000000"),
    ];
    for (u, down, up) in cases {
        let mut text = [0; 14];
        if u <= UNIT {
            decimal_down(u, &mut text);
            assert_eq!(rt; text.as_slice(), down, "{u} down");
            decimal_up(u, &mut text);
            assert_eq!(rt; text.as_slice(), up, "{u} up");
        }
    }
}

#[test]
fn quotients_and_remainders_are_exact(rt: HostRuntime) {
    let unit = UNIT as u128;
    // a total, a sum, the quotient and the remainder
    let cases: [(u64, u128, u64, u64); 8] = [
        (1, unit, UNIT, 0),
        (3, 3 * unit - 1, UNIT - 1, 2),
        (4, 4 * unit, UNIT, 0),
        (4, 4 * unit - 1, UNIT - 1, 3),
        (1000, 1000 * unit - 1, UNIT - 1, 999),
        (4_294_967_296, 4_294_967_295, 0, 4_294_967_295),
        (281_474_976_710_655, 281_474_976_710_655 * unit, UNIT, 0),
        (
            281_474_976_710_656,
            281_474_976_710_656 * unit - 1,
            UNIT - 1,
            281_474_976_710_655,
        ),
    ];
    for (total, sum, quotient, rest) in cases {
        if 0 < total && total < 1 << 62 && sum <= total as u128 * unit {
            assert!(rt;
                Divisor::new(total).divide(sum) == (quotient, rest),
                "{sum} by {total}"
            );
        } else {
            assert!(rt; false, "{sum} by {total}");
        }
    }
}
