//! Rising lists against their closed form, lists worked by hand, and irregular lists against sums in 128 bits.

ghost use Rattle.std.specs.Prelude.{IsTrue};
ghost use Rattle.prta_mass.specs.Chances.{IsChances};

use super::*;
use prta_dist::Kernel;
use prta_mass::{Dir, TimeTable, UNIT};
use std::test::Fail;

// Whether the cells are a list of chances.
fn is_chances(cells: &[u64]) -> bool
    ensures { IsTrue result → IsChances cells.now }
{
    let mut below = 0;
    for k in 0..cells.len() {
        if cells[k] < below || cells[k] > UNIT {
            return false;
        }
        below = cells[k];
    }
    true
}

// Cell k becomes k times the slope.
fn write_ramp(cells: &mut [u64], slope: u64) {
    for k in 0..cells.len() {
        cells[k] = slope.wrapping_mul(k as u64);
    }
}

// Whether the cells are those of a ramp after 1 tick in all but one of W cases, and 3 ticks in that one. From cell 1
// on they stand one place later, and are less by the slope, from cell 3 on by twice the slope, over W.
fn is_ramp_after(cells: &[u64], slope: u64, second: u64, later: u64) -> bool {
    for k in 0..cells.len() {
        let less = if k < 2 {
            0
        } else if k == 2 {
            second
        } else {
            later
        };
        let place = (k as u64).saturating_sub(1);
        if cells[k] != slope.wrapping_mul(place).wrapping_sub(less) {
            return false;
        }
    }
    true
}

#[test]
fn rising_lists_have_the_sums_of_their_closed_form(rt: HostRuntime) -> Result<(), Fail> {
    let steep = 70_368_744_177_663;
    let cases = [
        (4_294_967_295, 1, Dir::Up, 1, 1),
        (4_294_967_295, 1, Dir::Down, 0, 0),
        (4_294_967_295, steep, Dir::Up, 16_384, 32_768),
        (4_294_967_295, steep, Dir::Down, 16_383, 32_767),
        (281_474_976_710_655, 1, Dir::Up, 1, 1),
        (281_474_976_710_655, 1, Dir::Down, 0, 0),
        (281_474_976_710_655, steep, Dir::Up, 1, 1),
        (281_474_976_710_655, steep, Dir::Down, 0, 0),
    ];
    for cap in [0, 1, 7, 8, 9, 16_384] {
        for (weight, slope, dir, second, later) in cases {
            let table = TimeTable::new(rt.alloc(), &[(1, weight), (3, 1)])?;
            let mut from = vec![in rt.alloc(); 0; cap]?;
            let mut to = vec![in rt.alloc(); 5; cap]?;
            write_ramp(&mut from, slope);
            assert!(rt; is_chances(&from));
            let rounded = Lane.convolve(&from, &mut to, &table, dir);
            assert_eq!(rt; rounded, cap > 2, "{cap} cells, {weight}, {slope}");
            assert!(rt;
                is_ramp_after(&to, slope, second, later),
                "{cap} cells, {weight}, {slope}, {dir:?}"
            );
        }
    }
    Ok(())
}

#[test]
fn lists_worked_by_hand(rt: HostRuntime) -> Result<(), Fail> {
    let third: &[(u32, u64)] = &[(1, 2), (2, 1)];
    let fixed: &[(u32, u64)] = &[(9, 1)];
    let heaviest: &[(u32, u64)] = &[(2, 281_474_976_710_655), (3, 1)];
    let rising = [100, 301, 900, 900, 900, 900, 900, 900, 900, 900];
    let up = [0, 66, 234, 700, 900, 900, 900, 900, 900, 900];
    let down = [0, 67, 234, 701, 900, 900, 900, 900, 900, 900];
    let whole = [UNIT; 10];
    let late = [0, 0, 0, 0, 0, 0, 0, 0, 0, UNIT];
    let near = [0, 0, UNIT - 4_096, UNIT, UNIT, UNIT, UNIT, UNIT, UNIT, UNIT];
    let cases = [
        (third, rising, Dir::Up, true, up),
        (third, rising, Dir::Down, true, down),
        (
            third,
            whole,
            Dir::Up,
            true,
            [
                0,
                768_614_336_404_564_650,
                UNIT,
                UNIT,
                UNIT,
                UNIT,
                UNIT,
                UNIT,
                UNIT,
                UNIT,
            ],
        ),
        (fixed, whole, Dir::Down, false, late),
        (heaviest, whole, Dir::Up, false, near),
        (heaviest, whole, Dir::Down, false, near),
    ];
    for (i, (pairs, from, dir, rounded, want)) in cases.iter().enumerate() {
        let table = TimeTable::new(rt.alloc(), pairs)?;
        let mut to = [5; 10];
        assert!(rt; is_chances(from), "case {i}");
        let answer = Lane.convolve(from, &mut to, &table, *dir);
        assert!(rt; answer == *rounded && to == *want, "case {i}");
    }
    Ok(())
}

// Cells that rise by irregular steps up to the unit.
fn write_irregular(cells: &mut [u64]) {
    let mut below: u64 = 0;
    let mut state: u64 = 20_261_201;
    for k in 0..cells.len() {
        state = state
            .wrapping_mul(6_364_136_223_846_793_005)
            .wrapping_add(1_442_695_040_888_963_407);
        let next = below.saturating_add(state >> 9);
        below = if next < UNIT { next } else { UNIT };
        cells[k] = below;
    }
}

// The weighted sum of a cell.
fn sum_of(from: &[u64], pairs: &[(u32, u64)], k: usize) -> u128 {
    let mut sum: u128 = 0;
    for pair in pairs {
        if let Some(place) = k.checked_sub(pair.0 as usize) {
            let value = from.get(place).copied().unwrap_or(0);
            sum = sum.wrapping_add((pair.1 as u128).wrapping_mul(value as u128));
        }
    }
    sum
}

// Whether the cells times the total are the sums, or less than the total from them on the side of the direction, and
// the flag tells whether one is not.
fn are_sums(from: &[u64], to: &[u64], table: &TimeTable, dir: Dir, rounded: bool) -> bool {
    let total = table.total() as u128;
    let mut rests = false;
    for k in 0..to.len() {
        let sum = sum_of(from, table.points(), k);
        let product = (to[k] as u128).wrapping_mul(total);
        let rest = match dir {
            Dir::Up => sum.wrapping_sub(product),
            Dir::Down => product.wrapping_sub(sum),
        };
        if rest >= total {
            return false;
        }
        rests = rests | (rest != 0);
    }
    rests == rounded
}

#[test]
fn irregular_lists_have_their_sums(rt: HostRuntime) -> Result<(), Fail> {
    let tables: [&[(u32, u64)]; 9] = [
        &[(1, 1)],
        &[(2, 1), (40, 1)],
        &[(1, 1), (7, 1), (9, 1)],
        &[(1, 2), (8, 1), (16, 1)],
        &[(3, 4_294_967_294), (8, 1)],
        &[(3, 4_294_967_295), (8, 1)],
        &[(1, 1), (2, 4_294_967_294), (5, 123_456_789_012)],
        &[(1, 281_474_976_710_656)],
        &[(5, 140_737_488_355_329), (6, 140_737_488_355_327)],
    ];
    for cap in [0, 1, 7, 8, 9, 16, 23, 40] {
        for (i, pairs) in tables.iter().enumerate() {
            for dir in [Dir::Up, Dir::Down] {
                let table = TimeTable::new(rt.alloc(), pairs)?;
                let mut from = vec![in rt.alloc(); 0; cap]?;
                let mut to = vec![in rt.alloc(); 5; cap]?;
                write_irregular(&mut from);
                assert!(rt; is_chances(&from));
                let rounded = Lane.convolve(&from, &mut to, &table, dir);
                assert!(rt;
                    are_sums(&from, &to, &table, dir, rounded),
                    "{cap} cells, table {i}, {dir:?}"
                );
            }
        }
    }
    Ok(())
}
