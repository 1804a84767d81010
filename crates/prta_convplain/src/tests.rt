//! Sums of rising lists against their closed form, the calls of a curve through its bound, and delays.

ghost use Rattle.std.specs.Prelude.{IsTrue};
ghost use Rattle.prta_mass.specs.Chances.{IsChances};

use super::*;
use prta_dist::{Break, Curve, Dense, Kernel};
use prta_mass::{Dir, Support, TableFault, TimeTable, UNIT};
use prta_preempt::delay;
use std::alloc::Global;
use std::test::Fail;

const HALF: u64 = 576_460_752_303_423_488;

const QUARTER: u64 = 288_230_376_151_711_744;

const THREE: u64 = 864_691_128_455_135_232;

// Whether the cells are a list of chances.
fn is_chances(cells: &[u64]) -> bool
    ensures { IsTrue result → IsChances cells.now }
{
    let mut below = 0;
    for k in 0..cells.len() {
        if cells[k] < below || cells[k] > UNIT {
            return false;
        }
        below = cells[k];
    }
    true
}

// Cell k becomes k times the slope.
fn write_ramp(cells: &mut [u64], slope: u64) {
    for k in 0..cells.len() {
        cells[k] = slope.wrapping_mul(k as u64);
    }
}

// Whether the cells are those of a ramp after 1 tick in all but one of 2^32 cases, and 3 ticks in that one. From cell 1
// on they stand one place later, and are less by the slope, from cell 3 on by twice the slope, over 2^32.
fn is_ramp_after(cells: &[u64], slope: u64, second: u64, later: u64) -> bool {
    for k in 0..cells.len() {
        let less = if k < 2 {
            0
        } else if k == 2 {
            second
        } else {
            later
        };
        let place = (k as u64).saturating_sub(1);
        if cells[k] != slope.wrapping_mul(place).wrapping_sub(less) {
            return false;
        }
    }
    true
}

#[test]
fn rising_lists_have_the_sums_of_their_closed_form(rt: HostRuntime) -> Result<(), Fail> {
    let table = TimeTable::new(rt.alloc(), &[(1, 4_294_967_295), (3, 1)])?;
    let cases = [
        (1, Dir::Up, 1, 1),
        (1, Dir::Down, 0, 0),
        (70_368_744_177_663, Dir::Up, 16_384, 32_768),
        (70_368_744_177_663, Dir::Down, 16_383, 32_767),
    ];
    for cap in [0, 1, 7, 8, 9, 16_384] {
        for (slope, dir, second, later) in cases {
            let mut from = vec![in rt.alloc(); 0; cap]?;
            let mut to = vec![in rt.alloc(); 5; cap]?;
            write_ramp(&mut from, slope);
            assert!(rt; is_chances(&from));
            let rounded = Plain.convolve(&from, &mut to, &table, dir);
            assert_eq!(rt; rounded, cap > 2, "{cap} cells, {slope}");
            assert!(rt;
                is_ramp_after(&to, slope, second, later),
                "{cap} cells, {slope}, {dir:?}"
            );
        }
    }
    Ok(())
}

#[derive(Clone, Copy)]
enum Step<'a> {
    Point(usize),
    Add(&'a [(u32, u64)], Dir),
    Shift(u64),
    Resample(u32, u32, Dir),
    Lower(u64, usize),
    Raise(usize, u64),
}

// Makes a step, where its conditions hold, and tells what the call answered: rounded, and the cut or the moved amount.
fn make<C: Curve>(alloc: Global, curve: &mut C, step: Step) -> Result<(bool, u64), TableFault> {
    match step {
        Step::Point(b) => {
            if b < curve.cap() {
                curve.point(b);
            }
        }
        Step::Add(pairs, dir) => {
            let table = TimeTable::new(alloc, pairs)?;
            let effect = curve.add(&table, dir);
            return Ok((effect.rounded, effect.cut));
        }
        Step::Shift(t) => curve.shift(t),
        Step::Resample(fine, step, dir) => {
            if step > 0 {
                return Ok((false, curve.resample(Support { fine, step }, dir)));
            }
        }
        Step::Lower(s, top) => {
            if top < curve.cap() {
                curve.lower(s, top);
            }
        }
        Step::Raise(place, value) => {
            let below = if place == 0 { 0 } else { curve.at(place - 1) };
            if place < curve.cap() && below <= value && value <= UNIT {
                curve.raise(place, value);
            }
        }
    }
    Ok((false, 0))
}

// The first five cells, where there are as many.
fn first_cells<C: Curve>(curve: &C) -> [u64; 5] {
    let mut cells = [9; 5];
    if curve.cap() >= 5 {
        curve.front(&mut cells);
    }
    cells
}

#[test]
fn each_call_makes_its_list(rt: HostRuntime) -> Result<(), Fail> {
    let one: &[(u32, u64)] = &[(1, 1)];
    let late: &[(u32, u64)] = &[(9, 1)];
    let even: &[(u32, u64)] = &[(1, 1), (2, 1)];
    let third: &[(u32, u64)] = &[(1, 2), (2, 1)];
    let fourth: &[(u32, u64)] = &[(1, 3), (2, 1)];
    let cases: [(Step, (bool, u64), [u64; 5]); 24] = [
        (Step::Point(4), (false, 0), [0, 0, 0, 0, UNIT]),
        (Step::Add(one, Dir::Up), (false, UNIT), [0; 5]),
        (Step::Add(one, Dir::Up), (false, 0), [0; 5]),
        (Step::Add(one, Dir::Down), (false, UNIT), [0, 0, 0, 0, UNIT]),
        (Step::Shift(2), (false, 0), [0, 0, UNIT, UNIT, UNIT]),
        (Step::Add(even, Dir::Up), (false, 0), [0, 0, 0, HALF, UNIT]),
        (Step::Shift(2), (false, 0), [0, HALF, UNIT, UNIT, UNIT]),
        (
            Step::Resample(0, 2, Dir::Up),
            (false, HALF),
            [0, 0, UNIT, UNIT, UNIT],
        ),
        (
            Step::Lower(QUARTER, 3),
            (false, 0),
            [0, 0, THREE, UNIT, UNIT],
        ),
        (
            Step::Add(third, Dir::Down),
            (true, 96_076_792_050_570_581),
            [0, 0, 0, HALF, UNIT],
        ),
        (
            Step::Raise(1, HALF),
            (false, 0),
            [0, HALF, HALF, HALF, HALF],
        ),
        (Step::Add(late, Dir::Up), (false, HALF), [0; 5]),
        (Step::Point(0), (false, 0), [UNIT; 5]),
        (
            Step::Add(late, Dir::Down),
            (false, UNIT),
            [0, 0, 0, 0, UNIT],
        ),
        (Step::Point(0), (false, 0), [UNIT; 5]),
        (
            Step::Add(fourth, Dir::Up),
            (false, 0),
            [0, THREE, UNIT, UNIT, UNIT],
        ),
        (
            Step::Resample(0, 2, Dir::Down),
            (false, THREE),
            [THREE, THREE, UNIT, UNIT, UNIT],
        ),
        (Step::Shift(9), (false, 0), [UNIT; 5]),
        (Step::Raise(0, HALF), (false, 0), [HALF; 5]),
        (
            Step::Shift(18_446_744_073_709_551_615),
            (false, 0),
            [HALF; 5],
        ),
        (
            Step::Add(one, Dir::Down),
            (false, HALF),
            [0, HALF, HALF, HALF, UNIT],
        ),
        (
            Step::Add(one, Dir::Down),
            (false, HALF),
            [0, 0, HALF, HALF, UNIT],
        ),
        (
            Step::Add(one, Dir::Up),
            (false, HALF),
            [0, 0, 0, HALF, HALF],
        ),
        (
            Step::Add(third, Dir::Up),
            (true, 192_153_584_101_141_163),
            [0, 0, 0, 0, 384_307_168_202_282_325],
        ),
    ];
    let mut curve = Dense::new(rt.alloc(), Plain, 5)?;
    assert_eq!(rt; first_cells(&curve), [UNIT; 5]);
    for (i, (step, answer, want)) in cases.iter().enumerate() {
        assert_eq!(rt; make(rt.alloc(), &mut curve, *step)?, *answer, "step {i}");
        assert_eq!(rt; first_cells(&curve), *want, "step {i}");
        assert_eq!(rt; curve.at(9), want[4], "step {i}");
    }
    Ok(())
}

// Takes s off the cells below `top` of a copy of the first curve, and tells the first break of each over the other.
fn breaks<C: Curve>(
    list: &C,
    image: &mut C,
    s: u64,
    top: usize,
) -> Option<(Option<Break>, Option<Break>)> {
    if list.cap() != image.cap() || top >= image.cap() {
        return None;
    }
    image.copy_from(list);
    image.lower(s, top);
    Some((list.first_break(image), image.first_break(list)))
}

#[test]
fn a_list_breaks_where_its_image_is_below_it(rt: HostRuntime) -> Result<(), Fail> {
    let mut list = Dense::new(rt.alloc(), Plain, 5)?;
    let mut image = Dense::new(rt.alloc(), Plain, 5)?;
    list.point(2);
    assert_eq!(rt; breaks(&list, &mut image, 3, 2), Some((None, None)));
    let first = Break {
        place: 2,
        had: UNIT,
        got: UNIT - 3,
    };
    assert_eq!(rt; breaks(&list, &mut image, 3, 4), Some((Some(first), None)));
    Ok(())
}

#[test]
fn a_delay_puts_off_what_ends_after_it(rt: HostRuntime) -> Result<(), Fail> {
    let even = TimeTable::new(rt.alloc(), &[(1, 1), (2, 1)])?;
    let third = TimeTable::new(rt.alloc(), &[(1, 2), (2, 1)])?;
    let at_two = [0, 0, UNIT, UNIT, UNIT];
    let rising = [0, 0, 100, 301, 900];
    let cases = [
        // What ends as the other job is released stays.
        (&even, 2, Dir::Up, at_two, false, at_two),
        (&even, 1, Dir::Up, at_two, false, [0, 0, 0, HALF, UNIT]),
        (&even, 4, Dir::Down, rising, false, rising),
        (&third, 0, Dir::Up, rising, true, [0, 0, 0, 66, 234]),
        (&third, 0, Dir::Down, rising, true, [0, 0, 0, 67, 234]),
        (&third, 2, Dir::Down, rising, false, [0, 0, 100, 100, 234]),
    ];
    for (i, (table, d, dir, before, rounded, want)) in cases.iter().enumerate() {
        let mut cells = *before;
        let mut tail = [7; 5];
        let mut room = [7; 5];
        assert!(rt; *d < 5 && is_chances(&cells), "case {i}");
        let answer = delay(&Plain, &mut cells, &mut tail, &mut room, table, *d, *dir);
        assert!(rt; answer == *rounded && cells == *want, "case {i}");
    }
    Ok(())
}
