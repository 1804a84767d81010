//! Steps after one call and another, a list's cells, and the first break of a list over its image.

use super::*;
use prta_dist::{Break, Curve};
use prta_mass::{Dir, Support, TableFault, TimeTable, UNIT};
use std::alloc::Global;
use std::test::Fail;

const HALF: u64 = 576_460_752_303_423_488;

const QUARTER: u64 = 288_230_376_151_711_744;

const EIGHTH: u64 = 144_115_188_075_855_872;

const THREE: u64 = 864_691_128_455_135_232;

#[derive(Clone, Copy)]
enum Call<'a> {
    Point(usize),
    Add(&'a [(u32, u64)], Dir),
    Shift(u64),
    Resample(u32, u32, Dir),
    Lower(u64, usize),
    Raise(usize, u64),
}

// Makes a call, where its conditions hold, and tells what it answered: rounded, and the cut or the moved amount.
fn make<C: Curve>(alloc: Global, curve: &mut C, call: Call) -> Result<(bool, u64), TableFault> {
    match call {
        Call::Point(b) => {
            if b < curve.cap() {
                curve.point(b);
            }
        }
        Call::Add(pairs, dir) => {
            let table = TimeTable::new(alloc, pairs)?;
            let effect = curve.add(&table, dir);
            return Ok((effect.rounded, effect.cut));
        }
        Call::Shift(t) => curve.shift(t),
        Call::Resample(fine, step, dir) => {
            if step > 0 {
                return Ok((false, curve.resample(Support { fine, step }, dir)));
            }
        }
        Call::Lower(s, top) => {
            if top < curve.cap() {
                curve.lower(s, top);
            }
        }
        Call::Raise(place, value) => {
            let below = if place == 0 { 0 } else { curve.at(place - 1) };
            if place < curve.cap() && below <= value && value <= UNIT {
                curve.raise(place, value);
            }
        }
    }
    Ok((false, 0))
}

// The first six cells, where there are as many.
fn first_cells<C: Curve>(curve: &C) -> [u64; 6] {
    let mut cells = [9; 6];
    if curve.cap() >= 6 {
        curve.front(&mut cells);
    }
    cells
}

// A call, what it answers, and the steps that it leaves.
type Case<'a> = (Call<'a>, (bool, u64), &'a [(u32, u64)]);

// The first call that answers or leaves something else.
fn first_wrong(
    alloc: Global,
    stair: &mut Stair,
    cases: &[Case],
) -> Result<Option<usize>, TableFault> {
    for (i, (call, answer, steps)) in cases.iter().enumerate() {
        if make(alloc, stair, *call)? != *answer || stair.steps() != *steps {
            return Ok(Some(i));
        }
    }
    Ok(None)
}

#[test]
fn levels_go_from_instant_to_instant(rt: HostRuntime) -> Result<(), Fail> {
    let late: &[(u32, u64)] = &[(1, 1), (6, 1)];
    let first: &[(u32, u64)] = &[(1, HALF), (6, UNIT)];
    let mut stair = Stair::new(rt.alloc(), 2048)?;
    assert_eq!(rt; stair.steps(), [(0, UNIT)].as_slice());
    let greatest = Stair::new(rt.alloc(), 16_384)?;
    assert_eq!(rt; greatest.steps(), [(0, UNIT)].as_slice());
    let cases: [Case; 16] = [
        (Call::Add(late, Dir::Up), (false, 0), first),
        (
            Call::Resample(0, 4, Dir::Up),
            (false, HALF),
            &[(4, HALF), (8, UNIT)],
        ),
        (Call::Shift(4), (false, 0), &[(0, HALF), (4, UNIT)]),
        (
            Call::Add(late, Dir::Up),
            (false, 0),
            &[(1, QUARTER), (5, HALF), (6, THREE), (10, UNIT)],
        ),
        (Call::Point(0), (false, 0), &[(0, UNIT)]),
        (Call::Add(late, Dir::Down), (false, 0), first),
        (
            Call::Resample(0, 4, Dir::Down),
            (false, HALF),
            &[(0, HALF), (4, UNIT)],
        ),
        (Call::Shift(4), (false, 0), &[(0, UNIT)]),
        (Call::Add(late, Dir::Down), (false, 0), first),
        (Call::Resample(0, 8, Dir::Down), (false, UNIT), &[(0, UNIT)]),
        (Call::Shift(4), (false, 0), &[(0, UNIT)]),
        (Call::Add(late, Dir::Down), (false, 0), first),
        (Call::Resample(0, 8, Dir::Up), (false, UNIT), &[(8, UNIT)]),
        (Call::Shift(4), (false, 0), &[(4, UNIT)]),
        (
            Call::Add(late, Dir::Up),
            (false, 0),
            &[(5, HALF), (10, UNIT)],
        ),
        (Call::Shift(2047), (false, 0), &[(0, UNIT)]),
    ];
    assert_eq!(rt; first_wrong(rt.alloc(), &mut stair, &cases)?, None);
    Ok(())
}

#[test]
fn what_passes_the_cap_is_cut(rt: HostRuntime) -> Result<(), Fail> {
    let late: &[(u32, u64)] = &[(1, 1), (6, 1)];
    let past: &[(u32, u64)] = &[(9, 1)];
    let third: &[(u32, u64)] = &[(1, 2), (2, 1)];
    let mut stair = Stair::new(rt.alloc(), 6)?;
    let cases: [Case; 20] = [
        (Call::Add(late, Dir::Up), (false, HALF), &[(1, HALF)]),
        (Call::Shift(4), (false, 0), &[(0, HALF)]),
        (Call::Add(late, Dir::Up), (false, QUARTER), &[(1, QUARTER)]),
        (Call::Shift(4), (false, 0), &[(0, QUARTER)]),
        (Call::Add(late, Dir::Up), (false, EIGHTH), &[(1, EIGHTH)]),
        (Call::Point(0), (false, 0), &[(0, UNIT)]),
        (
            Call::Add(late, Dir::Down),
            (false, HALF),
            &[(1, HALF), (5, UNIT)],
        ),
        (Call::Shift(4), (false, 0), &[(0, HALF), (1, UNIT)]),
        (
            Call::Add(late, Dir::Down),
            (false, HALF),
            &[(1, QUARTER), (2, HALF), (5, UNIT)],
        ),
        (
            Call::Lower(QUARTER, 5),
            (false, 0),
            &[(2, QUARTER), (5, UNIT)],
        ),
        (
            Call::Lower(1, 3),
            (false, 0),
            &[(2, QUARTER - 1), (3, UNIT)],
        ),
        (
            Call::Raise(4, UNIT),
            (false, 0),
            &[(2, QUARTER - 1), (3, UNIT)],
        ),
        (
            Call::Raise(3, HALF),
            (false, 0),
            &[(2, QUARTER - 1), (3, HALF)],
        ),
        (Call::Raise(1, HALF), (false, 0), &[(1, HALF)]),
        (Call::Add(past, Dir::Up), (false, HALF), &[]),
        (Call::Add(past, Dir::Up), (false, 0), &[]),
        (Call::Raise(2, 0), (false, 0), &[]),
        (Call::Raise(2, 100), (false, 0), &[(2, 100)]),
        (Call::Add(third, Dir::Up), (true, 0), &[(3, 66), (4, 100)]),
        (
            Call::Add(third, Dir::Down),
            (true, 1_152_921_504_606_846_887),
            &[(4, 44), (5, UNIT)],
        ),
    ];
    assert_eq!(rt; first_wrong(rt.alloc(), &mut stair, &cases)?, None);
    assert_eq!(rt; first_cells(&stair), [0, 0, 0, 0, 44, UNIT]);
    assert_eq!(rt; [stair.at(3), stair.at(4), stair.at(9)], [0, 44, UNIT]);
    Ok(())
}

// Takes s off the cells below `top` of a copy of the first curve, and tells the first break of each over the other.
fn breaks<C: Curve>(
    list: &C,
    image: &mut C,
    s: u64,
    top: usize,
) -> Option<(Option<Break>, Option<Break>)> {
    if list.cap() != image.cap() || top >= image.cap() {
        return None;
    }
    image.copy_from(list);
    image.lower(s, top);
    Some((list.first_break(image), image.first_break(list)))
}

#[test]
fn a_list_breaks_where_its_image_is_below_it(rt: HostRuntime) -> Result<(), Fail> {
    let mut list = Stair::new(rt.alloc(), 5)?;
    let mut image = Stair::new(rt.alloc(), 5)?;
    list.point(2);
    assert_eq!(rt; breaks(&list, &mut image, 3, 2), Some((None, None)));
    let first = Break {
        place: 2,
        had: UNIT,
        got: UNIT - 3,
    };
    assert_eq!(rt; breaks(&list, &mut image, 3, 4), Some((Some(first), None)));
    Ok(())
}
