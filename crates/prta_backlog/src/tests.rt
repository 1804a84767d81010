//! Level runs, images and greatest numbers of worked sheets, on curves that keep every cell.

ghost use Rattle.std.specs.Prelude.{◌≡◌, false, IfSome};
ghost use Rattle.prta_jobs.specs.TaskSet.{holds};
ghost use Rattle.prta_jobs.specs.Instant.{IsOnSheet};
ghost use Rattle.prta_backlog.specs.Level.{has_task};
ghost use Rattle.prta_backlog.specs.Pass.{level_of};
ghost use Rattle.prta_backlog.specs.Bench.{HaveOneCap};

use super::*;
use prta_convplain::Plain;
use prta_dist::{Curve, Kernel};
use prta_jobs::TaskSet;
use prta_ledger::{Entry, Kind, Ledger, Notes};
use prta_mass::Dir::{self, Down, Up};
use prta_mass::UNIT;
use prta_sheet::{Sheet, read_sheet};
use std::test::Fail;

const EIGHTH: u64 = 144_115_188_075_855_872;

const QUARTER: u64 = 288_230_376_151_711_744;

const HALF: u64 = 576_460_752_303_423_488;

const THREE_QUARTERS: u64 = 864_691_128_455_135_232;

// Each 10 ticks a job of 3 ticks, or in one of ten cases of 7.
const TENTH: &[u8] =
    b"format = 1\ncap = 9\n[[task]]\nname = \"A\"\nperiod = 10\ndeadline = 5\ntimes = [[3, 9], [7, 1]]\n";

// Each 4 ticks a job of 1 tick, or with the same chance of 6.
const HEAVY: &[u8] =
    b"format = 1\ncap = 12\nhyperperiods = 3\n[[task]]\nname = \"A\"\nperiod = 4\ndeadline = 4\ntimes = [[1, 1], [6, 1]]\n";

const SAMPLED: &[u8] =
    b"format = 1\ncap = 12\nhyperperiods = 2\nsupport = { fine = 0, step = 4 }\n[[task]]\nname = \"A\"\nperiod = 4\ndeadline = 4\ntimes = [[1, 1], [6, 1]]\n";

const CUT: &[u8] =
    b"format = 1\ncap = 6\nhyperperiods = 3\n[[task]]\nname = \"A\"\nperiod = 4\ndeadline = 4\ntimes = [[1, 1], [6, 1]]\n";

// Two tasks, of which the second one's response is delayed.
const TWO: &[u8] =
    b"format = 1\ncap = 9\n[[task]]\nname = \"A\"\nperiod = 4\ndeadline = 4\ntimes = [[1, 2], [2, 1]]\n[[task]]\nname = \"B\"\nperiod = 8\ndeadline = 7\ntimes = [[2, 1], [4, 1]]\n";

// From 2 on each 4 ticks a job of 1 tick, or in one of four cases of 4.
const LATE: &[u8] =
    b"format = 1\ncap = 5\n[[task]]\nname = \"A\"\noffset = 2\nperiod = 4\ndeadline = 3\ntimes = [[1, 3], [4, 1]]\n";

const FIXED: &[u8] =
    b"format = 1\ncap = 6\n[[task]]\nname = \"A\"\nperiod = 10\ndeadline = 4\ntimes = [[7, 1]]\n";

// A sheet, the own task, below all before it, a direction, and a number of instants; then the cells after them, and the
// kind, the job, the operation and the amount of each entry.
type Run = (
    &'static [u8],
    usize,
    Dir,
    usize,
    &'static [u64],
    &'static [(Kind, u32, u32, u64)],
);

const RUNS: [Run; 10] = [
    (
        TENTH,
        0,
        Up,
        1,
        &[
            0,
            0,
            0,
            1_037_629_354_146_162_278,
            1_037_629_354_146_162_278,
            1_037_629_354_146_162_278,
            1_037_629_354_146_162_278,
            UNIT,
            UNIT,
        ],
        &[(Kind::Round, 0, 1, 1)],
    ),
    (
        TENTH,
        0,
        Down,
        1,
        &[0, 0, 0, 1_037_629_354_146_162_279],
        &[(Kind::Round, 0, 1, 1)],
    ),
    (
        HEAVY,
        0,
        Up,
        3,
        &[
            0,
            QUARTER,
            QUARTER,
            432_345_564_227_567_616,
            432_345_564_227_567_616,
            HALF,
            THREE_QUARTERS,
            THREE_QUARTERS,
            1_008_806_316_530_991_104,
            1_008_806_316_530_991_104,
            UNIT,
            UNIT,
        ],
        &[],
    ),
    (
        HEAVY,
        0,
        Down,
        2,
        &[0, QUARTER, QUARTER, HALF, HALF, HALF, THREE_QUARTERS],
        &[],
    ),
    (
        SAMPLED,
        0,
        Up,
        2,
        &[
            0,
            QUARTER,
            QUARTER,
            QUARTER,
            QUARTER,
            HALF,
            THREE_QUARTERS,
            THREE_QUARTERS,
            THREE_QUARTERS,
            THREE_QUARTERS,
            UNIT,
            UNIT,
        ],
        &[(Kind::Resample, 1, 2, HALF)],
    ),
    (
        SAMPLED,
        0,
        Down,
        2,
        &[0, HALF, HALF, HALF, HALF, HALF, UNIT],
        &[(Kind::Resample, 1, 2, HALF)],
    ),
    (
        CUT,
        0,
        Up,
        3,
        &[0, EIGHTH, EIGHTH, EIGHTH, EIGHTH, EIGHTH],
        &[
            (Kind::Cut, 0, 1, HALF),
            (Kind::Cut, 1, 2, QUARTER),
            (Kind::Cut, 2, 3, EIGHTH),
        ],
    ),
    (
        CUT,
        0,
        Down,
        3,
        &[0, QUARTER, HALF, HALF, HALF, UNIT],
        &[
            (Kind::Cut, 0, 1, HALF),
            (Kind::Cut, 1, 2, HALF),
            (Kind::Cut, 2, 3, HALF),
        ],
    ),
    (
        TWO,
        1,
        Up,
        1,
        &[
            0,
            0,
            0,
            384_307_168_202_282_325,
            HALF,
            960_767_920_505_705_813,
            UNIT,
        ],
        &[(Kind::Round, 0, 1, 1)],
    ),
    (
        TWO,
        1,
        Down,
        1,
        &[
            0,
            0,
            0,
            384_307_168_202_282_326,
            HALF,
            960_767_920_505_705_814,
            UNIT,
        ],
        &[(Kind::Round, 0, 1, 1), (Kind::Round, 0, 2, 1)],
    ),
];

#[test]
fn level_runs_have_their_lists_and_entries(rt: HostRuntime) -> Result<(), Fail> {
    for (text, own, dir, steps, cells, entries) in RUNS {
        let sheet = read_sheet(rt.alloc(), text)?;
        let mut bench = bench_for(rt.alloc(), &sheet, Plain)?;
        let mut ledger = Ledger::with_room(rt.alloc(), 100)?;
        assert!(rt; makes_steps(&mut bench, &sheet, own, dir, steps, &mut ledger));
        assert!(rt; has_cells(&bench.main, cells));
        assert!(rt; are_noted(ledger.entries(), dir, own, entries));
    }
    Ok(())
}

#[test]
fn a_bench_keeps_lists_and_makes_images(rt: HostRuntime) -> Result<(), Fail> {
    let sheet = read_sheet(rt.alloc(), LATE)?;
    let mut bench = bench_for(rt.alloc(), &sheet, Plain)?;
    bench.keep();
    bench.set_aside();
    assert!(rt; makes_image(&mut bench, &sheet, 0));
    let image = [THREE_QUARTERS, THREE_QUARTERS, UNIT, UNIT, UNIT];
    assert!(rt; has_cells(&bench.main, &image));
    assert_eq!(rt; bench.kept_break().map(|found| found.place), Some(0));
    bench.keep();
    assert!(rt; bench.kept_break().is_none());
    bench.bring_back();
    assert_eq!(rt; bench.main.at(0), UNIT);
    bench.take_back();
    assert_eq!(rt; bench.main.at(1), THREE_QUARTERS);
    Ok(())
}

// A sheet, and the greatest work, the worst-case backlog and the peak of its first task; room for entries.
const GREATEST: [(&[u8], u64, u64, u64, usize); 3] = [
    (LATE, 4, 2, 4, 32),
    (HEAVY, 6, 2, 8, 44),
    (FIXED, 7, 0, 7, 32),
];

#[test]
fn greatest_numbers_and_room(rt: HostRuntime) -> Result<(), Fail> {
    for (text, work, backlog, most, room) in GREATEST {
        let sheet = read_sheet(rt.alloc(), text)?;
        assert_eq!(rt; greatest_of(&sheet, 0), Some((work, backlog, most)));
        assert_eq!(rt; room_for(&sheet), room);
    }
    let sheet = read_sheet(rt.alloc(), TWO)?;
    assert_eq!(rt; greatest_of(&sheet, 1), Some((8, 0, 6)));
    assert_eq!(rt; room_for(&sheet), 46);
    Ok(())
}

// Whether a curve begins with these cells.
fn has_cells<C: Curve>(curve: &C, cells: &[u64]) -> bool {
    for (k, cell) in cells.iter().enumerate() {
        if curve.at(k) != *cell {
            return false;
        }
    }
    true
}

// Whether these are the entries of a direction and a task.
fn are_noted(entries: &[Entry], dir: Dir, own: usize, want: &[(Kind, u32, u32, u64)]) -> bool {
    if entries.len() != want.len() {
        return false;
    }
    for (entry, &(kind, job, op, amount)) in entries.iter().zip(want) {
        let named = entry.dir == dir && entry.task as usize == own && entry.job == job;
        if !named || entry.kind != kind || entry.op != op || entry.amount != amount {
            return false;
        }
    }
    true
}

// The tasks before one, where it is on the sheet.
fn tasks_before(sheet: &Sheet, own: usize) -> Option<TaskSet>
    ensures on_sheet { IfSome result (λ higher. IsOnSheet sheet.now.tasks (has_task (level_of higher own))) }
    ensures apart { IfSome result (λ higher. holds higher own ≡ false) }
{
    if own >= sheet.tasks().len() {
        return None;
    }
    Some(TaskSet::below(own))
}

// Makes so many instants of the level run of a task below those before it, and answers whether it could.
fn makes_steps<C: Curve, K: Kernel>(
    bench: &mut Bench<C, K>,
    sheet: &Sheet,
    own: usize,
    dir: Dir,
    steps: usize,
    ledger: &mut Ledger,
) -> bool {
    let Some(higher) = tasks_before(sheet, own) else {
        return false;
    };
    let mut pass = LevelPass::begin(bench, sheet, higher, own, dir);
    for _ in 0..steps {
        if ledger.spare() < 26 || pass.since() >= sheet.horizon() {
            return false;
        }
        pass.step(bench, sheet, ledger);
    }
    true
}

fn makes_image<C: Curve, K: Kernel>(bench: &mut Bench<C, K>, sheet: &Sheet, own: usize) -> bool
    requires { HaveOneCap (C.cells bench.old.main) (C.cells bench.old.spare) (C.cells bench.old.kept) }
    ensures { HaveOneCap (C.cells bench.new.main) (C.cells bench.new.spare) (C.cells bench.new.kept) }
{
    let Some(higher) = tasks_before(sheet, own) else {
        return false;
    };
    image(bench, sheet, higher, own);
    true
}

fn greatest_of(sheet: &Sheet, own: usize) -> Option<(u64, u64, u64)> {
    let higher = tasks_before(sheet, own)?;
    let work = greatest_work(sheet, higher, own);
    let backlog = worst_backlog(sheet, higher, own);
    Some((work, backlog, peak(sheet, higher, own)))
}
