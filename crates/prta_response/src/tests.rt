//! Response runs of worked sheets, on curves that keep every cell.

ghost use Rattle.std.specs.Prelude.{vec_len};
ghost use Rattle.prta_backlog.specs.Fitting.{FitsCap};

use super::*;
use prta_backlog::{Bench, LevelPass, bench_for};
use prta_convplain::Plain;
use prta_dist::{Curve, Dense};
use prta_jobs::{TaskSet, jobs_before, release};
use prta_ledger::{Entry, Kind, Ledger, NoNotes, Notes};
use prta_mass::Dir::{self, Down, Up};
use prta_mass::{NoMemory, UNIT};
use prta_sheet::{Sheet, read_sheet};
use std::alloc::Global;
use std::test::Fail;

const EIGHTH: u64 = 144_115_188_075_855_872;

const QUARTER: u64 = 288_230_376_151_711_744;

const HALF: u64 = 576_460_752_303_423_488;

// Each 4 ticks a job of 1 or 2 ticks, above one of 2 or 4 ticks each 8 ticks, which is due 4 ticks after its release.
const DUE_AT_4: &[u8] =
    b"format = 1\ncap = 12\n[[task]]\nname = \"A\"\nperiod = 4\ndeadline = 4\ntimes = [[1, 1], [2, 1]]\n[[task]]\nname = \"B\"\nperiod = 8\ndeadline = 4\ntimes = [[2, 1], [4, 1]]\n";

const DUE_AT_5: &[u8] =
    b"format = 1\ncap = 12\n[[task]]\nname = \"A\"\nperiod = 4\ndeadline = 4\ntimes = [[1, 1], [2, 1]]\n[[task]]\nname = \"B\"\nperiod = 8\ndeadline = 5\ntimes = [[2, 1], [4, 1]]\n";

const DUE_AT_7: &[u8] =
    b"format = 1\ncap = 12\n[[task]]\nname = \"A\"\nperiod = 4\ndeadline = 4\ntimes = [[1, 1], [2, 1]]\n[[task]]\nname = \"B\"\nperiod = 8\ndeadline = 7\ntimes = [[2, 1], [4, 1]]\n";

const DUE_AT_8: &[u8] =
    b"format = 1\ncap = 12\n[[task]]\nname = \"A\"\nperiod = 4\ndeadline = 4\ntimes = [[1, 1], [2, 1]]\n[[task]]\nname = \"B\"\nperiod = 8\ndeadline = 8\ntimes = [[2, 1], [4, 1]]\n";

// The first task's job takes 2 ticks in one of three cases.
const THIRDS: &[u8] =
    b"format = 1\ncap = 12\n[[task]]\nname = \"A\"\nperiod = 4\ndeadline = 4\ntimes = [[1, 2], [2, 1]]\n[[task]]\nname = \"B\"\nperiod = 8\ndeadline = 7\ntimes = [[2, 1], [4, 1]]\n";

// Each 3 ticks a job that takes 1 tick at least and may take 3: most of what the deadline leaves is above the least times.
const SHORT_LEASTS: &[u8] =
    b"format = 1\ncap = 32\n[[task]]\nname = \"A\"\nperiod = 3\ndeadline = 3\ntimes = [[1, 1], [2, 1], [3, 1]]\n[[task]]\nname = \"B\"\nperiod = 15\ndeadline = 14\ntimes = [[2, 2], [9, 1]]\n";

// Each 4 ticks a job of 3 or 4 ticks: the last delays are released later than the deadline leaves above the least times.
const LONG_LEASTS: &[u8] =
    b"format = 1\ncap = 32\n[[task]]\nname = \"A\"\nperiod = 4\ndeadline = 4\ntimes = [[3, 2], [4, 1]]\n[[task]]\nname = \"B\"\nperiod = 20\ndeadline = 17\ntimes = [[1, 1], [2, 1], [6, 1]]\n";

// A sheet and a direction; then the number of the second task's first job, and how many of its delays, the first ones,
// are rounded.
static NUMBERS: [(&[u8], Dir, u64, usize); 14] = [
    (DUE_AT_4, Down, HALF, 0),
    (DUE_AT_4, Up, HALF, 0),
    (DUE_AT_5, Down, HALF, 0),
    (DUE_AT_5, Up, HALF, 0),
    (DUE_AT_7, Down, EIGHTH, 0),
    (DUE_AT_7, Up, EIGHTH, 0),
    (DUE_AT_8, Down, 0, 0),
    (DUE_AT_8, Up, 0, 0),
    (THIRDS, Down, 64_051_194_700_380_387, 1),
    (THIRDS, Up, 64_051_194_700_380_388, 1),
    (SHORT_LEASTS, Down, 417_518_898_787_664_747, 4),
    (SHORT_LEASTS, Up, 417_518_898_787_664_750, 3),
    (LONG_LEASTS, Down, 431_752_497_609_971_500, 3),
    (LONG_LEASTS, Up, 431_752_497_609_971_503, 3),
];

#[test]
fn numbers_and_delays(rt: HostRuntime) -> Result<(), Fail> {
    for (text, dir, number, rounded) in NUMBERS.iter() {
        let sheet = read_sheet(rt.alloc(), text)?;
        let mut bench = bench_for(rt.alloc(), &sheet, Plain)?;
        let mut ledger = Ledger::with_room(rt.alloc(), 10)?;
        let found = number_of(rt.alloc(), &mut bench, &sheet, *dir, &mut ledger)?;
        assert!(rt; found == Some(*number));
        assert!(rt; are_delays(ledger.entries(), *dir, *rounded));
        // The same where no entry is told.
        let alone = number_of(rt.alloc(), &mut bench, &sheet, *dir, &mut NoNotes)?;
        assert!(rt; alone == found);
    }
    Ok(())
}

// Whether the entries are those of so many delays of the second task's first job, numbered from 1 on.
fn are_delays(entries: &[Entry], dir: Dir, count: usize) -> bool {
    for (k, entry) in entries.iter().enumerate() {
        let delay = Entry {
            dir,
            kind: Kind::Delay,
            task: 1,
            job: 0,
            op: entry.op,
            amount: 1,
        };
        if *entry != delay || entry.op as usize != k + 1 {
            return false;
        }
    }
    entries.len() == count
}

#[test]
fn the_main_curve_stays(rt: HostRuntime) -> Result<(), Fail> {
    let sheet = read_sheet(rt.alloc(), DUE_AT_7)?;
    let mut bench = bench_for(rt.alloc(), &sheet, Plain)?;
    let found = number_of(rt.alloc(), &mut bench, &sheet, Up, &mut NoNotes)?;
    assert!(rt; found == Some(EIGHTH));
    // The backlog right after the first two jobs' release is 3 to 6 ticks, each with the chance a quarter.
    for (k, cell) in [0, 0, 0, QUARTER, HALF, UNIT - QUARTER, UNIT]
        .iter()
        .enumerate()
    {
        assert!(rt; bench.main.at(k) == *cell);
    }
    Ok(())
}

// The number of the first job of the second task, below the first, where the sheet has one and there is room to note its
// delays. The main curve is then the list from which its response run starts.
fn number_of<N: Notes>(
    alloc: Global,
    bench: &mut Bench<Dense<Plain>, Plain>,
    sheet: &Sheet,
    dir: Dir,
    notes: &mut N,
) -> Result<Option<u64>, NoMemory>
    requires { FitsCap sheet.now.settings.cap bench.old.main bench.old.spare bench.old.kept (vec_len bench.old.cells) (vec_len bench.old.tail) (vec_len bench.old.room) }
    ensures { FitsCap sheet.now.settings.cap bench.new.main bench.new.spare bench.new.kept (vec_len bench.new.cells) (vec_len bench.new.tail) (vec_len bench.new.room) }
{
    if sheet.tasks().len() < 2 || sheet.job_count(1) == 0 {
        return Ok(None);
    }
    let deadline = release(sheet, 1, 0) + sheet.tasks()[1].deadline() as u64;
    let before = jobs_before(alloc, sheet, deadline)?;
    if notes.spare() < before.list().len() {
        return Ok(None);
    }
    let higher = TaskSet::below(1);
    let mut pass = LevelPass::begin(bench, sheet, higher, 1, dir);
    pass.step(bench, sheet, &mut NoNotes);
    Ok(Some(UNIT - respond(bench, sheet, higher, 1, 0, dir, notes)))
}
