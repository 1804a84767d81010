//! Analyses of worked sheets, on curves that keep every cell.

ghost use Rattle.std.specs.Prelude.{vec_len};
ghost use Rattle.prta_backlog.specs.Fitting.{FitsCap};

use super::*;
use prta_backlog::{Bench, bench_for, room_for};
use prta_convplain::Plain;
use prta_dist::{Curve, Kernel};
use prta_jobs::TaskSet;
use prta_ledger::{Entry, Kind, Ledger, NoNotes, Notes};
use prta_mass::Dir::{self, Down, Up};
use prta_mass::UNIT;
use prta_sheet::{Sheet, read_sheet};
use std::test::Fail;

const EIGHTH: u64 = 144_115_188_075_855_872;

const QUARTER: u64 = 288_230_376_151_711_744;

const HALF: u64 = 576_460_752_303_423_488;

const THREE_QUARTERS: u64 = 864_691_128_455_135_232;

// Each 4 ticks a job of 1 or 2 ticks with the same chance, above one of 2 or 4 ticks each 8 ticks.
const EVEN: &[u8] =
    b"format = 1\n[[task]]\nname = \"A\"\nperiod = 4\ndeadline = 4\ntimes = [[1, 1], [2, 1]]\n[[task]]\nname = \"B\"\nperiod = 8\ndeadline = 7\ntimes = [[2, 1], [4, 1]]\n";

// As before, but the first one's jobs take 2 ticks in one of three cases.
const ROUNDED: &[u8] =
    b"format = 1\n[[task]]\nname = \"A\"\nperiod = 4\ndeadline = 4\ntimes = [[1, 2], [2, 1]]\n[[task]]\nname = \"B\"\nperiod = 8\ndeadline = 7\ntimes = [[2, 1], [4, 1]]\n";

const NOTHING: Bounds = Bounds { lower: 0, upper: 0 };

// A sheet, and a task below all before it; the lower and the upper number of each of its jobs; the direction, the kind,
// the job, the operation and the amount of each entry; the number of each job, and the sum for it.
type Row = (
    &'static [u8],
    usize,
    &'static [(u64, u64)],
    &'static [(Dir, Kind, u32, u32, u64)],
    &'static [(u32, u128)],
);

static ROWS: [Row; 15] = [
    // alone, exact
    (
        b"format = 1\n[[task]]\nname = \"A\"\nperiod = 10\ndeadline = 5\ntimes = [[3, 3], [7, 1]]\n",
        0,
        &[(QUARTER, QUARTER)],
        &[],
        &[(0, 0)],
    ),
    // alone, rounded
    (
        b"format = 1\n[[task]]\nname = \"A\"\nperiod = 10\ndeadline = 5\ntimes = [[3, 9], [7, 1]]\n",
        0,
        &[(115_292_150_460_684_697, 115_292_150_460_684_698)],
        &[(Up, Kind::Round, 0, 1, 1), (Down, Kind::Round, 0, 1, 1)],
        &[(0, 2)],
    ),
    // never late, with the same entries
    (
        b"format = 1\n[[task]]\nname = \"A\"\nperiod = 10\ndeadline = 7\ntimes = [[3, 9], [7, 1]]\n",
        0,
        &[(0, 0)],
        &[(Up, Kind::Round, 0, 1, 1), (Down, Kind::Round, 0, 1, 1)],
        &[(0, 2)],
    ),
    // two tasks: the first one; the second one with a deadline at a release of the first, after it, and at the next
    (EVEN, 0, &[(0, 0), (0, 0)], &[], &[(0, 0), (1, 0)]),
    (
        b"format = 1\n[[task]]\nname = \"A\"\nperiod = 4\ndeadline = 4\ntimes = [[1, 1], [2, 1]]\n[[task]]\nname = \"B\"\nperiod = 8\ndeadline = 4\ntimes = [[2, 1], [4, 1]]\n",
        1,
        &[(HALF, HALF)],
        &[],
        &[(0, 0)],
    ),
    (
        b"format = 1\n[[task]]\nname = \"A\"\nperiod = 4\ndeadline = 4\ntimes = [[1, 1], [2, 1]]\n[[task]]\nname = \"B\"\nperiod = 8\ndeadline = 5\ntimes = [[2, 1], [4, 1]]\n",
        1,
        &[(HALF, HALF)],
        &[],
        &[(0, 0)],
    ),
    (EVEN, 1, &[(EIGHTH, EIGHTH)], &[], &[(0, 0)]),
    (
        b"format = 1\n[[task]]\nname = \"A\"\nperiod = 4\ndeadline = 4\ntimes = [[1, 1], [2, 1]]\n[[task]]\nname = \"B\"\nperiod = 8\ndeadline = 8\ntimes = [[2, 1], [4, 1]]\n",
        1,
        &[(0, 0)],
        &[],
        &[(0, 0)],
    ),
    // an offset
    (
        b"format = 1\n[[task]]\nname = \"A\"\noffset = 2\nperiod = 4\ndeadline = 3\ntimes = [[1, 3], [4, 1]]\n",
        0,
        &[(QUARTER, QUARTER)],
        &[],
        &[(0, 0)],
    ),
    // work is left from job to job: exact, re-sampled, and cut
    (
        b"format = 1\nhyperperiods = 3\n[[task]]\nname = \"A\"\nperiod = 4\ndeadline = 4\ntimes = [[1, 1], [6, 1]]\n",
        0,
        &[
            (HALF, HALF),
            (HALF, HALF),
            (720_575_940_379_279_360, 720_575_940_379_279_360),
        ],
        &[],
        &[(0, 0), (1, 0), (2, 0)],
    ),
    (
        b"format = 1\nhyperperiods = 2\nsupport = { fine = 0, step = 4 }\n[[task]]\nname = \"A\"\nperiod = 4\ndeadline = 4\ntimes = [[1, 1], [6, 1]]\n",
        0,
        &[(HALF, HALF), (HALF, THREE_QUARTERS)],
        &[
            (Up, Kind::Resample, 1, 2, HALF),
            (Down, Kind::Resample, 1, 2, HALF),
        ],
        &[(0, 0), (1, 1_152_921_504_606_846_976)],
    ),
    (
        b"format = 1\ncap = 6\nhyperperiods = 3\n[[task]]\nname = \"A\"\nperiod = 4\ndeadline = 4\ntimes = [[1, 1], [6, 1]]\n",
        0,
        &[
            (HALF, HALF),
            (HALF, THREE_QUARTERS),
            (HALF, 1_008_806_316_530_991_104),
        ],
        &[
            (Up, Kind::Cut, 0, 1, HALF),
            (Up, Kind::Cut, 1, 2, QUARTER),
            (Up, Kind::Cut, 2, 3, EIGHTH),
            (Down, Kind::Cut, 0, 1, HALF),
            (Down, Kind::Cut, 1, 2, HALF),
            (Down, Kind::Cut, 2, 3, HALF),
        ],
        &[
            (0, 1_152_921_504_606_846_976),
            (1, 2_017_612_633_061_982_208),
            (2, 2_738_188_573_441_261_568),
        ],
    ),
    // always late, and all cut
    (
        b"format = 1\ncap = 6\n[[task]]\nname = \"A\"\nperiod = 10\ndeadline = 4\ntimes = [[7, 1]]\n",
        0,
        &[(UNIT, UNIT)],
        &[(Up, Kind::Cut, 0, 1, UNIT), (Down, Kind::Cut, 0, 1, UNIT)],
        &[(0, 2_305_843_009_213_693_952)],
    ),
    // two tasks, rounded; the second one's response is delayed
    (
        ROUNDED,
        0,
        &[(0, 0), (0, 0)],
        &[
            (Up, Kind::Round, 0, 1, 1),
            (Up, Kind::Round, 1, 2, 1),
            (Down, Kind::Round, 0, 1, 1),
            (Down, Kind::Round, 1, 2, 1),
        ],
        &[(0, 2), (1, 4)],
    ),
    (
        ROUNDED,
        1,
        &[(64_051_194_700_380_387, 64_051_194_700_380_388)],
        &[
            (Up, Kind::Round, 0, 1, 1),
            (Up, Kind::Delay, 0, 1, 1),
            (Down, Kind::Round, 0, 1, 1),
            (Down, Kind::Round, 0, 2, 1),
            (Down, Kind::Delay, 0, 1, 1),
        ],
        &[(0, 5)],
    ),
];

#[test]
fn analyses_have_their_numbers_and_entries(rt: HostRuntime) -> Result<(), Fail> {
    for &(text, task, numbers, entries, sums) in ROWS.iter() {
        let sheet = read_sheet(rt.alloc(), text)?;
        let mut bench = bench_for(rt.alloc(), &sheet, Plain)?;
        let mut ledger = Ledger::with_room(rt.alloc(), room_for(&sheet))?;
        let mut found = vec![in rt.alloc(); NOTHING; numbers.len()]?;
        assert!(rt; finds_first(&mut bench, &sheet, task, numbers));
        assert!(rt; is_analysed(&mut bench, &sheet, task, &mut ledger, &mut found));
        assert!(rt; are_numbers(&found, numbers));
        assert!(rt; are_noted(ledger.entries(), task, entries));
        assert!(rt; are_sums(&ledger, task, sums));
    }
    Ok(())
}

// Control, sensing, communication, planning and logging: jobs of up to 12 times.
static SYSTEM: &[u8] = b"format = 1
[[task]]
name = \"ctrl\"
period = 50
deadline = 50
times = [[6, 40], [7, 120], [8, 200], [9, 220], [10, 160], [11, 100], [12, 70], [13, 40], [14, 25], [15, 15], [16, 7], [17, 3]]
[[task]]
name = \"sense\"
period = 100
deadline = 100
times = [[5, 50], [6, 150], [7, 250], [8, 200], [9, 120], [10, 90], [11, 60], [12, 40], [13, 20], [14, 12], [16, 6], [20, 2]]
[[task]]
name = \"comms\"
offset = 10
period = 100
deadline = 100
times = [[3, 100], [4, 200], [5, 250], [6, 180], [7, 100], [8, 60], [9, 40], [10, 30], [11, 20], [12, 10], [13, 7], [14, 3]]
[[task]]
name = \"plan\"
period = 200
deadline = 200
times = [[10, 30], [12, 90], [14, 180], [16, 220], [18, 180], [20, 120], [22, 80], [24, 50], [26, 30], [28, 12], [32, 6], [40, 2]]
[[task]]
name = \"log\"
offset = 20
period = 400
deadline = 400
times = [[12, 60], [14, 140], [16, 200], [18, 200], [20, 150], [24, 100], [28, 60], [32, 40], [36, 25], [44, 15], [60, 8], [90, 2]]
allow = [1, 1000]
";

static SYSTEM_NUMBERS: [&[(u64, u64)]; 5] = [
    &[(0, 0); 8],
    &[(0, 0); 4],
    &[(0, 0); 4],
    &[(0, 0); 2],
    &[(0, 2)],
];

#[test]
fn a_whole_system_is_analysed(rt: HostRuntime) -> Result<(), Fail> {
    let sheet = read_sheet(rt.alloc(), SYSTEM)?;
    for (task, numbers) in SYSTEM_NUMBERS.iter().enumerate() {
        let mut bench = bench_for(rt.alloc(), &sheet, Plain)?;
        let mut found = vec![in rt.alloc(); NOTHING; numbers.len()]?;
        assert!(rt; is_analysed(&mut bench, &sheet, task, &mut NoNotes, &mut found));
        assert!(rt; are_numbers(&found, numbers));
    }
    Ok(())
}

// Analyses a task below all before it, and answers whether it could.
fn is_analysed<C: Curve, K: Kernel, N: Notes>(
    bench: &mut Bench<C, K>,
    sheet: &Sheet,
    task: usize,
    notes: &mut N,
    found: &mut [Bounds],
) -> bool
    requires { FitsCap sheet.now.settings.cap (C.cells bench.old.main) (C.cells bench.old.spare) (C.cells bench.old.kept)
        (vec_len bench.old.cells) (vec_len bench.old.tail) (vec_len bench.old.room) }
{
    let tasks = sheet.tasks().len();
    if task >= tasks || found.len() != sheet.job_count(task) || notes.spare() < room_for(sheet) {
        return false;
    }
    analyse_task(bench, sheet, TaskSet::below(task), task, notes, found);
    true
}

// Whether the first job that may be late at all, which no allowance of the rows grants, is found with its upper number.
fn finds_first<C: Curve, K: Kernel>(
    bench: &mut Bench<C, K>,
    sheet: &Sheet,
    task: usize,
    numbers: &[(u64, u64)],
) -> bool
    requires { FitsCap sheet.now.settings.cap (C.cells bench.old.main) (C.cells bench.old.spare) (C.cells bench.old.kept)
        (vec_len bench.old.cells) (vec_len bench.old.tail) (vec_len bench.old.room) }
    ensures { FitsCap sheet.now.settings.cap (C.cells bench.new.main) (C.cells bench.new.spare) (C.cells bench.new.kept)
        (vec_len bench.new.cells) (vec_len bench.new.tail) (vec_len bench.new.room) }
{
    if task >= sheet.tasks().len() {
        return false;
    }
    let want = numbers.iter().position(|&(_, upper)| upper > 0);
    match first_failing_below(bench, sheet, TaskSet::below(task), task, Dir::Up) {
        Some(found) => {
            let (number, upper) = (found.number as usize, found.bound);
            found.task == task && want == Some(number) && numbers[number].1 == upper
        }
        None => want.is_none(),
    }
}

// Whether these are the numbers.
fn are_numbers(found: &[Bounds], want: &[(u64, u64)]) -> bool {
    for (bounds, &(lower, upper)) in found.iter().zip(want) {
        if bounds.lower != lower || bounds.upper != upper {
            return false;
        }
    }
    true
}

// Whether these are the entries of a task.
fn are_noted(entries: &[Entry], task: usize, want: &[(Dir, Kind, u32, u32, u64)]) -> bool {
    if entries.len() != want.len() {
        return false;
    }
    for (entry, &(dir, kind, job, op, amount)) in entries.iter().zip(want) {
        let named = entry.task as usize == task && entry.job == job && entry.op == op;
        if !named || entry.dir != dir || entry.kind != kind || entry.amount != amount {
            return false;
        }
    }
    true
}

// Whether these are the sums for jobs of a task.
fn are_sums(ledger: &Ledger, task: usize, want: &[(u32, u128)]) -> bool {
    for &(job, sum) in want {
        if ledger.sum_for(task, job) != sum {
            return false;
        }
    }
    true
}
