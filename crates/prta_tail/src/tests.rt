//! Walks and tail numbers of worked sheets, on curves that keep every cell.

ghost use Rattle.std.specs.Prelude.{vec_len};
ghost use Rattle.prta_backlog.specs.Fitting.{FitsCap};

use super::*;
use prta_backlog::{Bench, bench_for};
use prta_convplain::Plain;
use prta_dist::{Curve, Dense};
use prta_sheet::{Sheet, read_sheet};
use std::test::Fail;

const HALF: u64 = 576_460_752_303_423_488;

// A sheet, and its task; the ratio that is found, none as 0 of 0; the first cells of the base list; and the tail numbers of
// the task's first jobs.
type Row = (
    &'static [u8],
    usize,
    (u32, u32),
    &'static [u64],
    &'static [u64],
);

static ROWS: [Row; 5] = [
    (
        b"format = 1\nturns = 0\n[[task]]\nname = \"A\"\nperiod = 4\ndeadline = 4\ntimes = [[1, 7], [6, 1]]\n",
        0,
        (1, 2),
        &[0, 0, HALF, 864_691_128_455_135_232],
        &[396_316_767_208_603_648],
    ),
    (
        b"format = 1\nturns = 1\n[[task]]\nname = \"A\"\nperiod = 4\ndeadline = 4\ntimes = [[1, 7], [6, 1]]\n",
        0,
        (1, 2),
        &[0, 0, HALF, 864_691_128_455_135_232],
        &[297_800_525_359_874_048],
    ),
    (
        b"format = 1\nturns = 0\n[[task]]\nname = \"A\"\nperiod = 4\ndeadline = 4\ntimes = [[1, 1], [6, 1]]\n",
        0,
        (7, 8),
        &[0, 0, 144_115_188_075_855_872],
        &[1_017_813_515_785_732_096],
    ),
    // The mean work is the period.
    (
        b"format = 1\nturns = 0\n[[task]]\nname = \"A\"\nperiod = 4\ndeadline = 4\ntimes = [[1, 1], [7, 1]]\n",
        0,
        (0, 0),
        &[],
        &[],
    ),
    // Two tasks, one with an offset and two tables in turn.
    (
        b"format = 2\ncap = 48\nturns = 2\n[[task]]\nname = \"A\"\nperiod = 4\ndeadline = 4\ntimes = [[1, 3], [3, 1]]\n[[task]]\nname = \"B\"\noffset = 1\nperiod = 8\ndeadline = 7\ncycle = [[[2, 7], [9, 1]], [[1, 1]]]\n",
        1,
        (1, 2),
        &[0, 0, 0, 0, 0, 0, HALF],
        &[189_936_962_952_085_504],
    ),
];

#[test]
fn levels_have_their_tails(rt: HostRuntime) -> Result<(), Fail> {
    for (i, (text, task, (p, q), cells, numbers)) in ROWS.iter().enumerate() {
        let sheet = read_sheet(rt.alloc(), text)?;
        let mut bench = bench_for(rt.alloc(), &sheet, Plain)?;
        let want = Ratio { p: *p, q: *q };
        assert!(rt;
            is_row(&mut bench, &sheet, *task, want, cells, numbers),
            "row {i}"
        );
    }
    Ok(())
}

// The ratio is found, and each before it fails; the base list begins so, and so do the tail numbers. There are at most
// four of them.
fn is_row(
    bench: &mut Bench<Dense<Plain>, Plain>,
    sheet: &Sheet,
    task: usize,
    want: Ratio,
    cells: &[u64],
    numbers: &[u64],
) -> bool
    requires { FitsCap sheet.now.settings.cap bench.old.main bench.old.spare bench.old.kept (vec_len bench.old.cells) (vec_len bench.old.tail) (vec_len bench.old.room) }
{
    if task >= sheet.tasks().len() {
        return false;
    }
    let Some(ratio) = find_ratio(sheet, task) else {
        return want.p == 0;
    };
    let count = sheet.hyperperiod() / sheet.tasks()[task].period() as u64;
    if ratio != want || count > 4 {
        return false;
    }
    load_tail(bench, sheet, task, ratio);
    let mut same = true;
    for k in 0..cells.len() {
        same = same && bench.main.at(k) == cells[k];
    }
    let mut found = [0; 4];
    tail_steady(bench, sheet, task, ratio, &mut found[..count as usize]);
    for k in 0..numbers.len() {
        same = same && k < 4 && found[k] == numbers[k];
    }
    same
}
