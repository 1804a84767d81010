//! Certificates of worked sheets, on curves that keep every cell.

ghost use Rattle.std.specs.Prelude.{◌≡◌, length, vec_len};
ghost use Rattle.prta_certfile.specs.Laws.{AreLevels};
ghost use Rattle.prta_backlog.specs.Fitting.{FitsCap};

use super::*;
use prta_backlog::{Bench, bench_for};
use prta_certfile::{cert_text, read_cert, steps_are_lists};
use prta_convplain::Plain;
use prta_dist::{Break, Curve, Dense};
use prta_mass::{NoMemory, UNIT};
use prta_sheet::{Sheet, read_sheet};
use std::alloc::Global;
use std::test::Fail;

const QUARTER: u64 = 288_230_376_151_711_744;

const THREE_QUARTERS: u64 = 864_691_128_455_135_232;

// From 2 on each 4 ticks a job of 1 tick, or in one of four cases of 4.
const LATE: &[u8] =
    b"format = 1\n[[task]]\nname = \"A\"\noffset = 2\nperiod = 4\ndeadline = 3\ntimes = [[1, 3], [4, 1]]\n";

// The certificate that is found for the late task, and one whose list is above its image at the first place.
const FOUND: &[u8] =
    b"prta certificate 1\nlevel A 0:864691128455135232 2:1152921504606846976\nend\n";

const ABOVE: &[u8] =
    b"prta certificate 1\nlevel A 0:864691128455135233 2:1152921504606846976\nend\n";

const FIRST_BREAK: Break = Break {
    place: 0,
    had: 864_691_128_455_135_233,
    got: THREE_QUARTERS,
};

// A sheet, and its task; the verdict on its level; the first cells of the list that is found; and the steady number of the
// task's first job, for the point at 0 and for the list that is found.
type Row = (&'static [u8], usize, Verdict, &'static [u64], u64);

static ROWS: [Row; 6] = [
    // What is left repeats.
    (
        LATE,
        0,
        Verdict::Turn(1),
        &[THREE_QUARTERS, THREE_QUARTERS, UNIT, UNIT],
        QUARTER,
    ),
    // The same without a turn.
    (
        b"format = 1\nturns = 0\n[[task]]\nname = \"A\"\noffset = 2\nperiod = 4\ndeadline = 3\ntimes = [[1, 3], [4, 1]]\n",
        0,
        Verdict::Slack(UNIT),
        &[0, 0, UNIT, UNIT],
        QUARTER,
    ),
    // Two tasks that leave nothing to the next hyperperiod.
    (
        b"format = 1\n[[task]]\nname = \"A\"\nperiod = 4\ndeadline = 4\ntimes = [[1, 1], [2, 1]]\n[[task]]\nname = \"B\"\nperiod = 8\ndeadline = 7\ntimes = [[2, 1], [4, 1]]\n",
        0,
        Verdict::Turn(0),
        &[UNIT, UNIT],
        0,
    ),
    (
        b"format = 1\n[[task]]\nname = \"A\"\nperiod = 4\ndeadline = 4\ntimes = [[1, 1], [2, 1]]\n[[task]]\nname = \"B\"\nperiod = 8\ndeadline = 7\ntimes = [[2, 1], [4, 1]]\n",
        1,
        Verdict::Turn(0),
        &[UNIT, UNIT],
        144_115_188_075_855_872,
    ),
    // More work than a hyperperiod has ticks, and a job past the cap.
    (
        b"format = 1\nhyperperiods = 3\n[[task]]\nname = \"A\"\nperiod = 4\ndeadline = 4\ntimes = [[1, 1], [6, 1]]\n",
        0,
        Verdict::OverFull {
            work: 6,
            hyperperiod: 4,
        },
        &[],
        576_460_752_303_423_488,
    ),
    (
        b"format = 1\ncap = 6\n[[task]]\nname = \"A\"\nperiod = 10\ndeadline = 4\ntimes = [[7, 1]]\n",
        0,
        Verdict::BeyondCap { peak: 7 },
        &[],
        UNIT,
    ),
];

#[test]
fn levels_have_their_certificates(rt: HostRuntime) -> Result<(), Fail> {
    for (i, (text, task, verdict, cells, first)) in ROWS.iter().enumerate() {
        let sheet = read_sheet(rt.alloc(), text)?;
        let mut bench = bench_for(rt.alloc(), &sheet, Plain)?;
        assert!(rt;
            is_steady(&mut bench, &sheet, *task, *first),
            "steady numbers {i}"
        );
        assert!(rt;
            is_found(&mut bench, &sheet, *task, *verdict, cells),
            "level {i}"
        );
        assert!(rt;
            cells.is_empty() || is_kept(&mut bench, &sheet, *task, *first),
            "list {i}"
        );
    }
    Ok(())
}

// The search answers so, and leaves a list that begins so.
fn is_found(
    bench: &mut Bench<Dense<Plain>, Plain>,
    sheet: &Sheet,
    task: usize,
    verdict: Verdict,
    cells: &[u64],
) -> bool
    requires { FitsCap sheet.now.settings.cap bench.old.main bench.old.spare bench.old.kept (vec_len bench.old.cells) (vec_len bench.old.tail) (vec_len bench.old.room) }
    ensures { FitsCap sheet.now.settings.cap bench.new.main bench.new.spare bench.new.kept (vec_len bench.new.cells) (vec_len bench.new.tail) (vec_len bench.new.room) }
{
    if task >= sheet.tasks().len() {
        return false;
    }
    let found = find(bench, sheet, task);
    let mut same = is_same(found, verdict);
    for k in 0..cells.len() {
        same = same && bench.main.at(k) == cells[k];
    }
    same
}

// The list on the main curve certifies the level, and has this first steady number.
fn is_kept(bench: &mut Bench<Dense<Plain>, Plain>, sheet: &Sheet, task: usize, first: u64) -> bool
    requires { FitsCap sheet.now.settings.cap bench.old.main bench.old.spare bench.old.kept (vec_len bench.old.cells) (vec_len bench.old.tail) (vec_len bench.old.room) }
{
    let end = bench.main.cap();
    task < sheet.tasks().len()
        && bench.main.at(end) == UNIT
        && check(bench, sheet, task).is_none()
        && is_steady(bench, sheet, task, first)
}

// The first steady number for the list on the main curve is this one; there are at most four.
fn is_steady(bench: &mut Bench<Dense<Plain>, Plain>, sheet: &Sheet, task: usize, first: u64) -> bool
    requires { FitsCap sheet.now.settings.cap bench.old.main bench.old.spare bench.old.kept (vec_len bench.old.cells) (vec_len bench.old.tail) (vec_len bench.old.room) }
    ensures { FitsCap sheet.now.settings.cap bench.new.main bench.new.spare bench.new.kept (vec_len bench.new.cells) (vec_len bench.new.tail) (vec_len bench.new.room) }
{
    if task >= sheet.tasks().len() {
        return false;
    }
    let count = sheet.hyperperiod() / sheet.tasks()[task].period() as u64;
    if count == 0 || count > 4 {
        return false;
    }
    let mut numbers = [0; 4];
    steady(bench, sheet, task, &mut numbers[..count as usize]);
    numbers[0] == first
}

fn is_same(found: Verdict, want: Verdict) -> bool {
    match (found, want) {
        (Verdict::Turn(a), Verdict::Turn(b)) => a == b,
        (Verdict::Slack(a), Verdict::Slack(b)) => a == b,
        (
            Verdict::OverFull { work, hyperperiod },
            Verdict::OverFull {
                work: most,
                hyperperiod: ticks,
            },
        ) => work == most && hyperperiod == ticks,
        (Verdict::BeyondCap { peak }, Verdict::BeyondCap { peak: most }) => peak == most,
        _ => false,
    }
}

#[test]
fn certificates_keep_their_lists(rt: HostRuntime) -> Result<(), Fail> {
    let sheet = read_sheet(rt.alloc(), LATE)?;
    let mut bench = bench_for(rt.alloc(), &sheet, Plain)?;
    assert!(rt; sheet.tasks().len() == 1, "one task");
    let text = found_text(rt.alloc(), &mut bench, &sheet)?;
    assert!(rt; text.as_slice() == FOUND, "what is found");
    let broken = stated_break(rt.alloc(), &mut bench, &sheet, ABOVE)?;
    assert!(rt; broken == Some(FIRST_BREAK), "what isn't a certificate");
    let broken = stated_break(rt.alloc(), &mut bench, &sheet, FOUND)?;
    assert!(rt; broken.is_none(), "what is read");
    assert!(rt;
        is_steady(&mut bench, &sheet, 0, QUARTER),
        "its steady number"
    );
    Ok(())
}

// The text of the certificate with the list that is found for the only task.
fn found_text(
    alloc: Global,
    bench: &mut Bench<Dense<Plain>, Plain>,
    sheet: &Sheet,
) -> Result<Vec<u8>, NoMemory>
    requires fits { FitsCap sheet.now.settings.cap bench.old.main bench.old.spare bench.old.kept (vec_len bench.old.cells) (vec_len bench.old.tail) (vec_len bench.old.room) }
    requires one { length sheet.now.tasks ≡ 1 }
    ensures { FitsCap sheet.now.settings.cap bench.new.main bench.new.spare bench.new.kept (vec_len bench.new.cells) (vec_len bench.new.tail) (vec_len bench.new.room) }
{
    find(bench, sheet, 0);
    let steps = take_steps(alloc, bench)?;
    let mut found = Certificate::new(alloc);
    found.push(CertLevel::Steps(steps))?;
    cert_text(alloc, sheet, &found)
}

// Reads a certificate, loads the list that it states of the only task, and checks it. A level without a list has no break.
fn stated_break(
    alloc: Global,
    bench: &mut Bench<Dense<Plain>, Plain>,
    sheet: &Sheet,
    text: &[u8],
) -> Result<Option<Break>, CertFault>
    requires fits { FitsCap sheet.now.settings.cap bench.old.main bench.old.spare bench.old.kept (vec_len bench.old.cells) (vec_len bench.old.tail) (vec_len bench.old.room) }
    requires one { length sheet.now.tasks ≡ 1 }
    ensures { FitsCap sheet.now.settings.cap bench.new.main bench.new.spare bench.new.kept (vec_len bench.new.cells) (vec_len bench.new.tail) (vec_len bench.new.room) }
{
    let stated = read_cert(alloc, sheet, text)?;
    Ok(first_break(bench, sheet, &stated))
}

// Loads the list that a certificate states of the only task, and checks it. A level without a list has no break.
fn first_break(
    bench: &mut Bench<Dense<Plain>, Plain>,
    sheet: &Sheet,
    stated: &Certificate,
) -> Option<Break>
    requires fits { FitsCap sheet.now.settings.cap bench.old.main bench.old.spare bench.old.kept (vec_len bench.old.cells) (vec_len bench.old.tail) (vec_len bench.old.room) }
    requires one { length sheet.now.tasks ≡ 1 }
    requires levels { AreLevels sheet.now.tasks sheet.now.settings.cap stated.now }
    ensures { FitsCap sheet.now.settings.cap bench.new.main bench.new.spare bench.new.kept (vec_len bench.new.cells) (vec_len bench.new.tail) (vec_len bench.new.room) }
{
    steps_are_lists();
    match &stated.levels()[0] {
        CertLevel::Steps(steps) => {
            load_steps(bench, steps);
            check(bench, sheet, 0)
        }
        _ => None,
    }
}
