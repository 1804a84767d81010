//! Scripts and sessions on worked sheets, on curves that keep every cell.

ghost use Rattle.std.specs.Prelude.{◌≡◌, ◌*◌, ◌<◌, ◌≤◌, length, OnOk};
ghost use Rattle.prta_session.specs.Playing.{AreAccepted, print_count, tasks_analysed};
ghost use Rattle.prta_session.specs.Workers.{lengthened};

use super::*;
use prta_backlog::bench_for;
use prta_convplain::Plain;
use prta_mass::NoMemory;
use prta_sheet::read_sheet;
use std::alloc::Global;
use std::test::Fail;

// A each 4 ticks above B each 8 ticks, each with two times.
const TWO: &[u8] =
    b"format = 1\n[[task]]\nname = \"A\"\nperiod = 4\ndeadline = 4\ntimes = [[1, 1], [2, 1]]\n[[task]]\nname = \"B\"\nperiod = 8\ndeadline = 7\ntimes = [[2, 1], [4, 1]]\n";

// A each tick above B each 1000 ticks: much work where A's table is long and B's deadline late.
const BUSY: &[u8] =
    b"format = 1\ncap = 16384\n[[task]]\nname = \"A\"\nperiod = 1\ndeadline = 1\ntimes = [[1, 1]]\n[[task]]\nname = \"B\"\nperiod = 1000\ndeadline = 1\ntimes = [[1, 1]]\n";

// A sheet, bytes, and why they are no script for it.
type Refusal = (&'static [u8], &'static [u8], Option<ScriptFault>);

static REFUSALS: [Refusal; 14] = [
    (TWO, b"table A 1 2:1\n", Some(ScriptFault::BadEdit(1))),
    (TWO, b"table A 0 2:1 1:1\n", Some(ScriptFault::BadTable(1))),
    (TWO, b"deadline C 3\n", Some(ScriptFault::UnknownTask(1))),
    (TWO, b"deadline B 2047\n", Some(ScriptFault::BadEdit(1))),
    (TWO, b"", None),
    (TWO, b"print\nprint", Some(ScriptFault::BadLine(2))),
    (TWO, b"print\r\n", Some(ScriptFault::BadLine(1))),
    (TWO, b"allow A 1  4\n", Some(ScriptFault::BadLine(1))),
    (TWO, b"table A 0\n", Some(ScriptFault::BadLine(1))),
    (TWO, b"allow A 2 1\n", Some(ScriptFault::BadEdit(1))),
    // Each edit alone is accepted, and the second after the first isn't.
    (BUSY, b"table A 0 1:1 2:1 3:1 4:1 5:1 6:1 7:1 8:1\n", None),
    (BUSY, b"deadline B 16382\n", None),
    (
        BUSY,
        b"table A 0 1:1 2:1 3:1 4:1 5:1 6:1 7:1 8:1\ndeadline B 16382\n",
        Some(ScriptFault::BadEdit(2)),
    ),
    (
        BUSY,
        b"deadline B 16382\ntable A 0 1:1 2:1 3:1 4:1 5:1 6:1 7:1 8:1\n",
        Some(ScriptFault::BadEdit(2)),
    ),
];

#[test]
fn scripts_have_their_faults(rt: HostRuntime) -> Result<(), Fail> {
    for (i, (text, bytes, want)) in REFUSALS.iter().enumerate() {
        assert_eq!(rt;
            read_for(rt.alloc(), text, bytes).err(),
            *want,
            "script {i}"
        );
    }
    for (size, want) in [
        (1_048_576, ScriptFault::BadLine(1)),
        (1_048_577, ScriptFault::TooLong),
    ] {
        let bytes = line_feeds(rt.alloc(), size)?;
        assert_eq!(rt;
            read_for(rt.alloc(), TWO, &bytes).err(),
            Some(want),
            "{size} bytes"
        );
    }
    Ok(())
}

fn line_feeds(alloc: Global, size: usize) -> Result<Vec<u8>, NoMemory> {
    Ok(vec![in alloc; b'\n'; size]?)
}

// The script for the sheet of the text.
fn read_for(alloc: Global, text: &[u8], bytes: &[u8]) -> Result<Script, ScriptFault> {
    match read_sheet(alloc, text) {
        Ok(sheet) => read_script(alloc, &sheet, bytes),
        Err(_) => Err(ScriptFault::NoMemory),
    }
}

// A script; the tasks that are analysed on the way, and the two numbers of B's job at each print.
type Play = (&'static [u8], &'static [usize], &'static [(u64, u64)]);

const EIGHTH: u64 = 144_115_188_075_855_872;

static PLAYS: [Play; 4] = [
    (
        b"print\ndeadline B 8\nprint\ntable B 0 5:1\nprint\n",
        &[0, 1, 1, 1],
        &[(EIGHTH, EIGHTH), (0, 0), (2 * EIGHTH, 2 * EIGHTH)],
    ),
    (
        b"print\ntable A 0 2:1\nprint\n",
        &[0, 1, 0, 1],
        &[(EIGHTH, EIGHTH), (4 * EIGHTH, 4 * EIGHTH)],
    ),
    (
        b"print\ndeadline A 1\nallow B 1 4\nprint\nprint\n",
        &[0, 1, 0],
        &[(EIGHTH, EIGHTH), (EIGHTH, EIGHTH), (EIGHTH, EIGHTH)],
    ),
    (b"", &[], &[]),
];

#[test]
fn sessions_analyse_stale_tasks(rt: HostRuntime) {
    for (i, (bytes, list, numbers)) in PLAYS.iter().enumerate() {
        assert!(rt; plays(rt.alloc(), bytes, list, numbers), "script {i}");
    }
}

// Whether the script analyses these tasks and shows these numbers.
fn plays(alloc: Global, bytes: &[u8], list: &[usize], numbers: &[(u64, u64)]) -> bool {
    let Ok(sheet) = read_sheet(alloc, TWO) else {
        return false;
    };
    let Ok(script) = read_script(alloc, &sheet, bytes) else {
        return false;
    };
    let Ok(bench) = bench_for(alloc, &sheet, Plain) else {
        return false;
    };
    let room = sheet.tasks().len() * script.prints();
    let Ok(mut worker) = ListWorker::with_room(alloc, bench, room) else {
        return false;
    };
    let Ok(mut session) = Session::new(alloc, sheet) else {
        return false;
    };
    let Ok(shown) = play(alloc, &mut session, script, &mut worker) else {
        return false;
    };
    worker.list() == list && shown.as_slice() == numbers
}

// Makes the edits of a script and refreshes at its prints; the numbers of task 1 at each of them.
fn play<W: Worker>(
    alloc: Global,
    session: &mut Session,
    script: Script,
    worker: &mut W,
) -> Result<Vec<(u64, u64)>, NoMemory>
    requires accepted { AreAccepted session.old.sheet script }
    requires cap { W.cap worker.old ≡ session.old.sheet.settings.cap }
    requires room { length session.old.sheet.tasks * print_count script ≤ W.room worker.old }
    ensures { OnOk result (W.analysed worker.new ≡ lengthened (W.analysed worker.old) (tasks_analysed session.old script)) }
{
    scripts_go_by_lines();
    let mut script = script;
    let mut shown = Vec::new(alloc);
    'lines: while let Some(line) = script.next() {
        match line {
            Line::Print => {
                session.refresh(worker);
                push_numbers(&mut shown, session, 1)?;
            }
            Line::Change(edit) => match session.edit(edit) {
                Ok(()) => {}
                Err(_) => unreachable!(),
            },
        }
    }
    Ok(shown)
}

// Appends the numbers of a fresh task.
fn push_numbers(
    shown: &mut Vec<(u64, u64)>,
    session: &Session,
    task: usize,
) -> Result<(), NoMemory> {
    if session.fresh(task) {
        for bounds in session.bounds(task) {
            shown.push((bounds.lower, bounds.upper))?;
        }
    }
    Ok(())
}
