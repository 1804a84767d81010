//! Runs of the machine, and files of choices.

ghost use Rattle.std.specs.Prelude.{◌≡◌, ◌≤◌, IfOk};
ghost use Rattle.prta_sheet.specs.Sheet.{horizon};

use super::*;
use prta_jobs::Order;
use prta_mass::TimeTable;
use prta_sheet::{Settings, Sheet, Task, make_sheet};
use std::alloc::Global;
use std::process::Abort;
use std::test::Fail;

static A: &[&[(u32, u64)]] = &[&[(1, 1), (2, 1)]];

static B: &[&[(u32, u64)]] = &[&[(2, 1), (4, 1)]];

static LATE: &[&[(u32, u64)]] = &[&[(1, 1), (6, 1)]];

// Every second job takes 1 or 3 ticks, and the others 2.
static TURNS: &[&[(u32, u64)]] = &[&[(2, 1)], &[(1, 1), (3, 1)]];

fn task(
    alloc: Global,
    name: &str,
    period: u32,
    deadline: u32,
    tables: &[&[(u32, u64)]],
) -> Result<Task, Fail> {
    let mut cycle = Vec::new(alloc);
    for pairs in tables {
        cycle.push(TimeTable::new(alloc, pairs)?)?;
    }
    Ok(Task::new(alloc, name, 0, period, deadline, cycle, (0, 1))?)
}

fn sheet_of(hyperperiods: u32, tasks: Vec<Task>) -> Result<Sheet, Fail> {
    let settings = Settings {
        cap: 2048,
        hyperperiods,
        turns: 16,
        support: None,
    };
    Ok(make_sheet(settings, tasks)?)
}

// A task of period 4 above a task of period 8.
fn pair(alloc: Global) -> Result<Sheet, Fail> {
    let mut tasks = Vec::new(alloc);
    tasks.push(task(alloc, "A", 4, 4, A)?)?;
    tasks.push(task(alloc, "B", 8, 7, B)?)?;
    sheet_of(1, tasks)
}

// One task of period 4 that may take 6 ticks, over three periods.
fn late(alloc: Global) -> Result<Sheet, Fail> {
    let mut tasks = Vec::new(alloc);
    tasks.push(task(alloc, "A", 4, 4, LATE)?)?;
    sheet_of(3, tasks)
}

// One task with a cycle of two tables, over two hyperperiods of two jobs.
fn turns(alloc: Global) -> Result<Sheet, Fail> {
    let mut tasks = Vec::new(alloc);
    tasks.push(task(alloc, "A", 4, 4, TURNS)?)?;
    sheet_of(2, tasks)
}

fn machine(alloc: Global, sheet: &Sheet, times: &[u32]) -> Result<Machine, Fail>
    ensures start { IfOk result (λ machine. machine.ticks ≡ 0) }
    ensures horizon { IfOk result (λ machine. machine.horizon ≡ horizon sheet.now) }
{
    let order = Order::of_sheet(alloc, sheet)?;
    Ok(Machine::new(alloc, sheet, &order, times)?)
}

// All runs, and then the finishes of the jobs.
#[derive(Drop)]
struct Trace {
    times: &'static [u32],
    runs: &'static [(u64, u64, Option<usize>)],
    finishes: &'static [Option<u64>],
}

static PAIR_TRACES: [Trace; 4] = [
    Trace {
        times: &[2, 4, 1],
        runs: &[
            (0, 2, Some(0)),
            (2, 4, Some(1)),
            (4, 5, Some(2)),
            (5, 7, Some(1)),
            (7, 8, None),
        ],
        finishes: &[Some(2), Some(7), Some(5)],
    },
    Trace {
        times: &[2, 2, 1],
        runs: &[
            (0, 2, Some(0)),
            (2, 4, Some(1)),
            (4, 5, Some(2)),
            (5, 8, None),
        ],
        finishes: &[Some(2), Some(4), Some(5)],
    },
    Trace {
        times: &[1, 2, 1],
        runs: &[
            (0, 1, Some(0)),
            (1, 3, Some(1)),
            (3, 4, None),
            (4, 5, Some(2)),
            (5, 8, None),
        ],
        finishes: &[Some(1), Some(3), Some(5)],
    },
    Trace {
        times: &[2, 4, 2],
        runs: &[
            (0, 2, Some(0)),
            (2, 4, Some(1)),
            (4, 6, Some(2)),
            (6, 8, Some(1)),
        ],
        finishes: &[Some(2), Some(8), Some(6)],
    },
];

// A late job runs on over the releases of its own task, and the last job may be left at the horizon.
static LATE_TRACES: [Trace; 3] = [
    Trace {
        times: &[6, 6, 1],
        runs: &[(0, 6, Some(0)), (6, 12, Some(1))],
        finishes: &[Some(6), Some(12), None],
    },
    Trace {
        times: &[1, 6, 6],
        runs: &[
            (0, 1, Some(0)),
            (1, 4, None),
            (4, 10, Some(1)),
            (10, 12, Some(2)),
        ],
        finishes: &[Some(1), Some(10), None],
    },
    Trace {
        times: &[6, 1, 1],
        runs: &[
            (0, 6, Some(0)),
            (6, 7, Some(1)),
            (7, 8, None),
            (8, 9, Some(2)),
            (9, 12, None),
        ],
        finishes: &[Some(6), Some(7), Some(9)],
    },
];

// Each job takes a time of the table whose turn it is.
static TURNS_TRACE: Trace = Trace {
    times: &[2, 3, 2, 1],
    runs: &[
        (0, 2, Some(0)),
        (2, 4, None),
        (4, 7, Some(1)),
        (7, 8, None),
        (8, 10, Some(2)),
        (10, 12, None),
        (12, 13, Some(3)),
        (13, 16, None),
    ],
    finishes: &[Some(2), Some(7), Some(10), Some(13)],
};

fn follows(rt: &impl Abort, mut machine: Machine, trace: &Trace) {
    let runs = trace.runs;
    let finishes = trace.finishes;
    for &(from, to, who) in runs {
        assert!(rt;
            machine.next_run() == Some(Run { from, to, who }),
            "from {from}"
        );
        assert!(rt; machine.now() == to, "from {from}");
    }
    assert!(rt; machine.next_run().is_none());
    assert!(rt; machine.jobs().len() == finishes.len());
    for i in 0..machine.jobs().len().min(finishes.len()) {
        assert!(rt; machine.finish(i) == finishes[i], "job {i}");
    }
}

#[test]
fn runs_of_two_tasks(rt: HostRuntime) -> Result<(), Fail> {
    let sheet = pair(rt.alloc())?;
    for trace in PAIR_TRACES.iter() {
        follows(&rt, machine(rt.alloc(), &sheet, trace.times)?, trace);
    }
    Ok(())
}

#[test]
fn runs_of_a_late_task(rt: HostRuntime) -> Result<(), Fail> {
    let sheet = late(rt.alloc())?;
    for trace in LATE_TRACES.iter() {
        follows(&rt, machine(rt.alloc(), &sheet, trace.times)?, trace);
    }
    Ok(())
}

#[test]
fn runs_of_a_task_with_a_cycle(rt: HostRuntime) -> Result<(), Fail> {
    let sheet = turns(rt.alloc())?;
    let trace = &TURNS_TRACE;
    follows(&rt, machine(rt.alloc(), &sheet, trace.times)?, trace);
    Ok(())
}

// The ticks left to the jobs of two tasks with times 2, 4 and 1, after some ticks.
static LEFT: [(u64, [u32; 3]); 6] = [
    (0, [2, 4, 1]),
    (1, [1, 4, 1]),
    (2, [0, 4, 1]),
    (4, [0, 2, 1]),
    (5, [0, 2, 0]),
    (8, [0, 0, 0]),
];

fn has_left(rt: &impl Abort, machine: &Machine, left: &[u32; 3]) {
    for i in 0..machine.jobs().len().min(3) {
        assert!(rt; machine.remaining(i) == left[i], "job {i}");
        assert!(rt; machine.finish(i).is_some() == (left[i] == 0), "job {i}");
    }
}

// Makes that many first ticks, one by one.
fn make_ticks(machine: &mut Machine, count: u64)
    requires start { machine.old.ticks ≡ 0 }
    requires within { count ≤ machine.old.horizon }
{
    for _ in 0..count {
        machine.tick();
    }
}

#[test]
fn ticks_and_stretches(rt: HostRuntime) -> Result<(), Fail> {
    let sheet = pair(rt.alloc())?;
    for (t, left) in LEFT.iter() {
        let t = *t;
        assert!(rt; t <= sheet.horizon());
        let mut stretched = machine(rt.alloc(), &sheet, &[2, 4, 1])?;
        stretched.run_to(t);
        assert!(rt; stretched.now() == t, "after {t}");
        has_left(&rt, &stretched, left);
        let mut ticked = machine(rt.alloc(), &sheet, &[2, 4, 1])?;
        make_ticks(&mut ticked, t);
        assert!(rt; ticked.now() == t, "after {t}");
        has_left(&rt, &ticked, left);
    }
    Ok(())
}

// The second task is the higher one.
static LOWER_FIRST: Trace = Trace {
    times: &[2, 4, 1],
    runs: &[
        (0, 4, Some(1)),
        (4, 6, Some(0)),
        (6, 7, Some(2)),
        (7, 8, None),
    ],
    finishes: &[Some(6), Some(4), Some(7)],
};

#[test]
fn the_lower_task_first(rt: HostRuntime) -> Result<(), Fail> {
    let sheet = pair(rt.alloc())?;
    let order = Order::new(rt.alloc(), &sheet, &[1, 0])?;
    let trace = &LOWER_FIRST;
    let machine = Machine::new(rt.alloc(), &sheet, &order, trace.times)?;
    follows(&rt, machine, trace);
    Ok(())
}

type Refused = (&'static [u32], MachineFault);

static BAD_TIMES: [Refused; 5] = [
    (&[], MachineFault::WrongCount { want: 3, got: 0 }),
    (&[2, 4], MachineFault::WrongCount { want: 3, got: 2 }),
    (&[3, 4, 1, 1], MachineFault::WrongCount { want: 3, got: 4 }),
    (&[2, 3, 1], MachineFault::NotInTable(1)),
    (&[2, 4, 4], MachineFault::NotInTable(2)),
];

// A time of the other table of the cycle.
static OUT_OF_TURN: [Refused; 4] = [
    (&[2, 1, 2], MachineFault::WrongCount { want: 4, got: 3 }),
    (&[1, 1, 2, 3], MachineFault::NotInTable(0)),
    (&[2, 2, 2, 3], MachineFault::NotInTable(1)),
    (&[2, 3, 3, 3], MachineFault::NotInTable(2)),
];

fn refuses(rt: &impl Abort, alloc: Global, sheet: &Sheet, refused: &[Refused]) -> Result<(), Fail> {
    let order = Order::of_sheet(alloc, sheet)?;
    for &(times, want) in refused {
        match Machine::new(alloc, sheet, &order, times) {
            Ok(_) => assert!(rt; false, "{times:?}"),
            Err(fault) => assert!(rt; fault == want, "{times:?}"),
        }
    }
    Ok(())
}

#[test]
fn times_that_are_refused(rt: HostRuntime) -> Result<(), Fail> {
    refuses(&rt, rt.alloc(), &pair(rt.alloc())?, &BAD_TIMES)?;
    refuses(&rt, rt.alloc(), &turns(rt.alloc())?, &OUT_OF_TURN)
}

static CHOICES: [(&[u8], &[u32]); 7] = [
    (b"", &[]),
    (b"2\n4\n1\n", &[2, 4, 1]),
    (b"2\n4\n1", &[2, 4, 1]),
    (b"2\r\n4\r\n1\r\n", &[2, 4, 1]),
    (b"2\r\n40\n1", &[2, 40, 1]),
    (b"1000000", &[1_000_000]),
    (b"9\n999999\n", &[9, 999_999]),
];

#[test]
fn files_of_choices(rt: HostRuntime) -> Result<(), Fail> {
    for (bytes, want) in CHOICES.iter() {
        let choices = read_choices(rt.alloc(), bytes)?;
        assert!(rt; choices.list() == *want, "{bytes:?}");
    }
    Ok(())
}

static BAD_LINES: [(&[u8], usize); 13] = [
    (b"2\nx\n1\n", 2),
    (b"\n", 1),
    (b"2\n\n", 2),
    (b"2\n\n1", 2),
    (b"2\r", 1),
    (b"2\r\r\n", 1),
    (b"0", 1),
    (b"02\n", 1),
    (b"+2", 1),
    (b"2 \n", 1),
    (b"1000001", 1),
    (b"2\n4\n99999999999999999999\n", 3),
    (b"2\n\xff\nx\n", 2),
];

#[test]
fn bad_lines(rt: HostRuntime) -> Result<(), Fail> {
    for (bytes, line) in BAD_LINES.iter() {
        match read_choices(rt.alloc(), bytes) {
            Ok(_) => assert!(rt; false, "{bytes:?}"),
            Err(fault) => assert!(rt; fault == ChoicesFault::BadLine(*line), "{bytes:?}"),
        }
    }
    Ok(())
}
