//! A page from end to end, and the lines on it.

use super::*;
use prta_dual::Bounds;
use prta_jobs::{Job, Order, TaskSet};
use prta_ledger::{Entry, Kind};
use prta_mass::{Dir, TimeTable, UNIT};
use prta_sheet::{Settings, Sheet, TASK_LIMIT, Task, make_sheet};
use std::alloc::Global;
use std::test::Fail;

#[test]
fn a_page_is_filled_and_emptied(rt: HostRuntime) -> Result<(), Fail> {
    let mut page = Page::with_room(rt.alloc(), LINE)?;
    assert!(rt; page.spare() == 512);
    if page.spare() >= 8 {
        page.push(b"end\n");
        page.push(b"end\n");
    }
    assert!(rt; page.bytes() == b"end\nend\n".as_slice());
    assert!(rt; page.spare() == 504);
    page.clear();
    assert!(rt; page.bytes().is_empty());
    assert!(rt; page.spare() == 512);
    Ok(())
}

// Two tasks: the second one has the longest period, and releases its first job as late in it as a task may.
fn pair(alloc: Global) -> Result<Sheet, Fail> {
    let mut tasks = Vec::new(alloc);
    for (name, offset, period, deadline) in [
        ("ctrl", 0, 1_000, 5),
        ("log-2", 999_999, 1_000_000, 7),
    ] {
        let mut cycle = Vec::new(alloc);
        cycle.push(TimeTable::new(alloc, &[(1, 1), (2, 1)])?)?;
        tasks.push(Task::new(alloc, name, offset, period, deadline, cycle, (1, 10))?)?;
    }
    let settings = Settings {
        cap: 12,
        hyperperiods: 1,
        turns: 16,
        support: None,
    };
    Ok(make_sheet(settings, tasks)?)
}

// A task and a job's number, where a job runs; the ticks; and the line.
#[derive(Drop)]
struct RunCase {
    who: Option<(usize, u32)>,
    from: u64,
    to: u64,
    line: &'static [u8],
}

static RUNS: [RunCase; 5] = [
    RunCase {
        who: Some((0, 0)),
        from: 0,
        to: 2,
        line: b"run 0 2 ctrl 0\n",
    },
    RunCase {
        who: Some((1, 17)),
        from: 136,
        to: 138,
        line: b"run 136 138 log-2 17\n",
    },
    RunCase {
        who: Some((1, u32::MAX)),
        from: 0,
        to: u64::MAX,
        line: b"run 0 18446744073709551615 log-2 4294967295\n",
    },
    RunCase {
        who: None,
        from: 0,
        to: 8,
        line: b"idle 0 8\n",
    },
    RunCase {
        who: None,
        from: 99,
        to: 1_000_000,
        line: b"idle 99 1000000\n",
    },
];

// The page with the line of the case.
fn page_of(alloc: Global, sheet: &Sheet, case: &RunCase) -> Result<Page, Fail> {
    let mut page = Page::with_room(alloc, LINE)?;
    match case.who {
        Some((task, number)) if task < sheet.tasks().len() => {
            let job = Job {
                task,
                number,
                release: 0,
            };
            run_line(&mut page, sheet, Some(job), case.from, case.to);
        }
        _ => run_line(&mut page, sheet, None, case.from, case.to),
    }
    Ok(page)
}

#[test]
fn lines_of_runs(rt: HostRuntime) -> Result<(), Fail> {
    let sheet = pair(rt.alloc())?;
    for case in RUNS.iter() {
        let page = page_of(rt.alloc(), &sheet, case)?;
        assert!(rt; page.bytes() == case.line);
    }
    Ok(())
}

// A line of an analysis: the count of jobs, a job's numbers, also as a record, an entry, a job's gap, a job that doesn't pass,
// how much there is of everything, and sums.
#[derive(Drop)]
enum Row {
    Count,
    Job(usize, u32, Bounds),
    Record(usize, u32, Bounds),
    Entry(Entry),
    Gap(usize, u32, Bounds, u128),
    No(usize, u32, u64),
    Size(u64, u64, u128, u64),
    Sums(u128, u128),
}

const QUARTER: Bounds = Bounds {
    lower: 288_230_376_151_711_744,
    upper: 288_230_376_151_711_744,
};

const NEAR: Bounds = Bounds {
    lower: 64_051_194_700_380_387,
    upper: 64_051_194_700_380_388,
};

const ZERO: Bounds = Bounds { lower: 0, upper: 0 };

static ROWS: [(Row, &[u8]); 14] = [
    (Row::Count, b"hyperperiod 1000000 jobs 1001\n"),
    (
        Row::Job(0, 0, QUARTER),
        b"job ctrl 0 release 0 deadline 5 lower 288230376151711744 0.250000000000 upper 288230376151711744 0.250000000000\n",
    ),
    (
        Row::Job(1, u32::MAX, NEAR),
        b"job log-2 4294967295 release 4294967295999999 deadline 4294967296000006 lower 64051194700380387 0.055555555555 upper 64051194700380388 0.055555555556\n",
    ),
    (
        Row::Record(1, 2, NEAR),
        b"log-2,2,2999999,3000006,64051194700380387,64051194700380388\n",
    ),
    (
        Row::Size(12, 384, 7_345, 11),
        b"tasks 12 jobs 384 entries 7345 certified 11\n",
    ),
    // Sums past 2^64.
    (
        Row::Sums(18_446_744_073_709_551_616, 36_893_488_147_419_103_232),
        b"lower 18446744073709551616 upper 36893488147419103232\n",
    ),
    (
        Row::Entry(Entry {
            dir: Dir::Up,
            kind: Kind::Round,
            task: 0,
            job: 1,
            op: 2,
            amount: 1,
        }),
        b"entry up round ctrl 1 2 1\n",
    ),
    (
        Row::Entry(Entry {
            dir: Dir::Up,
            kind: Kind::Cut,
            task: 0,
            job: 2,
            op: 3,
            amount: 144_115_188_075_855_872,
        }),
        b"entry up cut ctrl 2 3 144115188075855872\n",
    ),
    (
        Row::Entry(Entry {
            dir: Dir::Down,
            kind: Kind::Resample,
            task: 0,
            job: 1,
            op: 2,
            amount: 576_460_752_303_423_488,
        }),
        b"entry down resample ctrl 1 2 576460752303423488\n",
    ),
    (
        Row::Entry(Entry {
            dir: Dir::Down,
            kind: Kind::Delay,
            task: 1,
            job: 0,
            op: 1,
            amount: 1,
        }),
        b"entry down delay log-2 0 1 1\n",
    ),
    (
        Row::Gap(0, 1, ZERO, 4),
        b"gap ctrl 1 lower 0 upper 0 sum 4\n",
    ),
    (
        Row::Gap(1, 0, NEAR, 5),
        b"gap log-2 0 lower 64051194700380387 upper 64051194700380388 sum 5\n",
    ),
    // A sum of 2^65.
    (
        Row::Gap(0, 0, QUARTER, 36_893_488_147_419_103_232),
        b"gap ctrl 0 lower 288230376151711744 upper 288230376151711744 sum 36893488147419103232\n",
    ),
    (
        Row::No(0, 0, 115_292_150_460_684_698),
        b"no ctrl 0 upper 115292150460684698 allow 1 10\n",
    ),
];

// The page with the line, where the row's task is on the sheet and its numbers are chances.
fn page_of_row(alloc: Global, sheet: &Sheet, row: &Row) -> Result<Page, Fail> {
    let tasks = sheet.tasks().len();
    let mut page = Page::with_room(alloc, LINE)?;
    match *row {
        Row::Count => count_line(&mut page, sheet),
        Row::Job(task, number, bounds)
            if task < tasks && bounds.lower <= UNIT && bounds.upper <= UNIT => {
            job_line(&mut page, sheet, task, number, bounds)
        }
        Row::Record(task, number, bounds) if task < tasks => {
            csv_line(&mut page, sheet, task, number, bounds)
        }
        Row::Entry(entry) if (entry.task as usize) < tasks => entry_line(&mut page, sheet, entry),
        Row::Gap(task, number, bounds, sum) if task < tasks => {
            gap_line(&mut page, sheet, task, number, bounds, sum)
        }
        Row::No(task, number, upper) if task < tasks => {
            no_line(&mut page, sheet, task, number, upper)
        }
        Row::Size(tasks, jobs, entries, certified) => {
            size_line(&mut page, tasks, jobs, entries, certified)
        }
        Row::Sums(lower, upper) => sums_line(&mut page, lower, upper),
        _ => {}
    }
    Ok(page)
}

#[test]
fn lines_of_analyses(rt: HostRuntime) -> Result<(), Fail> {
    let sheet = pair(rt.alloc())?;
    for (row, line) in ROWS.iter() {
        let page = page_of_row(rt.alloc(), &sheet, row)?;
        assert!(rt; page.bytes() == *line);
    }
    Ok(())
}

static ORDERS: [([usize; 2], &[u8]); 2] = [
    ([0, 1], b"order ctrl log-2\n"),
    ([1, 0], b"order log-2 ctrl\n"),
];

#[test]
fn lines_of_orders(rt: HostRuntime) -> Result<(), Fail> {
    let sheet = pair(rt.alloc())?;
    for (tasks, line) in ORDERS.iter() {
        let order = Order::new(rt.alloc(), &sheet, tasks)?;
        let mut page = Page::with_room(rt.alloc(), LINE)?;
        if order.list().len() <= sheet.tasks().len() {
            order_line(&mut page, &sheet, &order);
        }
        assert!(rt; page.bytes() == *line);
    }
    Ok(())
}

// A word, the tasks of a set, and the line; a number past the sheet names no task.
static SETS: [(&str, &[usize], &[u8]); 3] = [
    ("impossible", &[1, 0], b"impossible ctrl log-2\n"),
    ("undecided", &[1, 11], b"undecided log-2\n"),
    ("undecided", &[], b"undecided\n"),
];

#[test]
fn lines_of_sets(rt: HostRuntime) -> Result<(), Fail> {
    let sheet = pair(rt.alloc())?;
    for (word, tasks, line) in SETS.iter() {
        let mut set = TaskSet::empty();
        for task in tasks.iter() {
            if *task < TASK_LIMIT {
                set = set.with(*task);
            }
        }
        let mut page = Page::with_room(rt.alloc(), LINE)?;
        if word.len() <= 16 {
            set_line(&mut page, &sheet, word, set);
        }
        assert!(rt; page.bytes() == *line);
    }
    Ok(())
}

static NUMBERS: [(u64, &[u8]); 3] = [(0, b"0"), (10, b"10"), (u64::MAX, b"18446744073709551615")];

#[test]
fn whole_numbers(rt: HostRuntime) -> Result<(), Fail> {
    for (n, digits) in NUMBERS.iter() {
        let mut page = Page::with_room(rt.alloc(), 20)?;
        assert!(rt; page.spare() >= 20);
        push_number(&mut page, *n);
        assert!(rt; page.bytes() == *digits);
    }
    Ok(())
}
