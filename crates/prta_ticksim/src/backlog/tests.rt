//! Finishes of jobs.

ghost use Rattle.std.specs.Prelude.{IsTrue, All};
ghost use Rattle.prta_ticksim.specs.Times.{IsTime};

use super::*;
use prta_jobs::{Order, jobs_before};
use prta_mass::TimeTable;
use prta_sheet::{Settings, Sheet, TIME_LIMIT, Task, make_sheet};
use std::alloc::Global;
use std::process::Abort;
use std::test::Fail;

const SETTINGS: Settings = Settings {
    cap: 2048,
    hyperperiods: 1,
    turns: 16,
    support: None,
};

static NAMES: [&str; 3] = ["A", "B", "C"];

// A sheet of at most three tasks, each with its offset and period.
fn sheet_of(alloc: Global, tasks: &[(u32, u32)]) -> Result<Sheet, Fail> {
    let mut made = Vec::new(alloc);
    for ((offset, period), name) in tasks.iter().zip(NAMES.iter()) {
        let mut cycle = Vec::new(alloc);
        cycle.push(TimeTable::new(alloc, &[(1, 1), (2, 1)])?)?;
        made.push(Task::new(alloc, name, *offset, *period, 7, cycle, (0, 1))?)?;
    }
    Ok(make_sheet(SETTINGS, made)?)
}

// Whether each number is a time of a job.
fn are_times(times: &[u32]) -> bool
    ensures { IsTrue result → All IsTime times.now }
{
    for time in times {
        if *time < 1 || *time > TIME_LIMIT {
            return false;
        }
    }
    true
}

// All jobs of the tasks before a time, each with its time, under an order, and when each is finished: found by another
// program, which runs the machine tick by tick.
struct Case {
    name: &'static str,
    tasks: &'static [(u32, u32)],
    order: &'static [usize],
    before: u32,
    times: &'static [u32],
    finishes: &'static [u64],
}

static CASES: [Case; 15] = [
    Case {
        name: "a release at 4 delays the low job",
        tasks: &[(0, 4), (0, 8)],
        order: &[0, 1],
        before: 8,
        times: &[2, 4, 1],
        finishes: &[2, 7, 5],
    },
    Case {
        name: "the low job ends just at the release at 4",
        tasks: &[(0, 4), (0, 8)],
        order: &[0, 1],
        before: 8,
        times: &[2, 2, 1],
        finishes: &[2, 4, 5],
    },
    Case {
        name: "a late job goes before the next one of its task",
        tasks: &[(0, 4), (0, 8)],
        order: &[0, 1],
        before: 8,
        times: &[5, 2, 3],
        finishes: &[5, 10, 8],
    },
    Case {
        name: "the other order",
        tasks: &[(0, 4), (0, 8)],
        order: &[1, 0],
        before: 8,
        times: &[2, 4, 1],
        finishes: &[6, 4, 7],
    },
    Case {
        name: "a task below is light",
        tasks: &[(0, 4), (0, 8)],
        order: &[0, 1],
        before: 16,
        times: &[2, 1, 1, 3, 1, 2],
        finishes: &[2, 3, 5, 11, 12, 14],
    },
    Case {
        name: "a task below is heavy, and the one above finishes as before",
        tasks: &[(0, 4), (0, 8)],
        order: &[0, 1],
        before: 16,
        times: &[2, 9, 1, 3, 9, 2],
        finishes: &[2, 17, 5, 11, 26, 14],
    },
    Case {
        name: "three jobs of one time, the last task first",
        tasks: &[(0, 12), (0, 12), (0, 12)],
        order: &[2, 0, 1],
        before: 12,
        times: &[3, 4, 2],
        finishes: &[5, 9, 2],
    },
    Case {
        name: "an idle stretch before each release",
        tasks: &[(3, 20), (9, 20)],
        order: &[0, 1],
        before: 40,
        times: &[2, 1, 7, 5],
        finishes: &[5, 10, 30, 35],
    },
    Case {
        name: "one delay reaches the next, and ends just at the one after",
        tasks: &[(1, 6), (2, 6), (0, 18)],
        order: &[0, 1, 2],
        before: 18,
        times: &[2, 4, 1, 1, 2, 1, 1],
        finishes: &[7, 5, 6, 8, 10, 14, 15],
    },
    Case {
        name: "a delay ends just at the next release",
        tasks: &[(0, 5), (0, 20)],
        order: &[0, 1],
        before: 20,
        times: &[2, 4, 4, 3, 1],
        finishes: &[2, 10, 9, 13, 16],
    },
    Case {
        name: "the next job of the own task isn't counted",
        tasks: &[(2, 9), (0, 3)],
        order: &[0, 1],
        before: 12,
        times: &[5, 2, 1, 3, 2, 4],
        finishes: &[7, 4, 8, 11, 17, 15],
    },
    Case {
        name: "overload",
        tasks: &[(0, 2), (1, 2)],
        order: &[1, 0],
        before: 8,
        times: &[2, 3, 1, 2, 3, 1, 2, 3],
        finishes: &[11, 4, 12, 6, 15, 7, 17, 10],
    },
    Case {
        name: "three levels with offsets",
        tasks: &[(1, 4), (3, 6), (0, 12)],
        order: &[1, 2, 0],
        before: 13,
        times: &[3, 2, 1, 4, 2, 1, 3],
        finishes: &[3, 6, 4, 11, 16, 10, 15],
    },
    Case {
        name: "one task alone, late",
        tasks: &[(0, 3)],
        order: &[0],
        before: 12,
        times: &[7, 1, 1, 5],
        finishes: &[7, 8, 9, 14],
    },
    Case {
        name: "the greatest times",
        tasks: &[(0, 1000000), (999999, 1000000)],
        order: &[0, 1],
        before: 2000000,
        times: &[1000000, 1000000, 1000000, 1000000],
        finishes: &[1000000, 3000000, 2000000, 4000000],
    },
];

fn try_case(rt: &impl Abort, alloc: Global, case: &Case) -> Result<(), Fail> {
    let sheet = sheet_of(alloc, case.tasks)?;
    let order = Order::new(alloc, &sheet, case.order)?;
    let jobs = jobs_before(alloc, &sheet, case.before as u64)?;
    assert!(rt; are_times(case.times), "{}", case.name);
    assert!(rt; case.times.len() == jobs.list().len(), "{}", case.name);
    assert!(rt; case.finishes.len() == jobs.list().len(), "{}", case.name);
    for (i, want) in case.finishes.iter().enumerate() {
        let finish = finish_by_backlog(&sheet, &order, &jobs, case.times, i);
        assert!(rt; finish == *want, "{}: job {i}", case.name);
    }
    Ok(())
}

#[test]
fn finishes_are_those_of_the_machine_of_ticks(rt: HostRuntime) -> Result<(), Fail> {
    for case in CASES.iter() {
        try_case(&rt, rt.alloc(), case)?;
    }
    Ok(())
}
