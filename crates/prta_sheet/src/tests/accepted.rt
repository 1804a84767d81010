//! Accepted sheets: their parts, their numbers and their canonical texts.

use super::refused::QUARTER;
use crate::{Settings, Sheet, Task, read_sheet, sheet_text};
use prta_mass::Support;
use std::alloc::Global;
use std::test::Fail;

// The parts of a task.
#[derive(Clone, Copy)]
pub struct Parts {
    pub name: &'static str,
    pub offset: u32,
    pub period: u32,
    pub deadline: u32,
    pub cycle: &'static [&'static [(u32, u64)]],
    pub allow: (u64, u64),
}

// What a text states.
#[derive(Clone, Copy)]
struct Stated {
    text: &'static str,
    settings: Settings,
    tasks: &'static [Parts],
    // In ticks.
    hyperperiod: u64,
    horizon: u64,
    // The analysed jobs of each task, and of all.
    jobs: &'static [usize],
    all_jobs: usize,
    work: u64,
    canonical: &'static [u8],
}

pub const DEFAULTS: Settings = Settings {
    cap: 2_048,
    hyperperiods: 1,
    turns: 16,
    support: None,
};

pub const QUARTER_TASK: Parts = Parts {
    name: "A",
    offset: 0,
    period: 10,
    deadline: 5,
    cycle: &[&[(3, 3), (7, 1)]],
    allow: (0, 1),
};

pub const UPPER: Parts = Parts {
    name: "A",
    offset: 0,
    period: 4,
    deadline: 4,
    cycle: &[&[(1, 1), (2, 1)]],
    allow: (0, 1),
};

pub const LOWER: Parts = Parts {
    name: "B",
    offset: 0,
    period: 8,
    deadline: 7,
    cycle: &[&[(2, 1), (4, 1)]],
    allow: (0, 1),
};

pub const PAIR: &[Parts] = &[UPPER, LOWER];

// Two tables in turn.
pub const IN_TURN: Parts = Parts {
    name: "A",
    offset: 0,
    period: 5,
    deadline: 5,
    cycle: &[&[(3, 1), (6, 1)], &[(2, 1)]],
    allow: (0, 1),
};

static STATED: [Stated; 5] = [
    Stated {
        text: QUARTER,
        settings: DEFAULTS,
        tasks: &[QUARTER_TASK],
        hyperperiod: 10,
        horizon: 10,
        jobs: &[1],
        all_jobs: 1,
        work: 4_096,
        canonical: b"format = 1\ncap = 2048\nhyperperiods = 1\nturns = 16\n\n[[task]]\nname = \"A\"\noffset = 0\nperiod = 10\ndeadline = 5\ntimes = [[3, 3], [7, 1]]\nallow = [0, 1]\n",
    },
    // Every key, in another order.
    Stated {
        text: "turns = 0\nhyperperiods = 3\ncap = 100\nformat = 1\ntask = [{ allow = [1, 1_000_000_000_000_000_000], times = [[2, 4294967295], [1_000_000, 1]], deadline = 98, period = 0x0A, offset = 9, name = \"a-_Z9\" }]\n[support]\nstep = 16_384\nfine = 16_383\n",
        settings: Settings {
            cap: 100,
            hyperperiods: 3,
            turns: 0,
            support: Some(Support {
                fine: 16_383,
                step: 16_384,
            }),
        },
        tasks: &[Parts {
            name: "a-_Z9",
            offset: 9,
            period: 10,
            deadline: 98,
            cycle: &[&[(2, 4_294_967_295), (1_000_000, 1)]],
            allow: (1, 1_000_000_000_000_000_000),
        }],
        hyperperiod: 10,
        horizon: 30,
        jobs: &[3],
        all_jobs: 3,
        work: 600,
        canonical: b"format = 1\ncap = 100\nhyperperiods = 3\nturns = 0\nsupport = { fine = 16383, step = 16384 }\n\n[[task]]\nname = \"a-_Z9\"\noffset = 9\nperiod = 10\ndeadline = 98\ntimes = [[2, 4294967295], [1000000, 1]]\nallow = [1, 1000000000000000000]\n",
    },
    // Two tasks.
    Stated {
        text: "format = 1\ncap = 12\n[[task]]\nname = \"A\"\nperiod = 4\ndeadline = 4\ntimes = [[1, 1], [2, 1]]\n[[task]]\nname = \"B\"\nperiod = 8\ndeadline = 7\ntimes = [[2, 1], [4, 1]]\n",
        settings: Settings {
            cap: 12,
            ..DEFAULTS
        },
        tasks: PAIR,
        hyperperiod: 8,
        horizon: 8,
        jobs: &[2, 1],
        all_jobs: 3,
        work: 160,
        canonical: b"format = 1\ncap = 12\nhyperperiods = 1\nturns = 16\n\n[[task]]\nname = \"A\"\noffset = 0\nperiod = 4\ndeadline = 4\ntimes = [[1, 1], [2, 1]]\nallow = [0, 1]\n\n[[task]]\nname = \"B\"\noffset = 0\nperiod = 8\ndeadline = 7\ntimes = [[2, 1], [4, 1]]\nallow = [0, 1]\n",
    },
    // Two tables in turn: the second job has the second one.
    Stated {
        text: "format = 2\n[[task]]\nname = \"A\"\nperiod = 5\ndeadline = 5\ncycle = [[[3, 1], [6, 1]], [[2, 1]]]\n",
        settings: DEFAULTS,
        tasks: &[IN_TURN],
        hyperperiod: 10,
        horizon: 10,
        jobs: &[2],
        all_jobs: 2,
        work: 6_144,
        canonical: b"format = 2\ncap = 2048\nhyperperiods = 1\nturns = 16\n\n[[task]]\nname = \"A\"\noffset = 0\nperiod = 5\ndeadline = 5\ncycle = [[[3, 1], [6, 1]], [[2, 1]]]\nallow = [0, 1]\n",
    },
    // The only job of B ends past the horizon: both jobs of A after its release count, that at 20 too.
    Stated {
        text: "format = 1\ncap = 30\n[[task]]\nname = \"A\"\nperiod = 10\ndeadline = 1\ntimes = [[1, 1]]\n[[task]]\nname = \"B\"\noffset = 5\nperiod = 10\ndeadline = 16\ntimes = [[1, 1]]\n",
        settings: Settings {
            cap: 30,
            ..DEFAULTS
        },
        tasks: &[
            Parts {
                name: "A",
                offset: 0,
                period: 10,
                deadline: 1,
                cycle: &[&[(1, 1)]],
                allow: (0, 1),
            },
            Parts {
                name: "B",
                offset: 5,
                period: 10,
                deadline: 16,
                cycle: &[&[(1, 1)]],
                allow: (0, 1),
            },
        ],
        hyperperiod: 10,
        horizon: 10,
        jobs: &[1, 1],
        all_jobs: 2,
        work: 154,
        canonical: b"format = 1\ncap = 30\nhyperperiods = 1\nturns = 16\n\n[[task]]\nname = \"A\"\noffset = 0\nperiod = 10\ndeadline = 1\ntimes = [[1, 1]]\nallow = [0, 1]\n\n[[task]]\nname = \"B\"\noffset = 5\nperiod = 10\ndeadline = 16\ntimes = [[1, 1]]\nallow = [0, 1]\n",
    },
];

#[test]
fn a_sheet_and_its_copy_are_what_the_text_states(rt: HostRuntime) -> Result<(), Fail> {
    for (i, want) in STATED.iter().enumerate() {
        let sheet = read_sheet(rt.alloc(), want.text.as_bytes())?;
        let copy = sheet.copy(rt.alloc())?;
        assert!(rt;
            is_stated(&sheet, want) && is_stated(&copy, want),
            "sheet {i}"
        );
    }
    Ok(())
}

#[test]
fn the_canonical_text_has_all_keys_and_states_the_sheet(rt: HostRuntime) -> Result<(), Fail> {
    for (i, want) in STATED.iter().enumerate() {
        let text = canonical_of(rt.alloc(), want.text.as_bytes())?;
        let again = canonical_of(rt.alloc(), &text)?;
        assert!(rt;
            text.as_slice() == want.canonical && again.as_slice() == want.canonical,
            "sheet {i}"
        );
    }
    Ok(())
}

fn canonical_of(alloc: Global, text: &[u8]) -> Result<Vec<u8>, Fail> {
    let sheet = read_sheet(alloc, text)?;
    Ok(sheet_text(alloc, &sheet)?)
}

fn is_stated(sheet: &Sheet, want: &Stated) -> bool {
    sheet.settings() == want.settings
        && sheet.cap() == want.settings.cap as usize
        && has_counts(sheet, want)
        && has_jobs(sheet, want.jobs)
        && has_tasks(sheet, want.tasks)
}

fn has_counts(sheet: &Sheet, want: &Stated) -> bool {
    sheet.hyperperiod() == want.hyperperiod
        && sheet.horizon() == want.horizon
        && sheet.all_jobs() == want.all_jobs
        && sheet.work() == want.work
}

fn has_jobs(sheet: &Sheet, jobs: &[usize]) -> bool {
    for i in 0..sheet.tasks().len() {
        if i >= jobs.len() || sheet.job_count(i) != jobs[i] {
            return false;
        }
    }
    sheet.tasks().len() == jobs.len()
}

pub fn has_tasks(sheet: &Sheet, tasks: &[Parts]) -> bool {
    for (task, want) in sheet.tasks().iter().zip(tasks) {
        if !has_parts(task, want) {
            return false;
        }
    }
    sheet.tasks().len() == tasks.len()
}

fn has_parts(task: &Task, want: &Parts) -> bool {
    task.name() == want.name
        && task.offset() == want.offset
        && task.period() == want.period
        && task.deadline() == want.deadline
        && has_cycle(task, want.cycle)
        && task.allow() == want.allow
}

// The tables of the first jobs, in turn.
fn has_cycle(task: &Task, cycle: &[&[(u32, u64)]]) -> bool {
    if cycle.is_empty() || task.cycle().len() != cycle.len() {
        return false;
    }
    for number in 0..40_u32 {
        if task.table(number).points() != cycle[number as usize % cycle.len()] {
            return false;
        }
    }
    true
}
