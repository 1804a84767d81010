//! Sheets that are made of parts, and the numbers of the conditions.

use super::accepted::{DEFAULTS, PAIR, Parts, QUARTER_TASK};
use crate::{Key, Place, Settings, SheetFault, Task, make_sheet};
use prta_mass::{Support, TableFault, TimeTable};
use std::alloc::Global;
use std::test::Fail;

const ONE: &[(u32, u64)] = &[(1, 1)];

const LONG: &[(u32, u64)] = &[(1_000_001, 1)];

const SMALL: Parts = Parts {
    name: "A",
    offset: 0,
    period: 1,
    deadline: 1,
    cycle: &[ONE],
    allow: (0, 1),
};

// Settings and tasks, and what refuses them.
static MADE: [(Settings, &[Parts], Option<SheetFault>); 22] = [
    (DEFAULTS, PAIR, None),
    (
        Settings { cap: 2, ..DEFAULTS },
        &[],
        Some(SheetFault::OutOfRange(Place::Top, Key::Cap)),
    ),
    (
        Settings {
            support: Some(Support { fine: 0, step: 0 }),
            ..DEFAULTS
        },
        PAIR,
        Some(SheetFault::OutOfRange(Place::Support, Key::Step)),
    ),
    (
        DEFAULTS,
        &[
            SMALL,
            Parts {
                name: "",
                period: 0,
                ..SMALL
            },
        ],
        Some(SheetFault::OutOfRange(Place::Task(1), Key::Period)),
    ),
    (
        DEFAULTS,
        &[Parts {
            cycle: &[LONG],
            allow: (2, 1),
            ..SMALL
        }],
        Some(SheetFault::OutOfRange(Place::Task(0), Key::Times)),
    ),
    (
        DEFAULTS,
        &[Parts {
            allow: (2, 1),
            ..SMALL
        }],
        Some(SheetFault::OutOfRange(Place::Task(0), Key::Allow)),
    ),
    // A cycle of no tables, and one of 17.
    (
        DEFAULTS,
        &[Parts {
            cycle: &[],
            ..SMALL
        }],
        Some(SheetFault::OutOfRange(Place::Task(0), Key::Cycle)),
    ),
    (
        DEFAULTS,
        &[Parts {
            cycle: &[ONE; 17],
            ..SMALL
        }],
        Some(SheetFault::OutOfRange(Place::Task(0), Key::Cycle)),
    ),
    (
        DEFAULTS,
        &[Parts {
            cycle: &[ONE; 16],
            ..SMALL
        }],
        None,
    ),
    (
        DEFAULTS,
        &[Parts {
            cycle: &[ONE, LONG],
            ..SMALL
        }],
        Some(SheetFault::OutOfRange(Place::Task(0), Key::Cycle)),
    ),
    // The greatest sum of weights.
    (
        DEFAULTS,
        &[Parts {
            cycle: &[&[(3, 281_474_976_710_656)]],
            ..SMALL
        }],
        None,
    ),
    (DEFAULTS, &[], Some(SheetFault::TaskCount(0))),
    (
        DEFAULTS,
        &[
            SMALL, SMALL, SMALL, SMALL, SMALL, SMALL, SMALL, SMALL, SMALL, SMALL, SMALL, SMALL,
            SMALL,
        ],
        Some(SheetFault::TaskCount(13)),
    ),
    (
        DEFAULTS,
        &[
            SMALL,
            Parts {
                name: "a b",
                ..SMALL
            },
        ],
        Some(SheetFault::BadName(1)),
    ),
    (
        DEFAULTS,
        &[
            SMALL,
            Parts {
                name: "B",
                offset: 1,
                ..SMALL
            },
            SMALL,
        ],
        Some(SheetFault::RepeatedName(2)),
    ),
    (
        DEFAULTS,
        &[
            SMALL,
            Parts {
                name: "B",
                offset: 1,
                deadline: 2_047,
                ..SMALL
            },
        ],
        Some(SheetFault::OffsetNotBelowPeriod(1)),
    ),
    (
        DEFAULTS,
        &[
            SMALL,
            Parts {
                name: "B",
                deadline: 2_047,
                ..SMALL
            },
        ],
        Some(SheetFault::DeadlineNotBelowCap(1)),
    ),
    (
        DEFAULTS,
        &[
            Parts {
                period: 101,
                ..SMALL
            },
            Parts {
                name: "B",
                period: 9_901,
                ..SMALL
            },
        ],
        Some(SheetFault::HyperperiodTooLarge),
    ),
    // Eleven tables: 1,100,000 ticks.
    (
        DEFAULTS,
        &[Parts {
            period: 100_000,
            cycle: &[ONE; 11],
            ..SMALL
        }],
        Some(SheetFault::HyperperiodTooLarge),
    ),
    (
        Settings {
            hyperperiods: 2,
            ..DEFAULTS
        },
        &[
            SMALL,
            Parts {
                name: "B",
                period: 1_000,
                ..SMALL
            },
        ],
        Some(SheetFault::TooManyJobs(2_002)),
    ),
    (
        Settings {
            cap: 16_384,
            hyperperiods: 64,
            ..DEFAULTS
        },
        &[
            QUARTER_TASK,
            Parts {
                name: "B",
                deadline: 16_382,
                ..QUARTER_TASK
            },
        ],
        Some(SheetFault::TooMuchWork(3_443_313_920)),
    ),
    (
        Settings {
            cap: 16_384,
            hyperperiods: 2,
            ..DEFAULTS
        },
        &[
            QUARTER_TASK,
            Parts {
                name: "B",
                deadline: 16_382,
                ..QUARTER_TASK
            },
        ],
        None,
    ),
];

#[test]
fn parts_have_their_answer(rt: HostRuntime) -> Result<(), Fail> {
    for (i, (settings, parts, want)) in MADE.iter().enumerate() {
        let tasks = tasks_of(rt.alloc(), parts)?;
        assert!(rt; make_sheet(*settings, tasks).err() == *want, "parts {i}");
    }
    Ok(())
}

// Copies, so that those are tried too.
pub fn tasks_of(alloc: Global, parts: &[Parts]) -> Result<Vec<Task>, Fail> {
    let mut tasks = Vec::new(alloc);
    for part in parts {
        let task = task_of(alloc, part)?;
        tasks.push(task.copy(alloc)?)?;
    }
    Ok(tasks)
}

fn task_of(alloc: Global, part: &Parts) -> Result<Task, Fail> {
    let mut cycle = Vec::new(alloc);
    for points in part.cycle {
        cycle.push(TimeTable::new(alloc, points)?)?;
    }
    Ok(Task::new(
        alloc,
        part.name,
        part.offset,
        part.period,
        part.deadline,
        cycle,
        part.allow,
    )?)
}

static NUMBERS: [(SheetFault, u32); 18] = [
    (SheetFault::TooLong, 1),
    (SheetFault::NotToml, 2),
    (SheetFault::Format, 3),
    (SheetFault::UnknownKey(Place::Top), 4),
    (SheetFault::MissingKey(Place::Support, Key::Step), 5),
    (SheetFault::WrongKind(Place::Task(1), Key::Name), 6),
    (SheetFault::OutOfRange(Place::Top, Key::Cap), 7),
    (SheetFault::TaskCount(13), 8),
    (SheetFault::BadName(3), 9),
    (SheetFault::RepeatedName(3), 9),
    (SheetFault::OffsetNotBelowPeriod(3), 10),
    (SheetFault::BadTable(3, TableFault::Empty), 11),
    (SheetFault::TotalTooLarge(3), 12),
    (SheetFault::DeadlineNotBelowCap(3), 13),
    (SheetFault::HyperperiodTooLarge, 14),
    (SheetFault::TooManyJobs(2_001), 15),
    (SheetFault::TooMuchWork(2_147_483_649), 16),
    (SheetFault::NoMemory, 0),
];

#[test]
fn a_condition_has_its_number(rt: HostRuntime) {
    for (fault, want) in NUMBERS.iter() {
        assert!(rt; fault.number() == *want, "{want}");
    }
}
