//! Sheets that are edited, and sheets with ticks added to a task.

ghost use Rattle.std.specs.Prelude.{◌≡◌, ◌<◌, ◌≤◌, length, IfOk};
ghost use Rattle.prta_sheet.specs.Sheet.{task_at};
ghost use Rattle.prta_sheet.specs.Added.{room};
ghost use Rattle.prta_sheet.specs.Edits.{task_of};

use super::accepted::{DEFAULTS, IN_TURN, LOWER, PAIR, Parts, QUARTER_TASK, UPPER, has_tasks};
use super::made::tasks_of;
use crate::{Edit, EditFault, Settings, Sheet, added_sheets, make_sheet};
use prta_mass::TimeTable;
use std::alloc::Global;
use std::test::Fail;

// What an edit changes of a task.
#[derive(Clone, Copy)]
enum Part {
    Table(usize, &'static [(u32, u64)]),
    Deadline(u32),
    Allow(u64, u64),
}

// A sheet, the task that is edited, the edit, its answer, and the tasks afterwards.
#[derive(Clone, Copy)]
struct Edited {
    settings: Settings,
    before: &'static [Parts],
    task: usize,
    part: Part,
    fault: Option<EditFault>,
    after: &'static [Parts],
}

const ROW: Edited = Edited {
    settings: DEFAULTS,
    before: PAIR,
    task: 1,
    part: Part::Deadline(8),
    fault: None,
    after: PAIR,
};

// Two tasks with the same releases.
const MANY: &[Parts] = &[
    QUARTER_TASK,
    Parts {
        name: "B",
        ..QUARTER_TASK
    },
];

static EDITED: [Edited; 14] = [
    Edited {
        after: &[
            UPPER,
            Parts {
                deadline: 8,
                ..LOWER
            },
        ],
        ..ROW
    },
    Edited {
        part: Part::Table(0, &[(5, 1)]),
        after: &[
            UPPER,
            Parts {
                cycle: &[&[(5, 1)]],
                ..LOWER
            },
        ],
        ..ROW
    },
    Edited {
        task: 0,
        part: Part::Allow(1, 4),
        after: &[
            Parts {
                allow: (1, 4),
                ..UPPER
            },
            LOWER,
        ],
        ..ROW
    },
    // The second of two tables, and a third one.
    Edited {
        before: &[IN_TURN],
        task: 0,
        part: Part::Table(1, &[(4, 2), (9, 3)]),
        after: &[Parts {
            cycle: &[&[(3, 1), (6, 1)], &[(4, 2), (9, 3)]],
            ..IN_TURN
        }],
        ..ROW
    },
    Edited {
        before: &[IN_TURN],
        task: 0,
        part: Part::Table(2, &[(4, 2)]),
        fault: Some(EditFault::NoTable),
        after: &[IN_TURN],
        ..ROW
    },
    Edited {
        task: 0,
        part: Part::Table(1, &[(2, 1)]),
        fault: Some(EditFault::NoTable),
        ..ROW
    },
    // The greatest time, and one more.
    Edited {
        part: Part::Table(0, &[(1, 1), (1_000_000, 1)]),
        after: &[
            UPPER,
            Parts {
                cycle: &[&[(1, 1), (1_000_000, 1)]],
                ..LOWER
            },
        ],
        ..ROW
    },
    Edited {
        part: Part::Table(0, &[(1, 1), (1_000_001, 1)]),
        fault: Some(EditFault::Refused(7)),
        ..ROW
    },
    Edited {
        part: Part::Deadline(0),
        fault: Some(EditFault::Refused(7)),
        ..ROW
    },
    Edited {
        part: Part::Deadline(2_046),
        after: &[
            UPPER,
            Parts {
                deadline: 2_046,
                ..LOWER
            },
        ],
        ..ROW
    },
    Edited {
        part: Part::Deadline(2_047),
        fault: Some(EditFault::Refused(13)),
        ..ROW
    },
    Edited {
        part: Part::Allow(2, 1),
        fault: Some(EditFault::Refused(7)),
        ..ROW
    },
    Edited {
        part: Part::Allow(0, 0),
        fault: Some(EditFault::Refused(7)),
        ..ROW
    },
    Edited {
        settings: Settings {
            cap: 16_384,
            hyperperiods: 64,
            ..DEFAULTS
        },
        before: MANY,
        part: Part::Deadline(16_382),
        fault: Some(EditFault::Refused(16)),
        after: MANY,
        ..ROW
    },
];

#[test]
fn an_edit_is_made_or_leaves_the_sheet(rt: HostRuntime) -> Result<(), Fail> {
    for (i, row) in EDITED.iter().enumerate() {
        let mut sheet = made(rt.alloc(), row.settings, row.before)?;
        let edit = edit_of(rt.alloc(), row)?;
        assert!(rt; row.task < sheet.tasks().len(), "edit {i}");
        let fault = sheet.edit(edit).err();
        assert!(rt;
            fault == row.fault && has_tasks(&sheet, row.after),
            "edit {i}"
        );
    }
    Ok(())
}

fn made(alloc: Global, settings: Settings, parts: &[Parts]) -> Result<Sheet, Fail> {
    let tasks = tasks_of(alloc, parts)?;
    Ok(make_sheet(settings, tasks)?)
}

fn edit_of(alloc: Global, row: &Edited) -> Result<Edit, Fail>
    ensures { IfOk result (λ edit. task_of edit ≡ row.now.task) }
{
    let task = row.task;
    Ok(match row.part {
        Part::Table(index, points) => Edit::Table {
            task,
            index,
            table: TimeTable::new(alloc, points)?,
        },
        Part::Deadline(value) => Edit::Deadline { task, value },
        Part::Allow(p, q) => Edit::Allow { task, p, q },
    })
}

// Ticks that are added to the first task of a sheet, and its tasks then.
static ADDED: [(u32, &[Parts]); 4] = [
    (
        999_994,
        &[Parts {
            cycle: &[&[(999_997, 1), (1_000_000, 1)], &[(999_996, 1)]],
            ..IN_TURN
        }],
    ),
    (
        2,
        &[Parts {
            cycle: &[&[(5, 1), (8, 1)], &[(4, 1)]],
            ..IN_TURN
        }],
    ),
    (
        3,
        &[Parts {
            cycle: &[&[(6, 1), (9, 1)], &[(5, 1)]],
            ..IN_TURN
        }],
    ),
    (0, &[IN_TURN]),
];

#[test]
fn ticks_are_added_and_taken_off_again(rt: HostRuntime) -> Result<(), Fail> {
    let base = made(rt.alloc(), DEFAULTS, &[IN_TURN])?;
    assert!(rt; base.tasks().len() == 1);
    assert_eq!(rt; base.room(0), 999_994);
    for (s, tasks) in ADDED.iter() {
        assert!(rt; *s <= base.room(0), "{s}");
        let sheet = with_added(rt.alloc(), &base, *s)?;
        assert!(rt;
            has_tasks(&sheet, tasks) && sheet.work() == base.work(),
            "{s}"
        );
    }
    Ok(())
}

// The base with all of the first task's room added, and then with s ticks in its place.
fn with_added(alloc: Global, base: &Sheet, s: u32) -> Result<Sheet, Fail>
    requires task { 0 < length base.now.tasks }
    requires room { s ≤ room (task_at base.now.tasks 0) }
{
    added_sheets();
    let most = base.room(0);
    let mut sheet = base.copy(alloc)?;
    sheet.set_added(base, 0, most);
    sheet.set_added(base, 0, s);
    Ok(sheet)
}
