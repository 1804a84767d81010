//! Jobs, instants, sets and orders.

ghost use Rattle.std.specs.Prelude.{◌≡◌, length};
ghost use Rattle.prta_jobs.specs.TaskSet.{holds};
ghost use Rattle.prta_jobs.specs.Instant.{IsOnSheet, HasTask};

use super::*;
use prta_sheet::{Sheet, read_sheet};
use std::process::Abort;
use std::test::Fail;

// Two tasks of periods 4 and 8.
const PAIR: &[u8] =
    b"format = 1\n[[task]]\nname = \"A\"\nperiod = 4\ndeadline = 4\ntimes = [[1, 1], [2, 1]]\n[[task]]\nname = \"B\"\nperiod = 8\ndeadline = 7\ntimes = [[2, 1], [4, 1]]\n";

// Task 0 with offset 1 and period 4, and task 1 with offset 3 and period 6: the hyperperiod is 12.
const OFFSETS: &[u8] =
    b"format = 1\n[[task]]\nname = \"A\"\noffset = 1\nperiod = 4\ndeadline = 4\ntimes = [[1, 1], [2, 1]]\n[[task]]\nname = \"B\"\noffset = 3\nperiod = 6\ndeadline = 4\ntimes = [[1, 1], [2, 1]]\n";

const ALONE: &[u8] =
    b"format = 1\n[[task]]\nname = \"A\"\nperiod = 10\ndeadline = 5\ntimes = [[3, 3], [7, 1]]\n";

// A sheet, a time, and of each job released before it its task, its number and its release.
static JOBS: [(&[u8], u32, &[(usize, u32, u64)]); 7] = [
    (PAIR, 0, &[]),
    (PAIR, 1, &[(0, 0, 0), (1, 0, 0)]),
    (PAIR, 4, &[(0, 0, 0), (1, 0, 0)]),
    (PAIR, 5, &[(0, 0, 0), (1, 0, 0), (0, 1, 4)]),
    (PAIR, 8, &[(0, 0, 0), (1, 0, 0), (0, 1, 4)]),
    (
        OFFSETS,
        13,
        &[(0, 0, 1), (1, 0, 3), (0, 1, 5), (0, 2, 9), (1, 1, 9)],
    ),
    (ALONE, 13, &[(0, 0, 0), (0, 1, 10)]),
];

#[test]
fn jobs_before_a_time_stand_by_release_and_then_by_task(rt: HostRuntime) -> Result<(), Fail> {
    for (text, t, want) in JOBS.iter() {
        let sheet = read_sheet(rt.alloc(), text)?;
        let jobs = jobs_before(rt.alloc(), &sheet, *t as u64)?;
        assert!(rt; jobs.list().len() == want.len(), "before {t}");
        for (job, &(task, number, release)) in jobs.list().iter().zip(want.iter()) {
            let want = Job {
                task,
                number,
                release,
            };
            assert!(rt; *job == want, "before {t}");
        }
    }
    Ok(())
}

// The first instant from a time on, and which of the tasks 0 and 1 release a job then.
type Found = (u32, u64, bool, bool);

// Of both tasks, over two hyperperiods.
const OF_BOTH: [Found; 10] = [
    (0, 1, true, false),
    (1, 1, true, false),
    (2, 3, false, true),
    (4, 5, true, false),
    (6, 9, true, true),
    (10, 13, true, false),
    (14, 15, false, true),
    (16, 17, true, false),
    (18, 21, true, true),
    (22, 25, true, false),
];

// Of the second task alone.
static OF_SECOND: [Found; 5] = [
    (0, 3, false, true),
    (3, 3, false, true),
    (4, 9, false, true),
    (10, 15, false, true),
    (16, 21, false, true),
];

const OF_ALONE: [Found; 2] = [(0, 0, true, false), (3, 10, true, false)];

// Of all tasks of a sheet.
static OF_ALL: [(&[u8], &[Found]); 2] = [(OFFSETS, &OF_BOTH), (ALONE, &OF_ALONE)];

fn has_instants(rt: &impl Abort, sheet: &Sheet, level: TaskSet, found: &[Found])
    requires on_sheet { IsOnSheet sheet.now.tasks (holds level) }
    requires some { HasTask (holds level) }
{
    for &(from, at, first, second) in found {
        let instant = if from == 0 {
            first_instant(sheet, level)
        } else {
            next_instant(sheet, level, from as u64 - 1)
        };
        assert!(rt; instant.at == at, "from {from}");
        assert!(rt; instant.released.holds(0) == first, "from {from}");
        assert!(rt; instant.released.holds(1) == second, "from {from}");
    }
}

#[test]
fn instants(rt: HostRuntime) -> Result<(), Fail> {
    for (text, found) in OF_ALL.iter() {
        let sheet = read_sheet(rt.alloc(), text)?;
        let level = TaskSet::below(sheet.tasks().len());
        has_instants(&rt, &sheet, level, found);
    }
    let sheet = read_sheet(rt.alloc(), OFFSETS)?;
    let second = TaskSet::empty().with(1);
    assert!(rt; sheet.tasks().len() == 2);
    has_instants(&rt, &sheet, second, &OF_SECOND);
    Ok(())
}

#[test]
fn sets_hold_what_was_put_in(rt: HostRuntime) {
    let table = [
        (TaskSet::empty(), [false, false, false]),
        (TaskSet::below(2), [true, true, false]),
        (TaskSet::empty().with(2), [false, false, true]),
        (TaskSet::below(3).without(1), [true, false, true]),
        (TaskSet::below(2).without(2), [true, true, false]),
        (TaskSet::below(12), [true, true, true]),
    ];
    for (set, want) in table {
        for task in 0..3 {
            assert!(rt; set.holds(task) == want[task], "task {task}");
        }
    }
    assert!(rt; TaskSet::below(12).holds(11));
}

// A sheet, task numbers, and whether they are an order of its tasks.
static ORDERS: [(&[u8], &[usize], bool); 8] = [
    (PAIR, &[0, 0], false),
    (PAIR, &[0, 1], true),
    (PAIR, &[1, 0], true),
    (PAIR, &[0], false),
    (PAIR, &[0, 2], false),
    (PAIR, &[0, 1, 1], false),
    (PAIR, &[], false),
    (ALONE, &[0], true),
];

#[test]
fn an_order_has_each_task_once(rt: HostRuntime) -> Result<(), Fail> {
    for (text, tasks, accepted) in ORDERS.iter() {
        let sheet = read_sheet(rt.alloc(), text)?;
        let right = match Order::new(rt.alloc(), &sheet, tasks) {
            Ok(order) => *accepted && order.list() == *tasks,
            Err(fault) => !*accepted && fault == OrderFault::NotPermutation,
        };
        assert!(rt; right, "{tasks:?}");
    }
    let sheet = read_sheet(rt.alloc(), ALONE)?;
    assert!(rt; Order::of_sheet(rt.alloc(), &sheet)?.list() == [0].as_slice());
    assert!(rt; release(&sheet, 0, 3) == 30);
    Ok(())
}

// An order of three tasks, and for each task which are above it.
struct Above {
    list: &'static [usize],
    above: [[bool; 3]; 3],
}

static OWN: Above = Above {
    list: &[0, 1, 2],
    above: [
        [false, false, false],
        [true, false, false],
        [true, true, false],
    ],
};

static TURNED: Above = Above {
    list: &[2, 1, 0],
    above: [
        [false, true, true],
        [false, false, true],
        [false, false, false],
    ],
};

fn has_above(rt: &impl Abort, order: &Order, want: &Above)
    requires { length order.now ≡ 3 }
{
    assert!(rt; order.list() == want.list);
    for task in 0..3 {
        let above = order.above(task);
        for i in 0..3 {
            assert!(rt; above.holds(i) == want.above[task][i], "task {task}");
        }
    }
}

#[test]
fn the_tasks_before_a_task_are_above_it(rt: HostRuntime) -> Result<(), Fail> {
    let mut order = Order::of_numbers(rt.alloc(), 3)?;
    has_above(&rt, &order, &OWN);
    order.swap(0, 2);
    has_above(&rt, &order, &TURNED);
    Ok(())
}
