//! Assignments of worked sheets, on curves that keep every cell.

use super::*;
use prta_backlog::bench_for;
use prta_convplain::Plain;
use prta_jobs::TaskSet;
use prta_sheet::{TASK_LIMIT, read_sheet};
use std::test::Fail;

// Which answer it is.
#[derive(Clone, Copy)]
enum Answer {
    Order,
    Undecided,
    Impossible,
}

// A sheet; the answer, and the order, from the highest priority to the lowest, or the set that it names.
type Row = (&'static [u8], Answer, &'static [usize]);

static ROWS: [Row; 9] = [
    // Listed in the wrong order: the second has to end in the tick of its release.
    (
        b"format = 1\n[[task]]\nname = \"B\"\nperiod = 4\ndeadline = 4\ntimes = [[2, 1]]\n[[task]]\nname = \"A\"\nperiod = 2\ndeadline = 1\ntimes = [[1, 1]]\n",
        Answer::Order,
        &[1, 0],
    ),
    // Two that both have to.
    (
        b"format = 1\n[[task]]\nname = \"A\"\nperiod = 2\ndeadline = 1\ntimes = [[1, 1]]\n[[task]]\nname = \"B\"\nperiod = 2\ndeadline = 1\ntimes = [[1, 1]]\n",
        Answer::Impossible,
        &[0, 1],
    ),
    // Late in one of ten cases, which is just allowed: the upper number is rounded to above it, the lower one to below it.
    (
        b"format = 1\n[[task]]\nname = \"A\"\nperiod = 10\ndeadline = 5\ntimes = [[3, 9], [7, 1]]\nallow = [1, 10]\n",
        Answer::Undecided,
        &[0],
    ),
    // Any order would do: the first takes the lowest place.
    (
        b"format = 1\ncap = 8\n[[task]]\nname = \"A\"\nperiod = 6\ndeadline = 6\ntimes = [[1, 1]]\n[[task]]\nname = \"B\"\nperiod = 6\ndeadline = 6\ntimes = [[1, 1]]\n[[task]]\nname = \"C\"\nperiod = 6\ndeadline = 6\ntimes = [[1, 1]]\n",
        Answer::Order,
        &[2, 1, 0],
    ),
    // Two that clash, above one that can stand anywhere.
    (
        b"format = 1\ncap = 8\n[[task]]\nname = \"A\"\nperiod = 4\ndeadline = 1\ntimes = [[1, 1]]\n[[task]]\nname = \"B\"\nperiod = 4\ndeadline = 1\ntimes = [[1, 1]]\n[[task]]\nname = \"C\"\nperiod = 4\ndeadline = 4\ntimes = [[1, 1]]\n",
        Answer::Impossible,
        &[0, 1],
    ),
    // By the upper numbers two are stuck, by the lower ones just one of them.
    (
        b"format = 1\n[[task]]\nname = \"B\"\nperiod = 10\ndeadline = 5\ntimes = [[3, 9], [7, 1]]\nallow = [1, 10]\n[[task]]\nname = \"A\"\nperiod = 10\ndeadline = 1\ntimes = [[2, 1]]\n",
        Answer::Impossible,
        &[1],
    ),
    // One that isn't decided, between two that can stand anywhere.
    (
        b"format = 1\n[[task]]\nname = \"A\"\nperiod = 20\ndeadline = 20\ntimes = [[1, 1]]\n[[task]]\nname = \"B\"\nperiod = 10\ndeadline = 5\ntimes = [[3, 9], [7, 1]]\nallow = [1, 10]\n[[task]]\nname = \"C\"\nperiod = 20\ndeadline = 20\ntimes = [[1, 1]]\n",
        Answer::Undecided,
        &[1],
    ),
    // Chances that are small enough in one order.
    (
        b"format = 1\ncap = 64\n[[task]]\nname = \"A\"\nperiod = 4\ndeadline = 4\ntimes = [[1, 1], [2, 1]]\nallow = [1, 100]\n[[task]]\nname = \"B\"\nperiod = 8\ndeadline = 7\ntimes = [[2, 1], [4, 1]]\nallow = [1, 8]\n[[task]]\nname = \"C\"\nperiod = 8\ndeadline = 8\ntimes = [[1, 3], [2, 1]]\nallow = [1, 2]\n",
        Answer::Order,
        &[0, 1, 2],
    ),
    // Twelve tasks of one tick each, whose deadlines leave one order.
    (
        b"format = 1\ncap = 16\n[[task]]\nname = \"T0\"\nperiod = 12\ndeadline = 5\ntimes = [[1, 1]]\n[[task]]\nname = \"T1\"\nperiod = 12\ndeadline = 12\ntimes = [[1, 1]]\n[[task]]\nname = \"T2\"\nperiod = 12\ndeadline = 1\ntimes = [[1, 1]]\n[[task]]\nname = \"T3\"\nperiod = 12\ndeadline = 9\ntimes = [[1, 1]]\n[[task]]\nname = \"T4\"\nperiod = 12\ndeadline = 3\ntimes = [[1, 1]]\n[[task]]\nname = \"T5\"\nperiod = 12\ndeadline = 7\ntimes = [[1, 1]]\n[[task]]\nname = \"T6\"\nperiod = 12\ndeadline = 2\ntimes = [[1, 1]]\n[[task]]\nname = \"T7\"\nperiod = 12\ndeadline = 11\ntimes = [[1, 1]]\n[[task]]\nname = \"T8\"\nperiod = 12\ndeadline = 4\ntimes = [[1, 1]]\n[[task]]\nname = \"T9\"\nperiod = 12\ndeadline = 10\ntimes = [[1, 1]]\n[[task]]\nname = \"T10\"\nperiod = 12\ndeadline = 6\ntimes = [[1, 1]]\n[[task]]\nname = \"T11\"\nperiod = 12\ndeadline = 8\ntimes = [[1, 1]]\n",
        Answer::Order,
        &[2, 6, 4, 8, 0, 10, 5, 11, 3, 9, 7, 1],
    ),
];

#[test]
fn sheets_have_their_verdicts(rt: HostRuntime) -> Result<(), Fail> {
    for (i, (text, want, tasks)) in ROWS.iter().enumerate() {
        let sheet = read_sheet(rt.alloc(), text)?;
        let mut bench = bench_for(rt.alloc(), &sheet, Plain)?;
        let assigned = assign(rt.alloc(), &mut bench, &sheet)?;
        assert!(rt; is_answer(&assigned, *want, tasks), "sheet {i}");
    }
    Ok(())
}

// Whether it is this answer, and names these tasks.
fn is_answer(assigned: &Assigned, want: Answer, tasks: &[usize]) -> bool {
    match (assigned, want) {
        (Assigned::Order(order), Answer::Order) => order.list() == tasks,
        (Assigned::Undecided { stuck }, Answer::Undecided) => is_set(*stuck, tasks),
        (Assigned::Impossible { stuck }, Answer::Impossible) => is_set(*stuck, tasks),
        _ => false,
    }
}

// Whether the set holds just these tasks.
fn is_set(set: TaskSet, tasks: &[usize]) -> bool {
    for task in 0..TASK_LIMIT {
        if set.holds(task) != tasks.contains(&task) {
            return false;
        }
    }
    true
}
