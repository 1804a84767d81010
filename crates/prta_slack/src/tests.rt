//! The slack of worked sheets, on curves that keep every cell.

use super::*;
use prta_backlog::bench_for;
use prta_convplain::Plain;
use prta_sheet::read_sheet;
use std::test::Fail;

const EIGHTH: u64 = 144_115_188_075_855_872;

const QUARTER: u64 = 288_230_376_151_711_744;

const THREE_QUARTERS: u64 = 864_691_128_455_135_232;

// A sheet, and what each of its tasks allows.
type Row = (&'static [u8], &'static [Slack]);

static ROWS: [Row; 11] = [
    // Late in one of four cases, which isn't allowed, is just allowed, and is allowed with any number added.
    (
        b"format = 1\n[[task]]\nname = \"A\"\nperiod = 10\ndeadline = 5\ntimes = [[3, 3], [7, 1]]\nallow = [0, 1]\n",
        &[Slack::Fails {
            task: 0,
            number: 0,
            upper: QUARTER,
        }],
    ),
    (
        b"format = 1\n[[task]]\nname = \"A\"\nperiod = 10\ndeadline = 5\ntimes = [[3, 3], [7, 1]]\nallow = [1, 4]\n",
        &[Slack::Ticks(2)],
    ),
    (
        b"format = 1\n[[task]]\nname = \"A\"\nperiod = 10\ndeadline = 5\ntimes = [[3, 3], [7, 1]]\nallow = [1, 1]\n",
        &[Slack::All(999_993)],
    ),
    // The lower task has just time enough; so nothing can be added to the one above, which has time for 2 ticks more.
    (
        b"format = 1\n[[task]]\nname = \"A\"\nperiod = 4\ndeadline = 4\ntimes = [[1, 1], [2, 1]]\n[[task]]\nname = \"B\"\nperiod = 8\ndeadline = 8\ntimes = [[1, 1], [3, 1]]\n",
        &[Slack::Ticks(0), Slack::Ticks(1)],
    ),
    // The task has room for no tick, and the one below it for a few.
    (
        b"format = 1\n[[task]]\nname = \"A\"\nperiod = 1000000\ndeadline = 20\ntimes = [[4, 1], [1000000, 1]]\nallow = [1, 2]\n[[task]]\nname = \"B\"\nperiod = 1000000\ndeadline = 10\ntimes = [[2, 1]]\nallow = [1, 2]\n",
        &[Slack::All(0), Slack::Ticks(4)],
    ),
    // Many ticks, and no power of two.
    (
        b"format = 1\n[[task]]\nname = \"A\"\nperiod = 100\ndeadline = 100\ntimes = [[1, 1]]\n[[task]]\nname = \"B\"\nperiod = 100\ndeadline = 90\ntimes = [[1, 1]]\n",
        &[Slack::Ticks(88), Slack::Ticks(88)],
    ),
    // Three tasks with rounded chances, which are allowed to be late now and then.
    (
        b"format = 1\ncap = 64\n[[task]]\nname = \"A\"\nperiod = 4\ndeadline = 4\ntimes = [[1, 2], [2, 1]]\n[[task]]\nname = \"B\"\noffset = 2\nperiod = 8\ndeadline = 7\ntimes = [[2, 1], [3, 1]]\nallow = [1, 3]\n[[task]]\nname = \"C\"\nperiod = 16\ndeadline = 16\ntimes = [[1, 3], [2, 1]]\nallow = [1, 2]\n",
        &[Slack::Ticks(1), Slack::Ticks(2), Slack::Ticks(4)],
    ),
    // Re-sampled, over two hyperperiods.
    (
        b"format = 1\ncap = 32\nhyperperiods = 2\nsupport = { fine = 2, step = 4 }\n[[task]]\nname = \"A\"\nperiod = 8\ndeadline = 6\ntimes = [[1, 7], [5, 1]]\nallow = [1, 10]\n[[task]]\nname = \"B\"\nperiod = 16\ndeadline = 14\ntimes = [[2, 3], [4, 1]]\nallow = [1, 4]\n",
        &[Slack::Ticks(1), Slack::Ticks(6)],
    ),
    // Tables in turn: each gets the ticks.
    (
        b"format = 2\ncap = 32\n[[task]]\nname = \"A\"\nperiod = 5\ndeadline = 5\ncycle = [[[1, 9], [2, 1]], [[3, 3], [4, 1]]]\n[[task]]\nname = \"B\"\nperiod = 10\ndeadline = 8\ntimes = [[1, 1]]\nallow = [1, 3]\n",
        &[Slack::Ticks(1), Slack::Ticks(3)],
    ),
    // The second job fails, after a re-sampling.
    (
        b"format = 1\nhyperperiods = 2\nsupport = { fine = 0, step = 4 }\n[[task]]\nname = \"A\"\nperiod = 4\ndeadline = 4\ntimes = [[1, 1], [6, 1]]\nallow = [1, 2]\n",
        &[Slack::Fails {
            task: 0,
            number: 1,
            upper: THREE_QUARTERS,
        }],
    ),
    // The second job of the second task fails, whichever task is asked for.
    (
        b"format = 1\n[[task]]\nname = \"A\"\noffset = 3\nperiod = 8\ndeadline = 8\ntimes = [[3, 3], [4, 1]]\n[[task]]\nname = \"B\"\nperiod = 4\ndeadline = 4\ntimes = [[1, 1], [2, 1]]\nallow = [1, 9]\n",
        &[
            Slack::Fails {
                task: 1,
                number: 1,
                upper: EIGHTH,
            },
            Slack::Fails {
                task: 1,
                number: 1,
                upper: EIGHTH,
            },
        ],
    ),
];

#[test]
fn tasks_have_their_slack(rt: HostRuntime) -> Result<(), Fail> {
    for (i, (text, answers)) in ROWS.iter().enumerate() {
        let sheet = read_sheet(rt.alloc(), text)?;
        assert!(rt; answers.len() == sheet.tasks().len(), "sheet {i}");
        for (task, want) in answers.iter().enumerate() {
            let mut bench = bench_for(rt.alloc(), &sheet, Plain)?;
            let slack = find_slack(rt.alloc(), &mut bench, &sheet, task)?;
            assert!(rt; is_same(slack, *want), "sheet {i} task {task}");
        }
    }
    Ok(())
}

// Whether it is this answer.
fn is_same(slack: Slack, want: Slack) -> bool {
    match (slack, want) {
        (
            Slack::Fails {
                task,
                number,
                upper,
            },
            Slack::Fails {
                task: i,
                number: k,
                upper: bound,
            },
        ) => task == i && number == k && upper == bound,
        (Slack::Ticks(s), Slack::Ticks(t)) => s == t,
        (Slack::All(s), Slack::All(t)) => s == t,
        _ => false,
    }
}
