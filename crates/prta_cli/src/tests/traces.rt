//! Sheets with files of chosen times, and how `simulate` ends.

use super::sheets::{BEYOND, CYCLE, LATE, PAIR, Text};
use crate::status::Status;

// Three tasks with offsets.
const DRIVE: &str =
    "format = 1\n[[task]]\nname = \"control\"\noffset = 2\nperiod = 10\ndeadline = 10\ntimes = [[2, 9], [4, 1]]\n[[task]]\nname = \"log\"\noffset = 2\nperiod = 20\ndeadline = 15\ntimes = [[6, 4], [10, 1]]\n[[task]]\nname = \"report\"\noffset = 15\nperiod = 20\ndeadline = 10\ntimes = [[2, 3], [4, 1]]\n";

// A task of the longest period, over the most hyperperiods.
pub const LONG: &str =
    "format = 1\nhyperperiods = 64\n[[task]]\nname = \"A\"\nperiod = 1000000\ndeadline = 5\ntimes = [[1, 1]]\n";

pub const LONG_START: &str =
    "prta simulate 1\nrun 0 1 A 0\nidle 1 1000000\nrun 1000000 1000001 A 1\n";

pub const LONG_END: &str = "job A 62 finish 62000001 met\njob A 63 finish 63000001 met\nend\n";

pub const PAIR_TIMES: &str = "2\n4\n1\n";

pub const PAIR_TRACE: &str =
    "prta simulate 1\nrun 0 2 A 0\nrun 2 4 B 0\nrun 4 5 A 1\nrun 5 7 B 0\nidle 7 8\njob A 0 finish 2 met\njob B 0 finish 7 met\njob A 1 finish 5 met\nend\n";

// A sheet, a file of times, the status, and the text: on out where the status is Done, else on err.
pub static TIMES: [(&str, Text, Status, &str); 23] = [
    (PAIR, Text::Given(PAIR_TIMES), Status::Done, PAIR_TRACE),
    (PAIR, Text::Given("2\r\n4\r\n1"), Status::Done, PAIR_TRACE),
    // What finishes at a release isn't preempted by it.
    (
        PAIR,
        Text::Given("2\n2\n1\n"),
        Status::Done,
        "prta simulate 1\nrun 0 2 A 0\nrun 2 4 B 0\nrun 4 5 A 1\nidle 5 8\njob A 0 finish 2 met\njob B 0 finish 4 met\njob A 1 finish 5 met\nend\n",
    ),
    // A job that finishes a tick after its deadline, at the horizon.
    (
        PAIR,
        Text::Given("2\n4\n2\n"),
        Status::Done,
        "prta simulate 1\nrun 0 2 A 0\nrun 2 4 B 0\nrun 4 6 A 1\nrun 6 8 B 0\njob A 0 finish 2 met\njob B 0 finish 8 missed\njob A 1 finish 6 met\nend\n",
    ),
    // A late job runs on, and delays the next job of its own task; the last one is left, its deadline at the horizon.
    (
        LATE,
        Text::Given("6\n6\n1\n"),
        Status::Done,
        "prta simulate 1\nrun 0 6 A 0\nrun 6 12 A 1\njob A 0 finish 6 missed\njob A 1 finish 12 missed\njob A 2 left 1 missed\nend\n",
    ),
    (
        LATE,
        Text::Given("1\n6\n1\n"),
        Status::Done,
        "prta simulate 1\nrun 0 1 A 0\nidle 1 4\nrun 4 10 A 1\nrun 10 11 A 2\nidle 11 12\njob A 0 finish 1 met\njob A 1 finish 10 missed\njob A 2 finish 11 met\nend\n",
    ),
    // Preemption, a job that is late, and one that is left with its deadline still to come.
    (
        DRIVE,
        Text::Given("4\n10\n2\n4\n"),
        Status::Done,
        "prta simulate 1\nidle 0 2\nrun 2 6 control 0\nrun 6 12 log 0\nrun 12 14 control 1\nrun 14 18 log 0\nrun 18 20 report 0\njob control 0 finish 6 met\njob log 0 finish 18 missed\njob control 1 finish 14 met\njob report 0 left 2 pending\nend\n",
    ),
    (
        BEYOND,
        Text::Given("4\n"),
        Status::Done,
        "prta simulate 1\nidle 0 2\nrun 2 4 A 0\njob A 0 left 2 pending\nend\n",
    ),
    (
        BEYOND,
        Text::Given("1"),
        Status::Done,
        "prta simulate 1\nidle 0 2\nrun 2 3 A 0\nidle 3 4\njob A 0 finish 3 met\nend\n",
    ),
    // Jobs with tables in turn.
    (
        CYCLE,
        Text::Given("6\n2\n"),
        Status::Done,
        "prta simulate 1\nrun 0 6 A 0\nrun 6 8 A 1\nidle 8 10\njob A 0 finish 6 missed\njob A 1 finish 8 met\nend\n",
    ),
    // Refused files. Where two conditions fail, the first one counts.
    (
        CYCLE,
        Text::Given("3\n3\n"),
        Status::InputRefused,
        "prta: input refused 4 value 1\n",
    ),
    (
        PAIR,
        Text::Given("2\n4\n"),
        Status::InputRefused,
        "prta: input refused 3 value 2\n",
    ),
    (
        PAIR,
        Text::Given("2\n3\n1\n"),
        Status::InputRefused,
        "prta: input refused 4 value 1\n",
    ),
    (
        PAIR,
        Text::Given("2\nx\n1\n"),
        Status::InputRefused,
        "prta: input refused 2 value 2\n",
    ),
    (
        PAIR,
        Text::Given(""),
        Status::InputRefused,
        "prta: input refused 3 value 0\n",
    ),
    (
        PAIR,
        Text::Given("2\n4\n1\n1\n"),
        Status::InputRefused,
        "prta: input refused 3 value 4\n",
    ),
    (
        PAIR,
        Text::Given("3\n4\n"),
        Status::InputRefused,
        "prta: input refused 3 value 2\n",
    ),
    (
        PAIR,
        Text::Given("3\nx\n"),
        Status::InputRefused,
        "prta: input refused 2 value 2\n",
    ),
    (
        PAIR,
        Text::Given("2\n4\n4\n"),
        Status::InputRefused,
        "prta: input refused 4 value 2\n",
    ),
    (
        PAIR,
        Text::Given("3\n3\n1\n"),
        Status::InputRefused,
        "prta: input refused 4 value 0\n",
    ),
    (
        PAIR,
        Text::Given("\n2\n4\n1\n"),
        Status::InputRefused,
        "prta: input refused 2 value 1\n",
    ),
    // Just the limit of a file, and a byte more.
    (
        PAIR,
        Text::Ones(524_288, ""),
        Status::InputRefused,
        "prta: input refused 3 value 524288\n",
    ),
    (
        PAIR,
        Text::Ones(524_288, "1"),
        Status::InputRefused,
        "prta: input refused 1\n",
    ),
];
