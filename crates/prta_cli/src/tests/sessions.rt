//! Scripts of edits and prints.

use super::sheets::Text;
use crate::status::Status;

// The deadline of the second task is met more often, and then its times grow.
pub const EDITS: &str = "print\ndeadline B 8\nprint\ntable B 0 5:1\nprint\n";

pub const PRINTS: &str = "prta analyse 1\n\
    hyperperiod 8 jobs 3\n\
    job A 0 release 0 deadline 4 lower 0 0.000000000000 upper 0 0.000000000000\n\
    job A 1 release 4 deadline 8 lower 0 0.000000000000 upper 0 0.000000000000\n\
    job B 0 release 0 deadline 7 lower 144115188075855872 0.125000000000 upper 144115188075855872 0.125000000000\n\
    end\n\
    prta analyse 1\n\
    hyperperiod 8 jobs 3\n\
    job A 0 release 0 deadline 4 lower 0 0.000000000000 upper 0 0.000000000000\n\
    job A 1 release 4 deadline 8 lower 0 0.000000000000 upper 0 0.000000000000\n\
    job B 0 release 0 deadline 8 lower 0 0.000000000000 upper 0 0.000000000000\n\
    end\n\
    prta analyse 1\n\
    hyperperiod 8 jobs 3\n\
    job A 0 release 0 deadline 4 lower 0 0.000000000000 upper 0 0.000000000000\n\
    job A 1 release 4 deadline 8 lower 0 0.000000000000 upper 0 0.000000000000\n\
    job B 0 release 0 deadline 8 lower 288230376151711744 0.250000000000 upper 288230376151711744 0.250000000000\n\
    end\n";

// A script for two tasks, the status, and the text: on out where the status is Done, else on err.
pub static SCRIPTS: [(Text, Status, &str); 10] = [
    (Text::Given(EDITS), Status::Done, PRINTS),
    (Text::Given(""), Status::Done, ""),
    (Text::Given("allow A 1 2\n"), Status::Done, ""),
    (
        Text::Given("print"),
        Status::InputRefused,
        "prta: input refused 2 value 1\n",
    ),
    (
        Text::Given("print\ndeadline C 3\n"),
        Status::InputRefused,
        "prta: input refused 3 value 2\n",
    ),
    (
        Text::Given("table A 0 2:1 1:1\n"),
        Status::InputRefused,
        "prta: input refused 4 value 1\n",
    ),
    (
        Text::Given("table A 1 2:1\n"),
        Status::InputRefused,
        "prta: input refused 5 value 1\n",
    ),
    (
        Text::Given("deadline B 2047\n"),
        Status::InputRefused,
        "prta: input refused 5 value 1\n",
    ),
    (
        Text::Ones(524_288, ""),
        Status::InputRefused,
        "prta: input refused 2 value 1\n",
    ),
    (
        Text::Ones(524_288, "1"),
        Status::InputRefused,
        "prta: input refused 1\n",
    ),
];
