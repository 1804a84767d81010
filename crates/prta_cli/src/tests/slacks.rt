//! How many ticks each task may be given more.

use super::sheets::{AS_IT_IS, Text};
use crate::status::Status;

pub const QUARTER_FAILS: &str = "prta slack 1\nfails A 0 upper 288230376151711744 allow 0 1\nend\n";

const TIGHT: &str =
    "format = 1\n[[task]]\nname = \"A\"\nperiod = 4\ndeadline = 4\ntimes = [[1, 1], [2, 1]]\n[[task]]\nname = \"B\"\nperiod = 8\ndeadline = 8\ntimes = [[1, 1], [3, 1]]\n";

// A sheet, the status, and the text of `slack`.
pub static SLACKS: [(Text, Status, &str); 4] = [
    (AS_IT_IS, Status::No, QUARTER_FAILS),
    (
        Text::Changed("period", "allow = [1, 4]\nperiod"),
        Status::Done,
        "prta slack 1\nslack A 2\nend\n",
    ),
    (
        Text::Changed("period", "allow = [1, 1]\nperiod"),
        Status::Done,
        "prta slack 1\nall A 999993\nend\n",
    ),
    (
        Text::Given(TIGHT),
        Status::Done,
        "prta slack 1\nslack A 0\nslack B 1\nend\n",
    ),
];
