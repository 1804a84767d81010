//! Steady numbers for every level, and the sheets with the tables that counts are reduced to.

use super::certificates::LONG;
use super::counts::{ONCE, ONE_MORE};
use super::sheets::{AS_IT_IS, Text};
use super::{NAME, SECOND};
use crate::status::Status;

const LIGHT: &str =
    "format = 1\nturns = 0\n[[task]]\nname = \"A\"\nperiod = 4\ndeadline = 4\ntimes = [[1, 7], [6, 1]]\n";

// A level with a certificate above two that are overloaded by their greatest times.
pub const MIXED: &str = "format = 1\nturns = 2\n\
    [[task]]\nname = \"A\"\nperiod = 4\ndeadline = 4\ntimes = [[1, 3], [2, 1]]\n\
    [[task]]\nname = \"B\"\nperiod = 8\ndeadline = 8\ntimes = [[1, 7], [6, 1]]\n\
    [[task]]\nname = \"C\"\nperiod = 8\ndeadline = 8\ntimes = [[1, 3], [5, 1]]\n";

pub const MIXED_TAILS: &str = "prta tail 1\n\
    level A certified\n\
    steady A 0 upper 0 0.000000000000\n\
    steady A 1 upper 0 0.000000000000\n\
    tail B 1 2 2\n\
    steady B 0 upper 75833303512383488 0.065774905932\n\
    tail C 3 4 7\n\
    steady C 0 upper 865535067796013056 0.750732000694\n\
    end\n";

// A sheet, and the text of `tail`.
pub static TAILS: [(Text, &str); 6] = [
    (
        Text::Given(LIGHT),
        "prta tail 1\ntail A 1 2 2\nsteady A 0 upper 396316767208603648 0.343750000000\nend\n",
    ),
    (
        Text::Edited(LIGHT, "turns = 0", "turns = 1"),
        "prta tail 1\ntail A 1 2 2\nsteady A 0 upper 297800525359874048 0.258300781250\nend\n",
    ),
    (
        Text::Edited(LIGHT, "[[1, 7], [6, 1]]", "[[1, 1], [6, 1]]"),
        "prta tail 1\ntail A 7 8 2\nsteady A 0 upper 1017813515785732096 0.882812500000\nend\n",
    ),
    (
        Text::Edited(LIGHT, "[[1, 7], [6, 1]]", "[[1, 1], [7, 1]]"),
        "prta tail 1\nnone A overfull 7 4\nend\n",
    ),
    (Text::Given(LONG), "prta tail 1\nnone A beyondcap 7\nend\n"),
    (Text::Given(MIXED), MIXED_TAILS),
];

pub const FOUR_COUNTS: &str = "task,time,weight\nA,1,1\nA,2,1\nA,3,1\nA,4,1\n";

pub const TWO_LEFT: &str = "format = 1\ncap = 2048\nhyperperiods = 1\nturns = 16\n\n\
    [[task]]\nname = \"A\"\noffset = 0\nperiod = 10\ndeadline = 5\ntimes = [[2, 2], [4, 2]]\nallow = [0, 1]\n";

// A sheet, a file of counts, the words, the status, and the text: on out where the status is Done, else on err.
pub static REDUCED: [(Text, Text, &[&str], Status, &str); 4] = [
    (
        AS_IT_IS,
        Text::Given(FOUR_COUNTS),
        &["reduce", NAME, SECOND, "2"],
        Status::Done,
        TWO_LEFT,
    ),
    (
        ONCE,
        Text::Given(ONE_MORE),
        &["reduce", NAME, SECOND, "4"],
        Status::Done,
        "format = 1\ncap = 2048\nhyperperiods = 1\nturns = 16\n\n\
         [[task]]\nname = \"A\"\noffset = 0\nperiod = 10\ndeadline = 5\ntimes = [[8, 8], [16, 8], [24, 8], [33, 9]]\nallow = [0, 1]\n",
    ),
    (
        Text::Given(MIXED),
        Text::Given("task,time,weight\nB,3,1\nB,1,5\nB,9,2\nB,3,1\nB,7,4\n"),
        &["reduce", NAME, SECOND, "3"],
        Status::Done,
        "format = 1\ncap = 2048\nhyperperiods = 1\nturns = 2\n\n\
         [[task]]\nname = \"A\"\noffset = 0\nperiod = 4\ndeadline = 4\ntimes = [[1, 3], [2, 1]]\nallow = [0, 1]\n\n\
         [[task]]\nname = \"B\"\noffset = 0\nperiod = 8\ndeadline = 8\ntimes = [[1, 5], [3, 2], [9, 6]]\nallow = [0, 1]\n\n\
         [[task]]\nname = \"C\"\noffset = 0\nperiod = 8\ndeadline = 8\ntimes = [[1, 3], [5, 1]]\nallow = [0, 1]\n",
    ),
    (
        AS_IT_IS,
        Text::Given("task,time,weight\nC,3,1\nA,1,1\n"),
        &["reduce", NAME, SECOND, "2"],
        Status::InputRefused,
        "prta: input refused 4 value 1\n",
    ),
];
