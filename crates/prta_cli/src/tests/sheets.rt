//! Sheets, with how `analyse` ends.

use crate::status::Status;
use std::alloc::Global;
use std::test::Fail;

// The bytes of a file.
#[derive(Clone, Copy)]
pub enum Text {
    Given(&'static str),
    // What is no text.
    Bytes(&'static [u8]),
    // The sheet of the quarter with one piece of its text replaced.
    Changed(&'static str, &'static str),
    // Another sheet, with the same.
    Edited(&'static str, &'static str, &'static str),
    // The sheet of the quarter with a comment at its end, so many bytes long.
    Padded(usize),
    // So many lines of the time 1, and an end.
    Ones(usize, &'static str),
}

const QUARTER: &str =
    "format = 1\n[[task]]\nname = \"A\"\nperiod = 10\ndeadline = 5\ntimes = [[3, 3], [7, 1]]\n";

pub const AS_IT_IS: Text = Text::Changed("", "");

pub const QUARTER_TEXT: &str = "prta analyse 1\n\
    hyperperiod 10 jobs 1\n\
    job A 0 release 0 deadline 5 lower 288230376151711744 0.250000000000 upper 288230376151711744 0.250000000000\n\
    end\n";

// A task of period 4 above a task of period 8.
pub const PAIR: &str =
    "format = 1\n[[task]]\nname = \"A\"\nperiod = 4\ndeadline = 4\ntimes = [[1, 1], [2, 1]]\n[[task]]\nname = \"B\"\nperiod = 8\ndeadline = 7\ntimes = [[2, 1], [4, 1]]\n";

// A task of period 4 that may take 6 ticks, over three periods.
pub const LATE: &str =
    "format = 1\nhyperperiods = 3\n[[task]]\nname = \"A\"\nperiod = 4\ndeadline = 4\ntimes = [[1, 1], [6, 1]]\n";

// A task whose job has its deadline after the horizon.
pub const BEYOND: &str =
    "format = 1\n[[task]]\nname = \"A\"\noffset = 2\nperiod = 4\ndeadline = 3\ntimes = [[1, 3], [4, 1]]\n";

// A task whose jobs have two tables in turn.
pub const CYCLE: &str =
    "format = 2\n[[task]]\nname = \"A\"\nperiod = 5\ndeadline = 5\ncycle = [[[3, 1], [6, 1]], [[2, 1]]]\n";

// A sheet, the status, and the text: on out where the status is Done, else on err.
pub static SHEETS: [(Text, Status, &str); 76] = [
    (AS_IT_IS, Status::Done, QUARTER_TEXT),
    // The same sheet in other spellings, and with what counts anyway.
    (
        Text::Changed("deadline = 5", "deadline = 0b101 # ticks"),
        Status::Done,
        QUARTER_TEXT,
    ),
    (
        Text::Changed("period = 10", "\"period\" = 0x0A"),
        Status::Done,
        QUARTER_TEXT,
    ),
    (Text::Changed("\"A\"", "'A'"), Status::Done, QUARTER_TEXT),
    (
        Text::Changed(
            "[[3, 3], [7, 1]]",
            "[\r\n  [3, 3], # often\r\n  [7, 1],\r\n]",
        ),
        Status::Done,
        QUARTER_TEXT,
    ),
    (
        Text::Changed("format = 1\n", "# a sheet\r\n\r\nformat = 1\r\n"),
        Status::Done,
        QUARTER_TEXT,
    ),
    (
        Text::Changed(
            "[[task]]\nname = \"A\"\nperiod = 10\ndeadline = 5\ntimes = [[3, 3], [7, 1]]\n",
            "task = [{ times = [[3, 3], [7, 1]], deadline = 5, period = 10, name = \"A\" }]",
        ),
        Status::Done,
        QUARTER_TEXT,
    ),
    (
        Text::Changed("format = 1", "\u{feff}format = 1"),
        Status::Done,
        QUARTER_TEXT,
    ),
    (
        Text::Changed(
            "format = 1",
            "format = 1\ncap = 2048\nhyperperiods = 1\nturns = 64\nsupport = { fine = 0, step = 4 }",
        ),
        Status::Done,
        QUARTER_TEXT,
    ),
    (
        Text::Changed("[7, 1]", "[10, 1]"),
        Status::Done,
        QUARTER_TEXT,
    ),
    // In format 2 with one table, under either key.
    (
        Text::Changed("format = 1", "format = 2"),
        Status::Done,
        QUARTER_TEXT,
    ),
    (
        Text::Given(
            "format = 2\n[[task]]\nname = \"A\"\nperiod = 10\ndeadline = 5\ncycle = [[[3, 3], [7, 1]]]\n",
        ),
        Status::Done,
        QUARTER_TEXT,
    ),
    // Refused sheets.
    (
        Text::Changed("[3, 3]", "[3, 281474976710656]"),
        Status::SheetRefused,
        "prta: sheet refused 12 at task 0\n",
    ),
    (
        Text::Changed("format = 1", "format = 1\ncap = 6"),
        Status::SheetRefused,
        "prta: sheet refused 13 at task 0\n",
    ),
    (
        Text::Changed("[3, 3]", "[3, 3.0]"),
        Status::SheetRefused,
        "prta: sheet refused 6 at task 0 key times\n",
    ),
    (
        Text::Changed("period", "offset = 10\nperiod"),
        Status::SheetRefused,
        "prta: sheet refused 10 at task 0\n",
    ),
    (
        Text::Changed("[[3, 3], [7, 1]]", "[[7, 3], [3, 1]]"),
        Status::SheetRefused,
        "prta: sheet refused 11 at task 0\n",
    ),
    (
        Text::Changed("period", "prio = 1\nperiod"),
        Status::SheetRefused,
        "prta: sheet refused 4 at task 0\n",
    ),
    (
        Text::Changed("deadline = 5\n", ""),
        Status::SheetRefused,
        "prta: sheet refused 5 at task 0 key deadline\n",
    ),
    (
        Text::Changed("period = 10", "period = 0"),
        Status::SheetRefused,
        "prta: sheet refused 7 at task 0 key period\n",
    ),
    (
        Text::Changed(
            "[[task]]",
            "[[task]]\nname = \"A\"\nperiod = 10\ndeadline = 5\ntimes = [[3, 3], [7, 1]]\n[[task]]",
        ),
        Status::SheetRefused,
        "prta: sheet refused 9 at task 1\n",
    ),
    (
        Text::Changed(
            "[[task]]\nname = \"A\"\nperiod = 10\ndeadline = 5\ntimes = [[3, 3], [7, 1]]\n",
            "task = []\n",
        ),
        Status::SheetRefused,
        "prta: sheet refused 8 value 0\n",
    ),
    (
        Text::Changed("format = 1", ""),
        Status::SheetRefused,
        "prta: sheet refused 3\n",
    ),
    (
        Text::Changed("format = 1", "format = 3"),
        Status::SheetRefused,
        "prta: sheet refused 3\n",
    ),
    // A cycle in format 1, beside `times`, without a table, and one that repeats too late.
    (
        Text::Given(
            "format = 1\n[[task]]\nname = \"A\"\nperiod = 5\ndeadline = 5\ncycle = [[[3, 1], [6, 1]], [[2, 1]]]\n",
        ),
        Status::SheetRefused,
        "prta: sheet refused 4 at task 0\n",
    ),
    (
        Text::Given(
            "format = 2\n[[task]]\nname = \"A\"\nperiod = 5\ndeadline = 5\ntimes = [[3, 1]]\ncycle = [[[3, 1], [6, 1]], [[2, 1]]]\n",
        ),
        Status::SheetRefused,
        "prta: sheet refused 4 at task 0\n",
    ),
    (
        Text::Given("format = 2\n[[task]]\nname = \"A\"\nperiod = 5\ndeadline = 5\ncycle = []\n"),
        Status::SheetRefused,
        "prta: sheet refused 7 at task 0 key cycle\n",
    ),
    (
        Text::Given(
            "format = 2\n[[task]]\nname = \"A\"\nperiod = 100000\ndeadline = 5\ncycle = [[[1, 1]], [[1, 1]], [[1, 1]], [[1, 1]], [[1, 1]], [[1, 1]], [[1, 1]], [[1, 1]], [[1, 1]], [[1, 1]], [[1, 1]]]\n",
        ),
        Status::SheetRefused,
        "prta: sheet refused 14\n",
    ),
    (
        Text::Changed("format = 1", "format = true"),
        Status::SheetRefused,
        "prta: sheet refused 3\n",
    ),
    (
        Text::Changed("[[task]]", "[task]"),
        Status::SheetRefused,
        "prta: sheet refused 6 at top key task\n",
    ),
    (
        Text::Changed("[[task]]", "[[tasks]]"),
        Status::SheetRefused,
        "prta: sheet refused 4 at top\n",
    ),
    (
        Text::Changed("[[task]]", "[[task]"),
        Status::SheetRefused,
        "prta: sheet refused 2\n",
    ),
    (
        Text::Changed("\"A\"", "\"\""),
        Status::SheetRefused,
        "prta: sheet refused 9 at task 0\n",
    ),
    (
        Text::Changed("\"A\"", "\"A b\""),
        Status::SheetRefused,
        "prta: sheet refused 9 at task 0\n",
    ),
    (
        Text::Changed("\"A\"", "\"abcdefghijklmnopqrstu-_90\""),
        Status::SheetRefused,
        "prta: sheet refused 9 at task 0\n",
    ),
    (
        Text::Changed("\"A\"", "1"),
        Status::SheetRefused,
        "prta: sheet refused 6 at task 0 key name\n",
    ),
    (
        Text::Changed("name = \"A\"\n", ""),
        Status::SheetRefused,
        "prta: sheet refused 5 at task 0 key name\n",
    ),
    (
        Text::Changed("period = 10", "period = 1_000_001"),
        Status::SheetRefused,
        "prta: sheet refused 7 at task 0 key period\n",
    ),
    (
        Text::Changed("period = 10", "period = -10"),
        Status::SheetRefused,
        "prta: sheet refused 7 at task 0 key period\n",
    ),
    (
        Text::Changed("deadline = 5", "deadline = 0"),
        Status::SheetRefused,
        "prta: sheet refused 7 at task 0 key deadline\n",
    ),
    (
        Text::Changed("deadline = 5", "deadline = 2047"),
        Status::SheetRefused,
        "prta: sheet refused 13 at task 0\n",
    ),
    (
        Text::Changed("deadline = 5", "deadline = 1_000_001"),
        Status::SheetRefused,
        "prta: sheet refused 7 at task 0 key deadline\n",
    ),
    (
        Text::Changed("[[3, 3], [7, 1]]", "[]"),
        Status::SheetRefused,
        "prta: sheet refused 11 at task 0\n",
    ),
    (
        Text::Changed("[[3, 3], [7, 1]]", "[[3, 3, 3]]"),
        Status::SheetRefused,
        "prta: sheet refused 6 at task 0 key times\n",
    ),
    (
        Text::Changed("[3, 3]", "[0, 3]"),
        Status::SheetRefused,
        "prta: sheet refused 11 at task 0\n",
    ),
    (
        Text::Changed("[7, 1]", "[7, 0]"),
        Status::SheetRefused,
        "prta: sheet refused 11 at task 0\n",
    ),
    (
        Text::Changed("[7, 1]", "[3, 1]"),
        Status::SheetRefused,
        "prta: sheet refused 11 at task 0\n",
    ),
    (
        Text::Changed("[7, 1]", "[7, 281474976710654]"),
        Status::SheetRefused,
        "prta: sheet refused 12 at task 0\n",
    ),
    (
        Text::Changed("[7, 1]", "[1_000_001, 1]"),
        Status::SheetRefused,
        "prta: sheet refused 7 at task 0 key times\n",
    ),
    (
        Text::Changed("format = 1", "format = 1\ncap = 2"),
        Status::SheetRefused,
        "prta: sheet refused 7 at top key cap\n",
    ),
    (
        Text::Changed("format = 1", "format = 1\ncap = 16385"),
        Status::SheetRefused,
        "prta: sheet refused 7 at top key cap\n",
    ),
    (
        Text::Changed("format = 1", "format = 1\nturns = 65"),
        Status::SheetRefused,
        "prta: sheet refused 7 at top key turns\n",
    ),
    (
        Text::Changed("format = 1", "format = 1\nhyperperiods = 0"),
        Status::SheetRefused,
        "prta: sheet refused 7 at top key hyperperiods\n",
    ),
    (
        Text::Changed("format = 1", "format = 1\nhyperperiods = 1.0"),
        Status::SheetRefused,
        "prta: sheet refused 6 at top key hyperperiods\n",
    ),
    (
        Text::Changed("format = 1", "format = 1\nsupport = 4"),
        Status::SheetRefused,
        "prta: sheet refused 6 at top key support\n",
    ),
    (
        Text::Changed("format = 1", "format = 1\nsupport = { fine = 0 }"),
        Status::SheetRefused,
        "prta: sheet refused 5 at support key step\n",
    ),
    (
        Text::Changed("format = 1", "format = 1\nsupport = { fine = 0, step = 0 }"),
        Status::SheetRefused,
        "prta: sheet refused 7 at support key step\n",
    ),
    (
        Text::Changed(
            "format = 1",
            "format = 1\nsupport = { fine = 16384, step = 1 }",
        ),
        Status::SheetRefused,
        "prta: sheet refused 7 at support key fine\n",
    ),
    (
        Text::Changed(
            "format = 1",
            "format = 1\nsupport = { fine = 0, step = 4, more = 1 }",
        ),
        Status::SheetRefused,
        "prta: sheet refused 4 at support\n",
    ),
    (
        Text::Changed("format = 1", "format = 1\ntitle = \"a\""),
        Status::SheetRefused,
        "prta: sheet refused 4 at top\n",
    ),
    (
        Text::Changed("period", "allow = [2, 1]\nperiod"),
        Status::SheetRefused,
        "prta: sheet refused 7 at task 0 key allow\n",
    ),
    (
        Text::Changed("period", "allow = [0, 0]\nperiod"),
        Status::SheetRefused,
        "prta: sheet refused 7 at task 0 key allow\n",
    ),
    (
        Text::Changed("period", "allow = [1]\nperiod"),
        Status::SheetRefused,
        "prta: sheet refused 6 at task 0 key allow\n",
    ),
    (
        Text::Changed("period", "offset = -1\nperiod"),
        Status::SheetRefused,
        "prta: sheet refused 7 at task 0 key offset\n",
    ),
    (
        Text::Changed(
            "format = 1\n[[task]]",
            "format = 1\nturns = -1\nsupport = { fine = -1, step = 1 }\n[[task]]\noffset = -1",
        ),
        Status::SheetRefused,
        "prta: sheet refused 7 at top key turns\n",
    ),
    // Sheets, or what is none.
    (
        Text::Given(""),
        Status::SheetRefused,
        "prta: sheet refused 3\n",
    ),
    (
        Text::Bytes(b"\xff"),
        Status::SheetRefused,
        "prta: sheet refused 2\n",
    ),
    (
        Text::Given("format = 1\n[[task]\n"),
        Status::SheetRefused,
        "prta: sheet refused 2\n",
    ),
    (
        Text::Given("format = 1\n"),
        Status::SheetRefused,
        "prta: sheet refused 5 at top key task\n",
    ),
    (
        Text::Given("format = 1\ntask = 3\n"),
        Status::SheetRefused,
        "prta: sheet refused 6 at top key task\n",
    ),
    (
        Text::Given(
            "format = 1\n[[task]]\nname = \"A\"\nperiod = 101\ndeadline = 5\ntimes = [[3, 3], [7, 1]]\n[[task]]\nname = \"B\"\nperiod = 9901\ndeadline = 5\ntimes = [[3, 3], [7, 1]]\n",
        ),
        Status::SheetRefused,
        "prta: sheet refused 14\n",
    ),
    (
        Text::Given(
            "format = 1\nhyperperiods = 2\n[[task]]\nname = \"A\"\nperiod = 1\ndeadline = 1\ntimes = [[1, 1]]\n[[task]]\nname = \"B\"\nperiod = 1000\ndeadline = 1\ntimes = [[1, 1]]\n",
        ),
        Status::SheetRefused,
        "prta: sheet refused 15 value 2002\n",
    ),
    // The jobs are counted and not listed.
    (
        Text::Given(
            "format = 1\nhyperperiods = 64\n[[task]]\nname = \"A\"\nperiod = 1\ndeadline = 1\ntimes = [[1, 1]]\n[[task]]\nname = \"B\"\nperiod = 1000000\ndeadline = 1\ntimes = [[1, 1]]\n",
        ),
        Status::SheetRefused,
        "prta: sheet refused 15 value 64000064\n",
    ),
    (
        Text::Given(
            "format = 1\ncap = 16384\n[[task]]\nname = \"A\"\nperiod = 1\ndeadline = 1\ntimes = [[1, 1], [2, 1], [3, 1], [4, 1], [5, 1], [6, 1], [7, 1], [8, 1], [9, 1], [10, 1], [11, 1], [12, 1], [13, 1], [14, 1], [15, 1], [16, 1], [17, 1], [18, 1], [19, 1], [20, 1], [21, 1], [22, 1], [23, 1], [24, 1], [25, 1], [26, 1], [27, 1], [28, 1], [29, 1], [30, 1], [31, 1], [32, 1]]\n[[task]]\nname = \"B\"\nperiod = 1000\ndeadline = 1\ntimes = [[1, 1]]\n[[task]]\nname = \"C\"\nperiod = 1000\ndeadline = 1\ntimes = [[1, 1]]\n[[task]]\nname = \"D\"\nperiod = 1000\ndeadline = 1\ntimes = [[1, 1]]\n[[task]]\nname = \"E\"\nperiod = 1000\ndeadline = 1\ntimes = [[1, 1]]\n",
        ),
        Status::SheetRefused,
        "prta: sheet refused 16 value 2621767680\n",
    ),
    // Just the limit of a file, and a byte more.
    (Text::Padded(1_048_576), Status::Done, QUARTER_TEXT),
    (
        Text::Padded(1_048_577),
        Status::SheetRefused,
        "prta: sheet refused 1\n",
    ),
];

// The bytes of a file.
pub fn bytes_of(alloc: Global, text: &Text) -> Result<Vec<u8>, Fail> {
    match *text {
        Text::Given(given) => Ok(Vec::from_slice(alloc, given.as_bytes())?),
        Text::Bytes(bytes) => Ok(Vec::from_slice(alloc, bytes)?),
        Text::Changed(old, new) => changed(alloc, QUARTER, old, new),
        Text::Edited(sheet, old, new) => changed(alloc, sheet, old, new),
        Text::Padded(size) => {
            let count = size.saturating_sub(QUARTER.len() + 1);
            repeated(alloc, &[QUARTER, "#"], "x", count)
        }
        Text::Ones(count, end) => {
            let mut bytes = repeated(alloc, &[], "1\n", count)?;
            bytes.extend_from_slice(end.as_bytes())?;
            Ok(bytes)
        }
    }
}

fn changed(alloc: Global, sheet: &str, old: &str, new: &str) -> Result<Vec<u8>, Fail> {
    let (before, after) = sheet.split_once(old).ok_or("no such piece")?;
    repeated(alloc, &[before, new, after], "", 0)
}

// The heads, and so many times a piece.
fn repeated(alloc: Global, heads: &[&str], piece: &str, count: usize) -> Result<Vec<u8>, Fail> {
    let mut bytes = Vec::new(alloc);
    for head in heads {
        bytes.extend_from_slice(head.as_bytes())?;
    }
    for _ in 0..count {
        bytes.extend_from_slice(piece.as_bytes())?;
    }
    Ok(bytes)
}
