//! Bytes, and what refuses them.

use crate::{Key, Place, SHEET_LIMIT, SheetFault, read_sheet};
use prta_mass::TableFault;
use std::alloc::Global;
use std::test::Fail;

pub const QUARTER: &str =
    "format = 1\n[[task]]\nname = \"A\"\nperiod = 10\ndeadline = 5\ntimes = [[3, 3], [7, 1]]\n";

// What is replaced in the sheet of the quarter, and what refuses the sheet that comes out; none where it is accepted.
type Change = (&'static str, &'static str, Option<SheetFault>);

// One condition each.
static CHANGES: [Change; 47] = [
    ("", "", None),
    ("format = 1", "format = 2", None),
    ("format = 1", "format = 3", Some(SheetFault::Format)),
    ("format = 1", "format = 0", Some(SheetFault::Format)),
    ("format = 1", "format = -1", Some(SheetFault::Format)),
    ("format = 1", "format = true", Some(SheetFault::Format)),
    ("format = 1", "format = 1.0", Some(SheetFault::Format)),
    ("format = 1", "", Some(SheetFault::Format)),
    ("[[task]]", "[[task]", Some(SheetFault::NotToml)),
    (
        "deadline = 5",
        "deadline = 5\nprio = 1",
        Some(SheetFault::UnknownKey(Place::Task(0))),
    ),
    (
        "format = 1",
        "format = 1\nfine = 1",
        Some(SheetFault::UnknownKey(Place::Top)),
    ),
    (
        "format = 1",
        "format = 1\nsupport = { fine = 0, step = 1, cap = 3 }",
        Some(SheetFault::UnknownKey(Place::Support)),
    ),
    (
        "deadline = 5\n",
        "",
        Some(SheetFault::MissingKey(Place::Task(0), Key::Deadline)),
    ),
    (
        "format = 1",
        "format = 1\nsupport = { fine = 0 }",
        Some(SheetFault::MissingKey(Place::Support, Key::Step)),
    ),
    (
        "[3, 3]",
        "[3, 3.0]",
        Some(SheetFault::WrongKind(Place::Task(0), Key::Times)),
    ),
    (
        "[3, 3]",
        "[3, 3, 3]",
        Some(SheetFault::WrongKind(Place::Task(0), Key::Times)),
    ),
    (
        "period = 10",
        "period = 10.0",
        Some(SheetFault::WrongKind(Place::Task(0), Key::Period)),
    ),
    (
        "deadline = 5",
        "deadline = true",
        Some(SheetFault::WrongKind(Place::Task(0), Key::Deadline)),
    ),
    (
        "\"A\"",
        "1",
        Some(SheetFault::WrongKind(Place::Task(0), Key::Name)),
    ),
    (
        "[[task]]",
        "[task]",
        Some(SheetFault::WrongKind(Place::Top, Key::Task)),
    ),
    (
        "format = 1",
        "format = 1\nsupport = 1",
        Some(SheetFault::WrongKind(Place::Top, Key::Support)),
    ),
    (
        "format = 1",
        "format = 1\nsupport = { fine = 1.0, step = 1 }",
        Some(SheetFault::WrongKind(Place::Support, Key::Fine)),
    ),
    (
        "period = 10",
        "period = 0",
        Some(SheetFault::OutOfRange(Place::Task(0), Key::Period)),
    ),
    (
        "period = 10",
        "period = 1_000_001",
        Some(SheetFault::OutOfRange(Place::Task(0), Key::Period)),
    ),
    (
        "deadline = 5",
        "deadline = -5",
        Some(SheetFault::OutOfRange(Place::Task(0), Key::Deadline)),
    ),
    (
        "[7, 1]",
        "[1_000_001, 1]",
        Some(SheetFault::OutOfRange(Place::Task(0), Key::Times)),
    ),
    (
        "[7, 1]",
        "[7, -1]",
        Some(SheetFault::OutOfRange(Place::Task(0), Key::Times)),
    ),
    (
        "deadline = 5",
        "deadline = 5\nallow = [2, 1]",
        Some(SheetFault::OutOfRange(Place::Task(0), Key::Allow)),
    ),
    (
        "format = 1",
        "format = 1\nhyperperiods = 65",
        Some(SheetFault::OutOfRange(Place::Top, Key::Hyperperiods)),
    ),
    (
        "format = 1",
        "format = 1\nsupport = { fine = 16_384, step = 1 }",
        Some(SheetFault::OutOfRange(Place::Support, Key::Fine)),
    ),
    ("\"A\"", "\"\"", Some(SheetFault::BadName(0))),
    ("\"A\"", "\"A B\"", Some(SheetFault::BadName(0))),
    ("\"A\"", "\"abcdefghijklmnopqrstu-_9\"", None),
    (
        "\"A\"",
        "\"abcdefghijklmnopqrstu-_90\"",
        Some(SheetFault::BadName(0)),
    ),
    ("deadline = 5", "deadline = 5\noffset = 9", None),
    (
        "deadline = 5",
        "deadline = 5\noffset = 10",
        Some(SheetFault::OffsetNotBelowPeriod(0)),
    ),
    (
        "[[3, 3], [7, 1]]",
        "[]",
        Some(SheetFault::BadTable(0, TableFault::Empty)),
    ),
    (
        "[3, 3]",
        "[0, 3]",
        Some(SheetFault::BadTable(0, TableFault::ZeroTime(0))),
    ),
    (
        "[[3, 3], [7, 1]]",
        "[[7, 3], [3, 1]]",
        Some(SheetFault::BadTable(0, TableFault::NotIncreasing(1))),
    ),
    (
        "[7, 1]",
        "[7, 0]",
        Some(SheetFault::BadTable(0, TableFault::ZeroWeight(1))),
    ),
    ("[[3, 3], [7, 1]]", "[[3, 4294967296]]", None),
    ("[3, 3]", "[3, 4294967296]", None),
    ("[[3, 3], [7, 1]]", "[[3, 281474976710656]]", None),
    (
        "[3, 3]",
        "[3, 281474976710656]",
        Some(SheetFault::TotalTooLarge(0)),
    ),
    ("format = 1", "format = 1\ncap = 7", None),
    (
        "format = 1",
        "format = 1\ncap = 6",
        Some(SheetFault::DeadlineNotBelowCap(0)),
    ),
    (
        "deadline = 5",
        "deadline = 2_047",
        Some(SheetFault::DeadlineNotBelowCap(0)),
    ),
];

#[test]
fn a_changed_sheet_has_its_answer(rt: HostRuntime) -> Result<(), Fail> {
    for (old, new, want) in CHANGES.iter() {
        let sheet = changed(rt.alloc(), old, new)?;
        assert!(rt; answer(rt.alloc(), sheet.as_bytes()) == *want, "{new}");
    }
    Ok(())
}

// What refuses the bytes.
fn answer(alloc: Global, bytes: &[u8]) -> Option<SheetFault> {
    read_sheet(alloc, bytes).err()
}

// The sheet of the quarter with one piece of its text replaced.
fn changed(alloc: Global, old: &str, new: &str) -> Result<String, Fail> {
    let (before, after) = QUARTER.split_once(old).ok_or("no such piece")?;
    let mut sheet = String::from_str(alloc, before)?;
    sheet.push_str(new)?;
    sheet.push_str(after)?;
    Ok(sheet)
}

// Whole files: first those that state no tasks, then those where several conditions fail.
static FILES: [(&[u8], Option<SheetFault>); 35] = [
    (b"", Some(SheetFault::Format)),
    (b"\xff", Some(SheetFault::NotToml)),
    (b"format = 1\n[[task]", Some(SheetFault::NotToml)),
    (
        b"format = 1\n",
        Some(SheetFault::MissingKey(Place::Top, Key::Task)),
    ),
    (b"format = 1\ntask = []\n", Some(SheetFault::TaskCount(0))),
    (
        b"format = 1\ntask = [1]\n",
        Some(SheetFault::WrongKind(Place::Top, Key::Task)),
    ),
    // A lower condition at a later place goes first.
    (
        b"format = 1\nturns = 65\n[[task]]\nname = \"A\"\nperiod = 1\ndeadline = 1\n[[task]]\nother = 1\n",
        Some(SheetFault::UnknownKey(Place::Task(1))),
    ),
    (
        b"format = 1\nturns = 65\ntask = [{ period = 0 }, { name = 1, period = 1, deadline = 1, times = [] }]\n",
        Some(SheetFault::MissingKey(Place::Task(0), Key::Name)),
    ),
    (
        b"format = 1\nturns = 65\ntask = [{ name = \"A\", period = 0, deadline = 1, times = [] }, { name = 1, period = 1, deadline = 1, times = [] }]\n",
        Some(SheetFault::WrongKind(Place::Task(1), Key::Name)),
    ),
    // One condition at several places: the top, `support`, and the tasks in order.
    (
        b"format = 1\nother = 1\nsupport = { other = 1 }\ntask = [{ other = 1 }]\n",
        Some(SheetFault::UnknownKey(Place::Top)),
    ),
    (
        b"format = 1\ntask = [{ other = 1 }]\nsupport = { other = 1 }\n",
        Some(SheetFault::UnknownKey(Place::Support)),
    ),
    (
        b"format = 1\ntask = [{}, {}]\nsupport = { step = 1 }\n",
        Some(SheetFault::MissingKey(Place::Support, Key::Fine)),
    ),
    (
        b"format = 1\ntask = [{ name = \"A\", period = 0, deadline = 1, times = [[1, 1]] }]\nsupport = { fine = 0, step = 0 }\nturns = 65\n",
        Some(SheetFault::OutOfRange(Place::Top, Key::Turns)),
    ),
    (
        b"format = 1\ntask = [{ name = \"A\", period = 1, deadline = 1, times = [[1, 1]] }, { times = [[1, -1]], deadline = 1, period = 0, name = \"B\" }]\n",
        Some(SheetFault::OutOfRange(Place::Task(1), Key::Period)),
    ),
    // Bad and repeated names are one condition.
    (
        b"format = 1\ntask = [{ name = \"A\", period = 1, deadline = 1, times = [[1, 1]] }, { name = \"\", period = 1, deadline = 1, times = [[1, 1]] }, { name = \"A\", period = 1, deadline = 1, times = [[1, 1]] }]\n",
        Some(SheetFault::BadName(1)),
    ),
    (
        b"format = 1\ntask = [{ name = \"A\", period = 1, deadline = 1, times = [[1, 1]] }, { name = \"A\", period = 1, deadline = 1, times = [[1, 1]] }, { name = \"\", period = 1, deadline = 1, times = [[1, 1]] }]\n",
        Some(SheetFault::RepeatedName(1)),
    ),
    // Offsets go before times, and times before weights.
    (
        b"format = 1\ntask = [{ name = \"A\", period = 1, deadline = 1, times = [] }, { name = \"B\", offset = 1, period = 1, deadline = 1, times = [[1, 1]] }]\n",
        Some(SheetFault::OffsetNotBelowPeriod(1)),
    ),
    (
        b"format = 1\ntask = [{ name = \"A\", period = 1, deadline = 1, times = [[1, 281474976710657]] }, { name = \"B\", period = 1, deadline = 1, times = [] }, { name = \"C\", period = 1, deadline = 1, times = [[0, 1]] }]\n",
        Some(SheetFault::BadTable(1, TableFault::Empty)),
    ),
    (
        b"format = 1\ncap = 3\ntask = [{ name = \"A\", period = 1, deadline = 2, times = [[1, 1]] }, { name = \"B\", period = 1, deadline = 1, times = [[1, 281474976710657]] }]\n",
        Some(SheetFault::TotalTooLarge(1)),
    ),
    // Cycles: only in format 2, and only one of `times` and `cycle`.
    (
        b"format = 2\ntask = [{ name = \"A\", period = 5, deadline = 5, cycle = [[[3, 1], [6, 1]], [[2, 1]]] }]\n",
        None,
    ),
    (
        b"format = 2\ntask = [{ name = \"A\", period = 5, deadline = 5, cycle = [[[3, 1]]] }, { name = \"B\", period = 5, deadline = 5, times = [[2, 1]] }]\n",
        None,
    ),
    (
        b"format = 1\ntask = [{ name = \"A\", period = 5, deadline = 5, cycle = [[[3, 1], [6, 1]], [[2, 1]]] }]\n",
        Some(SheetFault::UnknownKey(Place::Task(0))),
    ),
    (
        b"format = 1\ntask = [{ name = \"A\", period = 5, deadline = 5, times = [[2, 1]], cycle = [[[3, 1], [6, 1]], [[2, 1]]] }]\n",
        Some(SheetFault::UnknownKey(Place::Task(0))),
    ),
    (
        b"format = 2\ntask = [{ name = \"A\", period = 5, deadline = 5, times = [[2, 1]], cycle = [[[3, 1], [6, 1]], [[2, 1]]] }]\n",
        Some(SheetFault::UnknownKey(Place::Task(0))),
    ),
    (
        b"format = 2\ntask = [{ name = \"A\", period = 5, deadline = 5 }]\n",
        Some(SheetFault::MissingKey(Place::Task(0), Key::Times)),
    ),
    (
        b"format = 2\ntask = [{ name = \"A\", period = 5, deadline = 5, cycle = [[3, 1], [6, 1]] }]\n",
        Some(SheetFault::WrongKind(Place::Task(0), Key::Cycle)),
    ),
    (
        b"format = 2\ntask = [{ name = \"A\", period = 5, deadline = 5, cycle = [[[3, 1]], [[2, 1, 1]]] }]\n",
        Some(SheetFault::WrongKind(Place::Task(0), Key::Cycle)),
    ),
    (
        b"format = 2\ntask = [{ name = \"A\", period = 5, deadline = 5, cycle = [] }]\n",
        Some(SheetFault::OutOfRange(Place::Task(0), Key::Cycle)),
    ),
    (
        b"format = 2\ntask = [{ name = \"A\", period = 5, deadline = 5, cycle = [[[1, 1]], [[1_000_001, 1]]] }]\n",
        Some(SheetFault::OutOfRange(Place::Task(0), Key::Cycle)),
    ),
    (
        b"format = 2\ntask = [{ name = \"A\", period = 5, deadline = 5, cycle = [[[1_000_001, 1]]] }]\n",
        Some(SheetFault::OutOfRange(Place::Task(0), Key::Cycle)),
    ),
    // Sixteen tables, and seventeen.
    (
        b"format = 2\ntask = [{ name = \"A\", period = 5, deadline = 5, cycle = [[[1, 1]], [[1, 1]], [[1, 1]], [[1, 1]], [[1, 1]], [[1, 1]], [[1, 1]], [[1, 1]], [[1, 1]], [[1, 1]], [[1, 1]], [[1, 1]], [[1, 1]], [[1, 1]], [[1, 1]], [[1, 1]]] }]\n",
        None,
    ),
    (
        b"format = 2\ntask = [{ name = \"A\", period = 5, deadline = 5, cycle = [[[1, 1]], [[1, 1]], [[1, 1]], [[1, 1]], [[1, 1]], [[1, 1]], [[1, 1]], [[1, 1]], [[1, 1]], [[1, 1]], [[1, 1]], [[1, 1]], [[1, 1]], [[1, 1]], [[1, 1]], [[1, 1]], [[1, 1]]] }]\n",
        Some(SheetFault::OutOfRange(Place::Task(0), Key::Cycle)),
    ),
    // The first table with a fault; shapes go before weights, over all tasks.
    (
        b"format = 2\ntask = [{ name = \"A\", period = 5, deadline = 5, cycle = [[[1, 281474976710657]], [[1, 1]]] }, { name = \"B\", period = 5, deadline = 5, cycle = [[[1, 1]], [[2, 1], [1, 1]], []] }]\n",
        Some(SheetFault::BadTable(1, TableFault::NotIncreasing(1))),
    ),
    (
        b"format = 2\ntask = [{ name = \"A\", period = 5, deadline = 5, times = [[1, 1]] }, { name = \"B\", period = 5, deadline = 5, cycle = [[[1, 1]], [[1, 281474976710657]]] }]\n",
        Some(SheetFault::TotalTooLarge(1)),
    ),
    // Eleven times a period of 100,000.
    (
        b"format = 2\ntask = [{ name = \"A\", period = 100000, deadline = 5, cycle = [[[1, 1]], [[1, 1]], [[1, 1]], [[1, 1]], [[1, 1]], [[1, 1]], [[1, 1]], [[1, 1]], [[1, 1]], [[1, 1]], [[1, 1]]] }]\n",
        Some(SheetFault::HyperperiodTooLarge),
    ),
];

#[test]
fn a_file_has_its_answer(rt: HostRuntime) {
    for (i, (file, want)) in FILES.iter().enumerate() {
        assert!(rt; answer(rt.alloc(), file) == *want, "file {i}");
    }
}

#[test]
fn a_file_may_have_just_the_limit(rt: HostRuntime) -> Result<(), Fail> {
    let cases = [
        (SHEET_LIMIT, None),
        (SHEET_LIMIT + 1, Some(SheetFault::TooLong)),
    ];
    for (size, want) in cases {
        let file = padded(rt.alloc(), size)?;
        assert!(rt; answer(rt.alloc(), &file) == want, "{size} bytes");
    }
    Ok(())
}

// The sheet of the quarter with a comment at its end, so many bytes long.
fn padded(alloc: Global, size: usize) -> Result<Vec<u8>, Fail> {
    let mut sheet = Vec::from_slice(alloc, QUARTER.as_bytes())?;
    sheet.push(b'#')?;
    for _ in sheet.len()..size {
        sheet.push(b'x')?;
    }
    Ok(sheet)
}

// Sheets whose first task has many points: the text before its times, their number, their common weight, the text after
// them, and the answer.
static LONG: [(&str, u32, u64, &str, Option<SheetFault>); 6] = [
    (
        "format = 1\n[[task]]\nname = \"A\"\nperiod = 10\ndeadline = 5\ntimes = [",
        32,
        1,
        "]\n",
        None,
    ),
    (
        "format = 1\n[[task]]\nname = \"A\"\nperiod = 10\ndeadline = 5\ntimes = [",
        33,
        1,
        "]\n",
        Some(SheetFault::BadTable(0, TableFault::TooManyPoints(33))),
    ),
    (
        "format = 1\n[[task]]\nname = \"A\"\nperiod = 10\ndeadline = 5\ntimes = [",
        32,
        8_796_093_022_208,
        "]\n",
        None,
    ),
    (
        "format = 1\n[[task]]\nname = \"A\"\nperiod = 10\ndeadline = 5\ntimes = [",
        32,
        8_796_093_022_209,
        "]\n",
        Some(SheetFault::TotalTooLarge(0)),
    ),
    // Their sum is beyond 2^64.
    (
        "format = 1\n[[task]]\nname = \"A\"\nperiod = 10\ndeadline = 5\ntimes = [",
        32,
        9_223_372_036_854_775_807,
        "]\n",
        Some(SheetFault::TotalTooLarge(0)),
    ),
    (
        "format = 1\ncap = 16384\n[[task]]\nname = \"A\"\nperiod = 1\ndeadline = 1\ntimes = [",
        32,
        1,
        "]\n[[task]]\nname = \"B\"\nperiod = 1000\ndeadline = 1\ntimes = [[1, 1]]\n[[task]]\nname = \"C\"\nperiod = 1000\ndeadline = 1\ntimes = [[1, 1]]\n[[task]]\nname = \"D\"\nperiod = 1000\ndeadline = 1\ntimes = [[1, 1]]\n[[task]]\nname = \"E\"\nperiod = 1000\ndeadline = 1\ntimes = [[1, 1]]\n",
        Some(SheetFault::TooMuchWork(2_621_767_680)),
    ),
];

#[test]
fn a_sheet_of_many_points_has_its_answer(rt: HostRuntime) -> Result<(), Fail> {
    for (before, count, weight, after, want) in LONG.iter() {
        let sheet = with_points(rt.alloc(), before, *count, *weight, after)?;
        assert!(rt;
            answer(rt.alloc(), sheet.as_bytes()) == *want,
            "{count} points of weight {weight}"
        );
    }
    Ok(())
}

// The text with so many points between its parts, of the times 1, 2 and so on and one weight.
fn with_points(
    alloc: Global,
    before: &str,
    count: u32,
    weight: u64,
    after: &str,
) -> Result<String, Fail> {
    let mut sheet = String::from_str(alloc, before)?;
    for time in 0..count {
        let point = format!(in alloc; "[{}, {weight}],", time as u64 + 1)?;
        sheet.push_str(&point)?;
    }
    sheet.push_str(after)?;
    Ok(sheet)
}

// Sheets whose tasks have only a period, a deadline of 1 and one point: the text before the tasks, the periods, and the
// answer.
static PERIODS: [(&str, &[u32], Option<SheetFault>); 9] = [
    // The tasks are just as many as may be, and then one more.
    ("format = 1\n", &[1, 1, 1, 1, 1, 1, 1, 1, 1, 1, 1, 1], None),
    (
        "format = 1\n",
        &[1, 1, 1, 1, 1, 1, 1, 1, 1, 1, 1, 1, 1],
        Some(SheetFault::TaskCount(13)),
    ),
    // The least common multiple is just the limit, and then one more.
    ("format = 1\n", &[15_625, 1_600], None),
    (
        "format = 1\n",
        &[101, 9_901],
        Some(SheetFault::HyperperiodTooLarge),
    ),
    // The product is far beyond 2^64.
    (
        "format = 1\n",
        &[
            999_983, 999_979, 999_961, 999_959, 999_953, 999_931, 999_917, 999_907, 999_883,
            999_863, 999_853, 999_809,
        ],
        Some(SheetFault::HyperperiodTooLarge),
    ),
    // The jobs are just as many as may be, and then one more.
    ("format = 1\n", &[1, 1_999], None),
    (
        "format = 1\n",
        &[1, 1_999, 1_999],
        Some(SheetFault::TooManyJobs(2_001)),
    ),
    (
        "format = 1\nhyperperiods = 2\n",
        &[1, 1_000],
        Some(SheetFault::TooManyJobs(2_002)),
    ),
    (
        "format = 1\nhyperperiods = 64\n",
        &[1, 1_000_000],
        Some(SheetFault::TooManyJobs(64_000_064)),
    ),
];

#[test]
fn a_sheet_of_periods_has_its_answer(rt: HostRuntime) -> Result<(), Fail> {
    for (i, (before, periods, want)) in PERIODS.iter().enumerate() {
        let sheet = with_periods(rt.alloc(), before, periods)?;
        assert!(rt;
            answer(rt.alloc(), sheet.as_bytes()) == *want,
            "periods {i}"
        );
    }
    Ok(())
}

fn with_periods(alloc: Global, before: &str, periods: &[u32]) -> Result<String, Fail> {
    let mut sheet = String::from_str(alloc, before)?;
    for (i, period) in periods.iter().enumerate() {
        let task = format!(in alloc;
            "[[task]]\nname = \"{i}\"\nperiod = {period}\ndeadline = 1\ntimes = [[1, 1]]\n"
        )?;
        sheet.push_str(&task)?;
    }
    Ok(sheet)
}
