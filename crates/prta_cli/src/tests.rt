//! Runs over memory. The expected texts are worked from the definitions, by hand or by an independent program.

mod certificates;
mod counts;
mod orders;
mod reports;
mod sessions;
mod sheets;
mod slacks;
mod tails;
mod traces;

use crate::run::run;
use crate::status::Status;
use certificates::{CERTIFICATES, CUT_REFUSALS, LEFT, LEFT_CERTIFICATE, LEFT_STEADY, VERDICTS};
use counts::{COUNTED, COUNTS, FIRST_AMOUNTS, FIRST_GENERATED, GENERATED, MEASURED, ONCE};
use orders::{ABOVE, ABOVE_ORDER, ORDERS};
use prta_outside::{MemoryShelf, MemorySink};
use reports::{
    MANY, MANY_END, MANY_LEDGER_END, MANY_LEDGER_START, MANY_START, QUARTER_LEDGER,
    QUARTER_VERDICT, REPORTS, SYSTEM, SYSTEM_LEDGER_END, SYSTEM_LEDGER_START, SYSTEM_TEXT, YES,
};
use sessions::{EDITS, PRINTS, SCRIPTS};
use sheets::{AS_IT_IS, PAIR, QUARTER_TEXT, SHEETS, Text, bytes_of};
use slacks::{QUARTER_FAILS, SLACKS};
use std::alloc::Global;
use std::test::Fail;
use tails::{FOUR_COUNTS, MIXED, MIXED_TAILS, REDUCED, TAILS, TWO_LEFT};
use traces::{LONG, LONG_END, LONG_START, PAIR_TIMES, PAIR_TRACE, TIMES};

// A run of the program, and what it is to end with.
#[derive(Clone, Copy)]
struct Case {
    words: &'static [&'static str],
    // The name of the sheet on the shelf, the sheet, the second file, and the number of a read that fails; 0 for none.
    name: &'static str,
    sheet: Text,
    second: Text,
    failing_read: u64,
    // How many bytes out takes in all and in a call, and the number of a put that fails; 0 for none.
    room: usize,
    most: usize,
    failing_put: u64,
    err_room: usize,
    status: Status,
    out: &'static str,
    err: &'static str,
}

const NAME: &str = "s.toml";

const SECOND: &str = "second";

const LEDGER_WORDS: &[&str] = &["ledger", NAME];

const CHECK_WORDS: &[&str] = &["check", NAME];

const CERTIFY_WORDS: &[&str] = &["certify", NAME];

const ASSIGN_WORDS: &[&str] = &["assign", NAME];

const VERIFY_WORDS: &[&str] = &["verify", NAME, SECOND];

const TRACE_WORDS: &[&str] = &["simulate", NAME, SECOND];

const IMPORT_WORDS: &[&str] = &["import", NAME, SECOND];

const TAIL_WORDS: &[&str] = &["tail", NAME];

const SLACK_WORDS: &[&str] = &["slack", NAME];

const SESSION_WORDS: &[&str] = &["session", NAME, SECOND];

const REDUCE_WORDS: &[&str] = &["reduce", NAME, SECOND, "2"];

// Nothing fails.
const SERVED: Case = Case {
    words: &["analyse", NAME],
    name: NAME,
    sheet: AS_IT_IS,
    second: Text::Given(PAIR_TIMES),
    failing_read: 0,
    room: 65_536,
    most: 65_536,
    failing_put: 0,
    err_room: 4_096,
    status: Status::Done,
    out: QUARTER_TEXT,
    err: "",
};

const LEDGER: Case = Case {
    words: LEDGER_WORDS,
    out: QUARTER_LEDGER,
    ..SERVED
};

const CHECKED: Case = Case {
    words: CHECK_WORDS,
    status: Status::No,
    out: QUARTER_VERDICT,
    ..SERVED
};

const PASSED: Case = Case {
    sheet: Text::Changed("period", "allow = [1, 4]\nperiod"),
    status: Status::Done,
    out: YES,
    ..CHECKED
};

const CERTIFIED: Case = Case {
    words: CERTIFY_WORDS,
    sheet: Text::Given(LEFT),
    out: LEFT_CERTIFICATE,
    ..SERVED
};

const ASSIGNED: Case = Case {
    words: ASSIGN_WORDS,
    sheet: Text::Given(ABOVE),
    out: ABOVE_ORDER,
    ..SERVED
};

const VERIFIED: Case = Case {
    words: VERIFY_WORDS,
    sheet: Text::Given(LEFT),
    second: Text::Given(LEFT_CERTIFICATE),
    out: LEFT_STEADY,
    ..SERVED
};

const TRACED: Case = Case {
    words: TRACE_WORDS,
    sheet: Text::Given(PAIR),
    out: PAIR_TRACE,
    ..SERVED
};

// The numbers for a spreadsheet.
const RECORDED: Case = Case {
    words: &["analyse", NAME, "--csv"],
    out: "task,job,release,deadline,lower,upper\nA,0,0,5,288230376151711744,288230376151711744\n",
    ..SERVED
};

const IMPORTED: Case = Case {
    words: IMPORT_WORDS,
    sheet: ONCE,
    second: Text::Given(COUNTS),
    out: COUNTED,
    ..SERVED
};

const TAILED: Case = Case {
    words: TAIL_WORDS,
    sheet: Text::Given(MIXED),
    out: MIXED_TAILS,
    ..SERVED
};

const LESSENED: Case = Case {
    words: REDUCE_WORDS,
    second: Text::Given(FOUR_COUNTS),
    out: TWO_LEFT,
    ..SERVED
};

const SLACKENED: Case = Case {
    words: SLACK_WORDS,
    status: Status::No,
    out: QUARTER_FAILS,
    ..SERVED
};

const PLAYED: Case = Case {
    words: SESSION_WORDS,
    sheet: Text::Given(PAIR),
    second: Text::Given(EDITS),
    out: PRINTS,
    ..SERVED
};

// No file is read.
const MADE: Case = Case {
    words: &["generate", "1", "1"],
    failing_read: 1,
    out: FIRST_GENERATED,
    ..SERVED
};

const SUMMED: Case = Case {
    words: &["bench", "1", "1"],
    out: FIRST_AMOUNTS,
    ..MADE
};

const USAGE: Case = Case {
    status: Status::Usage,
    out: "",
    err: "prta: usage\n",
    ..SERVED
};

const UNREAD: Case = Case {
    failing_read: 1,
    status: Status::ReadFault,
    out: "",
    err: "prta: read fault\n",
    ..SERVED
};

const UNTRACED: Case = Case {
    words: TRACE_WORDS,
    sheet: Text::Given(PAIR),
    ..UNREAD
};

const WRITE_FAULT: &str = "prta: write fault\n";

// Ten bytes a call, with a second call that fails.
const UNWRITTEN: Case = Case {
    most: 10,
    failing_put: 2,
    status: Status::WriteFault,
    out: "prta analy",
    err: WRITE_FAULT,
    ..SERVED
};

const TIMES_REFUSAL: Case = Case {
    status: Status::InputRefused,
    out: "",
    ..TRACED
};

// Words that are no command.
static OTHER_COMMANDS: [&[&str]; 45] = [
    &[],
    &["analyse"],
    &["analyze", NAME],
    &[NAME, "analyse"],
    &["analyse", NAME, SECOND],
    &["ledger"],
    &["ledger", NAME, SECOND],
    &["check"],
    &["check", NAME, SECOND],
    &["certify"],
    &["certify", NAME, SECOND],
    &["assign"],
    &["slack"],
    &["slack", NAME, SECOND],
    &["session", NAME],
    &["session", NAME, SECOND, SECOND],
    &["assign", NAME, SECOND],
    &["verify", NAME],
    &["verify", NAME, SECOND, SECOND],
    &["simulate", NAME],
    &["simulate", NAME, SECOND, SECOND],
    &["analyse", NAME, SECOND, SECOND],
    &["analyse", "-s.toml"],
    &["analyse", "--fast", NAME],
    &["analyse", "--csv", NAME, "--csv"],
    &["analyse", "--csv"],
    &["analyse", "--", NAME, "--csv"],
    &["--", "analyse", NAME],
    &["ledger", "--csv", NAME],
    &["check", "--help"],
    &["import", NAME],
    &["import", NAME, SECOND, SECOND],
    &["generate", "1"],
    &["generate", "01", "1"],
    &["generate", "1", "13"],
    &["generate", "1", "0"],
    &["generate", "18446744073709551616", "1"],
    &["bench", "1", "x"],
    &["tail"],
    &["tail", NAME, SECOND],
    &["reduce", NAME, SECOND],
    &["reduce", NAME, SECOND, "0"],
    &["reduce", NAME, SECOND, "33"],
    &["reduce", NAME, SECOND, "02"],
    &["reduce", NAME, SECOND, "2", "2"],
];

// Faults of the shelf and faults of the sinks.
static CASES: [Case; 36] = [
    SERVED,
    // A name that begins with '-'.
    Case {
        words: &["analyse", "--", "-s.toml"],
        name: "-s.toml",
        ..SERVED
    },
    // A first read that fails, a missing name, and a second read that would fail.
    UNREAD,
    Case {
        name: "t.toml",
        failing_read: 0,
        ..UNREAD
    },
    Case {
        failing_read: 2,
        ..SERVED
    },
    // An err that fails at once changes no status.
    Case {
        err_room: 0,
        ..SERVED
    },
    Case {
        err_room: 0,
        err: "",
        ..UNREAD
    },
    Case {
        name: "t.toml",
        failing_read: 0,
        err_room: 0,
        err: "",
        ..UNREAD
    },
    Case {
        words: &["analyse"],
        err_room: 0,
        err: "",
        ..USAGE
    },
    Case {
        err_room: 0,
        err: "",
        ..UNWRITTEN
    },
    // Ten bytes a call, and then with a second call that fails.
    Case { most: 10, ..SERVED },
    UNWRITTEN,
    // The other commands that read a sheet alone: as they are served, and with each of these faults.
    LEDGER,
    Case { most: 10, ..LEDGER },
    Case {
        words: LEDGER_WORDS,
        ..UNREAD
    },
    Case {
        words: &["ledger", "t.toml"],
        failing_read: 0,
        err_room: 0,
        err: "",
        ..UNREAD
    },
    Case {
        words: LEDGER_WORDS,
        out: "prta ledge",
        ..UNWRITTEN
    },
    CHECKED,
    PASSED,
    Case {
        most: 10,
        err_room: 0,
        ..CHECKED
    },
    Case {
        words: CHECK_WORDS,
        ..UNREAD
    },
    Case {
        words: &["check", "t.toml"],
        failing_read: 0,
        err_room: 0,
        err: "",
        ..UNREAD
    },
    Case {
        words: CHECK_WORDS,
        out: "prta check",
        ..UNWRITTEN
    },
    // A whole system.
    Case {
        sheet: Text::Given(SYSTEM),
        out: SYSTEM_TEXT,
        ..SERVED
    },
    Case {
        sheet: Text::Given(SYSTEM),
        ..PASSED
    },
    TRACED,
    // A first and a second read that fail, missing names, and a third read that would fail.
    UNTRACED,
    Case {
        failing_read: 2,
        ..UNTRACED
    },
    Case {
        words: &["simulate", "t.toml", SECOND],
        failing_read: 0,
        ..UNTRACED
    },
    Case {
        words: &["simulate", NAME, "t"],
        failing_read: 0,
        ..UNTRACED
    },
    Case {
        failing_read: 3,
        ..TRACED
    },
    // The sheet in the place of the times, and a name that begins with '-'.
    Case {
        words: &["simulate", NAME, NAME],
        err: "prta: input refused 2 value 1\n",
        ..TIMES_REFUSAL
    },
    Case {
        words: &["simulate", "--", "-s.toml", SECOND],
        name: "-s.toml",
        ..TRACED
    },
    // An err that fails at once changes no status.
    Case {
        second: Text::Given("2"),
        err_room: 0,
        err: "",
        ..TIMES_REFUSAL
    },
    // Ten bytes a call, and then with a second call that fails.
    Case { most: 10, ..TRACED },
    Case {
        words: TRACE_WORDS,
        sheet: Text::Given(PAIR),
        out: "prta simul",
        ..UNWRITTEN
    },
];

// The same for `certify`, `assign` and `verify`.
static LATER_CASES: [Case; 14] = [
    CERTIFIED,
    Case {
        most: 10,
        err_room: 0,
        ..CERTIFIED
    },
    Case {
        words: CERTIFY_WORDS,
        ..UNREAD
    },
    Case {
        words: CERTIFY_WORDS,
        sheet: Text::Given(LEFT),
        out: "prta certi",
        ..UNWRITTEN
    },
    Case {
        most: 10,
        err_room: 0,
        ..ASSIGNED
    },
    Case {
        words: ASSIGN_WORDS,
        ..UNREAD
    },
    Case {
        words: ASSIGN_WORDS,
        sheet: Text::Given(ABOVE),
        out: "prta assig",
        ..UNWRITTEN
    },
    // A certificate that can't be read, and one that is the sheet.
    VERIFIED,
    Case {
        most: 10,
        failing_read: 3,
        err_room: 0,
        ..VERIFIED
    },
    Case {
        words: VERIFY_WORDS,
        ..UNREAD
    },
    Case {
        words: VERIFY_WORDS,
        failing_read: 2,
        ..UNREAD
    },
    Case {
        words: &["verify", NAME, "t"],
        failing_read: 0,
        ..UNREAD
    },
    Case {
        words: &["verify", NAME, NAME],
        status: Status::InputRefused,
        out: "",
        err: "prta: input refused 2 value 1\n",
        ..VERIFIED
    },
    Case {
        words: VERIFY_WORDS,
        sheet: Text::Given(LEFT),
        second: Text::Given(LEFT_CERTIFICATE),
        out: "prta verif",
        ..UNWRITTEN
    },
];

// The same for the commands on records, counts and seeds.
static NEWEST_CASES: [Case; 16] = [
    RECORDED,
    Case {
        words: &["analyse", "--csv", NAME],
        most: 10,
        err_room: 0,
        ..RECORDED
    },
    Case {
        words: &["analyse", "--csv", NAME],
        ..UNREAD
    },
    Case {
        words: &["analyse", "--csv", "--", "--csv"],
        name: "--csv",
        ..RECORDED
    },
    IMPORTED,
    Case {
        most: 10,
        failing_read: 3,
        err_room: 0,
        ..IMPORTED
    },
    Case {
        words: IMPORT_WORDS,
        ..UNREAD
    },
    Case {
        words: IMPORT_WORDS,
        failing_read: 2,
        ..UNREAD
    },
    Case {
        words: &["import", NAME, "t"],
        failing_read: 0,
        ..UNREAD
    },
    Case {
        words: &["import", NAME, NAME],
        status: Status::InputRefused,
        out: "",
        err: "prta: input refused 2\n",
        ..IMPORTED
    },
    Case {
        words: IMPORT_WORDS,
        sheet: ONCE,
        second: Text::Given(COUNTS),
        out: "format = 1",
        ..UNWRITTEN
    },
    MADE,
    Case {
        most: 10,
        err_room: 0,
        ..SUMMED
    },
    SUMMED,
    Case {
        words: &["generate", "1", "1"],
        out: "format = 1",
        ..UNWRITTEN
    },
    Case {
        words: &["bench", "1", "1"],
        out: "prta bench",
        ..UNWRITTEN
    },
];

// The same for `tail` and `reduce`.
static LAST_CASES: [Case; 9] = [
    TAILED,
    Case {
        most: 10,
        err_room: 0,
        ..TAILED
    },
    Case {
        words: TAIL_WORDS,
        ..UNREAD
    },
    Case {
        words: TAIL_WORDS,
        sheet: Text::Given(MIXED),
        out: "prta tail ",
        ..UNWRITTEN
    },
    Case {
        most: 10,
        failing_read: 3,
        err_room: 0,
        ..LESSENED
    },
    Case {
        words: REDUCE_WORDS,
        failing_read: 2,
        ..UNREAD
    },
    Case {
        words: &["reduce", NAME, "t", "1"],
        failing_read: 0,
        ..UNREAD
    },
    Case {
        words: &["reduce", "--", "-s.toml", SECOND, "2"],
        name: "-s.toml",
        ..LESSENED
    },
    Case {
        words: REDUCE_WORDS,
        second: Text::Given(FOUR_COUNTS),
        out: "format = 1",
        ..UNWRITTEN
    },
];

// `slack` and `session`: as they are served, and with faults of the outside.
static EDIT_CASES: [Case; 12] = [
    Case {
        most: 10,
        err_room: 0,
        ..SLACKENED
    },
    Case {
        words: SLACK_WORDS,
        ..UNREAD
    },
    Case {
        words: SLACK_WORDS,
        out: "prta slack",
        ..UNWRITTEN
    },
    Case {
        most: 10,
        failing_read: 3,
        err_room: 0,
        ..PLAYED
    },
    Case {
        words: SESSION_WORDS,
        ..UNREAD
    },
    Case {
        words: SESSION_WORDS,
        failing_read: 2,
        ..UNREAD
    },
    Case {
        words: &["session", "t.toml", SECOND],
        failing_read: 0,
        ..UNREAD
    },
    Case {
        words: &["session", NAME, "t"],
        failing_read: 0,
        ..UNREAD
    },
    Case {
        words: &["session", "--", "-s.toml", SECOND],
        name: "-s.toml",
        ..PLAYED
    },
    // The sheet is no script.
    Case {
        words: &["session", NAME, NAME],
        status: Status::InputRefused,
        out: "",
        err: "prta: input refused 2 value 1\n",
        ..SERVED
    },
    Case {
        sheet: Text::Given(PAIR),
        second: Text::Given(EDITS),
        words: SESSION_WORDS,
        out: "prta analy",
        ..UNWRITTEN
    },
    // Nothing is put for a script without a print.
    Case {
        second: Text::Given(""),
        room: 0,
        failing_put: 1,
        out: "",
        ..PLAYED
    },
];

// Commands with their whole texts.
static SERVED_CASES: [Case; 14] = [
    SERVED, RECORDED, LEDGER, CHECKED, PASSED, CERTIFIED, VERIFIED, TRACED, IMPORTED, SUMMED,
    TAILED, LESSENED, SLACKENED, PLAYED,
];

// The other commands, with nothing to read but the sheet.
static OTHER_WORDS: [&[&str]; 12] = [
    LEDGER_WORDS,
    CHECK_WORDS,
    CERTIFY_WORDS,
    ASSIGN_WORDS,
    &["verify", NAME, "t"],
    &["simulate", NAME, "t"],
    &["import", NAME, "t"],
    &["analyse", NAME, "--csv"],
    TAIL_WORDS,
    &["reduce", NAME, "t", "2"],
    SLACK_WORDS,
    &["session", NAME, "t"],
];

const MANY_ANALYSED: Case = Case {
    sheet: Text::Given(MANY),
    room: 262_144,
    most: 262_144,
    out: MANY_START,
    ..SERVED
};

const MANY_NOTED: Case = Case {
    words: LEDGER_WORDS,
    out: MANY_LEDGER_START,
    ..MANY_ANALYSED
};

// Runs with long texts, of which out has the first lines; the length and the last lines.
static LONG_TEXTS: [(Case, usize, &str); 4] = [
    (
        Case {
            sheet: Text::Given(LONG),
            second: Text::Ones(64, ""),
            out: LONG_START,
            ..TRACED
        },
        4_983,
        LONG_END,
    ),
    (
        Case {
            sheet: Text::Given(SYSTEM),
            out: SYSTEM_LEDGER_START,
            ..LEDGER
        },
        5_143,
        SYSTEM_LEDGER_END,
    ),
    (MANY_ANALYSED, 164_790, MANY_END),
    (MANY_NOTED, 176_028, MANY_LEDGER_END),
];

fn words_of(alloc: Global, words: &[&str]) -> Result<Vec<String>, Fail> {
    let mut list = Vec::new(alloc);
    for word in words {
        list.push(String::from_str(alloc, word)?)?;
    }
    Ok(list)
}

fn shelf_of(alloc: Global, case: &Case) -> Result<MemoryShelf, Fail> {
    let sheet = bytes_of(alloc, &case.sheet)?;
    let second = bytes_of(alloc, &case.second)?;
    let mut shelf = MemoryShelf::new(alloc);
    shelf.add(case.name, &sheet)?;
    shelf.add(SECOND, &second)?;
    shelf.refuse(case.failing_read)?;
    Ok(shelf)
}

fn sink_of(alloc: Global, room: usize, most: usize, failing: u64) -> Result<MemorySink, Fail> {
    let mut sink = MemorySink::with_room(alloc, room, most.max(1))?;
    sink.refuse(failing)?;
    Ok(sink)
}

// The status, and what out and err took.
fn run_of(alloc: Global, case: &Case) -> Result<(Status, MemorySink, MemorySink), Fail> {
    let words = words_of(alloc, case.words)?;
    let mut shelf = shelf_of(alloc, case)?;
    let mut out = sink_of(alloc, case.room, case.most, case.failing_put)?;
    let mut err = sink_of(alloc, case.err_room, 4_096, 0)?;
    let status = run(alloc, &words, &mut shelf, &mut out, &mut err);
    Ok((status, out, err))
}

fn ends_so(alloc: Global, case: &Case) -> Result<bool, Fail> {
    let (status, out, err) = run_of(alloc, case)?;
    Ok(
        status == case.status
            && out.bytes() == case.out.as_bytes()
            && err.bytes() == case.err.as_bytes(),
    )
}

// Whether the command, with an out that takes so many bytes, gives it just so many of its text.
fn is_cut_off(alloc: Global, served: &Case, room: usize) -> Result<bool, Fail> {
    let (status, out, err) = run_of(alloc, &Case { room, ..*served })?;
    Ok(
        status == Status::WriteFault
            && out.bytes().len() == room
            && served.out.as_bytes().starts_with(out.bytes())
            && err.bytes() == WRITE_FAULT.as_bytes(),
    )
}

// The case with another end: the text on out where the status is Done, else on err.
fn ending(case: Case, status: Status, text: &'static str) -> Case {
    let (out, err) = match status {
        Status::Done => (text, ""),
        _ => ("", text),
    };
    Case {
        status,
        out,
        err,
        ..case
    }
}

#[test]
fn every_case_ends_so(rt: HostRuntime) -> Result<(), Fail> {
    for (i, case) in CASES.iter().enumerate() {
        assert!(rt; ends_so(rt.alloc(), case)?, "case {i}");
    }
    Ok(())
}

#[test]
fn every_later_case_ends_so(rt: HostRuntime) -> Result<(), Fail> {
    for (i, case) in LATER_CASES.iter().enumerate() {
        assert!(rt; ends_so(rt.alloc(), case)?, "case {i}");
    }
    Ok(())
}

#[test]
fn every_newest_case_ends_so(rt: HostRuntime) -> Result<(), Fail> {
    for (i, case) in NEWEST_CASES.iter().enumerate() {
        assert!(rt; ends_so(rt.alloc(), case)?, "case {i}");
    }
    Ok(())
}

#[test]
fn every_last_case_ends_so(rt: HostRuntime) -> Result<(), Fail> {
    for (i, case) in LAST_CASES.iter().enumerate() {
        assert!(rt; ends_so(rt.alloc(), case)?, "case {i}");
    }
    Ok(())
}

#[test]
fn every_edit_case_ends_so(rt: HostRuntime) -> Result<(), Fail> {
    for (i, case) in EDIT_CASES.iter().enumerate() {
        assert!(rt; ends_so(rt.alloc(), case)?, "case {i}");
    }
    Ok(())
}

#[test]
fn other_words_are_no_command(rt: HostRuntime) -> Result<(), Fail> {
    for (i, words) in OTHER_COMMANDS.iter().enumerate() {
        let case = Case { words, ..USAGE };
        assert!(rt; ends_so(rt.alloc(), &case)?, "words {i}");
    }
    Ok(())
}

// A refused sheet is told by every command, before another file is read.
#[test]
fn every_sheet_ends_so(rt: HostRuntime) -> Result<(), Fail> {
    for (i, (sheet, status, text)) in SHEETS.iter().enumerate() {
        let case = Case {
            sheet: *sheet,
            ..ending(SERVED, *status, text)
        };
        assert!(rt; ends_so(rt.alloc(), &case)?, "sheet {i}");
        if *status == Status::SheetRefused {
            for words in OTHER_WORDS.iter() {
                let case = Case {
                    words,
                    failing_read: 2,
                    ..case
                };
                assert!(rt;
                    ends_so(rt.alloc(), &case)?,
                    "another command with sheet {i}"
                );
            }
        }
    }
    Ok(())
}

#[test]
fn every_report_reads_so(rt: HostRuntime) -> Result<(), Fail> {
    for (i, (sheet, numbers, entries, status, verdict)) in REPORTS.iter().enumerate() {
        let analyse = Case {
            sheet: *sheet,
            out: numbers,
            ..SERVED
        };
        let ledger = Case {
            sheet: *sheet,
            out: entries,
            ..LEDGER
        };
        let check = Case {
            sheet: *sheet,
            status: *status,
            out: verdict,
            ..CHECKED
        };
        assert!(rt; ends_so(rt.alloc(), &analyse)?, "analyse {i}");
        assert!(rt; ends_so(rt.alloc(), &ledger)?, "ledger {i}");
        assert!(rt; ends_so(rt.alloc(), &check)?, "check {i}");
    }
    Ok(())
}

#[test]
fn every_certificate_is_found_so(rt: HostRuntime) -> Result<(), Fail> {
    for (i, (sheet, text)) in CERTIFICATES.iter().enumerate() {
        let case = Case {
            sheet: *sheet,
            out: text,
            ..CERTIFIED
        };
        assert!(rt; ends_so(rt.alloc(), &case)?, "certificate {i}");
    }
    Ok(())
}

#[test]
fn every_tail_is_found_so(rt: HostRuntime) -> Result<(), Fail> {
    for (i, (sheet, text)) in TAILS.iter().enumerate() {
        let case = Case {
            sheet: *sheet,
            out: text,
            ..TAILED
        };
        assert!(rt; ends_so(rt.alloc(), &case)?, "tail {i}");
    }
    Ok(())
}

#[test]
fn every_slack_is_found_so(rt: HostRuntime) -> Result<(), Fail> {
    for (i, (sheet, status, text)) in SLACKS.iter().enumerate() {
        let case = Case {
            sheet: *sheet,
            status: *status,
            out: text,
            ..SLACKENED
        };
        assert!(rt; ends_so(rt.alloc(), &case)?, "slack {i}");
    }
    Ok(())
}

#[test]
fn every_script_ends_so(rt: HostRuntime) -> Result<(), Fail> {
    for (i, (script, status, text)) in SCRIPTS.iter().enumerate() {
        let case = Case {
            second: *script,
            ..ending(PLAYED, *status, text)
        };
        assert!(rt; ends_so(rt.alloc(), &case)?, "script {i}");
    }
    Ok(())
}

#[test]
fn every_order_is_found_so(rt: HostRuntime) -> Result<(), Fail> {
    for (i, (sheet, status, text)) in ORDERS.iter().enumerate() {
        let case = Case {
            sheet: *sheet,
            status: *status,
            out: text,
            ..ASSIGNED
        };
        assert!(rt; ends_so(rt.alloc(), &case)?, "order {i}");
    }
    Ok(())
}

#[test]
fn every_certificate_is_worth_so(rt: HostRuntime) -> Result<(), Fail> {
    for (i, (sheet, certificate, status, text)) in VERDICTS.iter().enumerate() {
        let (out, err) = match status {
            Status::InputRefused => ("", *text),
            _ => (*text, ""),
        };
        let case = Case {
            sheet: *sheet,
            second: *certificate,
            status: *status,
            out,
            err,
            ..VERIFIED
        };
        assert!(rt; ends_so(rt.alloc(), &case)?, "verdict {i}");
    }
    Ok(())
}

// A certificate that was cut off is refused at its last line.
#[test]
fn every_prefix_is_refused(rt: HostRuntime) -> Result<(), Fail> {
    let whole = LEFT_CERTIFICATE.as_bytes();
    for length in 0..whole.len() {
        let part = &whole[..length];
        let feeds = part.iter().filter(|byte| **byte == b'\n').count();
        let case = Case {
            second: Text::Bytes(part),
            status: Status::InputRefused,
            out: "",
            err: CUT_REFUSALS[feeds.min(2)],
            ..VERIFIED
        };
        assert!(rt; ends_so(rt.alloc(), &case)?, "prefix {length}");
    }
    Ok(())
}

#[test]
fn every_file_of_times_ends_so(rt: HostRuntime) -> Result<(), Fail> {
    for (i, (sheet, times, status, text)) in TIMES.iter().enumerate() {
        let case = Case {
            sheet: Text::Given(sheet),
            second: *times,
            ..ending(TRACED, *status, text)
        };
        assert!(rt; ends_so(rt.alloc(), &case)?, "times {i}");
    }
    Ok(())
}

#[test]
fn every_file_of_counts_ends_so(rt: HostRuntime) -> Result<(), Fail> {
    for (i, (sheet, counts, status, text)) in MEASURED.iter().enumerate() {
        let case = Case {
            sheet: *sheet,
            second: *counts,
            ..ending(IMPORTED, *status, text)
        };
        assert!(rt; ends_so(rt.alloc(), &case)?, "counts {i}");
    }
    Ok(())
}

#[test]
fn every_reduction_ends_so(rt: HostRuntime) -> Result<(), Fail> {
    for (i, (sheet, counts, words, status, text)) in REDUCED.iter().enumerate() {
        let case = Case {
            words,
            sheet: *sheet,
            second: *counts,
            ..ending(LESSENED, *status, text)
        };
        assert!(rt; ends_so(rt.alloc(), &case)?, "reduction {i}");
    }
    Ok(())
}

// A seed makes the same sheet, and its analysis the same sums, each time.
#[test]
fn every_seed_ends_so(rt: HostRuntime) -> Result<(), Fail> {
    for (i, (words, text)) in GENERATED.iter().enumerate() {
        let case = Case {
            words,
            out: text,
            ..MADE
        };
        assert!(rt; ends_so(rt.alloc(), &case)?, "seed {i}");
        assert!(rt; ends_so(rt.alloc(), &case)?, "seed {i} again");
    }
    Ok(())
}

#[test]
fn a_full_out_has_a_prefix(rt: HostRuntime) -> Result<(), Fail> {
    for (i, served) in SERVED_CASES.iter().enumerate() {
        for room in 0..served.out.len() {
            assert!(rt;
                is_cut_off(rt.alloc(), served, room)?,
                "case {i} room {room}"
            );
        }
    }
    Ok(())
}

#[test]
fn every_long_text_reads_so(rt: HostRuntime) -> Result<(), Fail> {
    for (i, (case, length, end)) in LONG_TEXTS.iter().enumerate() {
        let (status, out, _) = run_of(rt.alloc(), case)?;
        assert!(rt; status == Status::Done, "long text {i}");
        assert!(rt; out.bytes().len() == *length, "long text {i}");
        assert!(rt;
            out.bytes().starts_with(case.out.as_bytes()),
            "long text {i}"
        );
        assert!(rt; out.bytes().ends_with(end.as_bytes()), "long text {i}");
    }
    Ok(())
}

// Where the put of the second page fails, out has the first one alone, of whole lines.
#[test]
fn a_long_report_goes_out_in_pages(rt: HostRuntime) -> Result<(), Fail> {
    for case in [MANY_ANALYSED, MANY_NOTED] {
        let failing = Case {
            failing_put: 2,
            ..case
        };
        let (_, whole, _) = run_of(rt.alloc(), &case)?;
        let (status, page, _) = run_of(rt.alloc(), &failing)?;
        assert!(rt; status == Status::WriteFault);
        assert!(rt; whole.bytes().starts_with(page.bytes()));
        assert!(rt; page.bytes().len() < whole.bytes().len());
        assert!(rt; page.bytes().starts_with(case.out.as_bytes()));
        assert!(rt; page.bytes().ends_with(b"\n"));
    }
    Ok(())
}
