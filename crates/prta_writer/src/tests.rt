//! Rooms and the texts that are written with them. The expected texts are worked from the definitions, by hand or by an
//! independent program.

ghost use Rattle.std.specs.Prelude.{◌≡◌, ◌<◌, true, All};
ghost use Rattle.prta_certfile.specs.Laws.{AreLevels};
ghost use Rattle.prta_writer.specs.Report.{fits};

mod kernels;
mod steps;

use super::*;
use prta_certfile::{Certificate, read_cert};
use prta_outside::MemorySink;
use prta_sheet::{Sheet, read_sheet};
use std::alloc::Global;
use std::test::Fail;

// A task that misses its deadline in one of four cases; with another cap, over two hyperperiods, and below another task.
const QUARTER: &str =
    "format = 1\n[[task]]\nname = \"A\"\nperiod = 10\ndeadline = 5\ntimes = [[3, 3], [7, 1]]\n";

const NARROW: &str =
    "format = 1\ncap = 7\n[[task]]\nname = \"A\"\nperiod = 10\ndeadline = 5\ntimes = [[3, 3], [7, 1]]\n";

const TWICE: &str =
    "format = 1\nhyperperiods = 2\n[[task]]\nname = \"A\"\nperiod = 10\ndeadline = 5\ntimes = [[3, 3], [7, 1]]\n";

const BELOW: &str =
    "format = 1\n[[task]]\nname = \"B\"\nperiod = 10\ndeadline = 5\ntimes = [[1, 1]]\n[[task]]\nname = \"A\"\nperiod = 10\ndeadline = 5\ntimes = [[3, 3], [7, 1]]\n";

// A sheet that a room is made for, a sheet, and whether the room fits it.
static ROOMS: [(&str, &str, bool); 5] = [
    (QUARTER, QUARTER, true),
    (QUARTER, NARROW, false),
    (QUARTER, TWICE, false),
    (QUARTER, BELOW, false),
    (BELOW, QUARTER, true),
];

#[test]
fn a_room_fits_its_sheet(rt: HostRuntime) -> Result<(), Fail> {
    for (i, (made_for, sheet, fits)) in ROOMS.iter().enumerate() {
        let made_for = read_sheet(rt.alloc(), made_for.as_bytes())?;
        let sheet = read_sheet(rt.alloc(), sheet.as_bytes())?;
        let room = Room::new(rt.alloc(), &made_for)?;
        assert!(rt; room.fits(&sheet) == *fits, "room {i}");
    }
    Ok(())
}

// A task that leaves two ticks to the next hyperperiod in one of four cases.
const LEFT: &str =
    "format = 1\n[[task]]\nname = \"A\"\noffset = 2\nperiod = 4\ndeadline = 3\ntimes = [[1, 3], [4, 1]]\n";

const LEFT_CERTIFICATE: &str =
    "prta certificate 1\nlevel A 0:864691128455135232 2:1152921504606846976\nend\n";

// One that says that nothing is ever left.
const EMPTY_CERTIFICATE: &str = "prta certificate 1\nlevel A 0:1152921504606846976\nend\n";

// A text that is written for the sheet.
#[derive(Clone, Copy)]
enum Text {
    Report(What),
    Check,
    // What the certificate is worth, and what the one is that says that nothing is left.
    Verify,
    VerifyEmpty,
}

// What is written with one room, one text after the other: whether it says yes, and the text.
static TEXTS: [(Text, bool, &str); 6] = [
    (
        Text::Verify,
        true,
        "prta verify 1\nlevel A certified\nsteady A 0 upper 288230376151711744 0.250000000000\nend\n",
    ),
    (Text::Report(What::Certify), true, LEFT_CERTIFICATE),
    (
        Text::VerifyEmpty,
        false,
        "prta verify 1\nbroken A 0 1152921504606846976 864691128455135232\n",
    ),
    (
        Text::Check,
        false,
        "prta check 1\nno A 0 upper 288230376151711744 allow 0 1\n",
    ),
    (
        Text::Report(What::Ledger),
        true,
        "prta ledger 1\nhyperperiod 4 jobs 1\ngap A 0 lower 288230376151711744 upper 288230376151711744 sum 0\nend\n",
    ),
    (
        Text::Report(What::Analyse),
        true,
        "prta analyse 1\nhyperperiod 4 jobs 1\njob A 0 release 2 deadline 5 lower 288230376151711744 0.250000000000 upper 288230376151711744 0.250000000000\nend\n",
    ),
];

// Whether the text says yes; none where out failed.
fn write(
    room: &mut Room,
    sheet: &Sheet,
    certificates: &[Certificate; 2],
    text: Text,
    out: &mut MemorySink,
) -> Option<bool>
    requires room { fits sheet.now room.old ≡ true }
    requires levels { All (AreLevels sheet.now.tasks sheet.now.settings.cap) certificates.now }
    ensures { room.new ≡ room.old }
{
    match text {
        Text::Report(what) => match write_report(room, sheet, what, out) {
            Ok(()) => Some(true),
            Err(_) => None,
        },
        Text::Check => write_check(room, sheet, out).ok(),
        Text::Verify => write_verify(room, sheet, &certificates[0], out).ok(),
        Text::VerifyEmpty => write_verify(room, sheet, &certificates[1], out).ok(),
    }
}

// The text is written so; an out with room for ten bytes fails, and the room serves again.
fn is_written(
    alloc: Global,
    room: &mut Room,
    sheet: &Sheet,
    certificates: &[Certificate; 2],
    row: usize,
) -> Result<bool, Fail>
    requires room { fits sheet.now room.old ≡ true }
    requires levels { All (AreLevels sheet.now.tasks sheet.now.settings.cap) certificates.now }
    requires row { row < 6 }
    ensures { room.new ≡ room.old }
{
    let (text, yes, want) = TEXTS[row];
    let mut full = MemorySink::with_room(alloc, 10, 4_096)?;
    let mut out = MemorySink::with_room(alloc, 4_096, 4_096)?;
    let failed = write(room, sheet, certificates, text, &mut full).is_none();
    let answer = write(room, sheet, certificates, text, &mut out);
    Ok(failed && answer == Some(yes) && out.bytes() == want.as_bytes())
}

// The first row that isn't written so; their number where each is.
fn first_wrong(
    alloc: Global,
    room: &mut Room,
    sheet: &Sheet,
    certificates: &[Certificate; 2],
) -> Result<usize, Fail>
    requires room { fits sheet.now room.old ≡ true }
    requires levels { All (AreLevels sheet.now.tasks sheet.now.settings.cap) certificates.now }
{
    for row in 0..TEXTS.len() {
        if !is_written(alloc, room, sheet, certificates, row)? {
            return Ok(row);
        }
    }
    Ok(TEXTS.len())
}

#[test]
fn one_room_serves_for_each_text(rt: HostRuntime) -> Result<(), Fail> {
    let sheet = read_sheet(rt.alloc(), LEFT.as_bytes())?;
    let found = read_cert(rt.alloc(), &sheet, LEFT_CERTIFICATE.as_bytes())?;
    let empty = read_cert(rt.alloc(), &sheet, EMPTY_CERTIFICATE.as_bytes())?;
    let certificates = [found, empty];
    let mut room = Room::new(rt.alloc(), &sheet)?;
    let wrong = first_wrong(rt.alloc(), &mut room, &sheet, &certificates)?;
    assert!(rt; wrong == TEXTS.len(), "text {wrong}");
    Ok(())
}
