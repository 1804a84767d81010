//! Certificates, how they are found, and what they are worth.

use super::reports::SYSTEM;
use super::sheets::{LATE, PAIR, Text};
use crate::status::Status;

// A task that leaves two ticks to the next hyperperiod in one of four cases.
pub const LEFT: &str =
    "format = 1\n[[task]]\nname = \"A\"\noffset = 2\nperiod = 4\ndeadline = 3\ntimes = [[1, 3], [4, 1]]\n";

pub const LEFT_CERTIFICATE: &str = "prta certificate 1\n\
    level A 0:864691128455135232 2:1152921504606846976\n\
    end\n";

pub const LEFT_STEADY: &str = "prta verify 1\n\
    level A certified\n\
    steady A 0 upper 288230376151711744 0.250000000000\n\
    end\n";

const NO_TURN: Text = Text::Edited(LEFT, "format = 1", "format = 1\nturns = 0");

const NO_TURN_CERTIFICATE: &str = "prta certificate 1\nlevel A 2:1152921504606846976\nend\n";

const EMPTY_CERTIFICATE: &str = "prta certificate 1\nlevel A 0:1152921504606846976\nend\n";

// A task with two tables in turn.
const CYCLE: &str =
    "format = 2\n[[task]]\nname = \"A\"\nperiod = 5\ndeadline = 5\ncycle = [[[3, 1], [6, 1]], [[2, 1]]]\n";

// A task whose one job is longer than the cap.
pub const LONG: &str =
    "format = 1\ncap = 6\n[[task]]\nname = \"A\"\nperiod = 10\ndeadline = 4\ntimes = [[7, 1]]\n";

// A sheet, and the text of `certify`.
pub static CERTIFICATES: [(Text, &str); 7] = [
    (
        Text::Given(PAIR),
        "prta certificate 1\nlevel A 0:1152921504606846976\nlevel B 0:1152921504606846976\nend\n",
    ),
    (Text::Given(LEFT), LEFT_CERTIFICATE),
    (NO_TURN, NO_TURN_CERTIFICATE),
    (
        Text::Given(LATE),
        "prta certificate 1\nnone A overfull 6 4\nend\n",
    ),
    (
        Text::Given(LONG),
        "prta certificate 1\nnone A beyondcap 7\nend\n",
    ),
    (
        Text::Given(SYSTEM),
        "prta certificate 1\n\
         level ctrl 0:1152921504606846976\n\
         level sense 0:1152921504606846976\n\
         level comms 0:1152921504606846976\n\
         level plan 0:1152921504606846976\n\
         none log overfull 442 400\n\
         end\n",
    ),
    (Text::Given(CYCLE), EMPTY_CERTIFICATE),
];

// The line on err for a certificate that was cut off in its first, its second or its last line.
pub static CUT_REFUSALS: [&str; 3] = [
    "prta: input refused 2 value 1\n",
    "prta: input refused 2 value 2\n",
    "prta: input refused 2 value 3\n",
];

const LEFT_SHEET: Text = Text::Given(LEFT);

// A sheet, a certificate, the status, and the text: on out, but for a refused certificate on err.
pub static VERDICTS: [(Text, Text, Status, &str); 19] = [
    (
        LEFT_SHEET,
        Text::Given(LEFT_CERTIFICATE),
        Status::Done,
        LEFT_STEADY,
    ),
    (
        NO_TURN,
        Text::Given(NO_TURN_CERTIFICATE),
        Status::Done,
        LEFT_STEADY,
    ),
    // Whoever wrote it: another list that certifies the level.
    (
        LEFT_SHEET,
        Text::Given(NO_TURN_CERTIFICATE),
        Status::Done,
        LEFT_STEADY,
    ),
    // A value one more than what is left of it, a step left out, and another sheet's certificate.
    (
        LEFT_SHEET,
        Text::Edited(LEFT_CERTIFICATE, "135232", "135233"),
        Status::No,
        "prta verify 1\nbroken A 0 864691128455135233 864691128455135232\n",
    ),
    (
        LEFT_SHEET,
        Text::Given(EMPTY_CERTIFICATE),
        Status::No,
        "prta verify 1\nbroken A 0 1152921504606846976 864691128455135232\n",
    ),
    (
        Text::Given(PAIR),
        Text::Given(LEFT_CERTIFICATE),
        Status::InputRefused,
        "prta: input refused 2 value 3\n",
    ),
    // What isn't a list isn't tested.
    (
        LEFT_SHEET,
        Text::Given("prta certificate 1\nnone A overfull 6 4\nend\n"),
        Status::Done,
        "prta verify 1\nuncertified A\nend\n",
    ),
    (
        LEFT_SHEET,
        Text::Given("prta certificate 1\nnone A beyondcap 7\nend\n"),
        Status::Done,
        "prta verify 1\nuncertified A\nend\n",
    ),
    (
        Text::Given(CYCLE),
        Text::Given(EMPTY_CERTIFICATE),
        Status::Done,
        "prta verify 1\n\
         level A certified\n\
         steady A 0 upper 576460752303423488 0.500000000000\n\
         steady A 1 upper 0 0.000000000000\n\
         end\n",
    ),
    // Refused certificates.
    (
        LEFT_SHEET,
        Text::Edited(LEFT_CERTIFICATE, "846976\n", "846975\n"),
        Status::InputRefused,
        "prta: input refused 6 value 2\n",
    ),
    (
        LEFT_SHEET,
        Text::Edited(LEFT_CERTIFICATE, "end\n", ""),
        Status::InputRefused,
        "prta: input refused 2 value 3\n",
    ),
    (
        LEFT_SHEET,
        Text::Edited(LEFT_CERTIFICATE, "level A", "level B"),
        Status::InputRefused,
        "prta: input refused 3 value 2\n",
    ),
    (
        LEFT_SHEET,
        Text::Edited(LEFT_CERTIFICATE, "0:864691128455135232", "0:0"),
        Status::InputRefused,
        "prta: input refused 4 value 2\n",
    ),
    (
        LEFT_SHEET,
        Text::Edited(LEFT_CERTIFICATE, "0:864691128455135232 2:", "2048:"),
        Status::InputRefused,
        "prta: input refused 5 value 2\n",
    ),
    (
        LEFT_SHEET,
        Text::Edited(LEFT_CERTIFICATE, "0:864691128455135232 2:", "00:"),
        Status::InputRefused,
        "prta: input refused 2 value 2\n",
    ),
    (
        LEFT_SHEET,
        Text::Edited(LEFT_CERTIFICATE, "end\n", "end\nend\n"),
        Status::InputRefused,
        "prta: input refused 2 value 4\n",
    ),
    (
        LEFT_SHEET,
        Text::Edited(LEFT_CERTIFICATE, "certificate 1\n", "certificate 1\r\n"),
        Status::InputRefused,
        "prta: input refused 2 value 1\n",
    ),
    // Just the limit of a file, and a byte more.
    (
        LEFT_SHEET,
        Text::Ones(4_194_304, ""),
        Status::InputRefused,
        "prta: input refused 2 value 1\n",
    ),
    (
        LEFT_SHEET,
        Text::Ones(4_194_304, "1"),
        Status::InputRefused,
        "prta: input refused 1\n",
    ),
];
