//! Sheets with what `analyse`, `ledger` and `check` print.

use super::sheets::{AS_IT_IS, BEYOND, CYCLE, LATE, PAIR, QUARTER_TEXT, Text};
use crate::status::Status;

pub const QUARTER_LEDGER: &str = "prta ledger 1\n\
    hyperperiod 10 jobs 1\n\
    gap A 0 lower 288230376151711744 upper 288230376151711744 sum 0\n\
    end\n";

pub const QUARTER_VERDICT: &str = "prta check 1\n\
    no A 0 upper 288230376151711744 allow 0 1\n";

const HALF_VERDICT: &str = "prta check 1\n\
    no A 0 upper 576460752303423488 allow 0 1\n";

// Its one job is never late.
const MET_TEXT: &str = "prta analyse 1\n\
    hyperperiod 10 jobs 1\n\
    job A 0 release 0 deadline 5 lower 0 0.000000000000 upper 0 0.000000000000\n\
    end\n";

const MET_LEDGER: &str = "prta ledger 1\n\
    hyperperiod 10 jobs 1\n\
    gap A 0 lower 0 upper 0 sum 0\n\
    end\n";

pub const YES: &str = "prta check 1\n\
    yes\n";

// The sheet of the quarter below a task of the same period.
pub const BELOW: Text = Text::Changed(
    "[[task]]",
    "[[task]]\nname = \"B\"\nperiod = 10\ndeadline = 5\ntimes = [[1, 1]]\n[[task]]",
);

// The pair with chances in thirds: additions and a delay have remainders.
pub const THIRDS: Text = Text::Edited(PAIR, "[[1, 1], [2, 1]]", "[[1, 2], [2, 1]]");

pub const THIRDS_LEDGER: &str = "prta ledger 1\n\
    hyperperiod 8 jobs 3\n\
    entry up round A 0 1 1\n\
    entry up round A 1 2 1\n\
    entry down round A 0 1 1\n\
    entry down round A 1 2 1\n\
    gap A 0 lower 0 upper 0 sum 2\n\
    gap A 1 lower 0 upper 0 sum 4\n\
    entry up round B 0 1 1\n\
    entry up delay B 0 1 1\n\
    entry down round B 0 1 1\n\
    entry down round B 0 2 1\n\
    entry down delay B 0 1 1\n\
    gap B 0 lower 64051194700380387 upper 64051194700380388 sum 5\n\
    end\n";

// A sheet, what `analyse` and `ledger` print, and how `check` ends and what it prints.
pub static REPORTS: [(Text, &str, &str, Status, &str); 27] = [
    // One task, without a remainder and with one.
    (
        AS_IT_IS,
        QUARTER_TEXT,
        QUARTER_LEDGER,
        Status::No,
        QUARTER_VERDICT,
    ),
    (
        Text::Changed("[3, 3]", "[3, 9]"),
        "prta analyse 1\n\
         hyperperiod 10 jobs 1\n\
         job A 0 release 0 deadline 5 lower 115292150460684697 0.099999999999 upper 115292150460684698 0.100000000001\n\
         end\n",
        "prta ledger 1\n\
         hyperperiod 10 jobs 1\n\
         entry up round A 0 1 1\n\
         entry down round A 0 1 1\n\
         gap A 0 lower 115292150460684697 upper 115292150460684698 sum 2\n\
         end\n",
        Status::No,
        "prta check 1\n\
         no A 0 upper 115292150460684698 allow 0 1\n",
    ),
    (
        Text::Changed("5\ntimes = [[3, 3]", "7\ntimes = [[3, 9]"),
        "prta analyse 1\n\
         hyperperiod 10 jobs 1\n\
         job A 0 release 0 deadline 7 lower 0 0.000000000000 upper 0 0.000000000000\n\
         end\n",
        "prta ledger 1\n\
         hyperperiod 10 jobs 1\n\
         entry up round A 0 1 1\n\
         entry down round A 0 1 1\n\
         gap A 0 lower 0 upper 0 sum 2\n\
         end\n",
        Status::Done,
        YES,
    ),
    // One point, whatever its weight, and a weight of 2^32 beside one of 1.
    (
        Text::Changed("[3, 3], [7, 1]", "[3, 4294967296]"),
        MET_TEXT,
        MET_LEDGER,
        Status::Done,
        YES,
    ),
    (
        Text::Changed("[3, 3], [7, 1]", "[3, 281474976710656]"),
        MET_TEXT,
        MET_LEDGER,
        Status::Done,
        YES,
    ),
    (
        Text::Changed("[3, 3]", "[3, 4294967296]"),
        "prta analyse 1\n\
         hyperperiod 10 jobs 1\n\
         job A 0 release 0 deadline 5 lower 268435455 0.000000000232 upper 268435456 0.000000000233\n\
         end\n",
        "prta ledger 1\n\
         hyperperiod 10 jobs 1\n\
         entry up round A 0 1 1\n\
         entry down round A 0 1 1\n\
         gap A 0 lower 268435455 upper 268435456 sum 2\n\
         end\n",
        Status::No,
        "prta check 1\n\
         no A 0 upper 268435456 allow 0 1\n",
    ),
    // A job that is released at 2.
    (
        Text::Given(BEYOND),
        "prta analyse 1\n\
         hyperperiod 4 jobs 1\n\
         job A 0 release 2 deadline 5 lower 288230376151711744 0.250000000000 upper 288230376151711744 0.250000000000\n\
         end\n",
        "prta ledger 1\n\
         hyperperiod 4 jobs 1\n\
         gap A 0 lower 288230376151711744 upper 288230376151711744 sum 0\n\
         end\n",
        Status::No,
        QUARTER_VERDICT,
    ),
    // Deadlines above the period: later jobs of the task are released before the deadline.
    (
        Text::Changed(
            "deadline = 5\ntimes = [[3, 3], [7, 1]]",
            "deadline = 12\ntimes = [[3, 3], [10, 1]]",
        ),
        "prta analyse 1\n\
         hyperperiod 10 jobs 1\n\
         job A 0 release 0 deadline 12 lower 0 0.000000000000 upper 0 0.000000000000\n\
         end\n",
        MET_LEDGER,
        Status::Done,
        YES,
    ),
    (
        Text::Changed("deadline = 5", "deadline = 25"),
        "prta analyse 1\n\
         hyperperiod 10 jobs 1\n\
         job A 0 release 0 deadline 25 lower 0 0.000000000000 upper 0 0.000000000000\n\
         end\n",
        MET_LEDGER,
        Status::Done,
        YES,
    ),
    // A time above the period, several jobs, tables in turn, and jobs that delay later ones.
    (
        Text::Changed("[7, 1]", "[11, 1]"),
        QUARTER_TEXT,
        QUARTER_LEDGER,
        Status::No,
        QUARTER_VERDICT,
    ),
    (
        Text::Changed("format = 1", "format = 1\nhyperperiods = 2"),
        "prta analyse 1\n\
         hyperperiod 10 jobs 2\n\
         job A 0 release 0 deadline 5 lower 288230376151711744 0.250000000000 upper 288230376151711744 0.250000000000\n\
         job A 1 release 10 deadline 15 lower 288230376151711744 0.250000000000 upper 288230376151711744 0.250000000000\n\
         end\n",
        "prta ledger 1\n\
         hyperperiod 10 jobs 2\n\
         gap A 0 lower 288230376151711744 upper 288230376151711744 sum 0\n\
         gap A 1 lower 288230376151711744 upper 288230376151711744 sum 0\n\
         end\n",
        Status::No,
        QUARTER_VERDICT,
    ),
    (
        Text::Given(CYCLE),
        "prta analyse 1\n\
         hyperperiod 10 jobs 2\n\
         job A 0 release 0 deadline 5 lower 576460752303423488 0.500000000000 upper 576460752303423488 0.500000000000\n\
         job A 1 release 5 deadline 10 lower 0 0.000000000000 upper 0 0.000000000000\n\
         end\n",
        "prta ledger 1\n\
         hyperperiod 10 jobs 2\n\
         gap A 0 lower 576460752303423488 upper 576460752303423488 sum 0\n\
         gap A 1 lower 0 upper 0 sum 0\n\
         end\n",
        Status::No,
        HALF_VERDICT,
    ),
    (
        Text::Given(LATE),
        "prta analyse 1\n\
         hyperperiod 4 jobs 3\n\
         job A 0 release 0 deadline 4 lower 576460752303423488 0.500000000000 upper 576460752303423488 0.500000000000\n\
         job A 1 release 4 deadline 8 lower 576460752303423488 0.500000000000 upper 576460752303423488 0.500000000000\n\
         job A 2 release 8 deadline 12 lower 720575940379279360 0.625000000000 upper 720575940379279360 0.625000000000\n\
         end\n",
        "prta ledger 1\n\
         hyperperiod 4 jobs 3\n\
         gap A 0 lower 576460752303423488 upper 576460752303423488 sum 0\n\
         gap A 1 lower 576460752303423488 upper 576460752303423488 sum 0\n\
         gap A 2 lower 720575940379279360 upper 720575940379279360 sum 0\n\
         end\n",
        Status::No,
        HALF_VERDICT,
    ),
    // Two tasks. What finishes at a release isn't preempted by it, and a finish at the deadline meets it.
    (
        Text::Given(PAIR),
        "prta analyse 1\n\
         hyperperiod 8 jobs 3\n\
         job A 0 release 0 deadline 4 lower 0 0.000000000000 upper 0 0.000000000000\n\
         job A 1 release 4 deadline 8 lower 0 0.000000000000 upper 0 0.000000000000\n\
         job B 0 release 0 deadline 7 lower 144115188075855872 0.125000000000 upper 144115188075855872 0.125000000000\n\
         end\n",
        "prta ledger 1\n\
         hyperperiod 8 jobs 3\n\
         gap A 0 lower 0 upper 0 sum 0\n\
         gap A 1 lower 0 upper 0 sum 0\n\
         gap B 0 lower 144115188075855872 upper 144115188075855872 sum 0\n\
         end\n",
        Status::No,
        "prta check 1\n\
         no B 0 upper 144115188075855872 allow 0 1\n",
    ),
    (
        Text::Edited(PAIR, "deadline = 7", "deadline = 4"),
        "prta analyse 1\n\
         hyperperiod 8 jobs 3\n\
         job A 0 release 0 deadline 4 lower 0 0.000000000000 upper 0 0.000000000000\n\
         job A 1 release 4 deadline 8 lower 0 0.000000000000 upper 0 0.000000000000\n\
         job B 0 release 0 deadline 4 lower 576460752303423488 0.500000000000 upper 576460752303423488 0.500000000000\n\
         end\n",
        "prta ledger 1\n\
         hyperperiod 8 jobs 3\n\
         gap A 0 lower 0 upper 0 sum 0\n\
         gap A 1 lower 0 upper 0 sum 0\n\
         gap B 0 lower 576460752303423488 upper 576460752303423488 sum 0\n\
         end\n",
        Status::No,
        "prta check 1\n\
         no B 0 upper 576460752303423488 allow 0 1\n",
    ),
    (
        Text::Edited(PAIR, "deadline = 7", "deadline = 5"),
        "prta analyse 1\n\
         hyperperiod 8 jobs 3\n\
         job A 0 release 0 deadline 4 lower 0 0.000000000000 upper 0 0.000000000000\n\
         job A 1 release 4 deadline 8 lower 0 0.000000000000 upper 0 0.000000000000\n\
         job B 0 release 0 deadline 5 lower 576460752303423488 0.500000000000 upper 576460752303423488 0.500000000000\n\
         end\n",
        "prta ledger 1\n\
         hyperperiod 8 jobs 3\n\
         gap A 0 lower 0 upper 0 sum 0\n\
         gap A 1 lower 0 upper 0 sum 0\n\
         gap B 0 lower 576460752303423488 upper 576460752303423488 sum 0\n\
         end\n",
        Status::No,
        "prta check 1\n\
         no B 0 upper 576460752303423488 allow 0 1\n",
    ),
    (
        Text::Edited(PAIR, "deadline = 7", "deadline = 8"),
        "prta analyse 1\n\
         hyperperiod 8 jobs 3\n\
         job A 0 release 0 deadline 4 lower 0 0.000000000000 upper 0 0.000000000000\n\
         job A 1 release 4 deadline 8 lower 0 0.000000000000 upper 0 0.000000000000\n\
         job B 0 release 0 deadline 8 lower 0 0.000000000000 upper 0 0.000000000000\n\
         end\n",
        "prta ledger 1\n\
         hyperperiod 8 jobs 3\n\
         gap A 0 lower 0 upper 0 sum 0\n\
         gap A 1 lower 0 upper 0 sum 0\n\
         gap B 0 lower 0 upper 0 sum 0\n\
         end\n",
        Status::Done,
        YES,
    ),
    (
        BELOW,
        "prta analyse 1\n\
         hyperperiod 10 jobs 2\n\
         job B 0 release 0 deadline 5 lower 0 0.000000000000 upper 0 0.000000000000\n\
         job A 0 release 0 deadline 5 lower 288230376151711744 0.250000000000 upper 288230376151711744 0.250000000000\n\
         end\n",
        "prta ledger 1\n\
         hyperperiod 10 jobs 2\n\
         gap B 0 lower 0 upper 0 sum 0\n\
         gap A 0 lower 288230376151711744 upper 288230376151711744 sum 0\n\
         end\n",
        Status::No,
        QUARTER_VERDICT,
    ),
    (
        THIRDS,
        "prta analyse 1\n\
         hyperperiod 8 jobs 3\n\
         job A 0 release 0 deadline 4 lower 0 0.000000000000 upper 0 0.000000000000\n\
         job A 1 release 4 deadline 8 lower 0 0.000000000000 upper 0 0.000000000000\n\
         job B 0 release 0 deadline 7 lower 64051194700380387 0.055555555555 upper 64051194700380388 0.055555555556\n\
         end\n",
        THIRDS_LEDGER,
        Status::No,
        "prta check 1\n\
         no B 0 upper 64051194700380388 allow 0 1\n",
    ),
    // The shorter deadline is the lower task's.
    (
        Text::Given(
            "format = 1\n[[task]]\nname = \"B\"\nperiod = 4\ndeadline = 4\ntimes = [[2, 1]]\n[[task]]\nname = \"A\"\nperiod = 2\ndeadline = 1\ntimes = [[1, 1]]\n",
        ),
        "prta analyse 1\n\
         hyperperiod 4 jobs 3\n\
         job B 0 release 0 deadline 4 lower 0 0.000000000000 upper 0 0.000000000000\n\
         job A 0 release 0 deadline 1 lower 1152921504606846976 1.000000000000 upper 1152921504606846976 1.000000000000\n\
         job A 1 release 2 deadline 3 lower 1152921504606846976 1.000000000000 upper 1152921504606846976 1.000000000000\n\
         end\n",
        "prta ledger 1\n\
         hyperperiod 4 jobs 3\n\
         gap B 0 lower 0 upper 0 sum 0\n\
         gap A 0 lower 1152921504606846976 upper 1152921504606846976 sum 0\n\
         gap A 1 lower 1152921504606846976 upper 1152921504606846976 sum 0\n\
         end\n",
        Status::No,
        "prta check 1\n\
         no A 0 upper 1152921504606846976 allow 0 1\n",
    ),
    // Allowances that the upper number just passes, and that the lower number alone passes.
    (
        Text::Changed("period", "allow = [1, 4]\nperiod"),
        QUARTER_TEXT,
        QUARTER_LEDGER,
        Status::Done,
        YES,
    ),
    (
        Text::Changed(
            "period = 10\ndeadline = 5\ntimes = [[3, 3]",
            "allow = [1, 10]\nperiod = 10\ndeadline = 5\ntimes = [[3, 9]",
        ),
        "prta analyse 1\n\
         hyperperiod 10 jobs 1\n\
         job A 0 release 0 deadline 5 lower 115292150460684697 0.099999999999 upper 115292150460684698 0.100000000001\n\
         end\n",
        "prta ledger 1\n\
         hyperperiod 10 jobs 1\n\
         entry up round A 0 1 1\n\
         entry down round A 0 1 1\n\
         gap A 0 lower 115292150460684697 upper 115292150460684698 sum 2\n\
         end\n",
        Status::No,
        "prta check 1\n\
         no A 0 upper 115292150460684698 allow 1 10\n",
    ),
    // Cut at the cap. The last of three jobs is the first that doesn't pass.
    (
        Text::Edited(
            LATE,
            "hyperperiods = 3\n[[task]]",
            "hyperperiods = 3\ncap = 6\n[[task]]\nallow = [3, 4]",
        ),
        "prta analyse 1\n\
         hyperperiod 4 jobs 3\n\
         job A 0 release 0 deadline 4 lower 576460752303423488 0.500000000000 upper 576460752303423488 0.500000000000\n\
         job A 1 release 4 deadline 8 lower 576460752303423488 0.500000000000 upper 864691128455135232 0.750000000000\n\
         job A 2 release 8 deadline 12 lower 576460752303423488 0.500000000000 upper 1008806316530991104 0.875000000000\n\
         end\n",
        "prta ledger 1\n\
         hyperperiod 4 jobs 3\n\
         entry up cut A 0 1 576460752303423488\n\
         entry up cut A 1 2 288230376151711744\n\
         entry up cut A 2 3 144115188075855872\n\
         entry down cut A 0 1 576460752303423488\n\
         entry down cut A 1 2 576460752303423488\n\
         entry down cut A 2 3 576460752303423488\n\
         gap A 0 lower 576460752303423488 upper 576460752303423488 sum 1152921504606846976\n\
         gap A 1 lower 576460752303423488 upper 864691128455135232 sum 2017612633061982208\n\
         gap A 2 lower 576460752303423488 upper 1008806316530991104 sum 2738188573441261568\n\
         end\n",
        Status::No,
        "prta check 1\n\
         no A 2 upper 1008806316530991104 allow 3 4\n",
    ),
    (
        Text::Changed("format = 1", "format = 1\ncap = 7"),
        QUARTER_TEXT,
        "prta ledger 1\n\
         hyperperiod 10 jobs 1\n\
         entry up cut A 0 1 288230376151711744\n\
         entry down cut A 0 1 288230376151711744\n\
         gap A 0 lower 288230376151711744 upper 288230376151711744 sum 576460752303423488\n\
         end\n",
        Status::No,
        QUARTER_VERDICT,
    ),
    (
        Text::Given(
            "format = 1\ncap = 6\n[[task]]\nname = \"A\"\nperiod = 10\ndeadline = 4\ntimes = [[7, 1]]\n",
        ),
        "prta analyse 1\n\
         hyperperiod 10 jobs 1\n\
         job A 0 release 0 deadline 4 lower 1152921504606846976 1.000000000000 upper 1152921504606846976 1.000000000000\n\
         end\n",
        "prta ledger 1\n\
         hyperperiod 10 jobs 1\n\
         entry up cut A 0 1 1152921504606846976\n\
         entry down cut A 0 1 1152921504606846976\n\
         gap A 0 lower 1152921504606846976 upper 1152921504606846976 sum 2305843009213693952\n\
         end\n",
        Status::No,
        "prta check 1\n\
         no A 0 upper 1152921504606846976 allow 0 1\n",
    ),
    // Re-sampled.
    (
        Text::Edited(
            LATE,
            "hyperperiods = 3",
            "hyperperiods = 2\nsupport = { fine = 0, step = 4 }",
        ),
        "prta analyse 1\n\
         hyperperiod 4 jobs 2\n\
         job A 0 release 0 deadline 4 lower 576460752303423488 0.500000000000 upper 576460752303423488 0.500000000000\n\
         job A 1 release 4 deadline 8 lower 576460752303423488 0.500000000000 upper 864691128455135232 0.750000000000\n\
         end\n",
        "prta ledger 1\n\
         hyperperiod 4 jobs 2\n\
         entry up resample A 1 2 576460752303423488\n\
         entry down resample A 1 2 576460752303423488\n\
         gap A 0 lower 576460752303423488 upper 576460752303423488 sum 0\n\
         gap A 1 lower 576460752303423488 upper 864691128455135232 sum 1152921504606846976\n\
         end\n",
        Status::No,
        HALF_VERDICT,
    ),
    // Re-sampled at so few places that the lists are kept by their steps.
    (
        Text::Edited(
            LATE,
            "hyperperiods = 3",
            "hyperperiods = 2\nsupport = { fine = 0, step = 8 }",
        ),
        "prta analyse 1\n\
         hyperperiod 4 jobs 2\n\
         job A 0 release 0 deadline 4 lower 576460752303423488 0.500000000000 upper 576460752303423488 0.500000000000\n\
         job A 1 release 4 deadline 8 lower 576460752303423488 0.500000000000 upper 1152921504606846976 1.000000000000\n\
         end\n",
        "prta ledger 1\n\
         hyperperiod 4 jobs 2\n\
         entry up resample A 1 2 1152921504606846976\n\
         entry down resample A 1 2 1152921504606846976\n\
         gap A 0 lower 576460752303423488 upper 576460752303423488 sum 0\n\
         gap A 1 lower 576460752303423488 upper 1152921504606846976 sum 2305843009213693952\n\
         end\n",
        Status::No,
        HALF_VERDICT,
    ),
];

// Control, sensing, communication, planning and logging: jobs of up to 12 times.
pub const SYSTEM: &str = "format = 1
[[task]]
name = \"ctrl\"
period = 50
deadline = 50
times = [[6, 40], [7, 120], [8, 200], [9, 220], [10, 160], [11, 100], [12, 70], [13, 40], [14, 25], [15, 15], [16, 7], [17, 3]]
[[task]]
name = \"sense\"
period = 100
deadline = 100
times = [[5, 50], [6, 150], [7, 250], [8, 200], [9, 120], [10, 90], [11, 60], [12, 40], [13, 20], [14, 12], [16, 6], [20, 2]]
[[task]]
name = \"comms\"
offset = 10
period = 100
deadline = 100
times = [[3, 100], [4, 200], [5, 250], [6, 180], [7, 100], [8, 60], [9, 40], [10, 30], [11, 20], [12, 10], [13, 7], [14, 3]]
[[task]]
name = \"plan\"
period = 200
deadline = 200
times = [[10, 30], [12, 90], [14, 180], [16, 220], [18, 180], [20, 120], [22, 80], [24, 50], [26, 30], [28, 12], [32, 6], [40, 2]]
[[task]]
name = \"log\"
offset = 20
period = 400
deadline = 400
times = [[12, 60], [14, 140], [16, 200], [18, 200], [20, 150], [24, 100], [28, 60], [32, 40], [36, 25], [44, 15], [60, 8], [90, 2]]
allow = [1, 1000]
";

pub const SYSTEM_TEXT: &str = "prta analyse 1\n\
    hyperperiod 400 jobs 19\n\
    job ctrl 0 release 0 deadline 50 lower 0 0.000000000000 upper 0 0.000000000000\n\
    job ctrl 1 release 50 deadline 100 lower 0 0.000000000000 upper 0 0.000000000000\n\
    job ctrl 2 release 100 deadline 150 lower 0 0.000000000000 upper 0 0.000000000000\n\
    job ctrl 3 release 150 deadline 200 lower 0 0.000000000000 upper 0 0.000000000000\n\
    job ctrl 4 release 200 deadline 250 lower 0 0.000000000000 upper 0 0.000000000000\n\
    job ctrl 5 release 250 deadline 300 lower 0 0.000000000000 upper 0 0.000000000000\n\
    job ctrl 6 release 300 deadline 350 lower 0 0.000000000000 upper 0 0.000000000000\n\
    job ctrl 7 release 350 deadline 400 lower 0 0.000000000000 upper 0 0.000000000000\n\
    job sense 0 release 0 deadline 100 lower 0 0.000000000000 upper 0 0.000000000000\n\
    job sense 1 release 100 deadline 200 lower 0 0.000000000000 upper 0 0.000000000000\n\
    job sense 2 release 200 deadline 300 lower 0 0.000000000000 upper 0 0.000000000000\n\
    job sense 3 release 300 deadline 400 lower 0 0.000000000000 upper 0 0.000000000000\n\
    job comms 0 release 10 deadline 110 lower 0 0.000000000000 upper 0 0.000000000000\n\
    job comms 1 release 110 deadline 210 lower 0 0.000000000000 upper 0 0.000000000000\n\
    job comms 2 release 210 deadline 310 lower 0 0.000000000000 upper 0 0.000000000000\n\
    job comms 3 release 310 deadline 410 lower 0 0.000000000000 upper 0 0.000000000000\n\
    job plan 0 release 0 deadline 200 lower 0 0.000000000000 upper 0 0.000000000000\n\
    job plan 1 release 200 deadline 400 lower 0 0.000000000000 upper 0 0.000000000000\n\
    job log 0 release 20 deadline 420 lower 0 0.000000000000 upper 2 0.000000000001\n\
    end\n";

pub const SYSTEM_LEDGER_START: &str = "prta ledger 1\n\
    hyperperiod 400 jobs 19\n\
    entry up round ctrl 0 1 1\n";

pub const SYSTEM_LEDGER_END: &str = "gap log 0 lower 0 upper 2 sum 39\n\
    end\n";

// A task of fourteen hundred jobs above one of a single job: the reports have three pages.
pub const MANY: &str =
    "format = 1\n[[task]]\nname = \"A\"\nperiod = 10\ndeadline = 5\ntimes = [[3, 9], [7, 1]]\n[[task]]\nname = \"B\"\nperiod = 14000\ndeadline = 8\ntimes = [[1, 1]]\n";

pub const MANY_START: &str = "prta analyse 1\n\
    hyperperiod 14000 jobs 1401\n\
    job A 0 release 0 deadline 5 lower 115292150460684697 0.099999999999 upper 115292150460684698 0.100000000001\n\
    job A 1 release 10 deadline 15 lower 115292150460684697 0.099999999999 upper 115292150460684698 0.100000000001\n";

pub const MANY_END: &str =
    "job A 1399 release 13990 deadline 13995 lower 115292150460684697 0.099999999999 upper 115292150460684698 0.100000000001\n\
    job B 0 release 0 deadline 8 lower 0 0.000000000000 upper 0 0.000000000000\n\
    end\n";

pub const MANY_LEDGER_START: &str = "prta ledger 1\n\
    hyperperiod 14000 jobs 1401\n\
    entry up round A 0 1 1\n\
    entry up round A 1 2 1\n";

pub const MANY_LEDGER_END: &str = "entry down round B 0 1 1\n\
    gap B 0 lower 0 upper 0 sum 2\n\
    end\n";
