//! Files of counts, with how `import` ends; and sheets that a seed makes.

use super::sheets::Text;
use crate::status::Status;

// The sheet of the quarter before its times were measured.
pub const ONCE: Text = Text::Changed("[[3, 3], [7, 1]]", "[[1, 1]]");

pub const COUNTS: &str = "task,time,weight\nA,3,2\nA,7,1\nA,3,1\n";

pub const COUNTED: &str = "format = 1\ncap = 2048\nhyperperiods = 1\nturns = 16\n\n\
    [[task]]\nname = \"A\"\noffset = 0\nperiod = 10\ndeadline = 5\ntimes = [[3, 3], [7, 1]]\nallow = [0, 1]\n";

// Two tasks, of which the first has two tables in turn.
const TURNS: &str =
    "format = 2\n[[task]]\nname = \"A\"\nperiod = 5\ndeadline = 5\ncycle = [[[3, 1], [6, 1]], [[2, 1]]]\n[[task]]\nname = \"B\"\nperiod = 15\ndeadline = 15\ntimes = [[2, 1], [4, 1]]\n";

// Five tasks, of which the first releases a job each tick.
const DENSE: &str = "format = 1\ncap = 16384\n\
    [[task]]\nname = \"A\"\nperiod = 1\ndeadline = 1\ntimes = [[1, 1]]\n\
    [[task]]\nname = \"B\"\nperiod = 1000\ndeadline = 1\ntimes = [[1, 1]]\n\
    [[task]]\nname = \"C\"\nperiod = 1000\ndeadline = 1\ntimes = [[1, 1]]\n\
    [[task]]\nname = \"D\"\nperiod = 1000\ndeadline = 1\ntimes = [[1, 1]]\n\
    [[task]]\nname = \"E\"\nperiod = 1000\ndeadline = 1\ntimes = [[1, 1]]\n";

// The times 1 to 32, once each.
const MOST: &str = "task,time,weight\n\
    A,1,1\nA,2,1\nA,3,1\nA,4,1\nA,5,1\nA,6,1\nA,7,1\nA,8,1\nA,9,1\nA,10,1\nA,11,1\n\
    A,12,1\nA,13,1\nA,14,1\nA,15,1\nA,16,1\nA,17,1\nA,18,1\nA,19,1\nA,20,1\nA,21,1\nA,22,1\n\
    A,23,1\nA,24,1\nA,25,1\nA,26,1\nA,27,1\nA,28,1\nA,29,1\nA,30,1\nA,31,1\nA,32,1\n";

pub const ONE_MORE: &str = "task,time,weight\n\
    A,1,1\nA,2,1\nA,3,1\nA,4,1\nA,5,1\nA,6,1\nA,7,1\nA,8,1\nA,9,1\nA,10,1\nA,11,1\n\
    A,12,1\nA,13,1\nA,14,1\nA,15,1\nA,16,1\nA,17,1\nA,18,1\nA,19,1\nA,20,1\nA,21,1\nA,22,1\n\
    A,23,1\nA,24,1\nA,25,1\nA,26,1\nA,27,1\nA,28,1\nA,29,1\nA,30,1\nA,31,1\nA,32,1\nA,33,1\n";

// A sheet, a file of counts, the status, and the text: on out where the status is Done, else on err.
pub static MEASURED: [(Text, Text, Status, &str); 20] = [
    (ONCE, Text::Given(COUNTS), Status::Done, COUNTED),
    // A byte order mark, quotes, carriage returns, an empty line, and no end of the last line.
    (
        ONCE,
        Text::Given(
            "\u{feff}\"task\",\"time\",\"weight\"\r\n\r\n\"A\",\"3\",2\r\nA,7,\"1\"\r\nA,3,1",
        ),
        Status::Done,
        COUNTED,
    ),
    // No record changes nothing; one gives its task a table in place of a cycle, and leaves the other task alone.
    (
        super::sheets::AS_IT_IS,
        Text::Given("task,time,weight\n"),
        Status::Done,
        COUNTED,
    ),
    (
        Text::Given(TURNS),
        Text::Given("task,time,weight\nB,7,281474976710656\n"),
        Status::Done,
        "format = 2\ncap = 2048\nhyperperiods = 1\nturns = 16\n\n\
         [[task]]\nname = \"A\"\noffset = 0\nperiod = 5\ndeadline = 5\ncycle = [[[3, 1], [6, 1]], [[2, 1]]]\nallow = [0, 1]\n\n\
         [[task]]\nname = \"B\"\noffset = 0\nperiod = 15\ndeadline = 15\ntimes = [[7, 281474976710656]]\nallow = [0, 1]\n",
    ),
    (
        Text::Given(TURNS),
        Text::Given("task,time,weight\nA,3,1\nB,3,4\nA,4,2\n"),
        Status::Done,
        "format = 1\ncap = 2048\nhyperperiods = 1\nturns = 16\n\n\
         [[task]]\nname = \"A\"\noffset = 0\nperiod = 5\ndeadline = 5\ntimes = [[3, 1], [4, 2]]\nallow = [0, 1]\n\n\
         [[task]]\nname = \"B\"\noffset = 0\nperiod = 15\ndeadline = 15\ntimes = [[3, 4]]\nallow = [0, 1]\n",
    ),
    (
        ONCE,
        Text::Ones(524_288, ""),
        Status::InputRefused,
        "prta: input refused 2\n",
    ),
    (
        ONCE,
        Text::Ones(524_288, "1"),
        Status::InputRefused,
        "prta: input refused 1\n",
    ),
    (
        ONCE,
        Text::Given(""),
        Status::InputRefused,
        "prta: input refused 2\n",
    ),
    (
        ONCE,
        Text::Given("task,time\nA,3,2\nA,7,1\nA,3,1\n"),
        Status::InputRefused,
        "prta: input refused 2\n",
    ),
    (
        ONCE,
        Text::Given("A,3,2\nA,7,1\nA,3,1\n"),
        Status::InputRefused,
        "prta: input refused 2\n",
    ),
    (
        ONCE,
        Text::Given("task,time,weight\nA,0,1\nA,7,1\nA,3,1\n"),
        Status::InputRefused,
        "prta: input refused 3 value 1\n",
    ),
    (
        ONCE,
        Text::Given("task,time,weight\nA,3,0\n"),
        Status::InputRefused,
        "prta: input refused 3 value 1\n",
    ),
    (
        ONCE,
        Text::Given("task,time,weight\nA,3,1\nA,03,1\n"),
        Status::InputRefused,
        "prta: input refused 3 value 2\n",
    ),
    (
        ONCE,
        Text::Given("task,time,weight\nA,1000001,1\n"),
        Status::InputRefused,
        "prta: input refused 3 value 1\n",
    ),
    // A bad record comes before an unknown task, wherever it stands.
    (
        ONCE,
        Text::Given("task,time,weight\nC,3,1\nA,3,281474976710657\n"),
        Status::InputRefused,
        "prta: input refused 3 value 2\n",
    ),
    (
        ONCE,
        Text::Bytes(b"task,time,weight\nA,3,1\n\xff,3,1\n"),
        Status::InputRefused,
        "prta: input refused 4 value 2\n",
    ),
    (
        ONCE,
        Text::Given("task,time,weight\nC,3,1\nA,7,1\nA,3,1\n"),
        Status::InputRefused,
        "prta: input refused 4 value 1\n",
    ),
    (
        ONCE,
        Text::Given(ONE_MORE),
        Status::InputRefused,
        "prta: input refused 5 value 0\n",
    ),
    (
        ONCE,
        Text::Given("task,time,weight\nA,3,281474976710656\nA,4,1\n"),
        Status::InputRefused,
        "prta: input refused 6 value 0\n",
    ),
    (
        Text::Given(DENSE),
        Text::Given(MOST),
        Status::InputRefused,
        "prta: input refused 7 value 2621767680\n",
    ),
];

pub const FIRST_GENERATED: &str = "format = 1\ncap = 2048\nhyperperiods = 4\nturns = 16\n\n\
    [[task]]\nname = \"t0\"\noffset = 57\nperiod = 100\ndeadline = 100\ntimes = [[3, 72], [6, 64], [7, 16]]\nallow = [1, 1000]\n";

pub const FIRST_AMOUNTS: &str =
    "prta bench 1\ntasks 1 jobs 4 entries 8 certified 1\nlower 0 upper 0\nend\n";

// The words, and the text.
pub static GENERATED: [(&[&str], &str); 5] = [
    (&["generate", "1", "1"], FIRST_GENERATED),
    // The state starts as the seed modulo 2^32.
    (&["generate", "4294967297", "1"], FIRST_GENERATED),
    (&["bench", "1", "1"], FIRST_AMOUNTS),
    (
        &["bench", "18446744073709551615", "2"],
        "prta bench 1\ntasks 2 jobs 12 entries 32 certified 2\nlower 0 upper 0\nend\n",
    ),
    (
        &["bench", "7", "12"],
        "prta bench 1\ntasks 12 jobs 188 entries 3869 certified 5\nlower 136963247215654101479 upper 136963247215654102856\nend\n",
    ),
];
