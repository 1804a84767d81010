//! Sheets, and the order of priorities that `assign` finds for them.

use super::sheets::Text;
use crate::status::Status;

// The shorter deadline is the lower task's.
pub const ABOVE: &str =
    "format = 1\n[[task]]\nname = \"B\"\nperiod = 4\ndeadline = 4\ntimes = [[2, 1]]\n[[task]]\nname = \"A\"\nperiod = 2\ndeadline = 1\ntimes = [[1, 1]]\n";

pub const ABOVE_ORDER: &str = "prta assign 1\norder A B\nend\n";

// Two tasks that each have to be first.
const FIRST: &str =
    "format = 1\n[[task]]\nname = \"A\"\nperiod = 2\ndeadline = 1\ntimes = [[1, 1]]\n[[task]]\nname = \"B\"\nperiod = 2\ndeadline = 1\ntimes = [[1, 1]]\n";

// A task whose exact chance is just its allowance; the upper number is rounded up past it.
const TENTH: &str =
    "format = 1\n[[task]]\nname = \"A\"\nperiod = 10\ndeadline = 5\ntimes = [[3, 9], [7, 1]]\nallow = [1, 10]\n";

// Twelve tasks with falling deadlines.
const TWELVE: &str = "format = 1\ncap = 40\n\
     [[task]]\nname = \"a\"\nperiod = 24\ndeadline = 24\ntimes = [[1, 3], [2, 1]]\nallow = [1, 200]\n\
     [[task]]\nname = \"b\"\nperiod = 24\ndeadline = 22\ntimes = [[1, 1]]\nallow = [1, 50]\n\
     [[task]]\nname = \"c\"\nperiod = 24\ndeadline = 20\ntimes = [[1, 3], [2, 1]]\nallow = [1, 50]\n\
     [[task]]\nname = \"d\"\nperiod = 24\ndeadline = 18\ntimes = [[1, 1]]\nallow = [1, 200]\n\
     [[task]]\nname = \"e\"\nperiod = 24\ndeadline = 16\ntimes = [[1, 3], [2, 1]]\nallow = [1, 50]\n\
     [[task]]\nname = \"f\"\nperiod = 24\ndeadline = 14\ntimes = [[1, 1]]\nallow = [1, 50]\n\
     [[task]]\nname = \"g\"\nperiod = 24\ndeadline = 12\ntimes = [[1, 3], [2, 1]]\nallow = [1, 200]\n\
     [[task]]\nname = \"h\"\nperiod = 24\ndeadline = 10\ntimes = [[1, 1]]\nallow = [1, 50]\n\
     [[task]]\nname = \"i\"\nperiod = 24\ndeadline = 8\ntimes = [[1, 3], [2, 1]]\nallow = [1, 50]\n\
     [[task]]\nname = \"j\"\nperiod = 24\ndeadline = 6\ntimes = [[1, 1]]\nallow = [1, 200]\n\
     [[task]]\nname = \"k\"\nperiod = 24\ndeadline = 4\ntimes = [[1, 3], [2, 1]]\nallow = [1, 50]\n\
     [[task]]\nname = \"l\"\nperiod = 24\ndeadline = 2\ntimes = [[1, 1]]\nallow = [1, 50]\n";

// A sheet, the status, and the text.
pub static ORDERS: [(Text, Status, &str); 4] = [
    (Text::Given(ABOVE), Status::Done, ABOVE_ORDER),
    (
        Text::Given(FIRST),
        Status::No,
        "prta assign 1\nimpossible A B\nend\n",
    ),
    (
        Text::Given(TENTH),
        Status::No,
        "prta assign 1\nundecided A\nend\n",
    ),
    (
        Text::Given(TWELVE),
        Status::Done,
        "prta assign 1\norder l k j i h g f e d c b a\nend\n",
    ),
];
