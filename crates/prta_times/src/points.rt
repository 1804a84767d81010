//! How a task's counted times become its table.

ghost use Rattle.std.specs.Prelude.{◌≡◌};
ghost use Rattle.prta_times.specs.Points.{most_times};

use prta_fewpoints::WIDE_LIMIT;
use prta_mass::POINT_LIMIT;

// What a task's table has of its counted times.
#[derive(Clone, Copy)]
pub(crate) enum Points {
    // Each of them.
    Every,
    // Their reduction to at most this many.
    AtMost(usize),
}

impl Points {
    // How many different times a task may have.
    pub(crate) fn most_times(self) -> usize
        ensures { result ≡ most_times self }
    {
        match self {
            Points::Every => POINT_LIMIT,
            Points::AtMost(_) => WIDE_LIMIT,
        }
    }
}
