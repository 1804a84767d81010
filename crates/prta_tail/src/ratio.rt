//! The ratios at which a level's backlog may have a geometric tail.

ghost use Rattle.prta_tail.specs.Ratios.{StatedRatios};

/// The ratio p/q of a geometric tail: above each place stands at most p/q of what stands above the place before.
#[derive(Clone, Copy, Debug, PartialEq, Eq)]
pub struct Ratio {
    /// The number above the line.
    pub p: u32,
    /// The number below the line.
    pub q: u32,
}

/// The ratios that are tried, from the steepest tail on: 1/2, 3/4, 7/8 and so on to 1023/1024.
pub const RATIOS: [Ratio; 10] = [
    Ratio { p: 1, q: 2 },
    Ratio { p: 3, q: 4 },
    Ratio { p: 7, q: 8 },
    Ratio { p: 15, q: 16 },
    Ratio { p: 31, q: 32 },
    Ratio { p: 63, q: 64 },
    Ratio { p: 127, q: 128 },
    Ratio { p: 255, q: 256 },
    Ratio { p: 511, q: 512 },
    Ratio { p: 1023, q: 1024 },
];

/// The ratios, as numbers.
pub fn stated_ratios()
    ensures { StatedRatios }
{}
