//! What an addition answers, and the first place where a list doesn't dominate another.

/// What an addition did beside the cells.
#[derive(Clone, Copy, Debug, PartialEq, Eq)]
pub struct Effect {
    /// Some cell's division by the table's total left a remainder.
    pub rounded: bool,
    /// What was cut off at the last cell, in units of 2^-60.
    pub cut: u64,
}

/// A place where an image is below a list.
#[derive(Clone, Copy, Debug, PartialEq, Eq)]
pub struct Break {
    /// The place.
    pub place: usize,
    /// The list's cell there, in units of 2^-60.
    pub had: u64,
    /// The image's cell there, which is less.
    pub got: u64,
}
