//! The direction of rounding.

/// The direction of rounding.
#[derive(Clone, Copy, Debug, PartialEq, Eq)]
pub enum Dir {
    /// Serves upper bounds: mass moves to later places.
    Up,
    /// Serves lower bounds: mass moves to earlier places.
    Down,
}
