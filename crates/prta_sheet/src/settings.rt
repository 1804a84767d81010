//! The settings of an analysis.

use prta_mass::Support;

/// What a sheet states beside its tasks.
#[derive(Clone, Copy, Debug, PartialEq, Eq)]
pub struct Settings {
    /// The number of cells of a list of chances, 3 to 16,384.
    pub cap: u32,
    /// The number of hyperperiods that are analysed, 1 to 64.
    pub hyperperiods: u32,
    /// The number of images that are tried for a certificate, 0 to 64.
    pub turns: u32,
    /// The stated support, or none: then nothing is re-sampled.
    pub support: Option<Support>,
}
