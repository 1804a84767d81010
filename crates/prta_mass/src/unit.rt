//! The unit in which chances are counted.

/// A chance of 1: every chance is a whole number of units of 2^-60.
pub const UNIT: u64 = 1_152_921_504_606_846_976;
