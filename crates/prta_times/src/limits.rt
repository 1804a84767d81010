//! The limit of a file of counts.

/// A file of counts has at most this many bytes.
pub const COUNTS_LIMIT: usize = 1_048_576;
