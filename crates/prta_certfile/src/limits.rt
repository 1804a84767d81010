//! The limit of a file.

/// A certificate that is read has at most this many bytes.
pub const CERT_LIMIT: usize = 8_388_608;
