//! The limits of a sheet.

/// A sheet's file has at most this many bytes.
pub const SHEET_LIMIT: usize = 1_048_576;

/// A sheet has at most this many tasks.
pub const TASK_LIMIT: usize = 12;

/// A task's name has at most this many bytes.
pub const NAME_LIMIT: usize = 24;

/// A task's cycle has at most this many tables.
pub const CYCLE_LIMIT: usize = 16;

/// An execution time is at most this many ticks.
pub const TIME_LIMIT: u32 = 1_000_000;

/// A period and the hyperperiod are at most this many ticks.
pub const PERIOD_LIMIT: u32 = 1_000_000;

/// A sheet has at most this many analysed jobs.
pub const JOB_LIMIT: usize = 2_000;

/// The work of a sheet is at most this.
pub const WORK_LIMIT: u64 = 2_147_483_648;
