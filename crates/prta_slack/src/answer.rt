//! The answer.

/// How many ticks may be added to each time of a task with every job of the sheet still passing.
#[derive(Debug, Clone, Copy)]
pub enum Slack {
    /// The sheet doesn't pass as it is: this is the first job, by task in sheet order and then by number, whose upper number
    /// doesn't pass its task's allowance.
    Fails {
        /// The place of its task on the sheet.
        task: usize,
        /// Which of the task's jobs it is.
        number: u32,
        /// Its upper number, in units of 2^-60.
        upper: u64,
    },
    /// With this number added every job passes, and with one more some job doesn't.
    Ticks(u32),
    /// With this number added every job passes, and no more can be added: it is the task's room.
    All(u32),
}
