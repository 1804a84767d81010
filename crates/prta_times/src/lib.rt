//! Files of measured counts: a task's times with how often each was seen, as CSV, and the sheet with the tables that
//! they make, with each counted time or with them reduced to a few.
#![tactic(auto)]

mod count;
mod counts;
mod fault;
mod fields;
mod laws;
mod limits;
mod points;
mod records;
mod rows;
mod tallies;
mod tally;
mod tasks;
#[cfg(test)]
mod tests;

pub use counts::{read_counts, reduce_counts};
pub use fault::CountsFault;
pub use laws::{
    counted_sheets_are_accepted, counted_tables_are_sums, later_times_lower_no_chance,
    reduced_sheets_are_accepted, reduced_sheets_are_safe, stated_limit, worked_counts,
};
pub use limits::COUNTS_LIMIT;
