//! Sheets of tasks, and the model of the scheduled machine that all bounds are about.
#![tactic(auto)]

mod added;
mod conditions;
mod count;
mod document;
mod edit;
mod fault;
mod limits;
mod making;
mod model;
mod reading;
mod settings;
mod sheet;
mod task;
#[cfg(test)]
mod tests;
mod text;
mod work;

pub use added::{added_sheets, worked_added_sheet};
pub use edit::{Edit, EditFault, edits_keep_jobs, part_faults_are_numbered, worked_edits};
pub use fault::{Key, Place, SheetFault};
pub use limits::{
    CYCLE_LIMIT, JOB_LIMIT, NAME_LIMIT, PERIOD_LIMIT, SHEET_LIMIT, TASK_LIMIT, TIME_LIMIT,
    WORK_LIMIT,
};
pub use making::make_sheet;
pub use model::{
    copies_have_their_table, hyperperiod_is_least, independent_job, releases_before, served_first,
    stated_limits, sums_over_assignments, worked_values,
};
pub use reading::{read_sheet, refused_sheets, second_format_is_read};
pub use settings::Settings;
pub use sheet::Sheet;
pub use task::Task;
pub use text::{accepted_are_statable, canonical_is_read, sheet_text, text_states_sheet};
pub use work::releases;
