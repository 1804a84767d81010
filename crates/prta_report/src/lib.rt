//! Pages of text: lines are written into room that was taken before.
#![tactic(auto)]

mod analysis;
mod assignment;
mod bench;
mod certificate;
mod model;
mod number;
mod page;
mod run;
mod slack;
mod tail;
#[cfg(test)]
mod tests;

pub use analysis::{count_line, csv_line, entry_line, fails_line, gap_line, job_line, no_line};
pub use assignment::{order_line, set_line};
pub use bench::{size_line, sums_line};
pub use certificate::{
    beyond_line, broken_line, certified_line, level_head, overfull_line, pair_text, steady_line,
    uncertified_line,
};
pub use model::{
    certify_writes_certificate, runs_are_longest, stated_limit, trace_tells_misses,
    worked_assignment_texts, worked_certificate_texts, worked_texts, worked_traces,
};
pub use number::push_number;
pub use page::{LINE, Page};
pub use run::run_line;
pub use slack::slack_line;
pub use tail::tail_line;
