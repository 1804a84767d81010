//! The texts of an accepted sheet, to a sink: reports row by row, and what is known of them before their first byte.
#![tactic(auto)]

mod amounts;
mod assigning;
mod checking;
mod curves;
mod levels;
mod meaning;
mod output;
mod playing;
mod report;
mod room;
mod rows;
mod slack;
mod stage;
mod steadiness;
mod tail;
#[cfg(test)]
mod tests;
mod trace;
mod verifying;

pub use amounts::write_bench;
pub use assigning::assignment;
pub use checking::write_check;
pub use curves::{FEW_POINTS, Kind, stated_limits};
pub use output::put_all;
pub use playing::play;
pub use report::{What, write_report};
pub use room::Room;
pub use slack::slack_page;
pub use stage::{Stage, write_session};
pub use tail::write_tail;
pub use trace::trace_page;
pub use verifying::write_verify;
