//! Sessions of edits: scripts of edits and prints, workers that analyse tasks, and sessions that analyse again only what
//! an edit touches.
#![tactic(auto)]

mod fault;
mod kept;
mod laws;
mod line;
mod name;
mod part;
mod reading;
mod said;
mod script;
mod session;
#[cfg(test)]
mod tests;
mod worked;
mod worker;

pub use fault::ScriptFault;
pub use laws::{edits_keep_numbers, numbers_depend_on, scripts_go_by_lines};
pub use reading::read_script;
pub use script::{Line, SCRIPT_LIMIT, Script, stated_limit};
pub use session::Session;
pub use worked::{worked_scripts, worked_sessions};
pub use worker::{BenchWorker, ListWorker, Worker};
