//! Orders of priorities: one under which every task passes its allowance, where the greedy finds one; and where none can be.
#![tactic(auto)]

mod assigned;
mod assigning;
mod laws;
mod placing;
#[cfg(test)]
mod tests;
mod worked;

pub use assigned::Assigned;
pub use assigning::assign;
pub use laws::{
    fewer_lengthen_no_finish, fewer_raise_no_chance, fewer_raise_no_upper, greedy_finds_orders,
    verdicts_hold,
};
pub use worked::worked_assignments;
