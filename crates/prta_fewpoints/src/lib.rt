//! Few points: a table of many measured times becomes one of at most 32, on the safe side and at the least cost.
#![tactic(auto)]

mod costs;
mod gathered;
mod keeping;
mod laws;
mod merging;
mod reducing;
#[cfg(test)]
mod tests;
mod wide;

pub use laws::{
    choices_are_safe, faultless_wide_pairs, reduction_is_one, reduction_is_safe,
    reduction_is_table, stated_limit, worked_reductions,
};
pub use reducing::reduce;
pub use wide::{WIDE_LIMIT, WideTable};
