//! Units of chance, time tables, lists of chances, and decimals that are rounded in a stated direction.
#![tactic(auto)]

mod added;
mod chances;
mod decimal;
mod direction;
mod divisor;
mod limits;
mod memory;
mod support;
mod table;
#[cfg(test)]
mod tests;
mod unit;

pub use added::{added_tables, worked_added};
pub use chances::{passes, worked_chances};
pub use decimal::{decimal_down, decimal_up};
pub use direction::Dir;
pub use divisor::Divisor;
pub use limits::stated_limits;
pub use memory::NoMemory;
pub use support::{Support, is_support};
pub use table::{
    POINT_LIMIT, TOTAL_LIMIT, TableFault, TimeTable, fault_within, faultless_pairs, shape_fault,
};
pub use unit::UNIT;
