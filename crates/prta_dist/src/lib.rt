//! Curves: lists of chances to which tables are added, that are shifted, re-sampled and compared.
#![tactic(auto)]

mod curve;
mod dense;
mod effect;
mod kernel;
mod laws;
mod operations;
mod window;

pub use curve::Curve;
pub use dense::Dense;
pub use effect::{Break, Effect};
pub use kernel::Kernel;
pub use laws::{additions_keep_chances, unbroken_dominates, windows_add, worked_additions};
