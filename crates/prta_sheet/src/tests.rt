//! The expected values come from the conditions in words and from an independent program, not from this crate.

mod accepted;
mod changed;
mod made;
mod refused;
