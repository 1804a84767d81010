//! The words after a command's own, read by `clap`: which are good, and what they say.
#![tactic(auto)]

mod commands;
mod fault;
mod laws;
mod reading;
#[cfg(test)]
mod tests;

pub use fault::WordsFault;
pub use laws::worked_words;
pub use reading::{
    SheetWords, ThreeWords, TwoWords, one_word, sheet_words, three_words, two_words,
};
