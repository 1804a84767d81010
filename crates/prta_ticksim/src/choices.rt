//! The file of choices: one time for each job.

ghost use Rattle.std.specs.Prelude.{◌≡◌};
ghost use Rattle.prta_ticksim.specs.Choices.{number_of, IsChoicesAnswer};
ghost use Rattle.prta_ticksim.specs.declared.choices.ChoicesFault.TheVariants.{NoMemory};

use crate::line::first_line;
use prta_number::number_within;
use prta_sheet::TIME_LIMIT;
use std::alloc::{AllocFailed, Global};
use std::marker::Model;
use thiserror::Error;

/// Why bytes are no file of choices.
#[derive(Clone, Copy, Debug, PartialEq, Eq, Error)]
pub enum ChoicesFault {
    /// This line, counted from 1, is the first that is not a number from 1 to 1,000,000.
    #[error("line {0} is no number from 1 to 1000000")]
    BadLine(usize),
    /// Want of memory.
    #[error("no memory")]
    NoMemory,
}

impl From<AllocFailed<u32>> for ChoicesFault {
    ghost from_gives = { λ _ fault. fault ≡ NoMemory };

    fn from(_error: AllocFailed<u32>) -> ChoicesFault {
        ChoicesFault::NoMemory
    }
}

/// The numbers of a file of choices.
#[derive(Debug, Drop)]
pub struct Choices {
    numbers: Vec<u32>,
}

impl Model for Choices {
    ghost use Rattle.std.specs.Prelude.{ℕ, List};

    ghost Value = { List ℕ };

    ghost view = { λ c. c.numbers.items };
}

impl Choices {
    /// The numbers, one a line.
    pub fn list(&self) -> &[u32]
        ensures { result.now ≡ self.now }
    {
        &self.numbers
    }
}

/// Reads one number a line, from 1 to 1,000,000, in decimal digits without a leading zero. A line ends with a line
/// feed, or with a carriage return and a line feed; the last line may lack its end, and no bytes are no line. It is
/// BadLine with the first line that isn't such a number.
pub fn read_choices(alloc: Global, bytes: &[u8]) -> Result<Choices, ChoicesFault>
    ensures { IsChoicesAnswer bytes.now result }
{
    let mut numbers = Vec::new(alloc);
    let mut rest = bytes;
    let mut count = 0;
    while !rest.is_empty() {
        let (line, after) = first_line(rest);
        match number_of(line) {
            Some(number) => numbers.push(number)?,
            None => return Err(ChoicesFault::BadLine(count + 1)),
        }
        count += 1;
        rest = after;
    }
    Ok(Choices { numbers })
}

// The time that a line writes, from 1 to the limit of times.
fn number_of(line: &[u8]) -> Option<u32>
    ensures { result ≡ number_of line.now }
{
    match number_within(line, 1, TIME_LIMIT as u64) {
        Some(number) => Some(number as u32),
        None => None,
    }
}
