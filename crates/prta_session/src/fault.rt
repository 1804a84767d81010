//! Why bytes are no script.

ghost use Rattle.std.specs.Prelude.{◌≡◌};
ghost use Rattle.prta_session.specs.Script.{number_of};

use prta_mass::NoMemory;
use thiserror::Error;

/// Why bytes are no script for a sheet: the first fault. A `usize` is the number of a line, from 1; of the faults of one
/// line the first of these.
#[derive(Clone, Copy, Debug, PartialEq, Eq, Error)]
pub enum ScriptFault {
    /// There are more than `SCRIPT_LIMIT` bytes. It is tested before all lines.
    #[error("the script has more than 1048576 bytes")]
    TooLong,
    /// The line isn't of a form, or lacks its line feed.
    #[error("line {0} is not of a form")]
    BadLine(usize),
    /// The task of the line isn't on the sheet.
    #[error("the task of line {0} is not on the sheet")]
    UnknownTask(usize),
    /// The pairs of the line make no table.
    #[error("the pairs of line {0} make no table")]
    BadTable(usize),
    /// The edit of the line is refused on the sheet as the lines before leave it.
    #[error("the edit of line {0} is refused")]
    BadEdit(usize),
    /// Want of memory.
    #[error("no memory")]
    NoMemory,
}

impl ScriptFault {
    /// The number of the fault, and 0 for want of memory.
    pub fn number(&self) -> u32
        ensures { result ≡ number_of self.now }
    {
        match self {
            ScriptFault::TooLong => 1,
            ScriptFault::BadLine(_) => 2,
            ScriptFault::UnknownTask(_) => 3,
            ScriptFault::BadTable(_) => 4,
            ScriptFault::BadEdit(_) => 5,
            ScriptFault::NoMemory => 0,
        }
    }
}

impl From<NoMemory> for ScriptFault {
    ghost use Rattle.std.specs.Prelude.{◌≡◌};
    ghost use Rattle.prta_session.specs.declared.fault.ScriptFault.TheVariants.{NoMemory as no_memory};

    ghost from_gives = { λ _ fault. fault ≡ no_memory };

    fn from(_error: NoMemory) -> ScriptFault {
        ScriptFault::NoMemory
    }
}
