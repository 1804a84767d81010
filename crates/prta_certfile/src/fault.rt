//! Why bytes are no certificate.

ghost use Rattle.std.specs.Prelude.{◌≡◌};
ghost use Rattle.prta_certfile.specs.Reading.{number_of};

use prta_mass::NoMemory;
use thiserror::Error;

/// Why bytes are no certificate of a sheet: the first fault. A `usize` is the number of a line, from 1; of the faults
/// of one line the first of these.
#[derive(Clone, Copy, Debug, PartialEq, Eq, Error)]
pub enum CertFault {
    /// There are more than `CERT_LIMIT` bytes. It is tested before all lines.
    #[error("the file has more than 8388608 bytes")]
    TooLong,
    /// The line isn't of the form that its place asks for, is missing, lacks its line feed, or stands after `end`.
    #[error("line {0} is not of the form")]
    BadLine(usize),
    /// The line names another task than the sheet's in that place.
    #[error("line {0} names another task")]
    WrongTask(usize),
    /// The places don't rise, or the values, from a 0 before the first on, don't.
    #[error("the steps of line {0} do not rise")]
    NotIncreasing(usize),
    /// A place isn't below the sheet's cap.
    #[error("a place of line {0} is not below the cap")]
    PlaceTooLarge(usize),
    /// The last value isn't the unit.
    #[error("the steps of line {0} do not end with the unit")]
    NotWhole(usize),
    /// Want of memory.
    #[error("no memory")]
    NoMemory,
}

impl CertFault {
    /// The number of the fault, and 0 for want of memory.
    pub fn number(&self) -> u32
        ensures { result ≡ number_of self.now }
    {
        match self {
            CertFault::TooLong => 1,
            CertFault::BadLine(_) => 2,
            CertFault::WrongTask(_) => 3,
            CertFault::NotIncreasing(_) => 4,
            CertFault::PlaceTooLarge(_) => 5,
            CertFault::NotWhole(_) => 6,
            CertFault::NoMemory => 0,
        }
    }
}

impl From<NoMemory> for CertFault {
    ghost use Rattle.std.specs.Prelude.{◌≡◌};
    ghost use Rattle.prta_certfile.specs.declared.fault.CertFault.TheVariants.{NoMemory as no_memory};

    ghost from_gives = { λ _ fault. fault ≡ no_memory };

    fn from(_error: NoMemory) -> CertFault {
        CertFault::NoMemory
    }
}
