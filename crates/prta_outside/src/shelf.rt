//! A shelf: named files that can be read.

ghost use Rattle.std.specs.Prelude.{◌≡◌, ℕ, ◌+◌, ◌-◌, ◌^◌, ◌<◌, ◌≤◌, Option, List, IfOk, IfSome, IsSomeAnd, vec_len, length, Some};
ghost use Rattle.prta_outside.specs.Shelf.{faults_after, failed, IfTooLong};

use std::alloc::Global;
use thiserror::Error;

/// Why a read gave no bytes.
#[derive(Clone, Copy, Debug, PartialEq, Eq, Error)]
pub enum ShelfFault {
    /// The file can't be read; a missing one is such a fault.
    #[error("the file can't be read")]
    Failed,
    /// The file has more bytes than the limit of the read.
    #[error("the file has {taken} bytes or more")]
    TooLong {
        /// The bytes that were read of it: the limit and one more.
        taken: usize,
    },
    /// Want of memory.
    #[error("no memory")]
    NoMemory,
}

// The read failed, so that its fault stays noted.
pub(crate) fn is_failed(answer: &Result<Vec<u8>, ShelfFault>) -> bool
    ensures { result ≡ failed answer.now }
{
    matches!(answer, Err(ShelfFault::Failed))
}

/// Named files that can be read.
///
/// Contracts see a shelf in two ways. `held` is what it holds under the bytes of a name, where it tells that.
/// `faults` are the names of its failed reads in order; every shelf tells them.
pub trait Shelf {
    ghost held: { Self → Option (List ℕ → Option (List ℕ)) };

    ghost faults: { Self → List (List ℕ) };

    /// Reads the file of this name, if it has at most `limit` bytes.
    ///
    /// `Failed` comes where the file can't be read, and notes its name as a fault; `TooLong` where it gave more than
    /// `limit` bytes; `NoMemory` for want of memory. No clause says when a read fails or memory is wanting.
    fn read(&mut self, alloc: Global, name: &str, limit: usize) -> Result<Vec<u8>, ShelfFault>
        requires { limit < 2 ^ 64 - 1 }
        ensures short { IfOk result (λ bytes. vec_len bytes ≤ limit) }
        ensures holds { IfSome (held self.old) (λ files.
            IfOk result (λ bytes. files name.now ≡ Some bytes.items)) }
        ensures too_long_taken { IfTooLong result (λ taken. taken ≡ limit + 1) }
        ensures too_long_held { IfSome (held self.old) (λ files.
            IfTooLong result (λ _. IsSomeAnd (files name.now) (λ bytes. limit < length bytes))) }
        ensures faults { faults self.new ≡ faults_after result name.now (faults self.old) }
        ensures kept { held self.new ≡ held self.old };
}

// The answer is the one wanted, for tests.
#[cfg(test)]
pub(crate) fn is_same(
    answer: &Result<Vec<u8>, ShelfFault>,
    want: &Result<&[u8], ShelfFault>,
) -> bool {
    match (answer, want) {
        (Ok(bytes), Ok(wanted)) => bytes.as_slice() == *wanted,
        (Err(fault), Err(wanted)) => *fault == *wanted,
        _ => false,
    }
}
