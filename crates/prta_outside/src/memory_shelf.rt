//! A shelf over memory, some of whose reads can be made to fail.

ghost use Rattle.std.specs.Prelude.{◌≡◌, ◌+◌, ◌-◌, ◌^◌, ◌<◌, ◌≤◌, ◌++◌, [], ◌∷◌, length, Some, vec_len, option_copied, OnOk, OnErr, IfOk, IsSomeAnd, if◌then◌else◌, Err};
ghost use Rattle.prta_outside.specs.Calls.{counted};
ghost use Rattle.prta_outside.specs.Shelf.{faults_after, IfTooLong};
ghost use Rattle.prta_outside.specs.MemoryShelf.{held_under, within, read_gives, Answers};
ghost use Rattle.prta_outside.specs.MemoryFiles.{files_of};

use crate::calls::Calls;
use crate::faults::Faults;
use crate::shelf::{Shelf, ShelfFault, is_failed};
use prta_mass::NoMemory;
use std::alloc::Global;
use std::marker::Model;

#[derive(Debug, Drop)]
struct File {
    name: String,
    bytes: Vec<u8>,
}

/// A shelf that holds its files in memory.
///
/// Reads can be made to fail by their number, so that a caller's way with faults can be tried.
#[derive(Debug, Drop)]
pub struct MemoryShelf {
    alloc: Global,
    // The newest first. One that is replaced stays behind the newer one.
    files: Vec<File>,
    reads: Calls,
    failed: Faults,
}

impl Model for MemoryShelf {
    ghost use Rattle.prta_outside.specs.MemoryShelf.{ShelfState};

    ghost Value = { ShelfState };

    ghost use Rattle.prta_outside.specs.MemoryFiles.{files_of};

    ghost view = { λ s. record { files = files_of s.files.items; reads = s.reads; failed = s.failed } };
}

impl MemoryShelf {
    /// Makes a shelf that holds no names and has no faults. This takes no memory.
    pub fn new(alloc: Global) -> MemoryShelf
        ensures { result ≡ record { files = []; reads = record { made = 0; refused = [] }; failed = [] } }
    {
        MemoryShelf {
            alloc,
            files: Vec::new(alloc),
            reads: Calls::new(alloc),
            failed: Faults::new(alloc),
        }
    }

    /// Lets the shelf hold these bytes under the name, in place of what it held there. Fails for want of memory
    /// alone. Bytes that are replaced keep their memory.
    pub fn add(&mut self, name: &str, bytes: &[u8]) -> Result<(), NoMemory>
        ensures added { OnOk result (self.new ≡
            record self.old { files = (name.now, bytes.now) ∷ self.old.files }) }
        ensures unchanged { OnErr result (self.new ≡ self.old) }
    {
        let name = String::from_str(self.alloc, name)?;
        let bytes = Vec::from_slice(self.alloc, bytes)?;
        self.files.insert(0, File { name, bytes })?;
        Ok(())
    }

    /// Lets the read of this number fail. Reads are counted from 1 since `new`, and the number of a read stays at
    /// 2^64 - 1 once it is reached. Fails for want of memory alone.
    pub fn refuse(&mut self, call: u64) -> Result<(), NoMemory>
        ensures listed { OnOk result (self.new ≡
            record self.old { reads = record self.old.reads { refused = self.old.reads.refused ++ call ∷ [] } }) }
        ensures unchanged { OnErr result (self.new ≡ self.old) }
    {
        self.reads.refuse(call)
    }
}

impl Shelf for MemoryShelf {
    ghost held = { λ s. Some (held_under s.files) };

    ghost faults = { λ s. s.failed };

    /// Counts the read. It fails where the number of the read is refused or the name isn't held, and takes the memory
    /// for the name in the list of faults where it doesn't fail too.
    fn read(&mut self, alloc: Global, name: &str, limit: usize) -> Result<Vec<u8>, ShelfFault>
        requires { limit < 2 ^ 64 - 1 }
        ensures answer { Answers result (read_gives self.old name.now limit) }
        ensures short { IfOk result (λ bytes. vec_len bytes ≤ limit) }
        ensures holds { IfOk result (λ bytes. held_under self.old.files name.now ≡ Some bytes.items) }
        ensures too_long_taken { IfTooLong result (λ taken. taken ≡ limit + 1) }
        ensures too_long_held { IfTooLong result (λ _.
            IsSomeAnd (held_under self.old.files name.now) (λ bytes. limit < length bytes)) }
        ensures faults { self.new.failed ≡ faults_after result name.now self.old.failed }
        ensures kept { self.new.files ≡ self.old.files }
        ensures counted { self.new.reads ≡ counted self.old.reads }
    {
        let refused = self.reads.count();
        if self.failed.note(self.alloc, name).is_err() {
            return Err(ShelfFault::NoMemory);
        }
        let answer = answer_of(alloc, newest(&self.files, name), limit, refused);
        if !is_failed(&answer) {
            self.failed.take_back();
        }
        answer
    }
}

// The bytes that the newest file of this name holds.
fn newest<'a>(files: &'a [File], name: &str) -> Option<&'a [u8]>
    ensures { option_copied result ≡ held_under (files_of files.now) name.now }
{
    for file in files {
        if file.name.as_str() == name {
            return Some(&file.bytes);
        }
    }
    None
}

// What a read answers of these bytes, if there are any.
fn answer_of(
    alloc: Global,
    bytes: Option<&[u8]>,
    limit: usize,
    refused: bool,
) -> Result<Vec<u8>, ShelfFault>
    requires { limit < 2 ^ 64 - 1 }
    ensures { Answers result (if refused then Err ShelfFault.Failed else within limit (option_copied bytes.entry)) }
{
    match bytes {
        Some(bytes) if !refused => {
            if bytes.len() > limit {
                return Err(ShelfFault::TooLong { taken: limit + 1 });
            }
            Vec::from_slice(alloc, bytes).map_err(|_| ShelfFault::NoMemory)
        }
        _ => Err(ShelfFault::Failed),
    }
}

#[cfg(test)]
mod tests;
